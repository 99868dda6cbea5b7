//! The timeline that the names in its folder tell.

ghost use Rattle.std.specs.Prelude.{◌≡◌, ◌↔◌, ◌≤◌, List, ℕ, IfErr, IfOk, IsErrOf, MatchOption, OnOk, length};
ghost use Rattle.std.specs.Option.{option_copied};
ghost use Rattle.std.specs.List.Sorted.{IsStrictlySortedBy};
ghost use Rattle.std.specs.Ordering.{nat_cmp};
ghost use Rattle.std.specs.Cmp.Lexicographic.{slice_cmp};
ghost use Rattle.lake_basics.specs.declared.limits.TheConstants.{MAX_NAMES};
ghost use Rattle.lake_store.specs.Disk.{names_in};
ghost use Rattle.lake_store.specs.Runs.{FailsBy, IsUncontestedBy, OnlyReads};
ghost use Rattle.hudi_table.specs.Folder.{AreInOrder, IsFirstPending, IsHead, IsPendingAt, IsReached};
ghost use Rattle.hudi_table.specs.Instants.{HasTime, IsOfNames, head_of, timeline_folder, timeline_of, up_to_head};
ghost use Rattle.hudi_table.specs.Refusals.{IsListRefusal};
ghost use Rattle.hudi_table.specs.declared.error.TimelineError.TheVariants.{StoreFault};

use crate::error::{TimelineError, error_of_list};
use crate::instants::{
    CompletedInstant, InstantName, completed_in, count_before, first_pending, instants_in,
};
use lake_basics::{Items, Text};
use lake_store::Store;
use std::alloc::{AllocError, Global};

/// The folder of a table's timeline (Hudi technical specification, "Timeline").
pub const TIMELINE_FOLDER: &str = ".hoodie";

/// The instants of a timeline, in the byte order of their names.
#[derive(Debug, Drop)]
pub struct Timeline {
    /// The names of all instants.
    pub instants: Items<InstantName>,
    /// The completed commits and replacecommits.
    pub completed: Items<CompletedInstant>,
    /// The time of the first commit or replacecommit that is pending.
    pub pending: Option<Text>,
    /// How many of the completed ones come before that time.
    pub before_pending: usize,
}

impl Timeline {
    /// The completed instants before the first pending one, up to the head.
    pub fn up_to_head(&self) -> &[CompletedInstant]
        ensures { result.now ≡ up_to_head self.now }
    {
        let completed = self.completed.as_slice();
        &completed[..self.before_pending.min(completed.len())]
    }

    /// The time of the last of them.
    pub fn head(&self) -> Option<&Text>
        ensures { option_copied result ≡ head_of self.now }
    {
        match self.up_to_head().last() {
            Some(instant) => Some(&instant.time),
            None => None,
        }
    }
}

/// The timeline that the names of its folder's files tell, which are in byte order.
pub fn timeline_of(alloc: Global, names: &[Text]) -> Result<Timeline, AllocError>
    requires { IsStrictlySortedBy (slice_cmp nat_cmp) names.now }
    ensures { IfOk result (λ timeline. timeline ≡ timeline_of names.now) }
{
    let instants = instants_in(alloc, names)?;
    let completed = completed_in(alloc, names, instants.as_slice())?;
    let pending = first_pending(alloc, instants.as_slice())?;
    let before_pending = count_before(&pending, completed.as_slice());
    Ok(Timeline {
        instants,
        completed,
        pending,
        before_pending,
    })
}

/// The timeline of a table. Only names are looked at.
pub fn list_timeline<S: Store>(alloc: Global, store: &mut S) -> Result<Timeline, TimelineError>
    ensures found { S.tells → IfOk result
        (λ timeline. timeline ≡ timeline_of (names_in (S.disk store.old).files timeline_folder)) }
    // What it says of the files.
    ensures pending { S.tells → IfOk result (λ timeline. MatchOption timeline.pending
        ((time : List ℕ) → ¬ IsPendingAt (S.disk store.old).files time)
        (IsFirstPending (S.disk store.old).files)) }
    ensures head { S.tells → IfOk result (λ timeline. MatchOption (head_of timeline)
        ((time : List ℕ) → ¬ IsReached (S.disk store.old).files time)
        (IsHead (S.disk store.old).files)) }
    ensures reached { S.tells → IfOk result (λ timeline. (time : List ℕ)
        → HasTime (up_to_head timeline) time ↔ IsReached (S.disk store.old).files time) }
    ensures in_order { S.tells → IfOk result (λ timeline. AreInOrder timeline.completed) }
    ensures of_names { IfOk result IsOfNames }
    ensures few { S.tells → OnOk result
        (length (names_in (S.disk store.old).files timeline_folder) ≤ MAX_NAMES) }
    ensures refused { S.tells → IfErr result (IsListRefusal (S.disk store.old).files) }
    ensures only_reads { S.tells → OnlyReads ⟦<S as Store>⟧ store.old store.new }
    ensures cause { FailsBy ⟦<S as Store>⟧ store.old store.new (IsErrOf result StoreFault) }
    ensures contest { IsUncontestedBy ⟦<S as Store>⟧ store.old store.new ⊥ }
{
    let names = match store.list(alloc, TIMELINE_FOLDER) {
        Ok(names) => names,
        Err(error) => return Err(error_of_list(error)),
    };
    Ok(timeline_of(alloc, names.as_slice())?)
}
