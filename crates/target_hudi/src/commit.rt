//! Publishing a commit.

ghost use Rattle.std.specs.Prelude.{◌≡◌, ◌∷◌, [], IsErrOf, OnOk};
ghost use Rattle.std.specs.Option.{option_copied};
ghost use Rattle.target_core.specs.Conditions.{CanPublish, Fits, GoesOn};
ghost use Rattle.target_core.specs.OneCommit.{GoesOnBy, PublishesOne, Refuses, StaysInOwn};
ghost use Rattle.target_core.specs.Views.{origin_of};
ghost use Rattle.table_history.specs.declared.kind.Kind.TheVariants.{Hudi};
ghost use Rattle.target_hudi.specs.Fitting.{Unfit};
ghost use Rattle.target_hudi.specs.HudiMeaning.{hudi_meaning, image};
ghost use Rattle.target_hudi.specs.Kept.{IsCounted, StandsFor, end_of, held_of, view_of};
ghost use Rattle.target_hudi.specs.NewInstant.{IsTaken};
ghost use Rattle.target_hudi.specs.Reading.{IsSettledTarget};
ghost use Rattle.target_hudi.specs.Writes.{Writes};
ghost use Rattle.target_hudi.specs.Writing.{Passes};

use crate::kept::HudiKept;
use crate::new_instant::new_instant;
use hudi_commit::publish_commit;
use lake_basics::{Blob, Text};
use lake_store::Store;
use std::alloc::Global;
use table_history::{Commit, Kind};
use target_core::TargetError;

/// The bytes, where there are some.
fn bytes_of(text: &Option<Blob>) -> Option<&[u8]>
    ensures { option_copied result ≡ text.now }
{
    match text {
        Some(text) => Some(text.as_slice()),
        None => None,
    }
}

/// Publishes a commit as a completed replacecommit of a later time than all before it (Hudi
/// technical specification, "Timeline"). The first one writes the properties of the table of this
/// name.
pub(crate) fn publish<S: Store>(
    alloc: Global,
    store: &mut S,
    name: &Text,
    kept: &mut HudiKept,
    commit: &Commit,
    source: Kind,
    table: Option<&Text>,
    now_ms: u64,
) -> Result<(), TargetError>
    requires counted { S.tells → IsCounted kept.old (S.disk store.old).files }
    requires source { GoesOn source (view_of kept.old) }
    requires can { CanPublish (view_of kept.old) commit.now }
    requires fits { Fits (Unfit (held_of kept.old)) kept.old.table.partition (commit.now ∷ []) }
    ensures own { S.tells → StaysInOwn ⟦<S as Store>⟧ Hudi store.old store.new }
    ensures goes_on { OnOk result (GoesOnBy S.tells image view_of (λ kept. Unfit (held_of kept))
        IsCounted (λ kept files. Passes files (end_of name.now kept))
        (origin_of source (option_copied table.entry)) now_ms
        kept.old (S.disk store.old).files commit.now kept.new (S.disk store.new).files) }
    // Once the instant is completed nothing is left to do that could fail.
    ensures publishes { S.tells → StandsFor kept.old (S.disk store.old).files
        → IsSettledTarget (S.disk store.old) → PublishesOne ⟦<S as Store>⟧ hudi_meaning
        (StandsFor kept.new) (Writes name.now kept.old (S.disk store.old).files
        (origin_of source (option_copied table.entry)) now_ms commit.now)
        (origin_of source (option_copied table.entry)) (view_of kept.old) commit.now
        result store.old store.new }
    ensures writes { S.tells → StandsFor kept.old (S.disk store.old).files
        → OnOk result (Writes name.now kept.old (S.disk store.old).files
        (origin_of source (option_copied table.entry)) now_ms commit.now
        (S.disk store.new).files) }
    ensures taken { S.tells → IsErrOf result TargetError.Contested
        → IsTaken (S.disk store.new).files (end_of name.now kept.old) now_ms }
    // The time is drawn and all texts are built before the first write.
    ensures refuses { Refuses ⟦<S as Store>⟧ (Passes (S.disk store.old).files
        (end_of name.now kept.old) (origin_of source (option_copied table.entry)) now_ms
        (commit.now ∷ [])) result store.old store.new }
{
    let new = new_instant(alloc, name, kept, commit, source, table, now_ms)?;
    let properties = bytes_of(&new.properties);
    match publish_commit(
        alloc,
        store,
        properties,
        new.time.as_str(),
        new.text.as_slice(),
    ) {
        Ok(()) => Ok(()),
        Err(error) => Err(TargetError::of_list(error)),
    }
}
