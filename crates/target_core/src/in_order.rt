//! Publishing a list of commits.

ghost use Rattle.std.specs.Prelude.{◌≡◌, ◌<◌, ◌^◌, [], length, IfErr, IfOk, IsErrOf, OnOk};
ghost use Rattle.std.specs.Option.{option_copied};
ghost use Rattle.lake_store.specs.Runs.{FailsBy, IsContestedBy, OnlyReads};
ghost use Rattle.target_core.specs.Conditions.{CanPublishAll, Fits, GoesOn};
ghost use Rattle.target_core.specs.Following.{Follows, IsRefusedIn};
ghost use Rattle.target_core.specs.OneCommit.{StaysInOwn};
ghost use Rattle.target_core.specs.Refusals.{IsOfCommit};
ghost use Rattle.target_core.specs.Views.{IsAdvancedAll, origin_of};

use crate::target::{Target, TargetError};
use lake_basics::Text;
use lake_store::Store;
use std::alloc::Global;
use table_history::{Commit, Kind};

/// Publishes the commits in order and answers their number. Each carries its own change and a mark
/// of its position in the source of this format and table id. `now_ms` is the time in milliseconds
/// since 1970-01-01. After a refusal `kept` is spent, and all commits before the refused one are
/// published.
pub fn follow<T: Target, S: Store>(
    alloc: Global,
    target: &T,
    store: &mut S,
    kept: &mut T::Kept,
    commits: &[Commit],
    source: Kind,
    table: Option<&Text>,
    now_ms: u64,
) -> Result<u64, TargetError>
    requires now { now_ms < 2 ^ 63 }
    requires counted { S.tells → T.counted target.now kept.old (S.disk store.old).files }
    requires source { GoesOn source (T.view target.now kept.old) }
    requires can { CanPublishAll (T.image target.now) (origin_of source (option_copied table))
        (T.view target.now kept.old) commits.now }
    requires fits { Fits (T.unfit target.now kept.old)
        (T.view target.now kept.old).table.partition commits.now }

    // It touches the target's own files alone, and writes nothing where there are no commits.
    ensures own { S.tells
        → StaysInOwn ⟦<S as Store>⟧ (T.kind target.now) store.old store.new }
    ensures none { S.tells → commits.now ≡ [] → OnlyReads ⟦<S as Store>⟧ store.old store.new }

    // At `Ok` it has published them all, and what is kept goes on by them.
    ensures count { IfOk result (λ count. count ≡ length commits.now) }
    ensures view { OnOk result (IsAdvancedAll (T.image target.now)
        (origin_of source (option_copied table.entry)) (T.view target.now kept.old) commits.now
        (T.view target.now kept.new)) }
    ensures counted { S.tells → OnOk result
        (T.counted target.now kept.new (S.disk store.new).files) }

    // What it leaves of files that what is kept stood for, whatever it answers.
    ensures publishes { S.tells → T.stands_for target.now kept.old (S.disk store.old).files
        → T.settled target.now (S.disk store.old) → Follows ⟦<T as Target>⟧ target.now
        ⟦<S as Store>⟧ (origin_of source (option_copied table.entry)) now_ms kept.old commits.now
        kept.new result store.old store.new }

    // It is refused at one of them, behind those before it.
    ensures refusal { S.tells → IfErr result (IsRefusedIn ⟦<T as Target>⟧ target.now
        ⟦<S as Store>⟧ (origin_of source (option_copied table.entry)) now_ms kept.old commits.now
        store.old store.new) }
    ensures few { IfErr result IsOfCommit }
    ensures cause { FailsBy ⟦<S as Store>⟧ store.old store.new
        (IsErrOf result TargetError.StoreFault) }
    ensures contest { IsContestedBy ⟦<S as Store>⟧ store.old store.new
        (IsErrOf result TargetError.Contested) }
{
    for commit in commits {
        target.commit(alloc, store, kept, commit, source, table, now_ms)?;
    }
    Ok(commits.len() as u64)
}
