//! A source, by what its files show.

ghost use Rattle.std.specs.Prelude.{◌≡◌, ◌++◌, ◌∷◌, List, [], ℕ, Contains, IfErr, IfOk, IsErrOf};
ghost use Rattle.lake_store.specs.Disk.{Files};
ghost use Rattle.lake_store.specs.Runs.{FailsBy, IsUncontestedBy, OnlyReads};
ghost use Rattle.table_history.specs.History.{History, IsHistory, positions_of};
ghost use Rattle.table_history.specs.declared.kind.Kind.{Kind};
ghost use Rattle.table_history.specs.declared.table.Commit.{Commit};
ghost use Rattle.table_history.specs.declared.table.Table.{Table};
ghost use Rattle.target_core.specs.Conditions.{IsPublishable};
ghost use Rattle.target_core.specs.Folders.{SameIn, folder_of};
ghost use Rattle.source_core.specs.Answers.{IsHeadAnswer, IsReadRefusal};
ghost use Rattle.source_core.specs.Histories.{IsLike, IsLast, LeadAlong};
ghost use Rattle.table_history.specs.Tables.{SameTable};
ghost use Rattle.source_core.specs.Since.{CanApplySince, EndAt, FitSince, IsSinceAnswer, IsSinceRefusal};
ghost use Rattle.source_core.specs.declared.error.SourceError.{SourceError};
ghost use Rattle.source_core.specs.declared.error.SourceError.TheVariants.{StoreFault};
ghost use Rattle.source_core.specs.declared.head.Head.{Head};

use crate::error::SourceError;
use crate::head::Head;
use crate::since::Since;
use lake_basics::Text;
use lake_store::Store;
use std::alloc::Global;
use table_history::{Kind, Table};

/// The metadata of one format, as the source of a sync: what its files show, and the calls that read
/// them. None of them changes a file.
pub trait Source {
    /// The source's format. All of its files lie in that format's folder.
    ghost kind: { Self → Kind };

    /// Nothing of a table is there.
    ghost is_absent: { Self → Files → Type 0 };

    /// The files' newest position, what is pending behind it, and the table's id.
    ghost is_head: { Self → Files → Head → Type 0 };

    /// The table at the head, whose rows are just those that are live there by the format's own
    /// rules.
    ghost is_table: { Self → Files → Table → Type 0 };

    /// All commits after this position up to the head are there.
    ghost reaches: { Self → Files → List ℕ → Type 0 };

    /// The commits after this position up to the head, the oldest first. Each has the change that it
    /// makes of the table that those before it make of this one.
    ghost is_since: { Self → Files → List ℕ → Table → List Commit → Type 0 };

    /// The files hold this history of the table: what they still say of its commits is so.
    ghost holds: { Self → Files → History → Type 0 };

    /// What is looked at for the head has this for a fault.
    ghost at_head: { Self → Files → SourceError → Type 0 };

    /// What is read for the table, from scratch, has this for a fault.
    ghost from_scratch: { Self → Files → SourceError → Type 0 };

    /// What is read for the commits after this position, over this table, has this for a fault.
    ghost from_position: { Self → Files → List ℕ → Table → SourceError → Type 0 };

    /// The source's format.
    fn kind(&self) -> Kind
        ensures { result ≡ kind self.now };

    /// The source's head. It is absent exactly where nothing of a table is there.
    fn head<S: Store>(&self, alloc: Global, store: &mut S) -> Result<Head, SourceError>
        ensures head { S.tells → IsHeadAnswer (is_absent self.now (S.disk store.old).files)
            (is_head self.now (S.disk store.old).files)
            (at_head self.now (S.disk store.old).files) result }
        ensures only_reads { S.tells → OnlyReads ⟦<S as Store>⟧ store.old store.new }
        ensures cause { FailsBy ⟦<S as Store>⟧ store.old store.new (IsErrOf result StoreFault) }
        ensures contest { IsUncontestedBy ⟦<S as Store>⟧ store.old store.new ⊥ };

    /// The table at the head, which `head` has given, read from scratch.
    fn whole<S: Store>(
        &self,
        alloc: Global,
        store: &mut S,
        head: &Head,
    ) -> Result<Table, SourceError>
        requires { S.tells → is_head self.now (S.disk store.old).files head.now }
        ensures table { S.tells → IfOk result (is_table self.now (S.disk store.old).files) }

        // The table may be published.
        ensures sound { IfOk result IsPublishable }
        ensures refused { S.tells → IfErr result
            (IsReadRefusal (from_scratch self.now (S.disk store.old).files)) }
        ensures only_reads { S.tells → OnlyReads ⟦<S as Store>⟧ store.old store.new }
        ensures cause { FailsBy ⟦<S as Store>⟧ store.old store.new (IsErrOf result StoreFault) }
        ensures contest { IsUncontestedBy ⟦<S as Store>⟧ store.old store.new ⊥ };

    /// The commits after a position up to the head, which `head` has given, over the table that a
    /// target has of that position. They aren't told where one of them is no longer there.
    fn since<S: Store>(
        &self,
        alloc: Global,
        store: &mut S,
        head: &Head,
        position: &Text,
        base: &Table,
    ) -> Result<Since, SourceError>
        requires { S.tells → is_head self.now (S.disk store.old).files head.now }
        ensures since { S.tells → IfOk result
            (IsSinceAnswer (reaches self.now (S.disk store.old).files position.now)
            (is_since self.now (S.disk store.old).files position.now base.now)) }

        // Each change may be applied to the table before it, and where this one may be published,
        // so may the table after it.
        ensures fits { IfOk result (FitSince base.now) }
        ensures sound { IsPublishable base.now → IfOk result (CanApplySince base.now) }
        ensures refused { S.tells → IfErr result (IsSinceRefusal
            (reaches self.now (S.disk store.old).files position.now)
            (from_position self.now (S.disk store.old).files position.now base.now)) }
        ensures only_reads { S.tells → OnlyReads ⟦<S as Store>⟧ store.old store.new }
        ensures cause { FailsBy ⟦<S as Store>⟧ store.old store.new (IsErrOf result StoreFault) }
        ensures contest { IsUncontestedBy ⟦<S as Store>⟧ store.old store.new ⊥ };

    /// Files have one head, the commits since a position end there, and since the head's there is none.
    ghost one_head: { (source : Self) (files : Files) (a b : Head) → is_head source files a
        → is_head source files b → a ≡ b };

    ghost ends: { (source : Self) (files : Files) (head : Head) (position : List ℕ)
        (base : Table) (commits : List Commit) → is_head source files head
        → reaches source files position → is_since source files position base commits
        → EndAt head.position position commits };

    ghost none_at_head: { (source : Self) (files : Files) (head : Head) (base : Table)
        (commits : List Commit) → is_head source files head
        → is_since source files head.position base commits → commits ≡ [] };

    /// A table that has a head isn't absent.
    ghost head_there: { (source : Self) (files : Files) (head : Head)
        → is_head source files head → is_absent source files → ⊥ };

    /// Files have one table at the head, up to the order of its rows.
    ghost one_table: { (source : Self) (files : Files) (a b : Table) → is_table source files a
        → is_table source files b → SameTable a b };

    /// A history that the files hold ends at the head, with the table there.
    ghost last: { (source : Self) (files : Files) (history : History) (head : Head)
        → IsHistory history → holds source files history → is_head source files head
        → (last : List ℕ × Table) × IsLast history last × (last.0 ≡ head.position)
        × ((table : Table) → is_table source files table → SameTable table last.1) };

    /// A position whose later commits are all there is one of its positions.
    ghost reached_held: { (source : Self) (files : Files) (history : History)
        (position : List ℕ) → holds source files history → reaches source files position
        → Contains (positions_of history) position };

    /// The commits since one of its positions, over a table like the one there, lead along it.
    ghost along: { (source : Self) (files : Files) (front behind : History)
        (entry : List ℕ × Table) (base : Table) (commits : List Commit)
        → IsHistory (front ++ entry ∷ behind) → holds source files (front ++ entry ∷ behind)
        → IsLike base entry.1 → reaches source files entry.0
        → is_since source files entry.0 base commits → LeadAlong entry.1 behind commits };

    /// All that is said of the files depends on the source's own folder alone.
    ghost absent_own: { (source : Self) (a b : Files) → SameIn (folder_of (kind source)) a b
        → is_absent source a → is_absent source b };

    ghost head_own: { (source : Self) (a b : Files) (head : Head)
        → SameIn (folder_of (kind source)) a b → is_head source a head → is_head source b head };

    ghost table_own: { (source : Self) (a b : Files) (table : Table)
        → SameIn (folder_of (kind source)) a b → is_table source a table → is_table source b table };

    ghost holds_own: { (source : Self) (a b : Files) (history : History)
        → SameIn (folder_of (kind source)) a b → holds source a history
        → holds source b history };

    ghost reaches_own: { (source : Self) (a b : Files) (position : List ℕ)
        → SameIn (folder_of (kind source)) a b → reaches source a position
        → reaches source b position };

    ghost since_own: { (source : Self) (a b : Files) (position : List ℕ) (base : Table)
        (commits : List Commit) → SameIn (folder_of (kind source)) a b
        → is_since source a position base commits → is_since source b position base commits };

    ghost at_head_own: { (source : Self) (a b : Files) (e : SourceError)
        → SameIn (folder_of (kind source)) a b → at_head source a e → at_head source b e };

    ghost from_scratch_own: { (source : Self) (a b : Files) (e : SourceError)
        → SameIn (folder_of (kind source)) a b → from_scratch source a e
        → from_scratch source b e };

    ghost from_position_own: { (source : Self) (a b : Files) (position : List ℕ) (base : Table)
        (e : SourceError) → SameIn (folder_of (kind source)) a b
        → from_position source a position base e → from_position source b position base e };
}
