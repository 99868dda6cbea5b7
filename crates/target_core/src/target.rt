//! A target, by what its files stand for and what a commit makes of them.

ghost use Rattle.std.specs.Prelude.{◌≡◌, ◌<◌, ◌≤◌, ◌^◌, ◌↔◌, ◌⊎◌, ℕ, List, [], ◌∷◌, None, Option, Some, IfErr, IfOk, IsErrOf, OnOk, option_map};
ghost use Rattle.std.specs.Option.{option_copied};
ghost use Rattle.std.specs.FinMap as map;
ghost use Rattle.lake_store.specs.Disk.{Disk, Files, IsClean};
ghost use Rattle.lake_store.specs.Runs.{FailsBy, IsIn, IsUncontestedBy, OnlyReads};
ghost use Rattle.table_history.specs.History.{FitsColumn, column_type};
ghost use Rattle.table_history.specs.TypeTree.{ColumnTrees};
ghost use Rattle.table_history.specs.declared.kind.Kind.{Kind};
ghost use Rattle.table_history.specs.declared.limit.LimitKind.{LimitKind};
ghost use Rattle.table_history.specs.declared.row.PartValue.{PartValue};
ghost use Rattle.table_history.specs.declared.table.Change.{Change};
ghost use Rattle.table_history.specs.declared.table.Commit.{Commit};
ghost use Rattle.table_history.specs.declared.table.Table.{Table};
ghost use Rattle.target_core.specs.Conditions.{CanPublish, Fits, GoesOn, IsPublishable};
ghost use Rattle.target_core.specs.Changes.{SameRowChange};
ghost use Rattle.target_core.specs.Folders.{MayLeaveIn, SameIn, after_crash, folder_of};
ghost use Rattle.target_core.specs.Meaning.{meaning_of};
ghost use Rattle.target_core.specs.OneCommit.{GoesOnBy, PublishesOne, Refuses, StaysInOwn};
ghost use Rattle.target_core.specs.Outcome.{answer_of};
ghost use Rattle.target_core.specs.Refusals.{IsFitsRefusal, IsInspectRefusal, IsOfInspect};
ghost use Rattle.target_core.specs.SeenView.{IsSeen, IsSeenSound};
ghost use Rattle.target_core.specs.Views.{IsOfSource, IsPublished, IsUnpublished, Origin, SameView, Standing, View, absent, origin_of, standing_of};
ghost use Rattle.target_core.specs.declared.target.TargetError.{TargetError};
ghost use Rattle.table_history.specs.declared.limit.LimitKind.TheVariants.{File, Names};
ghost use Rattle.lake_basics.specs.declared.limits.TheConstants.{MAX_FILE_BYTES, MAX_NAMES};
ghost use Rattle.target_core.specs.declared.target.TargetError.TheVariants.{Memory};

use crate::mark::Mark;
use lake_basics::Text;
use lake_basics::limits::{MAX_FILE_BYTES, MAX_NAMES};
use lake_store::{Store, StoreError};
use std::alloc::{AllocError, AllocFailed, Global};
use table_history::{Commit, Feature, Kind, LimitKind, Table};

/// Why a target refused a call.
#[derive(Debug, Drop, thiserror::Error)]
pub enum TargetError {
    #[error("out of memory")]
    Memory,
    /// The store failed, and counted it.
    #[error("the store failed")]
    StoreFault,
    /// Another writer published first.
    #[error("another writer published first")]
    Contested,
    /// A number would be passed.
    #[error("more {which:?} than {number}")]
    Limit { which: LimitKind, number: u64 },
    /// The target's format can't hold the commit. The path is the row's or the top-level column's
    /// name, and empty where the partition columns are others.
    #[error("a commit needs {feature:?}, which isn't supported")]
    Unsupported { feature: Feature, path: Text },
}

impl From<AllocError> for TargetError {
    ghost from_gives = { λ _ e. e ≡ Memory };

    fn from(_: AllocError) -> Self {
        TargetError::Memory
    }
}

impl<T: Drop> From<AllocFailed<T>> for TargetError {
    ghost from_gives = { λ _ e. e ≡ Memory };

    fn from(_: AllocFailed<T>) -> Self {
        TargetError::Memory
    }
}

/// What a target answers for a store's refusal, where a file that is too long passes the number of
/// bytes.
impl From<StoreError> for TargetError {
    ghost from_gives = { λ error e. e ≡ answer_of File MAX_FILE_BYTES error };

    fn from(error: StoreError) -> Self {
        TargetError::at_limit(error, LimitKind::File, MAX_FILE_BYTES)
    }
}

impl TargetError {
    /// What a target answers for a store's refusal of a list, where a folder with too many names
    /// passes their number.
    pub fn of_list(error: StoreError) -> TargetError
        ensures { result ≡ answer_of Names MAX_NAMES error }
    {
        TargetError::at_limit(error, LimitKind::Names, MAX_NAMES)
    }

    fn at_limit(error: StoreError, which: LimitKind, number: u64) -> TargetError
        ensures { result ≡ answer_of which number error }
    {
        match error {
            StoreError::Memory => TargetError::Memory,
            StoreError::Failed => TargetError::StoreFault,
            StoreError::TooLong { .. } => TargetError::Limit { which, number },
            StoreError::Taken => TargetError::Contested,
        }
    }
}

/// What inspecting a target finds.
#[derive(Drop)]
pub enum Seen<A: Drop> {
    /// Nothing is published.
    Absent,
    /// The newest commit is one of ours for this source.
    Ours(A),
    /// Anything else, with the first path at fault.
    Foreign(Text),
}

/// The metadata of one format, as the target of a sync: what its files stand for, and the calls
/// that read them and publish commits.
pub trait Target {
    /// What a caller keeps of a target between two commits.
    type Kept: Drop;

    /// The target's format. All of its files lie in that format's folder.
    ghost kind: { Self → Kind };

    /// A schema as the format's types hold it, where they can.
    ghost image: { Self → ColumnTrees → Option ColumnTrees };

    /// By the format's own rules the files stand for this view.
    ghost reads: { Self → Files → View → Type 0 };

    /// How many commits the files hold, by the format's own names and whoever published them.
    ghost commits_in: { Self → Files → ℕ };

    /// For a source of this format the files are neither without a commit nor all ours, and this is
    /// the first path at fault.
    ghost is_foreign: { Self → Kind → Files → List ℕ → Type 0 };

    /// What inspecting for a source of this format lists or reads passes this number, before the
    /// first path at fault.
    ghost is_crowded: { Self → Kind → Files → LimitKind → ℕ → Type 0 };

    /// These commits of a source with these partition columns don't fit what is kept, for this
    /// cause.
    ghost unfit: { Self → Self.Kept → List (List ℕ) → List Commit → TargetError → Type 0 };

    /// From what is kept, over these files and at this time, publishing these commits one behind
    /// the other passes this number at the last of them.
    ghost passes: { Self → Self.Kept → Files → Origin → ℕ → List Commit → LimitKind → ℕ
        → Type 0 };

    /// The published commit of this number, counted from 1, carries this change of the rows and
    /// this mark, and nothing more.
    ghost carries: { Self → Files → ℕ → Change → Standing → Type 0 };

    /// Over these files, of which this is kept, publishing the commit with a mark of this origin at
    /// this time leaves these files: what the commit writes has come, and nothing else.
    ghost writes: { Self → Self.Kept → Files → Origin → ℕ → Commit → Files → Type 0 };

    /// A published commit reaches the file at this path.
    ghost reached: { Self → Files → List ℕ → Type 0 };

    /// Nothing that a published commit reaches is dirty, and no leftover is in the way of a commit.
    ghost settled: { Self → Disk → Type 0 };

    /// What is kept has the files' number of commits and their newest version or instant.
    ghost counted: { Self → Self.Kept → Files → Type 0 };

    /// All that is kept is what the files hold.
    ghost stands_for: { Self → Self.Kept → Files → Type 0 };

    /// What is kept, as a view.
    ghost view: { Self → Self.Kept → View };

    /// The target's format.
    fn kind(&self) -> Kind
        ensures { result ≡ kind self.now };

    /// The table after the newest commit, its schema in the format's types.
    fn table<'a>(&self, kept: &'a Self::Kept) -> &'a Table
        ensures { result.now ≡ (view self.now kept.now).table };

    /// The newest commit's mark.
    fn mark<'a>(&self, kept: &'a Self::Kept) -> Option<&'a Mark>
        ensures { option_map (λ mark. standing_of mark.now) result
            ≡ (view self.now kept.now).mark };

    /// How many commits are published.
    fn commits(&self, kept: &Self::Kept) -> u64
        ensures { result ≡ (view self.now kept.now).commits };

    /// Reads what the target stands at. It changes no file.
    fn inspect<S: Store>(
        &self,
        alloc: Global,
        store: &mut S,
        source: Kind,
    ) -> Result<Seen<Self::Kept>, TargetError>
        ensures seen { S.tells → IfOk result (IsSeen (reads self.now (S.disk store.old).files)
            (is_foreign self.now source (S.disk store.old).files) (view self.now)
            (λ kept. stands_for self.now kept (S.disk store.old).files) source) }
        ensures sound { IfOk result (IsSeenSound (view self.now) source) }
        ensures refusal { S.tells → IfErr result
            (IsInspectRefusal (is_crowded self.now source (S.disk store.old).files)) }
        ensures few { IfErr result IsOfInspect }
        ensures only_reads { S.tells → OnlyReads ⟦<S as Store>⟧ store.old store.new }
        ensures cause { FailsBy ⟦<S as Store>⟧ store.old store.new
            (IsErrOf result TargetError.StoreFault) }
        ensures contest { IsUncontestedBy ⟦<S as Store>⟧ store.old store.new
            (IsErrOf result TargetError.Contested) };

    /// What is kept before the first commit, of a target with these partition columns.
    fn fresh(&self, alloc: Global, partition: &[Text]) -> Result<Self::Kept, TargetError>
        ensures view { IfOk result (λ kept. view self.now kept ≡ absent partition.now) }
        ensures stands { IfOk result (λ kept. (files : Files) → reads self.now files (absent [])
            → stands_for self.now kept files) }
        ensures memory { IfErr result (λ e. e ≡ TargetError.Memory) };

    /// Whether these commits of a source with these partition columns can be published over what is
    /// kept. It reads no file.
    fn fits(
        &self,
        alloc: Global,
        kept: &Self::Kept,
        partition: &[Text],
        commits: &[Commit],
    ) -> Result<(), TargetError>
        ensures fits { OnOk result
            (Fits (unfit self.now kept.now) partition.now commits.now) }
        ensures refusal { IfErr result
            (IsFitsRefusal (unfit self.now kept.now partition.now commits.now)) };

    /// Publishes one commit, which carries the change and a mark of its position in the source of
    /// this format and table id. `now_ms` is the time in milliseconds since 1970-01-01. After a
    /// refusal `kept` is spent.
    fn commit<S: Store>(
        &self,
        alloc: Global,
        store: &mut S,
        kept: &mut Self::Kept,
        commit: &Commit,
        source: Kind,
        table: Option<&Text>,
        now_ms: u64,
    ) -> Result<(), TargetError>
        requires now { now_ms < 2 ^ 63 }
        requires counted { S.tells → counted self.now kept.old (S.disk store.old).files }
        requires source { GoesOn source (view self.now kept.old) }
        requires can { CanPublish (view self.now kept.old) commit.now }
        requires fits { Fits (unfit self.now kept.old) (view self.now kept.old).table.partition
            (commit.now ∷ []) }

        // It touches its own files alone, by their names, and no other file of its folder.
        ensures own { S.tells
            → StaysInOwn ⟦<S as Store>⟧ (kind self.now) store.old store.new }

        // At `Ok` what is kept goes on by the commit.
        ensures goes_on { OnOk result (GoesOnBy S.tells (image self.now) (view self.now)
            (unfit self.now) (counted self.now) (passes self.now)
            (origin_of source (option_copied table.entry)) now_ms
            kept.old (S.disk store.old).files commit.now kept.new (S.disk store.new).files) }

        // What it leaves of files that what is kept stood for, whatever it answers.
        ensures publishes { S.tells → stands_for self.now kept.old (S.disk store.old).files
            → settled self.now (S.disk store.old) → PublishesOne ⟦<S as Store>⟧
            (meaning_of (kind self.now) (image self.now) (reads self.now)
            (commits_in self.now) (carries self.now) (reached self.now) (settled self.now))
            (stands_for self.now kept.new) (writes self.now kept.old (S.disk store.old).files
            (origin_of source (option_copied table.entry)) now_ms commit.now)
            (origin_of source (option_copied table.entry)) (view self.now kept.old) commit.now
            result store.old store.new }

        // At `Ok` just what it writes has come.
        ensures writes { S.tells → stands_for self.now kept.old (S.disk store.old).files
            → OnOk result (writes self.now kept.old (S.disk store.old).files
            (origin_of source (option_copied table.entry)) now_ms commit.now
            (S.disk store.new).files) }

        // It is refused for a cause of its own, and before it writes where a number is passed.
        ensures refuses { Refuses ⟦<S as Store>⟧ (passes self.now kept.old
            (S.disk store.old).files (origin_of source (option_copied table.entry)) now_ms
            (commit.now ∷ [])) result store.old store.new };

    /// Files stand for one view at most, and for absent with any partition columns or with none.
    ghost one_view: { (t : Self) (files : Files) (v w : View) → reads t files v → reads t files w
        → SameView v w ⊎ (IsUnpublished v × IsUnpublished w) };

    /// Files that stand for a view hold its number of commits.
    ghost commits_read: { (t : Self) (files : Files) (v : View) → reads t files v
        → commits_in t files ≡ v.commits };

    ghost absent_any: { (t : Self) (files : Files) (p q : List (List ℕ))
        → reads t files (absent p) → reads t files (absent q) };

    /// What the format's types hold of a table that may be published may be published too.
    ghost image_publishable: { (t : Self) (table : Table) (held : ColumnTrees)
        → image t table.schema ≡ Some held → IsPublishable table
        → IsPublishable
        (record { schema = held; partition = table.partition; rows = table.rows }) };

    /// What the format's types hold of a schema has columns that the same partition values fit.
    ghost image_kinds: { (t : Self) (schema held : ColumnTrees) → image t schema ≡ Some held
        → (name : List ℕ) (value : PartValue)
        → FitsColumn (column_type schema name) value ↔ FitsColumn (column_type held name) value };

    /// A target has no commit, or its newest commit has a mark.
    ghost published: { (t : Self) (files : Files) (v : View) → reads t files v
        → IsUnpublished v ⊎ IsPublished v };

    /// Foreign is neither absent nor ours, and has one first path at fault.
    ghost not_foreign: { (t : Self) (source : Kind) (files : Files) (path : List ℕ) (v : View)
        → is_foreign t source files path → reads t files v
        → (IsUnpublished v → ⊥) × (IsOfSource source v → ⊥) };

    ghost one_path: { (t : Self) (source : Kind) (files : Files) (p q : List ℕ)
        → is_foreign t source files p → is_foreign t source files q → p ≡ q };

    /// Of a list that fits, the first commit fits.
    ghost fits_first: { (t : Self) (kept : Self.Kept) (partition : List (List ℕ))
        (commit : Commit) (commits : List Commit)
        → Fits (unfit t kept) partition (commit ∷ commits)
        → Fits (unfit t kept) partition (commit ∷ []) };

    /// Where there is nothing to publish, it fits.
    ghost fits_none: { (t : Self) (kept : Self.Kept) (partition : List (List ℕ))
        → Fits (unfit t kept) partition [] };

    /// What fits a target that has a commit is of the same partition columns.
    ghost fits_partition: { (t : Self) (kept : Self.Kept) (partition : List (List ℕ))
        (commits : List Commit) → (commits ≡ [] → ⊥) → Fits (unfit t kept) partition commits
        → 0 < (view t kept).commits → (view t kept).table.partition ≡ partition };

    /// What stands for the same files, with the same partition columns, refuses alike.
    ghost unfit_alike: { (t : Self) (kept other : Self.Kept) (files : Files)
        (partition : List (List ℕ)) (commits : List Commit) (e : TargetError)
        → stands_for t kept files → stands_for t other files
        → (view t kept).table.partition ≡ (view t other).table.partition
        → unfit t kept partition commits e → unfit t other partition commits e };

    ghost passes_alike: { (t : Self) (kept other : Self.Kept) (files : Files) (origin : Origin)
        (now : ℕ) (commits : List Commit) (which : LimitKind) (number : ℕ)
        → stands_for t kept files → stands_for t other files
        → (view t kept).table.partition ≡ (view t other).table.partition
        → passes t kept files origin now commits which number
        → passes t other files origin now commits which number };

    /// A commit carries one change of the rows and one mark, and the newest one's is the view's.
    ghost one_change: { (t : Self) (files : Files) (c : ℕ) (a b : Change) (m n : Standing)
        → carries t files c a m → carries t files c b n → SameRowChange a b × (m ≡ n) };

    ghost carries_within: { (t : Self) (files : Files) (v : View) (c : ℕ) (change : Change)
        (m : Standing) → reads t files v → carries t files c change m → c ≤ v.commits };

    ghost newest: { (t : Self) (files : Files) (v : View) (change : Change) (m : Standing)
        → reads t files v → carries t files v.commits change m → v.mark ≡ Some m };

    /// What is kept shows the view that the files stand for, and their newest commit.
    ghost kept_view: { (t : Self) (kept : Self.Kept) (files : Files) → stands_for t kept files
        → reads t files (view t kept) };

    ghost kept_counted: { (t : Self) (kept : Self.Kept) (files : Files) → stands_for t kept files
        → counted t kept files };

    /// Published commits reach paths of the target's folder, and as long as these files stay they
    /// reach them.
    ghost reached_in: { (t : Self) (files : Files) (path : List ℕ) → reached t files path
        → IsIn (folder_of (kind t)) path };

    ghost reached_stays: { (t : Self) (a b : Files)
        → ((path : List ℕ) → reached t a path → map.get b path ≡ map.get a path)
        → (path : List ℕ) → reached t a path → reached t b path };

    ghost reached_clean: { (t : Self) (disk : Disk) (path : List ℕ) → settled t disk
        → reached t disk.files path → IsClean disk path };

    /// What a target reads as, and all else that is said of its files, depends on its own folder
    /// alone.
    ghost reads_own: { (t : Self) (a b : Files) (v : View) → SameIn (folder_of (kind t)) a b
        → reads t a v → reads t b v };

    ghost commits_own: { (t : Self) (a b : Files) → SameIn (folder_of (kind t)) a b
        → commits_in t b ≡ commits_in t a };

    ghost foreign_own: { (t : Self) (source : Kind) (a b : Files) (path : List ℕ)
        → SameIn (folder_of (kind t)) a b → is_foreign t source a path
        → is_foreign t source b path };

    ghost crowded_own: { (t : Self) (source : Kind) (a b : Files) (which : LimitKind) (number : ℕ)
        → SameIn (folder_of (kind t)) a b → is_crowded t source a which number
        → is_crowded t source b which number };

    ghost carries_own: { (t : Self) (a b : Files) (c : ℕ) (change : Change) (m : Standing)
        → SameIn (folder_of (kind t)) a b → carries t a c change m → carries t b c change m };

    ghost passes_own: { (t : Self) (kept : Self.Kept) (a b : Files) (origin : Origin) (now : ℕ)
        (commits : List Commit) (which : LimitKind) (number : ℕ) → SameIn (folder_of (kind t)) a b
        → passes t kept a origin now commits which number
        → passes t kept b origin now commits which number };

    ghost kept_own: { (t : Self) (kept : Self.Kept) (a b : Files) → SameIn (folder_of (kind t)) a b
        → stands_for t kept a → stands_for t kept b };

    ghost counted_own: { (t : Self) (kept : Self.Kept) (a b : Files)
        → SameIn (folder_of (kind t)) a b → counted t kept a → counted t kept b };

    /// What it reads as, and what its commits carry, depends on the files that they reach alone.
    ghost reached_alone: { (t : Self) (a b : Files) (v : View)
        → ((path : List ℕ) → reached t a path → map.get b path ≡ map.get a path)
        → ((path : List ℕ) → IsIn (folder_of (kind t)) path → (reached t a path → ⊥)
        → map.get b path ≡ None)
        → reads t a v → reads t b v
        × ((c : ℕ) (change : Change) (m : Standing) → c ≤ v.commits → carries t a c change m
        → carries t b c change m) };

    /// Without a commit and without dirty paths a target is settled.
    ghost settled_absent: { (t : Self) (disk : Disk) → reads t disk.files (absent [])
        → ((path : List ℕ) → IsIn (folder_of (kind t)) path → IsClean disk path)
        → settled t disk };

    /// Whether it is settled depends on its folder too, and fewer dirty paths leave it so.
    ghost settled_own: { (t : Self) (a b : Disk) → SameIn (folder_of (kind t)) a.files b.files
        → ((path : List ℕ) → IsIn (folder_of (kind t)) path → IsClean a path → IsClean b path)
        → settled t a → settled t b };

    /// A crash leaves a settled target as it reads, with its commits, and settled.
    ghost crash_reads: { (t : Self) (disk : Disk) (image : Files) (v : View) → settled t disk
        → MayLeaveIn (folder_of (kind t)) disk image → reads t disk.files v → reads t image v };

    ghost crash_carries: { (t : Self) (disk : Disk) (image : Files) (v : View) (c : ℕ)
        (change : Change) (m : Standing) → settled t disk
        → MayLeaveIn (folder_of (kind t)) disk image → reads t disk.files v → c ≤ v.commits
        → carries t disk.files c change m → carries t image c change m };

    ghost crash_settled: { (t : Self) (disk : Disk) (image : Files) → settled t disk
        → MayLeaveIn (folder_of (kind t)) disk image → settled t (after_crash image) };
}
