//! The commits of an Iceberg table after a snapshot.

ghost use Rattle.std.specs.Prelude.{◌≡◌, ◌≤◌, List, [], None, ◌++◌, ◌∷◌, IfErr, IfOk, IsErrOf, OnOk};
ghost use Rattle.std.specs.Fmt.{signed_decimal};
ghost use Rattle.lake_basics.specs.declared.limits.TheConstants.{MAX_ACTIONS};
ghost use Rattle.lake_store.specs.Runs.{FailsBy, IsUncontestedBy, OnlyReads};
ghost use Rattle.iceberg_metadata.specs.Writing.{IsWritable};
ghost use Rattle.iceberg_table.specs.declared.manifest.Manifest.{Manifest};
ghost use Rattle.target_core.specs.Conditions.{IsPublishable};
ghost use Rattle.source_core.specs.Answers.{IsReadRefusal};
ghost use Rattle.source_core.specs.Since.{CanApplyAll, CanApplySince, FitAll, FitSince, IsSinceAnswer, IsSinceRefusal};
ghost use Rattle.source_core.specs.declared.error.SourceError.TheVariants.{StoreFault};
ghost use Rattle.iceberg_change.specs.Behind.{GoesOn, IsListed};
ghost use Rattle.iceberg_change.specs.Own.{IsOwn};
ghost use Rattle.source_iceberg.specs.Counted.{Counts};
ghost use Rattle.source_iceberg.specs.Heads.{IsIcebergHead, IsNewestMetadata};
ghost use Rattle.iceberg_change.specs.declared.behind.Listed.{Listed};
ghost use Rattle.source_iceberg.specs.Since.{HasManyEntries, IsRefusedBehind, IsSince, Reaches, ShowsBehind, ShowsFromPosition, SnapshotChanges, StopsBehind, TellsChange, AreCommitsBehind, AreCommitsOver};
ghost use Rattle.source_iceberg.specs.Later.{GoesOnBy, IsOneMore};

use crate::columns::{names_other_columns, partition_change, snapshot_changes};
use crate::counted::Counted;
use crate::later::{ancestors_to, later_ancestors};
use crate::newest::{Newest, newest_metadata};
use crate::told::{lacks_head, limit, source_error};
use iceberg_change::{Listed, Own, read_behind};
use iceberg_metadata::{Metadata, Snapshot};
use iceberg_table::Manifest;
use lake_basics::limits::MAX_COMMITS;
use lake_basics::{Items, Text};
use lake_store::Store;
use source_core::{Head, Since, SourceError, position_of};
use std::alloc::{AllocError, Global};
use table_history::{Change, Commit, Kind, LimitKind, Table};

/// What the snapshots after a position have made so far: their commits, the table of the last one,
/// how many entries their manifests have, each counted once, and what was read of the last list.
#[derive(Drop)]
struct Later {
    commits: Items<Commit>,
    table: Table,
    counted: Counted,
    listed: Listed,
}

/// Refuses a snapshot whose partition columns aren't those of the table before it.
fn keep_partition(
    alloc: Global,
    metadata: &Metadata,
    version: u32,
    snapshot: &Snapshot,
    before: &Table,
) -> Result<(), SourceError>
    ensures unchanged { OnOk result (¬ SnapshotChanges metadata.now snapshot.now before.now) }
    ensures refused { IfErr result (IsReadRefusal (λ e.
        SnapshotChanges metadata.now snapshot.now before.now × TellsChange version e)) }
    ensures no_fault { IsErrOf result StoreFault → ⊥ }
{
    if snapshot_changes(alloc, metadata, snapshot, before)? {
        return Err(partition_change(alloc, version));
    }
    Ok(())
}

/// The snapshot's own table over the one before it, whose partition columns it has. A manifest that
/// the list before named too isn't read again.
fn read_own<S: Store>(
    alloc: Global,
    store: &mut S,
    metadata: &Metadata,
    version: u32,
    snapshot: &Snapshot,
    before: Table,
    listed: Listed,
) -> Result<Own, SourceError>
    requires { GoesOn before listed }
    ensures own { IfOk result (IsOwn S.tells (S.disk store.old).files metadata.now snapshot.now
        before listed) }
    ensures unchanged { IfOk result (λ _. ¬ SnapshotChanges metadata.now snapshot.now before) }
    ensures refused { S.tells → (read : List Manifest) → IfErr result (IsReadRefusal (IsRefusedBehind
        (S.disk store.old).files version metadata.now before read snapshot.now)) }
    ensures only_reads { S.tells → OnlyReads ⟦<S as Store>⟧ store.old store.new }
    ensures cause { FailsBy ⟦<S as Store>⟧ store.old store.new (IsErrOf result StoreFault) }
    ensures contest { IsUncontestedBy ⟦<S as Store>⟧ store.old store.new ⊥ }
{
    keep_partition(alloc, metadata, version, snapshot, &before)?;
    match read_behind(alloc, store, metadata, version, snapshot, before, listed) {
        Ok(own) => Ok(own),
        Err(error) => Err(source_error(error)),
    }
}

/// Counts the snapshot's manifests, and puts its commit behind those before it.
fn put_commit(
    alloc: Global,
    snapshot: &Snapshot,
    change: Change,
    manifests: &[Manifest],
    commits: &mut Items<Commit>,
    counted: &mut Counted,
) -> Result<(), SourceError>
    requires { counted.old.entries ≤ MAX_ACTIONS }
    ensures commits { OnOk result (commits.new ≡ commits.old
        ++ (record { position = signed_decimal snapshot.now.id; change = change }) ∷ []) }
    ensures counts { (read : List Manifest) → Counts read counted.old
        → OnOk result (Counts (read ++ manifests.now) counted.new) }
    ensures few { OnOk result (counted.new.entries ≤ MAX_ACTIONS) }
    ensures many { (read : List Manifest) → Counts read counted.old
        → IfErr result (IsReadRefusal (HasManyEntries read manifests.now)) }
    ensures no_fault { IsErrOf result StoreFault → ⊥ }
{
    counted.count_each(alloc, manifests)?;
    let position = position_of(alloc, Kind::Iceberg, snapshot.id)?;
    commits.push(Commit { position, change })?;
    Ok(())
}

impl Later {
    /// Nothing has been made of the base.
    fn new(alloc: Global, base: &Table) -> Result<Later, AllocError>
        ensures made { IfOk result
            (λ later. (later.commits ≡ []) × (later.table ≡ base.now)) }
        ensures counts { IfOk result (λ later. Counts [] later.counted) }
        ensures few { IfOk result (λ later. later.counted.entries ≤ MAX_ACTIONS) }
        ensures on { IfOk result (λ later. later.listed.columns ≡ None) }
    {
        Ok(Later {
            commits: Items::new(alloc),
            table: base.copy(alloc)?,
            counted: Counted::new(alloc),
            listed: Listed {
                manifests: Items::new(alloc),
                columns: None,
            },
        })
    }

    /// The same with one snapshot more.
    fn with_snapshot<S: Store>(
        self,
        alloc: Global,
        store: &mut S,
        metadata: &Metadata,
        version: u32,
        snapshot: &Snapshot,
    ) -> Result<Later, SourceError>
        requires few { self.counted.entries ≤ MAX_ACTIONS }
        requires on { GoesOn self.table self.listed }
        ensures next { S.tells
            → IsListed (S.disk store.old).files metadata.now.location self.listed
            → IfOk result (IsOneMore (S.disk store.old).files metadata.now snapshot.now self) }
        ensures few { IfOk result (λ later. later.counted.entries ≤ MAX_ACTIONS) }
        ensures on { IfOk result (λ later. GoesOn later.table later.listed) }
        ensures listed { S.tells
            → IsListed (S.disk store.old).files metadata.now.location self.listed
            → IfOk result (λ later. IsListed (S.disk store.old).files metadata.now.location
            later.listed) }
        ensures sound { IsWritable metadata.now → IfOk result (GoesOnBy self) }
        ensures refused { S.tells
            → IsListed (S.disk store.old).files metadata.now.location self.listed
            → (read : List Manifest) → Counts read self.counted
            → IfErr result (IsReadRefusal (IsRefusedBehind (S.disk store.old).files version
            metadata.now self.table read snapshot.now)) }
        ensures only_reads { S.tells → OnlyReads ⟦<S as Store>⟧ store.old store.new }
        ensures cause { FailsBy ⟦<S as Store>⟧ store.old store.new (IsErrOf result StoreFault) }
        ensures contest { IsUncontestedBy ⟦<S as Store>⟧ store.old store.new ⊥ }
    {
        let Later {
            mut commits,
            table,
            mut counted,
            listed,
        } = self;
        let own = read_own(alloc, store, metadata, version, snapshot, table, listed)?;
        let Own {
            change,
            table,
            listed,
        } = own;
        let manifests = listed.manifests.as_slice();
        put_commit(
            alloc,
            snapshot,
            change,
            manifests,
            &mut commits,
            &mut counted,
        )?;
        Ok(Later {
            commits,
            table,
            counted,
            listed,
        })
    }
}

/// The commits of these snapshots, one after another over the base. Each list is read once, and a
/// manifest where the list before didn't name it.
fn read_later<S: Store>(
    alloc: Global,
    store: &mut S,
    metadata: &Metadata,
    version: u32,
    snapshots: &[Snapshot],
    base: &Table,
) -> Result<Items<Commit>, SourceError>
    requires { IsWritable metadata.now }
    ensures commits { S.tells → IfOk result
        (AreCommitsBehind (S.disk store.old).files metadata.now base.now snapshots.now) }
    ensures fits { IfOk result (FitAll base.now) }
    ensures sound { IsPublishable base.now → IfOk result (CanApplyAll base.now) }
    ensures refused { S.tells → IfErr result (IsReadRefusal
        (StopsBehind (S.disk store.old).files version metadata.now base.now snapshots.now)) }
    ensures only_reads { S.tells → OnlyReads ⟦<S as Store>⟧ store.old store.new }
    ensures cause { FailsBy ⟦<S as Store>⟧ store.old store.new (IsErrOf result StoreFault) }
    ensures contest { IsUncontestedBy ⟦<S as Store>⟧ store.old store.new ⊥ }
{
    let mut later = Later::new(alloc, base)?;
    for snapshot in snapshots {
        later = later.with_snapshot(alloc, store, metadata, version, snapshot)?;
    }
    Ok(later.commits)
}

/// The same, where the partition columns go on and the snapshots aren't more than are read.
fn commits_behind<S: Store>(
    alloc: Global,
    store: &mut S,
    metadata: &Metadata,
    version: u32,
    snapshots: &[Snapshot],
    base: &Table,
) -> Result<Items<Commit>, SourceError>
    requires { IsWritable metadata.now }
    ensures commits { S.tells → IfOk result
        (AreCommitsOver (S.disk store.old).files metadata.now base.now snapshots.now) }
    ensures fits { IfOk result (FitAll base.now) }
    ensures sound { IsPublishable base.now → IfOk result (CanApplyAll base.now) }
    ensures refused { S.tells → IfErr result (IsReadRefusal
        (ShowsBehind (S.disk store.old).files version metadata.now base.now snapshots.now)) }
    ensures only_reads { S.tells → OnlyReads ⟦<S as Store>⟧ store.old store.new }
    ensures cause { FailsBy ⟦<S as Store>⟧ store.old store.new (IsErrOf result StoreFault) }
    ensures contest { IsUncontestedBy ⟦<S as Store>⟧ store.old store.new ⊥ }
{
    if names_other_columns(alloc, metadata, base)? {
        return Err(partition_change(alloc, version));
    }
    if snapshots.len() as u64 > MAX_COMMITS {
        return Err(limit(LimitKind::Commits));
    }
    if snapshots.is_empty() {
        return Ok(Items::new(alloc));
    }
    read_later(alloc, store, metadata, version, snapshots, base)
}

/// The commits of the ancestors behind a position up to the head, where the position is that of an
/// ancestor. The newest metadata may have newer snapshots by now, which aren't told.
fn since_in<S: Store>(
    alloc: Global,
    store: &mut S,
    newest: &Newest,
    head: &Head,
    position: &Text,
    base: &Table,
) -> Result<Since, SourceError>
    requires newest { S.tells
        → IsNewestMetadata (S.disk store.old).files newest.now.version newest.now.metadata }
    requires writable { IsWritable newest.now.metadata }
    requires head { S.tells → IsIcebergHead (S.disk store.old).files head.now }
    ensures since { S.tells → IfOk result
        (IsSinceAnswer (Reaches (S.disk store.old).files position.now)
        (IsSince (S.disk store.old).files position.now base.now)) }
    ensures fits { IfOk result (FitSince base.now) }
    ensures sound { IsPublishable base.now → IfOk result (CanApplySince base.now) }
    ensures refused { S.tells → IfErr result (IsSinceRefusal (Reaches (S.disk store.old).files position.now)
        (ShowsFromPosition (S.disk store.old).files position.now base.now)) }
    ensures only_reads { S.tells → OnlyReads ⟦<S as Store>⟧ store.old store.new }
    ensures cause { FailsBy ⟦<S as Store>⟧ store.old store.new (IsErrOf result StoreFault) }
    ensures contest { IsUncontestedBy ⟦<S as Store>⟧ store.old store.new ⊥ }
{
    let ancestors = ancestors_to(alloc, &newest.metadata, &head.position)?;
    if ancestors.is_empty() {
        return Err(lacks_head(alloc, newest.version));
    }
    match later_ancestors(alloc, ancestors, position)? {
        Some(later) => Ok(Since::Commits(commits_behind(
            alloc,
            store,
            &newest.metadata,
            newest.version,
            later.as_slice(),
            base,
        )?)),
        None => Ok(Since::NotReached),
    }
}

/// The same by the newest metadata that the store has.
pub(crate) fn commits_since<S: Store>(
    alloc: Global,
    store: &mut S,
    head: &Head,
    position: &Text,
    base: &Table,
) -> Result<Since, SourceError>
    requires { S.tells → IsIcebergHead (S.disk store.old).files head.now }
    ensures since { S.tells → IfOk result
        (IsSinceAnswer (Reaches (S.disk store.old).files position.now)
        (IsSince (S.disk store.old).files position.now base.now)) }
    ensures fits { IfOk result (FitSince base.now) }
    ensures sound { IsPublishable base.now → IfOk result (CanApplySince base.now) }
    ensures refused { S.tells → IfErr result (IsSinceRefusal (Reaches (S.disk store.old).files position.now)
        (ShowsFromPosition (S.disk store.old).files position.now base.now)) }
    ensures only_reads { S.tells → OnlyReads ⟦<S as Store>⟧ store.old store.new }
    ensures cause { FailsBy ⟦<S as Store>⟧ store.old store.new (IsErrOf result StoreFault) }
    ensures contest { IsUncontestedBy ⟦<S as Store>⟧ store.old store.new ⊥ }
{
    let newest = newest_metadata(alloc, store)?;
    since_in(alloc, store, &newest, head, position, base)
}
