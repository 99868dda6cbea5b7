//! The manifests of a snapshot's list. Those that are held aren't read again.

ghost use Rattle.std.specs.Prelude.{◌≡◌, ◌≤◌, ◌+◌, ◌++◌, ◌∷◌, [], ℕ, List, None, Some, IfOk, IsErrOf, OnOk};
ghost use Rattle.lake_basics.specs.declared.limits.TheConstants.{MAX_ACTIONS};
ghost use Rattle.lake_store.specs.Disk.{Files};
ghost use Rattle.lake_store.specs.Runs.{FailsBy, IsUncontestedBy, OnlyReads};
ghost use Rattle.table_history.specs.declared.row.FileRow.{FileRow};
ghost use Rattle.iceberg_manifest.specs.Lists.{AreEach};
ghost use Rattle.iceberg_manifest.specs.declared.partition.PartColumn.{PartColumn};
ghost use Rattle.iceberg_table.specs.Counted.{AreFew, Counts, before_of};
ghost use Rattle.iceberg_table.specs.Kinds.{FitLive};
ghost use Rattle.iceberg_table.specs.Manifests.{IsManifestOf};
ghost use Rattle.iceberg_table.specs.declared.error.IcebergError.TheVariants as iceberg;
ghost use Rattle.iceberg_change.specs.Behind.{HoldsFit, HoldsRead, IsJoined, IsNextIn, held_rows};
ghost use Rattle.iceberg_change.specs.declared.joining.Stop.TheVariants.{Memory, StoreFault};

use crate::held::{Held, names_same, push_rows};
use iceberg_manifest::PartColumn;
use iceberg_table::{Counted, IcebergError, Manifest, ManifestFile, read_manifest_file};
use lake_basics::Items;
use lake_basics::limits::MAX_ACTIONS;
use lake_store::Store;
use std::alloc::{AllocError, AllocFailed, Global};
use table_history::FileRow;

/// Why a snapshot isn't read behind the one before it.
#[derive(Drop)]
pub(crate) enum Stop {
    Memory,
    StoreFault,
    /// It has to be read from scratch: a file is at fault, a number is passed, two live rows have one
    /// path, or two lists say otherwise of a manifest.
    Scratch,
}

impl From<AllocError> for Stop {
    ghost from_gives = { λ _ e. e ≡ Memory };

    fn from(_error: AllocError) -> Stop {
        Stop::Memory
    }
}

impl<T: Drop> From<AllocFailed<T>> for Stop {
    ghost from_gives = { λ _ e. e ≡ Memory };

    fn from(_error: AllocFailed<T>) -> Stop {
        Stop::Memory
    }
}

/// What a refusal of a file is here.
pub(crate) fn stop_for(error: IcebergError) -> Stop
    ensures { result ≡ StoreFault → error ≡ iceberg.StoreFault }
{
    match error {
        IcebergError::Memory => Stop::Memory,
        IcebergError::StoreFault => Stop::StoreFault,
        _ => Stop::Scratch,
    }
}

/// What a list names so far.
#[derive(Drop)]
pub(crate) struct Joining {
    /// Of the manifests of the list before those that it didn't name yet.
    pub held: Held,
    /// Those that it named, in its order.
    pub manifests: Items<Manifest>,
    counted: Counted,
    /// The rows of those that weren't held.
    pub came: Vec<FileRow>,
}

impl Joining {
    /// The list names nothing yet.
    fn new(alloc: Global, held: Held) -> Joining
        ensures joined { (columns : List PartColumn)
            → IsJoined columns (held_rows held) None result }
        ensures none { result.manifests ≡ [] }
        ensures same { result.held ≡ held }
        ensures few { AreFew result.counted }
    {
        Joining {
            held,
            manifests: Items::new(alloc),
            counted: Counted::new(alloc),
            came: Vec::new(alloc),
        }
    }

    /// Puts a manifest that the list names too behind the others.
    fn put(&mut self, alloc: Global, manifest: Manifest) -> Result<(), AllocError>
        requires { before_of manifest.file.path self.old.counted + manifest.entries ≤ MAX_ACTIONS }
        ensures held { OnOk result (self.new.held ≡ self.old.held) }
        ensures came { OnOk result (self.new.came ≡ self.old.came) }
        ensures manifests { OnOk result
            (self.new.manifests ≡ self.old.manifests ++ manifest ∷ []) }
        ensures counts { Counts self.old.manifests self.old.counted
            → OnOk result (Counts self.new.manifests self.new.counted) }
        ensures few { AreFew self.old.counted → OnOk result (AreFew self.new.counted) }
    {
        let counted = std::mem::replace(&mut self.counted, Counted::new(alloc));
        let counted = counted.with_manifest(alloc, &manifest)?;
        self.counted = counted;
        self.manifests.push(manifest)?;
        Ok(())
    }

    /// Puts a manifest that was taken out of those that are held behind the others, under its row of
    /// this list.
    fn put_taken(
        &mut self,
        alloc: Global,
        manifest: Manifest,
        file: ManifestFile,
    ) -> Result<(), Stop>
        requires { AreFew self.old.counted }
        ensures joined { (columns : List PartColumn) (rows : List FileRow)
            → FitLive columns manifest.rows → IsJoined columns rows (Some manifest) self.old
            → OnOk result (IsJoined columns rows None self.new) }
        ensures same { OnOk result (self.new.held ≡ self.old.held) }
        ensures next { (files : Files) (location : List ℕ) (columns : List PartColumn)
            → IsManifestOf files location columns manifest.file manifest
            → OnOk result (IsNextIn files location columns file self.old self.new) }
        ensures few { OnOk result (AreFew self.new.counted) }
        ensures no_fault { IsErrOf result StoreFault → ⊥ }
    {
        if !names_same(&manifest.file, &file) {
            return Err(Stop::Scratch);
        }
        if manifest.entries > MAX_ACTIONS - self.counted.before(&file.path) {
            return Err(Stop::Scratch);
        }
        let mut manifest = manifest;
        manifest.file = file;
        self.put(alloc, manifest)?;
        Ok(())
    }

    /// Puts a manifest that wasn't held behind the others.
    fn put_new(&mut self, alloc: Global, manifest: Manifest) -> Result<(), AllocError>
        requires { before_of manifest.file.path self.old.counted + manifest.entries ≤ MAX_ACTIONS }
        ensures joined { (columns : List PartColumn) (rows : List FileRow)
            → FitLive columns manifest.rows → IsJoined columns rows None self.old
            → OnOk result (IsJoined columns rows None self.new) }
        ensures same { OnOk result (self.new.held ≡ self.old.held) }
        ensures manifests { OnOk result
            (self.new.manifests ≡ self.old.manifests ++ manifest ∷ []) }
        ensures few { AreFew self.old.counted → OnOk result (AreFew self.new.counted) }
    {
        push_rows(alloc, &mut self.came, manifest.rows.as_slice())?;
        self.put(alloc, manifest)
    }

    /// Puts the next manifest of the list behind the others. It is read where it isn't held.
    fn put_file<S: Store>(
        &mut self,
        alloc: Global,
        store: &mut S,
        location: &str,
        columns: &[PartColumn],
        file: ManifestFile,
    ) -> Result<(), Stop>
        requires few { AreFew self.old.counted }
        requires fit { HoldsFit columns.now self.old.held }
        ensures joined { (rows : List FileRow) → IsJoined columns.now rows None self.old
            → OnOk result (IsJoined columns.now rows None self.new) }
        ensures fit { OnOk result (HoldsFit columns.now self.new.held) }
        ensures few { OnOk result (AreFew self.new.counted) }
        ensures next { S.tells
            → HoldsRead (S.disk store.old).files location.now columns.now self.old.held
            → OnOk result (IsNextIn (S.disk store.old).files location.now columns.now file
            self.old self.new) }
        ensures held { (files : Files) → HoldsRead files location.now columns.now self.old.held
            → OnOk result (HoldsRead files location.now columns.now self.new.held) }
        ensures only_reads { S.tells → OnlyReads ⟦<S as Store>⟧ store.old store.new }
        ensures cause { FailsBy ⟦<S as Store>⟧ store.old store.new (IsErrOf result StoreFault) }
        ensures contest { IsUncontestedBy ⟦<S as Store>⟧ store.old store.new ⊥ }
    {
        if let Some(manifest) = self.held.take(&file.path) {
            return self.put_taken(alloc, manifest, file);
        }
        let before = self.counted.before(&file.path);
        match read_manifest_file(alloc, store, location, columns, before, file) {
            Ok(manifest) => Ok(self.put_new(alloc, manifest)?),
            Err(error) => Err(stop_for(error)),
        }
    }
}

/// The manifests that a list names, in its order, of which those that are held aren't read.
pub(crate) fn join_list<S: Store>(
    alloc: Global,
    store: &mut S,
    location: &str,
    columns: &[PartColumn],
    list: Items<ManifestFile>,
    held: Held,
) -> Result<Joining, Stop>
    requires { HoldsFit columns.now held }
    ensures joined { IfOk result (IsJoined columns.now (held_rows held) None) }
    ensures few { IfOk result (λ j. AreFew j.counted) }
    ensures all { S.tells → HoldsRead (S.disk store.old).files location.now columns.now held
        → IfOk result (λ j. AreEach (IsManifestOf (S.disk store.old).files location.now columns.now)
        list j.manifests) }
    ensures only_reads { S.tells → OnlyReads ⟦<S as Store>⟧ store.old store.new }
    ensures cause { FailsBy ⟦<S as Store>⟧ store.old store.new (IsErrOf result StoreFault) }
    ensures contest { IsUncontestedBy ⟦<S as Store>⟧ store.old store.new ⊥ }
{
    let mut joining = Joining::new(alloc, held);
    for file in list.into_vec() {
        joining.put_file(alloc, store, location, columns, file)?;
    }
    Ok(joining)
}
