//! The manifests of the list before, by their paths.

ghost use Rattle.std.specs.Prelude.{◌≡◌, ◌<◌, ◌++◌, ◌∷◌, [], None, Some, length, map, slice_get, slice_set, IfOk, IfSome, IsTrue, OnOk};
ghost use Rattle.std.specs.List.Sorted.{IsPermutation};
ghost use Rattle.iceberg_table.specs.Tables.{rows_in};
ghost use Rattle.iceberg_table.specs.declared.manifest.Manifest.{Manifest};
ghost use Rattle.iceberg_change.specs.Behind.{IsHeld, NamesSame, held_rows, slot_rows, slots_rows};

use iceberg_live::{LiveRow, Rows};
use iceberg_table::{Manifest, ManifestFile};
use indexmap::IndexMap;
use lake_basics::{Items, Text};
use std::alloc::{AllocError, Global};
use table_history::FileRow;

/// Manifests that were read, each in a slot of its own until it is taken out.
#[derive(Drop)]
pub(crate) struct Held {
    // By path: its slot.
    places: IndexMap<Text, usize>,
    slots: Vec<Option<Manifest>>,
}

/// Empties the slot at this place, and gives what stood there.
fn emptied(slots: &mut Vec<Option<Manifest>>, place: usize) -> Option<Manifest>
    requires { place < length slots.old.items }
    ensures before { slice_get slots.old.items place ≡ Some result }
    ensures after { slots.new.items ≡ slice_set slots.old.items place None }
{
    std::mem::replace(&mut slots[place], None)
}

/// Puts the rows of live entries behind these.
pub(crate) fn push_rows(
    alloc: Global,
    rows: &mut Vec<FileRow>,
    live: &[LiveRow],
) -> Result<(), AllocError>
    ensures { OnOk result (rows.new.items ≡ rows.old.items ++ rows_in live.now) }
{
    for found in live {
        rows.push(found.row.copy(alloc)?)?;
    }
    Ok(())
}

/// Moves the rows of live entries behind these.
fn move_rows(rows: &mut Vec<FileRow>, live: Rows) -> Result<(), AllocError>
    ensures { OnOk result (rows.new.items ≡ rows.old.items ++ rows_in live) }
{
    for found in live.into_vec() {
        rows.push(found.row)?;
    }
    Ok(())
}

/// Moves the rows of the manifest in a slot behind these.
fn move_slot(rows: &mut Vec<FileRow>, slot: Option<Manifest>) -> Result<(), AllocError>
    ensures { OnOk result (rows.new.items ≡ rows.old.items ++ slot_rows slot) }
{
    match slot {
        Some(manifest) => move_rows(rows, manifest.rows),
        None => Ok(()),
    }
}

/// The rows of the manifests in these slots, one slot after another.
fn slots_rows(alloc: Global, slots: Vec<Option<Manifest>>) -> Result<Vec<FileRow>, AllocError>
    ensures { IfOk result (λ rows. rows.items ≡ slots_rows slots.items) }
{
    let mut rows = Vec::new(alloc);
    for slot in slots {
        move_slot(&mut rows, slot)?;
    }
    Ok(rows)
}

/// Whether two rows of lists name one manifest, whose entries take the same numbers from both.
pub(crate) fn names_same(one: &ManifestFile, other: &ManifestFile) -> bool
    ensures { IsTrue result → NamesSame one.now other.now }
{
    one.path == other.path
        && one.info.content == other.info.content
        && one.info.added_snapshot_id == other.info.added_snapshot_id
        && one.info.sequence_number == other.info.sequence_number
}

impl Held {
    /// These manifests.
    pub fn new(alloc: Global, manifests: Items<Manifest>) -> Result<Held, AllocError>
        ensures { IfOk result (λ h. h.slots.items ≡ map Some manifests) }
    {
        let mut held = Held {
            places: IndexMap::new(alloc),
            slots: Vec::new(alloc),
        };
        for manifest in manifests.into_vec() {
            held.hold(alloc, manifest)?;
        }
        Ok(held)
    }

    /// Puts the manifest into a slot of its own, behind the others.
    fn hold(&mut self, alloc: Global, manifest: Manifest) -> Result<(), AllocError>
        ensures { OnOk result (self.new.slots.items ≡ self.old.slots.items ++ Some manifest ∷ []) }
    {
        let path = manifest.file.path.copy(alloc)?;
        drop(self.places.insert(path, self.slots.len())?);
        self.slots.push(Some(manifest))?;
        Ok(())
    }

    /// Takes out the manifest at this path, if it is held.
    pub fn take(&mut self, path: &Text) -> Option<Manifest>
        ensures rows { IsPermutation (held_rows self.old) (slot_rows result ++ held_rows self.new) }
        ensures taken { IfSome result (λ m. IsHeld self.old m) }
        ensures left { (m : Manifest) → IsHeld self.new m → IsHeld self.old m }
    {
        match self.places.get(path) {
            Some(place) if *place < self.slots.len() => emptied(&mut self.slots, *place),
            _ => None,
        }
    }

    /// The rows of the manifests that are still held.
    pub fn into_rows(self, alloc: Global) -> Result<Vec<FileRow>, AllocError>
        ensures { IfOk result (λ rows. rows.items ≡ held_rows self) }
    {
        slots_rows(alloc, self.slots)
    }
}
