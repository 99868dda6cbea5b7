//! The entries of a manifest that is written anew, and of one of added rows.

ghost use Rattle.std.specs.Prelude.{◌≡◌, ◌<◌, ◌^◌, Contains, IfOk, IsSome, List, map, ℕ};
ghost use Rattle.file_links.specs.Rows.{rows_of as owned_rows};
ghost use Rattle.file_links.specs.declared.slots.Held.{Held};
ghost use Rattle.iceberg_manifest_writing.specs.RowEntries.{entry_in};
ghost use Rattle.iceberg_version.specs.KeptEnd.{held_rows};
ghost use Rattle.iceberg_version.specs.Manifests.{added_entry as added_entry_of, deleted_entry as deleted_entry_of, existing_entry as existing_entry_of};
ghost use Rattle.iceberg_version.specs.Manifests.{rewritten_entries as entries_anew};

use crate::before::Before;
use crate::entries::{added_entry, deleted_entry, existing_entry};
use crate::rows::parted_rows;
use file_links::Held;
use iceberg_manifest_writing::RowEntry;
use std::alloc::{AllocError, Global};
use table_history::FileRow;

/// The entries of rows that stay, as existing, in their order.
fn existing_entries<'a>(alloc: Global, rows: &[&'a Held]) -> Result<Vec<RowEntry<'a>>, AllocError>
    requires { (row : Held) → Contains (map (λ r. r.now) rows.now) row → row.born < 2 ^ 63 }
    ensures { IfOk result (λ entries. (front : List ℕ)
        → map (entry_in front) entries.items
        ≡ map (existing_entry_of front) (map (λ r. r.now) rows.now)) }
{
    let mut entries = Vec::with_capacity(alloc, rows.len())?;
    for row in rows {
        entries.push(existing_entry(row))?;
    }
    Ok(entries)
}

/// The entries of rows that are removed, as deleted by this version, in their order.
fn deleted_entries<'a>(
    alloc: Global,
    version: u32,
    rows: &[&'a Held],
) -> Result<Vec<RowEntry<'a>>, AllocError>
    requires { (row : Held) → Contains (map (λ r. r.now) rows.now) row → row.born < 2 ^ 63 }
    ensures { IfOk result (λ entries. (front : List ℕ)
        → map (entry_in front) entries.items
        ≡ map (deleted_entry_of front version) (map (λ r. r.now) rows.now)) }
{
    let mut entries = Vec::with_capacity(alloc, rows.len())?;
    for row in rows {
        entries.push(deleted_entry(version, row))?;
    }
    Ok(entries)
}

/// The entries of the manifest of this owner, as it is written anew: of its live rows those that
/// stay as existing, and then the removed ones as deleted.
pub fn rewritten_entries<'a>(
    alloc: Global,
    version: u32,
    before: &Before<'a>,
    owner: u32,
) -> Result<Vec<RowEntry<'a>>, AllocError>
    requires owner { IsSome (owned_rows before.now.links.now owner) }
    requires born { (row : Held) → Contains (held_rows before.now.links.now owner) row
        → row.born < 2 ^ 63 }
    ensures { IfOk result (λ entries. (front : List ℕ)
        → map (entry_in front) entries.items
        ≡ entries_anew front version before.now.removed.now
        (held_rows before.now.links.now owner)) }
{
    let rows = parted_rows(alloc, before, owner)?;
    let mut entries = existing_entries(alloc, rows.left.as_slice())?;
    let mut deleted = deleted_entries(alloc, version, rows.lost.as_slice())?;
    entries.append(&mut deleted)?;
    Ok(entries)
}

/// The entries of rows that a version adds, in their order.
pub fn added_entries<'a>(
    alloc: Global,
    version: u32,
    rows: &[&'a FileRow],
) -> Result<Vec<RowEntry<'a>>, AllocError>
    ensures { IfOk result (λ entries. (front : List ℕ)
        → map (entry_in front) entries.items
        ≡ map (added_entry_of front version) (map (λ r. r.now) rows.now)) }
{
    let mut entries = Vec::with_capacity(alloc, rows.len())?;
    for row in rows {
        entries.push(added_entry(version, row))?;
    }
    Ok(entries)
}
