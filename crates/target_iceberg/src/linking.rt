//! The live rows of manifests, each under the owner of its manifest.

ghost use Rattle.std.specs.Prelude.{◌≡◌, ◌<◌, ◌≤◌, ◌^◌, [], ℕ, List, Some, length, IfOk};
ghost use Rattle.table_history.specs.Rows.{HasDistinctPaths, HasPath};
ghost use Rattle.file_links.specs.Rows.{HoldsPath, rows_of as owned_by};
ghost use Rattle.iceberg_table.specs.Tables.{rows_in, rows_of};
ghost use Rattle.target_iceberg.specs.InspectSteps.{AreLinked, FillsOwner, LinksManifest};
ghost use Rattle.target_iceberg.specs.Kept.{held_of as held_row};

use file_links::{Held, Links};
use iceberg_live::{LiveRow, Rows};
use iceberg_table::Manifest;
use iceberg_version::KeptManifest;
use lake_basics::Items;
use std::alloc::{AllocError, Global};

/// The manifests of a list, each with an owner of its live rows.
#[derive(Drop)]
pub(crate) struct Linked {
    pub(crate) manifests: Items<KeptManifest>,
    pub(crate) links: Links,
}

/// The live row with the version that added it, whose number is that of its snapshot. No version
/// has a number below 0.
fn held_of(live: LiveRow) -> Held
    ensures is { result ≡ held_row live }
    ensures small { result.born < 2 ^ 63 }
{
    Held {
        row: live.row,
        born: u64::try_from(live.snapshot).unwrap_or(0),
    }
}

/// Puts rows under an owner that has none, in their order, each with the version that added it.
fn hold_rows(links: &mut Links, owner: u32, rows: Rows)
    requires owner { owned_by links.old owner ≡ Some [] }
    requires room { length rows ≤ links.old.room }
    requires apart { (path : List ℕ) → HoldsPath links.old path → ¬ HasPath (rows_in rows) path }
    requires distinct { HasDistinctPaths (rows_in rows) }
    ensures { FillsOwner links.old links.new owner rows }
{
    for live in rows.into_vec() {
        links.insert(owner, held_of(live));
    }
}

/// Puts the live rows of a manifest under a new owner.
fn link(links: &mut Links, manifest: Manifest) -> KeptManifest
    requires owner { 0 < links.old.owner_room }
    requires room { length manifest.rows ≤ links.old.room }
    requires apart { (path : List ℕ) → HoldsPath links.old path
        → ¬ HasPath (rows_in manifest.rows) path }
    requires distinct { HasDistinctPaths (rows_in manifest.rows) }
    ensures { LinksManifest links.old links.new manifest result }
{
    let owner = links.add_owner();
    hold_rows(links, owner, manifest.rows);
    KeptManifest {
        info: manifest.file.info,
        owner,
    }
}

/// Puts the live rows of the manifests, which have distinct paths, under new owners, so many owners
/// and rows at most.
fn link_each(
    alloc: Global,
    links: &mut Links,
    manifests: Items<Manifest>,
    owners: u32,
    rows: u32,
) -> Result<Items<KeptManifest>, AllocError>
    requires none { links.old.owners ≡ [] }
    requires owners { length manifests ≤ owners }
    requires few { length (rows_of manifests) ≤ rows }
    requires distinct { HasDistinctPaths (rows_of manifests) }
    ensures { IfOk result (λ kept. AreLinked manifests kept links.new) }
{
    links.reserve(owners, rows)?;
    let mut kept = Items::new(alloc);
    for manifest in manifests.into_vec() {
        kept.push(link(links, manifest))?;
    }
    Ok(kept)
}

/// The manifests of a list, in its order, each with an owner of its live rows, which number so many
/// at most and have distinct paths.
pub(crate) fn link_all(
    alloc: Global,
    manifests: Items<Manifest>,
    rows: u32,
) -> Result<Linked, AllocError>
    requires few { length (rows_of manifests) ≤ rows }
    requires distinct { HasDistinctPaths (rows_of manifests) }
    ensures { IfOk result (λ l. AreLinked manifests l.manifests l.links) }
{
    let Ok(owners) = u32::try_from(manifests.len()) else {
        return Err(AllocError);
    };
    let mut links = Links::new(alloc);
    let manifests = link_each(alloc, &mut links, manifests, owners, rows)?;
    Ok(Linked { manifests, links })
}
