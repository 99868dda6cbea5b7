//! What is kept of the rows and the manifests behind a commit.

ghost use Rattle.std.specs.Prelude.{◌≡◌, ◌≤◌, Contains, IfOk, IsSome, OnOk, length, map, nat_eq};
ghost use Rattle.std.specs.List.{IsDistinct};
ghost use Rattle.table_history.specs.Row.{Row};
ghost use Rattle.table_history.specs.Rows.{HasDistinctPaths};
ghost use Rattle.file_links.specs.Rows.{HoldsPath, rows_of as owned_rows};
ghost use Rattle.iceberg_version.specs.Advance.{AddsRows, Advances, AppendsRows, AreFresh, EndsEmpty, HasOwner, HaveOwners, HoldsJustBehind, IsPlaced, LosesPaths, OwnEachPath, added_rows, new_rows, owners_of, source_of};
ghost use Rattle.iceberg_version.specs.Carrying.{IsNextList, parts_at};
ghost use Rattle.iceberg_version.specs.KeptEnd.{live_manifest};
ghost use Rattle.iceberg_version.specs.Manifests.{born_at};
ghost use Rattle.iceberg_version.specs.declared.carrying.Next.{Next};
ghost use Rattle.iceberg_version.specs.declared.kept.KeptManifest.{KeptManifest};

use crate::carrying::Next;
use crate::kept::KeptManifest;
use file_links::{Held, Links};
use iceberg_manifest::ManifestInfo;
use lake_basics::{Items, Text};
use std::alloc::{AllocError, Global};
use table_history::FileRow;

/// Ends the owners of the manifests that have no live row.
fn end_empty(links: &mut Links, manifests: &[KeptManifest])
    requires there { (m : KeptManifest) → Contains manifests.now m
        → IsSome (owned_rows links.old m.owner) }
    requires distinct { IsDistinct nat_eq (owners_of manifests.now) }
    ensures { EndsEmpty (owners_of manifests.now) links.old links.new }
{
    for manifest in manifests {
        if links.first(manifest.owner).is_none() {
            links.drop_owner(manifest.owner);
        }
    }
}

/// Gives up the rows of these paths.
fn unlink_all(links: &mut Links, removed: &[Text])
    ensures { LosesPaths removed.now links.old links.new }
{
    for path in removed {
        if let Some(slot) = links.find(path.as_bytes()) {
            drop(links.unlink(slot));
        }
    }
}

/// Puts the rows that a version adds behind those of an owner.
fn insert_rows(
    alloc: Global,
    links: &mut Links,
    owner: u32,
    rows: &[&FileRow],
    version: u32,
) -> Result<(), AllocError>
    requires owner { IsSome (owned_rows links.old owner) }
    requires room { length rows.now ≤ links.old.room }
    requires fresh { AreFresh links.old (map (λ r. r.now) rows.now) }
    ensures { OnOk result (AppendsRows owner (map (born_at version) (map (λ r. r.now) rows.now))
        links.old links.new) }
{
    for row in rows {
        let held = Held {
            row: row.copy(alloc)?,
            born: u64::from(version),
        };
        links.insert(owner, held);
    }
    Ok(())
}

/// Begins an owner of the rows that a version adds.
fn add_rows(
    alloc: Global,
    links: &mut Links,
    rows: &[&FileRow],
    version: u32,
) -> Result<u32, AllocError>
    requires { AreFresh links.old (map (λ r. r.now) rows.now) }
    ensures { IfOk result (λ owner.
        AddsRows owner (map (born_at version) (map (λ r. r.now) rows.now)) links.old links.new) }
{
    let Ok(count) = u32::try_from(rows.len()) else {
        return Err(AllocError);
    };
    links.reserve(1, count)?;
    let owner = links.add_owner();
    insert_rows(alloc, links, owner, rows, version)?;
    Ok(owner)
}

/// The owner of a manifest of the new list.
fn owner_of(
    alloc: Global,
    links: &mut Links,
    manifests: &[KeptManifest],
    parts: &[&[&FileRow]],
    next: Next,
    version: u32,
) -> Result<u32, AllocError>
    requires place { IsPlaced (length manifests.now) (length parts.now) next }
    requires fresh { AreFresh links.old (new_rows (source_of (parts_at parts.now) next)) }
    ensures { IfOk result (λ owner. HasOwner manifests.now version
        (source_of (parts_at parts.now) next) owner links.old links.new) }
{
    match next {
        Next::Stays(place) | Next::Anew(place) => Ok(manifests[place].owner),
        Next::Added(place) => add_rows(alloc, links, parts[place], version),
    }
}

/// The owners of the manifests of the new list.
fn owners(
    alloc: Global,
    links: &mut Links,
    manifests: &[KeptManifest],
    parts: &[&[&FileRow]],
    next: &[Next],
    version: u32,
) -> Result<Vec<u32>, AllocError>
    requires places { (one : Next) → Contains next.now one
        → IsPlaced (length manifests.now) (length parts.now) one }
    requires fresh { AreFresh links.old (added_rows (parts_at parts.now) next.now) }
    ensures { IfOk result (λ owners. HaveOwners manifests.now version
        (map (source_of (parts_at parts.now)) next.now) owners.items links.old links.new) }
{
    let mut owners = Vec::with_capacity(alloc, next.len())?;
    for one in next {
        let owner = owner_of(alloc, links, manifests, parts, *one, version)?;
        owners.push(owner)?;
    }
    Ok(owners)
}

/// The manifests of these rows in the list and these owners.
fn with_owners(
    alloc: Global,
    infos: Vec<ManifestInfo>,
    owners: Vec<u32>,
) -> Result<Items<KeptManifest>, AllocError>
    ensures infos { length infos.items ≡ length owners.items
        → IfOk result (λ kept. map (λ m. m.info) kept ≡ infos.items) }
    ensures owners { length infos.items ≡ length owners.items
        → IfOk result (λ kept. owners_of kept ≡ owners.items) }
{
    let kept = infos
        .into_iter()
        .zip(owners)
        .map(|(info, owner)| KeptManifest { info, owner })
        .collect(alloc)?;
    Ok(Items::from_vec(kept))
}

/// What is kept of the manifests behind a commit that makes these of them, with these rows in the
/// list, and removes the rows of these paths. `links` holds their live rows then.
pub fn advance(
    alloc: Global,
    links: &mut Links,
    manifests: &[KeptManifest],
    parts: &[&[&FileRow]],
    next: &[Next],
    infos: Vec<ManifestInfo>,
    removed: &[Text],
    version: u32,
) -> Result<Items<KeptManifest>, AllocError>
    requires there { (m : KeptManifest) → Contains manifests.now m
        → IsSome (owned_rows links.old m.owner) }
    requires apart { IsDistinct nat_eq (owners_of manifests.now) }
    requires places { (one : Next) → Contains next.now one
        → IsPlaced (length manifests.now) (length parts.now) one }
    requires distinct { HasDistinctPaths (added_rows (parts_at parts.now) next.now) }
    requires unheld { (row : Row) → Contains (added_rows (parts_at parts.now) next.now) row
        → HoldsPath links.old row.path → Contains removed.now row.path }
    ensures infos { length infos.items ≡ length next.now
        → IfOk result (λ kept. map (λ m. m.info) kept ≡ infos.items) }
    ensures kept { length infos.items ≡ length next.now
        → IsNextList removed.now (map (live_manifest links.old) manifests.now)
        (length parts.now) next.now
        → IfOk result (Advances removed.now version manifests.now (parts_at parts.now)
        next.now links.old links.new) }
    ensures held { OnOk result (HoldsJustBehind removed.now version
        (added_rows (parts_at parts.now) next.now) links.old links.new) }
    ensures paths { OwnEachPath links.old → OnOk result (OwnEachPath links.new) }
{
    end_empty(links, manifests);
    unlink_all(links, removed);
    let owners = owners(alloc, links, manifests, parts, next, version)?;
    with_owners(alloc, infos, owners)
}
