//! The next version that a commit makes, and what is kept behind it.

ghost use Rattle.std.specs.Prelude.{◌≡◌, ◌<◌, ◌^◌, IfErr, IfOk, IsSome, List, OnOk, Some, option_map};
ghost use Rattle.std.specs.Option.{option_copied};
ghost use Rattle.iceberg_metadata.specs.Paths.{current_schema};
ghost use Rattle.iceberg_version.specs.KeptEnd.{end_of, view_of};
ghost use Rattle.iceberg_version.specs.Manifests.{LiveManifest};
ghost use Rattle.iceberg_version.specs.Writing.{PassesAt};
ghost use Rattle.iceberg_commit.specs.NewVersion.{ChangesKinds, IsVersionRefusal};
ghost use Rattle.iceberg_commit.specs.NextVersion.{AreListedBehind, HasCurrent, IsKeptBehind, IsNextVersion};
ghost use Rattle.target_core.specs.Conditions.{CanPublish};
ghost use Rattle.target_core.specs.Views.{origin_of};

use crate::behind::kept_behind;
use crate::version::new_version;
use iceberg_manifest::ManifestInfo;
use iceberg_metadata::{Metadata, held_schema};
use iceberg_version::{IcebergKept, fresh_kept, mark_of, next_manifests, parts_of};
use lake_basics::{Blob, Text};
use std::alloc::{AllocError, Global};
use table_history::{Commit, Kind, Schema, rows_in_order};
use target_core::{Mark, TargetError};

/// A new version of a table: its number, and the bytes of its new manifests in the order of its
/// list, of the list and of its metadata.
#[derive(Drop)]
pub struct NextVersion {
    pub version: u32,
    pub manifests: Vec<Blob>,
    pub list: Blob,
    pub metadata: Blob,
}

/// A copy of the current schema.
fn current_copy(alloc: Global, metadata: &Metadata) -> Result<Schema, AllocError>
    requires { IsSome (current_schema metadata.now) }
    ensures { IfOk result (λ schema.
        option_map (λ s. s.1) (current_schema metadata.now) ≡ Some schema) }
{
    match held_schema(metadata, metadata.current_schema) {
        Some(schema) => schema.1.copy(alloc),
        None => unreachable!(),
    }
}

/// Keeps what stands behind a commit, whose version and metadata are kept already: the table, the
/// mark, and the manifests of the list of these rows.
fn keep_behind(
    alloc: Global,
    kept: &mut IcebergKept,
    commit: &Commit,
    mark: Mark,
    infos: Vec<ManifestInfo>,
) -> Result<(), AllocError>
    requires can { CanPublish (view_of kept.old) commit.now }
    requires version { 0 < kept.old.version }
    requires current { HasCurrent kept.old commit.now.change }
    requires listed { (listed : List LiveManifest)
        × AreListedBehind kept.old commit.now.change infos.items listed }
    ensures { OnOk result ((listed : List LiveManifest)
        → AreListedBehind kept.old commit.now.change infos.items listed
        → IsKeptBehind kept.old commit.now.change mark listed kept.new) }
{
    let image = current_copy(alloc, &kept.metadata)?;
    let added = rows_in_order(alloc, commit.change.added.as_slice())?;
    let parts = parts_of(alloc, added.as_slice())?;
    let manifests = kept.manifests.as_slice();
    let removed = commit.change.removed.as_slice();
    let next = next_manifests(alloc, &kept.links, manifests, removed, parts.len())?;
    let partition = kept.table.partition.as_slice();
    let spent = fresh_kept(
        alloc,
        &kept.metadata.uuid,
        &kept.metadata.location,
        partition,
    )?;
    let before = std::mem::replace(kept, spent);
    *kept = kept_behind(
        alloc,
        before,
        commit,
        image,
        mark,
        infos,
        parts.as_slice(),
        next.as_slice(),
    )?;
    Ok(())
}

/// The version that carries a commit behind what is kept, with a mark of its position in the source
/// of this format and table id, at this time in milliseconds since 1970-01-01. What is kept goes on
/// to stand behind it. `Limit` where a text is longer than a file may be, or the version or a new
/// field id would pass the greatest. After a refusal what is kept is spent.
pub fn next_version(
    alloc: Global,
    kept: &mut IcebergKept,
    commit: &Commit,
    source: Kind,
    table: Option<&Text>,
    now_ms: u64,
) -> Result<NextVersion, TargetError>
    requires now { now_ms < 2 ^ 63 }
    requires can { CanPublish (view_of kept.old) commit.now }
    requires kinds { ¬ ChangesKinds kept.old commit.now.change }
    ensures is { IfOk result (λ new. IsNextVersion kept.old
        (origin_of source (option_copied table.entry)) now_ms commit.now
        (record {
          version = new.version;
          manifests = new.manifests.items;
          list = new.list;
          metadata = new.metadata;
        }) kept.new) }
    ensures refusal { IfErr result (IsVersionRefusal (PassesAt (end_of kept.old)
        (origin_of source (option_copied table.entry)) now_ms commit.now)) }
{
    let written = new_version(alloc, kept, commit, source, table, now_ms)?;
    let version = kept.version;
    let mark = mark_of(alloc, version, &commit.position, source, table)?;
    keep_behind(alloc, kept, commit, mark, written.infos)?;
    Ok(NextVersion {
        version,
        manifests: written.manifests,
        list: written.list,
        metadata: written.metadata,
    })
}
