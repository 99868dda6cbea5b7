//! What is kept behind a commit.

ghost use Rattle.std.specs.Prelude.{◌≡◌, ◌<◌, IfOk, Some, length, map, true, unwrap_or};
ghost use Rattle.std.specs.List.{list_all};
ghost use Rattle.schema_map.specs.Image.{wide_columns};
ghost use Rattle.table_history.specs.Tables.{CanApply};
ghost use Rattle.target_core.specs.Conditions.{CanPublish};
ghost use Rattle.iceberg_version.specs.Advance.{Advances};
ghost use Rattle.iceberg_commit.specs.Behind.{AreAddedParts, IsTableBehind};
ghost use Rattle.iceberg_version.specs.Carrying.{IsNextList, parts_at};
ghost use Rattle.iceberg_version.specs.KeptEnd.{manifests_of, view_of};
ghost use Rattle.iceberg_version.specs.Sound.{has_content};

use iceberg_manifest::ManifestInfo;
use iceberg_version::{IcebergKept, Next, advance};
use std::alloc::{AllocError, Global};
use table_history::{Change, Commit, FileRow, Schema, Table};
use target_core::Mark;

/// The table behind a change, whose schema has this Image in Iceberg's types.
fn table_behind(
    alloc: Global,
    table: Table,
    change: &Change,
    image: Schema,
) -> Result<Table, AllocError>
    requires can { CanApply table change.now }
    requires image { image ≡ wide_columns (unwrap_or change.now.schema table.schema) }
    ensures { IfOk result (IsTableBehind table change.now) }
{
    let mut behind = table;
    behind.apply(alloc, change)?;
    behind.schema = image;
    Ok(behind)
}

/// What is kept behind a commit, where its version and its metadata are kept already: the table, the
/// mark, and the manifests of the new list with these rows there and their live rows.
pub(crate) fn kept_behind(
    alloc: Global,
    kept: IcebergKept,
    commit: &Commit,
    image: Schema,
    mark: Mark,
    infos: Vec<ManifestInfo>,
    parts: &[&[&FileRow]],
    next: &[Next],
) -> Result<IcebergKept, AllocError>
    requires can { CanPublish (view_of kept) commit.now }
    requires image { image ≡ wide_columns (unwrap_or commit.now.change.schema kept.table.schema) }
    requires version { 0 < kept.version }
    requires added { AreAddedParts commit.now.change (parts_at parts.now) }
    requires next { IsNextList commit.now.change.removed (manifests_of kept)
        (length parts.now) next.now }
    requires count { length infos.items ≡ length next.now }
    requires contents { list_all has_content infos.items ≡ true }
    ensures table { IfOk result (λ behind.
        IsTableBehind kept.table commit.now.change behind.table) }
    ensures mark { IfOk result (λ behind. behind.mark ≡ Some mark) }
    ensures version { IfOk result (λ behind. behind.version ≡ kept.version) }
    ensures metadata { IfOk result (λ behind. behind.metadata ≡ kept.metadata) }
    ensures infos { IfOk result (λ behind. map (λ m. m.info) behind.manifests ≡ infos.items) }
    ensures kept { IfOk result (λ behind. Advances commit.now.change.removed kept.version
        kept.manifests (parts_at parts.now) next.now kept.links behind.links behind.manifests) }
{
    let IcebergKept {
        table,
        mark: mark_before,
        version,
        metadata,
        manifests,
        mut links,
    } = kept;
    drop(mark_before);
    let manifests = advance(
        alloc,
        &mut links,
        manifests.as_slice(),
        parts,
        next,
        infos,
        commit.change.removed.as_slice(),
        version,
    )?;
    Ok(IcebergKept {
        table: table_behind(alloc, table, &commit.change, image)?,
        mark: Some(mark),
        version,
        metadata,
        manifests,
        links,
    })
}
