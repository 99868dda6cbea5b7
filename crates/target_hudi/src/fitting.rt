//! Whether commits can be published over what is kept.

ghost use Rattle.std.specs.Prelude.{◌≡◌, ◌≢◌, ◌↔◌, Contains, IfErr, IfOk, IsTrue, List, OnOk, Option, Some, option_map, ℕ};
ghost use Rattle.partition_map.specs.declared.kind.PartKind.{PartKind};
ghost use Rattle.table_history.specs.Row.{Row};
ghost use Rattle.table_history.specs.TypeTree.{ColumnTrees};
ghost use Rattle.table_history.specs.declared.table.Commit.{Commit};
ghost use Rattle.table_history.specs.declared.feature.Feature.{Feature};
ghost use Rattle.target_core.specs.Conditions.{Fits};
ghost use Rattle.target_core.specs.Refusals.{IsFitsRefusal};
ghost use Rattle.target_hudi.specs.Fitting.{AreKindsBehind, ChangesKinds, ChangesPartition, HasNoFault, HasSchemaFault, IsAstray, IsAstrayFault, IsCommitFault, IsFaultRefusal, IsFirstFault, Unfit};
ghost use Rattle.target_hudi.specs.Kept.{held_of};

use crate::kept::HudiKept;
use lake_basics::Text;
use lake_basics::limits::MAX_PUBLISHED_COMMITS;
use partition_map::{PartKind, column_kinds, path_carries};
use schema_avro::to_avro;
use schema_map::MapError;
use std::alloc::{AllocError, Global};
use table_history::{Commit, Feature, FileRow, LimitKind};
use target_core::TargetError;

fn are_same_kinds(kinds: &[Option<PartKind>], others: &[Option<PartKind>]) -> bool
    ensures { IsTrue result ↔ (kinds.now ≡ others.now) }
{
    kinds == others
}

fn are_same_texts(texts: &[Text], others: &[Text]) -> bool
    ensures { IsTrue result ↔ (texts.now ≡ others.now) }
{
    texts == others
}

/// Whether a commit is published, and the kinds behind it are others.
fn are_other_kinds(held: &Option<Vec<Option<PartKind>>>, stated: &[Option<PartKind>]) -> bool
    ensures { IsTrue result ↔ ((kinds : List (Option PartKind))
        × (option_map (λ k. k.items) held.now ≡ Some kinds) × (kinds ≢ stated.now)) }
{
    match held {
        None => false,
        Some(kinds) => !are_same_kinds(kinds.as_slice(), stated),
    }
}

/// Whether the kinds of these columns change, from those behind a published commit on, if there is
/// one.
fn changes_kinds(
    alloc: Global,
    names: &[Text],
    kinds: Option<Vec<Option<PartKind>>>,
    commits: &[Commit],
) -> Result<bool, AllocError>
    ensures { IfOk result (λ changes. (before : Option ColumnTrees)
        → AreKindsBehind before names.now (option_map (λ k. k.items) kinds)
        → IsTrue changes ↔ ChangesKinds before names.now commits.now) }
{
    let mut newest = kinds;
    for commit in commits {
        if let Some(schema) = &commit.change.schema {
            let stated = column_kinds(alloc, schema, names)?;
            if are_other_kinds(&newest, stated.as_slice()) {
                return Ok(true);
            }
            newest = Some(stated);
        }
    }
    Ok(false)
}

/// Whether the partition columns of the target, where it has a commit, or their kinds aren't those
/// of the commits.
fn changes_partition(
    alloc: Global,
    kept: &HudiKept,
    partition: &[Text],
    commits: &[Commit],
) -> Result<bool, AllocError>
    ensures { IfOk result (λ changes. IsTrue changes
        ↔ ChangesPartition (held_of kept.now) partition.now commits.now) }
{
    if commits.is_empty() {
        return Ok(false);
    }
    if kept.newest.is_none() {
        return changes_kinds(alloc, partition, None, commits);
    }
    if !are_same_texts(kept.table.partition.as_slice(), partition) {
        return Ok(true);
    }
    let kinds = column_kinds(alloc, &kept.table.schema, partition)?;
    changes_kinds(alloc, partition, Some(kinds), commits)
}

/// Whether the schema that the commit states has a text in Avro. `SchemaType` and `AvroName` come
/// with the name of the top-level column.
fn schema_fits(alloc: Global, commit: &Commit) -> Result<(), TargetError>
    ensures none { OnOk result ((feature : Feature) (column : List ℕ)
        → ¬ HasSchemaFault commit.now feature column) }
    ensures fault { IfErr result (IsFaultRefusal (HasSchemaFault commit.now)) }
{
    let Some(schema) = &commit.change.schema else {
        return Ok(());
    };
    match to_avro(alloc, schema) {
        Ok(_) => Ok(()),
        Err(MapError::Memory) => Err(TargetError::Memory),
        Err(MapError::SchemaType { column }) => Err(TargetError::Unsupported {
            feature: Feature::SchemaType,
            path: column,
        }),
        Err(MapError::AvroName { column }) => Err(TargetError::Unsupported {
            feature: Feature::AvroName,
            path: column,
        }),
        Err(MapError::BadSchema) => unreachable!(),
        Err(MapError::Limit { .. }) => unreachable!(),
    }
}

/// Whether each row's folder carries its values. `PartitionPath` comes with the path of the first
/// row where it doesn't.
fn rows_fit(alloc: Global, partition: &[Text], rows: &[FileRow]) -> Result<(), TargetError>
    ensures none { OnOk result ((row : Row) → Contains rows.now row
        → ¬ IsAstray partition.now row) }
    ensures fault { IfErr result (IsFaultRefusal (IsAstrayFault partition.now rows.now)) }
{
    for row in rows {
        if !path_carries(alloc, row.path.as_str(), partition, row.values.as_slice())? {
            return Err(TargetError::Unsupported {
                feature: Feature::PartitionPath,
                path: row.path.copy(alloc)?,
            });
        }
    }
    Ok(())
}

/// Whether the commit has no fault by itself: first its schema is looked at, and then its rows.
fn commit_fits(alloc: Global, partition: &[Text], commit: &Commit) -> Result<(), TargetError>
    ensures none { OnOk result (HasNoFault partition.now commit.now) }
    ensures fault { IfErr result (IsFaultRefusal (IsCommitFault partition.now commit.now)) }
{
    schema_fits(alloc, commit)?;
    rows_fit(alloc, partition, commit.change.added.as_slice())
}

/// Whether none of the commits has a fault by itself.
fn commits_fit(alloc: Global, partition: &[Text], commits: &[Commit]) -> Result<(), TargetError>
    ensures none { OnOk result ((commit : Commit) → Contains commits.now commit
        → HasNoFault partition.now commit) }
    ensures fault { IfErr result (IsFaultRefusal (IsFirstFault partition.now commits.now)) }
{
    for commit in commits {
        commit_fits(alloc, partition, commit)?;
    }
    Ok(())
}

/// Whether the commits of a source with these partition columns can be published over what is kept.
/// `Limit` where they are too many, then `PartitionChange`, and then commit by commit `SchemaType`
/// and `AvroName` with the column's name, and `PartitionPath` with the path of the first row.
pub(crate) fn fits(
    alloc: Global,
    kept: &HudiKept,
    partition: &[Text],
    commits: &[Commit],
) -> Result<(), TargetError>
    ensures fits { OnOk result (Fits (Unfit (held_of kept.now)) partition.now commits.now) }
    ensures refusal { IfErr result
        (IsFitsRefusal (Unfit (held_of kept.now) partition.now commits.now)) }
{
    if commits.len() as u64 > MAX_PUBLISHED_COMMITS {
        return Err(TargetError::Limit {
            which: LimitKind::Publish,
            number: MAX_PUBLISHED_COMMITS,
        });
    }
    if changes_partition(alloc, kept, partition, commits)? {
        return Err(TargetError::Unsupported {
            feature: Feature::PartitionChange,
            path: Text::from_str(alloc, "")?,
        });
    }
    commits_fit(alloc, partition, commits)
}
