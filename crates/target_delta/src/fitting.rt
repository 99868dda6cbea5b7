//! Whether commits can be published over what is kept.

ghost use Rattle.std.specs.Prelude.{◌≡◌, ◌↔◌, ◌<◌, IfErr, IfOk, IsErrOf, IsTrue, OnOk, length};
ghost use Rattle.lake_basics.specs.declared.limits.TheConstants.{MAX_PUBLISHED_COMMITS};
ghost use Rattle.table_history.specs.declared.limit.LimitKind.TheVariants.{Publish};
ghost use Rattle.partition_map.specs.DeltaText.{HasNoDeltaText};
ghost use Rattle.target_core.specs.Conditions.{Fits};
ghost use Rattle.target_core.specs.Refusals.{IsFitsRefusal};
ghost use Rattle.target_core.specs.declared.target.TargetError.TheVariants.{Limit};
ghost use Rattle.target_delta.specs.Fitting.{ChangesKinds, ChangesPartition, EndsWith, HasValueForm, IsFormOf, Unfit, added_rows};
ghost use Rattle.target_delta.specs.Kept.{end_of};
ghost use Rattle.target_delta.specs.Writing.{LogEnd};

use crate::kept::DeltaKept;
use lake_basics::Text;
use lake_basics::limits::MAX_PUBLISHED_COMMITS;
use partition_map::{PartError, PartKind, column_kinds, to_delta_text};
use std::alloc::{AllocError, Global};
use table_history::{Commit, Feature, FileRow, LimitKind, PartValue};
use target_core::TargetError;

fn are_same_kinds(kinds: &[Option<PartKind>], others: &[Option<PartKind>]) -> bool
    ensures { IsTrue result ↔ (kinds.now ≡ others.now) }
{
    kinds == others
}

fn are_same_texts(texts: &[Text], others: &[Text]) -> bool
    ensures { IsTrue result ↔ (texts.now ≡ others.now) }
{
    texts == others
}

/// Whether the kinds of these columns change, from these ones on. Those that a target without a
/// commit has don't count.
fn changes_kinds(
    alloc: Global,
    names: &[Text],
    kinds: Vec<Option<PartKind>>,
    published: bool,
    commits: &[Commit],
) -> Result<bool, AllocError>
    ensures { IfOk result (λ changes. (end : LogEnd)
        → EndsWith end names.now kinds.items published
        → IsTrue changes ↔ ChangesKinds end commits.now) }
{
    let mut newest = kinds;
    let mut has_commit = published;
    for commit in commits {
        if let Some(schema) = &commit.change.schema {
            let stated = column_kinds(alloc, schema, names)?;
            if has_commit && !are_same_kinds(newest.as_slice(), stated.as_slice()) {
                return Ok(true);
            }
            newest = stated;
        }
        has_commit = true;
    }
    Ok(false)
}

/// Whether the partition columns of the target, which has a commit, or their kinds, aren't those of
/// the commits.
fn changes_partition(
    alloc: Global,
    kept: &DeltaKept,
    partition: &[Text],
    commits: &[Commit],
) -> Result<bool, AllocError>
    ensures { IfOk result (λ changes. IsTrue changes
        ↔ ChangesPartition (end_of kept.now) partition.now commits.now) }
{
    if commits.is_empty() {
        return Ok(false);
    }
    let names = kept.table.partition.as_slice();
    let published = kept.commits > 0;
    if published && !are_same_texts(names, partition) {
        return Ok(true);
    }
    let kinds = column_kinds(alloc, &kept.table.schema, names)?;
    changes_kinds(alloc, names, kinds, published, commits)
}

fn has_text(alloc: Global, value: &PartValue) -> Result<bool, AllocError>
    ensures { IfOk result (λ has. IsTrue has ↔ ¬ HasNoDeltaText value.now) }
{
    match to_delta_text(alloc, value) {
        Ok(_) => Ok(true),
        Err(PartError::ValueForm) => Ok(false),
        Err(_) => Err(AllocError),
    }
}

/// Whether a value of the row has no text.
fn has_value_form(alloc: Global, row: &FileRow) -> Result<bool, AllocError>
    ensures { IfOk result (λ has. IsTrue has ↔ HasValueForm row.now) }
{
    for value in row.values.as_slice() {
        if !has_text(alloc, value)? {
            return Ok(true);
        }
    }
    Ok(false)
}

/// The path of the first of the rows that has a value without a text.
fn form_among(alloc: Global, rows: &[FileRow]) -> Result<Option<Text>, AllocError>
    ensures { IfOk result (IsFormOf rows.now) }
{
    for row in rows {
        if has_value_form(alloc, row)? {
            return Ok(Some(row.path.copy(alloc)?));
        }
    }
    Ok(None)
}

/// The path of the first row that the commits add and that has a value without a text.
fn form_of(alloc: Global, commits: &[Commit]) -> Result<Option<Text>, AllocError>
    ensures { IfOk result (IsFormOf (added_rows commits.now)) }
{
    for commit in commits {
        if let Some(path) = form_among(alloc, commit.change.added.as_slice())? {
            return Ok(Some(path));
        }
    }
    Ok(None)
}

/// Whether the commits of a source with these partition columns can be published over what is kept.
/// `Limit` where they are too many, then `PartitionChange`, then `ValueForm` with the path of the
/// first row.
pub(crate) fn fits(
    alloc: Global,
    kept: &DeltaKept,
    partition: &[Text],
    commits: &[Commit],
) -> Result<(), TargetError>
    ensures fits { OnOk result (Fits (Unfit (end_of kept.now)) partition.now commits.now) }
    ensures refusal { IfErr result
        (IsFitsRefusal (Unfit (end_of kept.now) partition.now commits.now)) }
    ensures many { MAX_PUBLISHED_COMMITS < length commits.now
        → IsErrOf result (Limit Publish MAX_PUBLISHED_COMMITS) }
{
    if commits.len() as u64 > MAX_PUBLISHED_COMMITS {
        return Err(TargetError::Limit {
            which: LimitKind::Publish,
            number: MAX_PUBLISHED_COMMITS,
        });
    }
    if changes_partition(alloc, kept, partition, commits)? {
        return Err(TargetError::Unsupported {
            feature: Feature::PartitionChange,
            path: Text::from_str(alloc, "")?,
        });
    }
    match form_of(alloc, commits)? {
        None => Ok(()),
        Some(path) => Err(TargetError::Unsupported {
            feature: Feature::ValueForm,
            path,
        }),
    }
}
