//! Whether commits can be published over what is kept.

ghost use Rattle.std.specs.Prelude.{◌≡◌, ◌<◌, ◌+ℤ◌, ◌<ℤ◌, ◌≤ℤ◌, ◌↔◌, ◌^◌, true, IfErr, IfOk, IsTrue, OnOk, length, option_map, pos};
ghost use Rattle.std.specs.Ordering.{int_eq};
ghost use Rattle.iceberg_metadata.specs.Paths.{held_schema};
ghost use Rattle.iceberg_version.specs.Sound.{is_own_image};
ghost use Rattle.schema_map.specs.Image.{wide_columns};
ghost use Rattle.table_history.specs.TypeTree.{ColumnTrees};
ghost use Rattle.target_core.specs.Conditions.{Fits};
ghost use Rattle.target_core.specs.Refusals.{IsFitsRefusal};
ghost use Rattle.target_iceberg.specs.Fitting.{ChangesKinds, ChangesPartition, HeldState, Unfit, is_current, state_of, state_with};
ghost use Rattle.target_iceberg.specs.Following.{AreKindsOf, AreHeldBy, IsChangeOf, IsImageAfter, IsPassed, IsReady};
ghost use Rattle.target_iceberg.specs.Newest.{shape_at};

use crate::newest::{NewestShapes, keep_schema, newest_shapes, type_change};
use iceberg_field_ids::{KnownIds, to_iceberg};
use iceberg_version::IcebergKept;
use lake_basics::limits::MAX_PUBLISHED_COMMITS;
use lake_basics::{Items, Text};
use partition_map::{PartKind, column_kinds};
use schema_map::{Ids, MapError, column_paths};
use std::alloc::{AllocError, Global};
use table_history::{Commit, Feature, LimitKind, Schema};
use target_core::TargetError;

// ---- partition columns

fn are_same_kinds(kinds: &[Option<PartKind>], others: &[Option<PartKind>]) -> bool
    ensures { IsTrue result ↔ (kinds.now ≡ others.now) }
{
    kinds == others
}

fn are_same_texts(texts: &[Text], others: &[Text]) -> bool
    ensures { IsTrue result ↔ (texts.now ≡ others.now) }
{
    texts == others
}

/// Whether the kinds of these columns change, from these ones on. Those that a target without a
/// commit has don't count.
fn changes_kinds(
    alloc: Global,
    names: &[Text],
    kinds: Vec<Option<PartKind>>,
    published: bool,
    commits: &[Commit],
) -> Result<bool, AllocError>
    ensures { IfOk result (λ changes. (state : HeldState)
        → AreKindsOf state names.now kinds.items published
        → IsTrue changes ↔ ChangesKinds state names.now commits.now) }
{
    let mut newest = kinds;
    let mut has_commit = published;
    for commit in commits {
        if let Some(schema) = &commit.change.schema {
            let stated = column_kinds(alloc, schema, names)?;
            if has_commit && !are_same_kinds(newest.as_slice(), stated.as_slice()) {
                return Ok(true);
            }
            newest = stated;
        }
        has_commit = true;
    }
    Ok(false)
}

/// Whether the partition columns of the target, where it has a commit, or their kinds aren't those
/// of the commits.
fn changes_partition(
    alloc: Global,
    kept: &IcebergKept,
    partition: &[Text],
    commits: &[Commit],
) -> Result<bool, AllocError>
    ensures { IfOk result (λ changes. IsTrue changes
        ↔ ChangesPartition (state_of kept.now) partition.now commits.now) }
{
    if commits.is_empty() {
        return Ok(false);
    }
    let published = kept.version > 0;
    if published && !are_same_texts(kept.table.partition.as_slice(), partition) {
        return Ok(true);
    }
    let kinds = column_kinds(alloc, &kept.table.schema, partition)?;
    changes_kinds(alloc, partition, kinds, published, commits)
}

// ---- types of columns

/// The schema in Iceberg's types. All of its column paths are told as known, so that none takes a new
/// field id.
fn image_of(alloc: Global, schema: &Schema) -> Result<Schema, AllocError>
    ensures { IfOk result (λ image. image ≡ wide_columns schema.now) }
{
    let mut pairs = Vec::new(alloc);
    for path in column_paths(alloc, schema)? {
        pairs.push((path, 0))?;
    }
    let known = KnownIds {
        pairs: Items::from_vec(pairs),
        last: 0,
    };
    match to_iceberg(alloc, schema, &known) {
        Ok((image, _)) => Ok(image),
        Err(MapError::Limit { .. }) => unreachable!(),
        Err(_) => Err(AllocError),
    }
}

/// The schema after a commit, in Iceberg's types: the one that the commit states, or else after a
/// first one the table's. A later commit that states none has the schema of the one before it, and
/// so none is given.
fn image_after(
    alloc: Global,
    table: &Schema,
    commit: &Commit,
    first: bool,
) -> Result<Option<Schema>, AllocError>
    requires { is_own_image table.now ≡ true }
    ensures { IfOk result (λ image. (state : HeldState) → IsReady state table.now first
        → IsImageAfter state commit.now image) }
{
    if let Some(stated) = &commit.change.schema {
        return Ok(Some(image_of(alloc, stated)?));
    }
    if first {
        return Ok(Some(table.copy(alloc)?));
    }
    Ok(None)
}

fn has_id(schema: &(i32, Schema, Ids), id: i32) -> bool
    ensures { result ≡ int_eq schema.now.0 id }
{
    schema.0 == id
}

/// A copy of the schema of this id.
fn schema_of(
    alloc: Global,
    schemas: &[(i32, Schema, Ids)],
    id: i32,
) -> Result<Option<Schema>, AllocError>
    ensures { IfOk result (λ found. found ≡ option_map (λ s. s.1) (held_schema schemas.now id)) }
{
    for held in schemas {
        if has_id(held, id) {
            return Ok(Some(held.1.copy(alloc)?));
        }
    }
    Ok(None)
}

fn is_current(current: &Option<Schema>, image: &Schema) -> bool
    ensures { result ≡ is_current current.now image.now }
{
    match current {
        Some(current) => current == image,
        None => false,
    }
}

/// The schemas that a target holds behind the commits that were looked at.
#[derive(Drop)]
struct HeldSchemas {
    /// The newest shapes at their column paths.
    newest: NewestShapes,
    current: Option<Schema>,
    /// How many they are, which is the id of the next one.
    count: i64,
}

impl HeldSchemas {
    /// Those of the target.
    fn of(alloc: Global, kept: &IcebergKept) -> Result<HeldSchemas, AllocError>
        ensures held { IfOk result (λ held. AreHeldBy (shape_at held.newest) held.current held.count
            (state_of kept.now)) }
        ensures few { IfOk result (λ held. held.count <ℤ pos (2 ^ 61)) }
    {
        let metadata = &kept.metadata;
        let schemas = metadata.schemas.as_slice();
        Ok(HeldSchemas {
            newest: newest_shapes(alloc, schemas)?,
            current: schema_of(alloc, schemas, metadata.current_schema)?,
            count: schemas.len() as i64,
        })
    }

    /// Holds this Image behind the others, where it isn't the current one.
    fn hold(&mut self, alloc: Global, image: Schema) -> Result<(), AllocError>
        requires { self.old.count <ℤ pos (2 ^ 62) }
        ensures held { OnOk result ((state : HeldState) (stated : ColumnTrees)
            → AreHeldBy (shape_at self.old.newest) self.old.current self.old.count state
            → image ≡ wide_columns stated
            → AreHeldBy (shape_at self.new.newest) self.new.current self.new.count
            (state_with state stated)) }
        ensures count { OnOk result (self.new.count ≤ℤ (self.old.count +ℤ pos 1)) }
    {
        if is_current(&self.current, &image) {
            return Ok(());
        }
        keep_schema(alloc, &mut self.newest, self.count, &image)?;
        self.count += 1;
        self.current = Some(image);
        Ok(())
    }

    /// Holds the schema after a commit. The top-level column of the first column path whose type
    /// changes in it, if one does.
    fn pass(
        &mut self,
        alloc: Global,
        table: &Schema,
        commit: &Commit,
        first: bool,
    ) -> Result<Option<Text>, AllocError>
        requires own { is_own_image table.now ≡ true }
        requires few { self.old.count <ℤ pos (2 ^ 62) }
        ensures passed { IfOk result (λ change. (state : HeldState)
            → AreHeldBy (shape_at self.old.newest) self.old.current self.old.count state
            → IsReady state table.now first
            → IsPassed (shape_at self.new.newest) self.new.current self.new.count state commit.now change) }
        ensures count { OnOk result (self.new.count ≤ℤ (self.old.count +ℤ pos 1)) }
    {
        let Some(image) = image_after(alloc, table, commit, first)? else {
            return Ok(None);
        };
        if let Some(name) = type_change(alloc, &self.newest, &image)? {
            return Ok(Some(name));
        }
        self.hold(alloc, image)?;
        Ok(None)
    }
}

/// The top-level column of the first of the commits that changes a type, commit by commit and depth
/// first.
fn first_change(
    alloc: Global,
    kept: &IcebergKept,
    commits: &[Commit],
) -> Result<Option<Text>, AllocError>
    requires { length commits.now < 2 ^ 32 }
    ensures { IfOk result (IsChangeOf (state_of kept.now) commits.now) }
{
    let mut held = HeldSchemas::of(alloc, kept)?;
    first_passed(alloc, kept, &mut held, commits)
}

/// The top-level column of the first of the commits that changes a type, from the schemas on that the
/// target holds.
fn first_passed(
    alloc: Global,
    kept: &IcebergKept,
    held: &mut HeldSchemas,
    commits: &[Commit],
) -> Result<Option<Text>, AllocError>
    requires few { length commits.now < 2 ^ 32 }
    requires held { AreHeldBy (shape_at held.old.newest) held.old.current held.old.count
        (state_of kept.now) }
    requires count { held.old.count <ℤ pos (2 ^ 61) }
    ensures { IfOk result (IsChangeOf (state_of kept.now) commits.now) }
{
    for (place, commit) in commits.iter().enumerate() {
        if let Some(name) = held.pass(alloc, &kept.table.schema, commit, place == 0)? {
            return Ok(Some(name));
        }
    }
    Ok(None)
}

/// Whether the commits of a source with these partition columns can be published over what is kept.
/// `Limit` where they are too many, then `PartitionChange`, and then `TypeChange` with the top-level
/// column of the first commit that changes a type (Iceberg specification, "Schema Evolution").
pub(crate) fn fits(
    alloc: Global,
    kept: &IcebergKept,
    partition: &[Text],
    commits: &[Commit],
) -> Result<(), TargetError>
    ensures fits { OnOk result (Fits (Unfit (state_of kept.now)) partition.now commits.now) }
    ensures refusal { IfErr result
        (IsFitsRefusal (Unfit (state_of kept.now) partition.now commits.now)) }
{
    if commits.len() as u64 > MAX_PUBLISHED_COMMITS {
        return Err(TargetError::Limit {
            which: LimitKind::Publish,
            number: MAX_PUBLISHED_COMMITS,
        });
    }
    if changes_partition(alloc, kept, partition, commits)? {
        return Err(TargetError::Unsupported {
            feature: Feature::PartitionChange,
            path: Text::from_str(alloc, "")?,
        });
    }
    match first_change(alloc, kept, commits)? {
        None => Ok(()),
        Some(path) => Err(TargetError::Unsupported {
            feature: Feature::TypeChange,
            path,
        }),
    }
}
