//! The ancestors of a table's current snapshot.

ghost use Rattle.std.specs.Prelude.{◌≡◌, ◌⊎◌, ◌+◌, ℤ, IfOk, IfErr, IsErrOf, Some, None, option_map, option_and_then, is_some, if◌then◌else◌};
ghost use Rattle.std.specs.Ordering.{int_cmp, int_eq};
ghost use Rattle.std.specs.BTreeMap.{get, btree_map_len};
ghost use Rattle.std.specs.List.{list_any};
ghost use Rattle.iceberg_ancestry.specs.Ancestry.{held_at, LeadsTo, IsAncestry, FormsCycle};
ghost use Rattle.iceberg_ancestry.specs.ById.{HoldsAll, has_id, held_beside, is_at, taken_of, value_at};

use iceberg_metadata::{Metadata, MetadataError, Snapshot, Snapshots};
use lake_basics::Items;
use std::alloc::{AllocError, Global};
use std::collections::BTreeMap;

/// The snapshots by their ids. Of two with one id the first stands.
fn by_id<'a>(
    alloc: Global,
    snapshots: &'a [Snapshot],
) -> Result<BTreeMap<i64, &'a Snapshot>, AllocError>
    ensures { IfOk result (λ m. HoldsAll m snapshots.now) }
{
    let mut found = BTreeMap::new(alloc);
    let mut place = snapshots.len();
    while place > 0 {
        place -= 1;
        let snapshot = &snapshots[place];
        found.insert(snapshot.id, snapshot)?;
    }
    Ok(found)
}

fn take_id<'a>(left: &mut BTreeMap<i64, &'a Snapshot>, id: i64) -> Option<&'a Snapshot>
    ensures taken { option_map (λ s. s.now) result ≡ value_at left.old id }
    ensures left { (q : ℤ) → get int_cmp left.new q
        ≡ (if int_eq id q then None else get int_cmp left.old q) }
    ensures less { btree_map_len left.new + (if is_some result then 1 else 0)
        ≡ btree_map_len left.old }
{
    left.remove(&id)
}

/// Takes the snapshot of this id, if it is there.
fn take<'a>(left: &mut BTreeMap<i64, &'a Snapshot>, id: Option<i64>) -> Option<&'a Snapshot>
    ensures taken { option_map (λ s. s.now) result ≡ taken_of left.old id }
    ensures left { (q : ℤ) → get int_cmp left.new q
        ≡ (if is_at id q then None else get int_cmp left.old q) }
    ensures less { btree_map_len left.new + (if is_some result then 1 else 0)
        ≡ btree_map_len left.old }
{
    match id {
        None => None,
        Some(id) => take_id(left, id),
    }
}

/// The snapshots from this id on, by their parents, as far as each is held and wasn't met before,
/// and the id at which that ends.
fn walk(
    alloc: Global,
    snapshots: &[Snapshot],
    start: Option<i64>,
) -> Result<(Snapshots, Option<i64>), AllocError>
    ensures chain { IfOk result (λ w. LeadsTo snapshots.now start w.0 w.1) }
    ensures stops { IfOk result (λ w. option_and_then (held_beside w.0 snapshots.now) w.1 ≡ None) }
{
    let mut left = by_id(alloc, snapshots)?;
    let mut found = Items::new(alloc);
    let mut next = start;
    while let Some(snapshot) = take(&mut left, next) {
        found.push(snapshot.copy(alloc)?)?;
        next = snapshot.parent;
    }
    Ok((found, next))
}

fn is_held(snapshots: &[Snapshot], id: i64) -> bool
    ensures { result ≡ list_any (has_id id) snapshots.now }
{
    snapshots.iter().any(|snapshot| snapshot.id == id)
}

#[tactic(auto, using(crate::proofs::AncestryLemmas::is_some_held))]
fn is_held_at(snapshots: &[Snapshot], id: Option<i64>) -> bool
    ensures { result ≡ is_some (held_at snapshots.now id) }
{
    match id {
        None => false,
        Some(id) => is_held(snapshots, id),
    }
}

/// The current snapshot, its parent, the parent of that, and so on as far as they are held. Empty
/// where there is no current snapshot. Malformed exactly where the parents lead back to a snapshot.
pub fn ancestry(alloc: Global, metadata: &Metadata) -> Result<Snapshots, MetadataError>
    ensures ancestors { IfOk result (IsAncestry metadata.now) }
    ensures malformed { IsErrOf result MetadataError.Malformed → FormsCycle metadata.now }
    ensures refused { FormsCycle metadata.now → IfOk result (λ _. ⊥) }
    ensures only { IfErr result (λ e. (e ≡ MetadataError.Memory) ⊎ (e ≡ MetadataError.Malformed)) }
{
    let snapshots = metadata.snapshots.as_slice();
    let (ancestors, next) = walk(alloc, snapshots, metadata.current_snapshot)?;
    if is_held_at(snapshots, next) {
        return Err(MetadataError::Malformed);
    }
    Ok(ancestors)
}
