//! The snapshots after a position, up to the head.

ghost use Rattle.std.specs.Prelude.{◌≡◌, ◌≤◌, drop, length, reverse, take, IfErr, IfOk, MatchOption};
ghost use Rattle.std.specs.Bool.{Decides};
ghost use Rattle.std.specs.Fmt.{signed_decimal};
ghost use Rattle.source_core.specs.declared.error.SourceError.TheVariants.{Memory};
ghost use Rattle.source_iceberg.specs.Later.{AreAhead, AreFrom, AreUpTo, HasNone, IsFirstAt, IsFoundBehind, IsNotBehind};

use iceberg_ancestry::ancestry;
use iceberg_metadata::{Metadata, Snapshot, Snapshots};
use lake_basics::{Items, Text};
use source_core::{SourceError, position_of};
use std::alloc::{AllocError, Global};
use table_history::Kind;

/// Whether the position is the snapshot's.
fn is_at(alloc: Global, snapshot: &Snapshot, position: &Text) -> Result<bool, AllocError>
    ensures { IfOk result
        (λ at. Decides at (position.now ≡ signed_decimal snapshot.now.id)) }
{
    Ok(position_of(alloc, Kind::Iceberg, snapshot.id)? == *position)
}

/// The place of the first snapshot of this position.
fn place_of(
    alloc: Global,
    snapshots: &[Snapshot],
    position: &Text,
) -> Result<Option<usize>, AllocError>
    ensures { IfOk result (λ found. MatchOption found (HasNone snapshots.now position.now)
        (IsFirstAt snapshots.now position.now)) }
{
    for place in 0..snapshots.len() {
        if is_at(alloc, &snapshots[place], position)? {
            return Ok(Some(place));
        }
    }
    Ok(None)
}

/// The snapshots from this place on.
fn from_place(snapshots: Snapshots, place: usize) -> Result<Snapshots, AllocError>
    requires { place ≤ length snapshots }
    ensures { IfOk result (λ from. from ≡ drop place snapshots) }
{
    let mut items = snapshots.into_vec();
    Ok(Items::from_vec(items.split_off(place)?))
}

/// The snapshots from the first of this position on. There is none where none has it.
fn from_position(
    alloc: Global,
    snapshots: Snapshots,
    position: &Text,
) -> Result<Snapshots, AllocError>
    ensures { IfOk result (AreFrom snapshots position.now) }
{
    match place_of(alloc, snapshots.as_slice(), position)? {
        Some(place) => from_place(snapshots, place),
        None => Ok(Items::new(alloc)),
    }
}

/// The head's snapshot and its ancestors, the newest first, of which the metadata may have newer
/// ones by now. There is none where the head is that of no ancestor of the current snapshot.
pub(crate) fn ancestors_to(
    alloc: Global,
    metadata: &Metadata,
    head: &Text,
) -> Result<Snapshots, SourceError>
    ensures found { IfOk result (AreUpTo metadata.now head.now) }
    ensures memory { IfErr result (λ e. e ≡ Memory) }
{
    // Where the parents form a cycle, the metadata isn't read.
    let Ok(ancestors) = ancestry(alloc, metadata) else {
        return Err(SourceError::Memory);
    };
    Ok(from_position(alloc, ancestors, head)?)
}

/// The snapshots before this place.
fn up_to_place(snapshots: Snapshots, place: usize) -> Snapshots
    ensures { result ≡ take place snapshots }
{
    let mut items = snapshots.into_vec();
    items.truncate(place);
    Items::from_vec(items)
}

/// The snapshots before the first of this position. None where there is no such snapshot.
fn ahead_of(
    alloc: Global,
    snapshots: Snapshots,
    position: &Text,
) -> Result<Option<Snapshots>, AllocError>
    ensures { IfOk result (λ found. MatchOption found (HasNone snapshots position.now)
        (AreAhead snapshots position.now)) }
{
    match place_of(alloc, snapshots.as_slice(), position)? {
        Some(place) => Ok(Some(up_to_place(snapshots, place))),
        None => Ok(None),
    }
}

/// The same in the opposite order.
fn reversed(snapshots: Snapshots) -> Snapshots
    ensures { result ≡ reverse snapshots }
{
    let mut items = snapshots.into_vec();
    items.reverse();
    Items::from_vec(items)
}

/// The ancestors behind the one of this position, the oldest first. None where the position is that
/// of none of them.
pub(crate) fn later_ancestors(
    alloc: Global,
    ancestors: Snapshots,
    position: &Text,
) -> Result<Option<Snapshots>, SourceError>
    ensures found { IfOk result (λ found. MatchOption found (IsNotBehind ancestors position.now)
        (IsFoundBehind ancestors position.now)) }
    ensures memory { IfErr result (λ e. e ≡ Memory) }
{
    match ahead_of(alloc, ancestors, position)? {
        Some(ahead) => Ok(Some(reversed(ahead))),
        None => Ok(None),
    }
}
