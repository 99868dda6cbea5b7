//! What metadata names by an id, and the paths of its manifest lists.

ghost use Rattle.std.specs.Prelude.{◌≡◌, ◌&&◌, map, IfOk};
ghost use Rattle.std.specs.List.{list_all};
ghost use Rattle.iceberg_metadata.specs.Location.{names_path};
ghost use Rattle.iceberg_metadata.specs.IdSets.{HoldsIds};
ghost use Rattle.iceberg_metadata.specs.Judging.{is_among, is_among_if_any, are_distinct, are_held, is_consistent};

use iceberg_metadata::{Metadata, Snapshot, Spec, after_front, id_set, location_front};
use std::alloc::{AllocError, Global};
use std::collections::BTreeSet;
use table_history::path_form;

fn spec_ids(alloc: Global, specs: &[Spec]) -> Result<Vec<i64>, AllocError>
    ensures { IfOk result (λ ids. ids.items ≡ map (λ s. s.id) specs.now) }
{
    let mut ids = Vec::with_capacity(alloc, specs.len())?;
    for spec in specs {
        ids.push(i64::from(spec.id))?;
    }
    Ok(ids)
}

fn snapshot_ids(alloc: Global, snapshots: &[Snapshot]) -> Result<Vec<i64>, AllocError>
    ensures { IfOk result (λ ids. ids.items ≡ map (λ s. s.id) snapshots.now) }
{
    let mut ids = Vec::with_capacity(alloc, snapshots.len())?;
    for snapshot in snapshots {
        ids.push(snapshot.id)?;
    }
    Ok(ids)
}

// ---- what is named is held

fn has_schema(schemas: &BTreeSet<i64>, ids: &[i64], id: Option<i32>) -> bool
    requires { HoldsIds schemas.now ids.now }
    ensures { result ≡ is_among_if_any ids.now id }
{
    match id {
        None => true,
        Some(id) => schemas.contains(&i64::from(id)),
    }
}

fn has_schemas(snapshots: &[Snapshot], schemas: &BTreeSet<i64>, ids: &[i64]) -> bool
    requires { HoldsIds schemas.now ids.now }
    ensures { result ≡ list_all (λ s. is_among_if_any ids.now s.schema_id) snapshots.now }
{
    for snapshot in snapshots {
        if !has_schema(schemas, ids, snapshot.schema_id) {
            return false;
        }
    }
    true
}

// ---- paths

fn names_path(front: &[u8], list: &str) -> bool
    ensures { result ≡ names_path front.now list.now }
{
    match after_front(front, list.as_bytes()) {
        None => true,
        Some(rest) => path_form(rest),
    }
}

fn name_paths(front: &[u8], snapshots: &[Snapshot]) -> bool
    ensures { result ≡ list_all (λ s. names_path front.now s.list) snapshots.now }
{
    snapshots
        .iter()
        .all(|snapshot| names_path(front, snapshot.list.as_str()))
}

/// Whether no two of these are one.
fn are_distinct(alloc: Global, ids: &[i64]) -> Result<bool, AllocError>
    ensures { IfOk result (λ own. own ≡ are_distinct ids.now) }
{
    Ok(id_set(alloc, ids)?.is_some())
}

/// Whether no two of the schemas have one id, and each that a snapshot names is among them.
fn are_known(alloc: Global, snapshots: &[Snapshot], schemas: &[i64]) -> Result<bool, AllocError>
    ensures { IfOk result (λ known. known ≡ (are_distinct schemas.now
        && list_all (λ s. is_among_if_any schemas.now s.schema_id) snapshots.now)) }
{
    match id_set(alloc, schemas)? {
        Some(held) => Ok(has_schemas(snapshots, &held, schemas)),
        None => Ok(false),
    }
}

/// Whether no two schemas, specs or snapshots have one id, what is named by an id is held, and each
/// manifest list in the table's location has a path there.
pub(crate) fn is_consistent(
    alloc: Global,
    metadata: &Metadata,
    schemas: &[i64],
) -> Result<bool, AllocError>
    ensures { IfOk result (λ is. is ≡ is_consistent metadata.now schemas.now) }
{
    let snapshots = metadata.snapshots.as_slice();
    if !are_known(alloc, snapshots, schemas)? {
        return Ok(false);
    }
    let held = snapshot_ids(alloc, snapshots)?;
    let specs = spec_ids(alloc, metadata.specs.as_slice())?;
    if !are_distinct(alloc, specs.as_slice())? || !are_distinct(alloc, held.as_slice())? {
        return Ok(false);
    }
    if !are_held(metadata, schemas, specs.as_slice(), held.as_slice()) {
        return Ok(false);
    }
    let front = location_front(alloc, metadata.location.as_str())?;
    Ok(name_paths(front.as_slice(), snapshots))
}

fn is_among(ids: &[i64], id: i64) -> bool
    ensures { result ≡ is_among ids.now id }
{
    ids.contains(&id)
}

fn is_among_if_any(ids: &[i64], id: Option<i64>) -> bool
    ensures { result ≡ is_among_if_any ids.now id }
{
    match id {
        None => true,
        Some(id) => is_among(ids, id),
    }
}

/// Whether the current schema, the default spec and the current snapshot are held.
fn are_held(metadata: &Metadata, schemas: &[i64], specs: &[i64], snapshots: &[i64]) -> bool
    requires specs { specs.now ≡ map (λ s. s.id) metadata.now.specs }
    requires snapshots { snapshots.now ≡ map (λ s. s.id) metadata.now.snapshots }
    ensures { result ≡ are_held metadata.now schemas.now }
{
    is_among(schemas, i64::from(metadata.current_schema))
        && is_among(specs, i64::from(metadata.default_spec))
        && is_among_if_any(snapshots, metadata.current_snapshot)
}
