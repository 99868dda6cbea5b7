//! The rows that a commit adds, in the order of their manifests.

ghost use Rattle.std.specs.Prelude.{◌≡◌, ◌≤◌, IfOk, drop, length, map, take};
ghost use Rattle.lake_basics.specs.declared.limits.TheConstants.{MAX_MANIFEST_ENTRIES};
ghost use Rattle.iceberg_version.specs.Manifests.{AreParts};

use lake_basics::limits::MAX_MANIFEST_ENTRIES;
use std::alloc::{AllocError, Global};
use table_history::FileRow;

const PART: usize = MAX_MANIFEST_ENTRIES as usize;

/// The rows of a manifest from this place on, so many as it may have.
fn part_from<'a>(rows: &'a [&'a FileRow], start: usize) -> &'a [&'a FileRow]
    requires { start ≤ length rows.now }
    ensures { result.now ≡ take MAX_MANIFEST_ENTRIES (drop start rows.now) }
{
    let size = (rows.len() - start).min(PART);
    &rows[start..start + size]
}

/// The rows, cut into the parts that the new manifests are of, one behind the other.
pub fn parts_of<'a>(
    alloc: Global,
    rows: &'a [&'a FileRow],
) -> Result<Vec<&'a [&'a FileRow]>, AllocError>
    ensures { IfOk result (λ parts. AreParts MAX_MANIFEST_ENTRIES rows.now
        (map (λ part. part.now) parts.items)) }
{
    let mut parts = Vec::new(alloc);
    let mut start = 0;
    while start < rows.len() {
        let part = part_from(rows, start);
        start += part.len();
        parts.push(part)?;
    }
    Ok(parts)
}
