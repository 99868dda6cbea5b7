//! Ids of which no two are one.

ghost use Rattle.std.specs.Prelude.{◌≡◌, true, false, IfOk, MatchOption};
ghost use Rattle.iceberg_metadata.specs.Judging.{is_among, is_among_if_any, are_distinct};
ghost use Rattle.iceberg_metadata.specs.IdSets.{HoldsIds};

use std::alloc::{AllocError, Global};
use std::collections::BTreeSet;

/// The set of these ids. None where two are one.
pub fn id_set(alloc: Global, ids: &[i64]) -> Result<Option<BTreeSet<i64>>, AllocError>
    ensures { IfOk result (λ found. MatchOption found (are_distinct ids.now ≡ false)
        (λ set. (are_distinct ids.now ≡ true) × HoldsIds set ids.now)) }
{
    let mut set = BTreeSet::new(alloc);
    let mut place = ids.len();
    while place > 0 {
        place -= 1;
        if !set.insert(ids[place])? {
            return Ok(None);
        }
    }
    Ok(Some(set))
}
