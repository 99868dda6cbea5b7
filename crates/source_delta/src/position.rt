//! Versions as positions.

ghost use Rattle.std.specs.Prelude.{◌≡◌, ◌≢◌, ◌≤◌, ℕ, IfOk, MatchOption, Some};
ghost use Rattle.std.specs.Fmt.{decimal};
ghost use Rattle.lake_basics.specs.declared.limits.TheConstants.{MAX_DELTA_VERSION};

use lake_basics::Text;
use lake_basics::limits::MAX_DELTA_VERSION;
use source_core::position_of;
use std::alloc::{AllocError, Global};
use table_history::Kind;

/// The position of a version.
pub(crate) fn position(alloc: Global, version: u64) -> Result<Text, AllocError>
    requires { version ≤ MAX_DELTA_VERSION }
    ensures { IfOk result (λ position. position ≡ decimal version) }
{
    position_of(alloc, Kind::Delta, version as i64)
}

/// The version that a position spells, up to version 2^63 - 1.
pub(crate) fn version_at(position: &str) -> Option<u64>
    ensures known { (version : ℕ) → version ≤ MAX_DELTA_VERSION
        → position.now ≡ decimal version → result ≡ Some version }
    ensures within { MatchOption result (Unit {0}) (λ version. version ≤ MAX_DELTA_VERSION) }
{
    let Ok(version) = position.parse::<u64>() else {
        return None;
    };
    if version > MAX_DELTA_VERSION {
        return None;
    }
    Some(version)
}

/// The version whose position this is, letter by letter.
pub(crate) fn version_spelled(alloc: Global, text: &str) -> Result<Option<u64>, AllocError>
    ensures { IfOk result (λ found. MatchOption found
        ((version : ℕ) → version ≤ MAX_DELTA_VERSION → text.now ≢ decimal version)
        (λ version. (version ≤ MAX_DELTA_VERSION) × (text.now ≡ decimal version))) }
{
    let Some(version) = version_at(text) else {
        return Ok(None);
    };
    if position(alloc, version)?.as_str() != text {
        return Ok(None);
    }
    Ok(Some(version))
}
