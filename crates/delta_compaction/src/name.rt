//! The names of log compactions.

ghost use Rattle.std.specs.Prelude.{◌≡◌, ◌↔◌, ◌<◌, ◌≤◌, ℕ, MatchOption, IfOk, IsTrue, codes, length};
ghost use Rattle.lake_basics.specs.declared.limits.TheConstants.{MAX_DELTA_VERSION};
ghost use Rattle.delta_log.specs.VersionName.{IsVersionDigits};
ghost use Rattle.delta_compaction.specs.RangeName.{AreDigits, IsPaddedRange, IsRangeName};

use delta_log::version_of_name;
use lake_basics::Text;
use std::alloc::{AllocError, Global};

/// The version that 20 digits write, as the name of its commit is read.
fn version_of_digits(digits: &[u8]) -> Option<u64>
    requires { length digits.now ≡ 20 }
    ensures { MatchOption result ((v : ℕ) → v ≤ MAX_DELTA_VERSION → ¬ IsVersionDigits digits.now v)
        (λ v. IsVersionDigits digits.now v × (v ≤ MAX_DELTA_VERSION)) }
{
    let mut name = *b"00000000000000000000.json";
    name[..20].copy_from_slice(digits);
    version_of_name(name.as_slice())
}

/// The versions that twice 20 digits write, the first under the second.
fn range_of_digits(front: &[u8], back: &[u8]) -> Option<(u64, u64)>
    requires front { length front.now ≡ 20 }
    requires back { length back.now ≡ 20 }
    ensures { MatchOption result ((x y : ℕ) → ¬ AreDigits front.now back.now x y)
        (λ r. AreDigits front.now back.now r.0 r.1) }
{
    let first = version_of_digits(front)?;
    let last = version_of_digits(back)?;
    if first >= last {
        return None;
    }
    Some((first, last))
}

/// The first and the last version of the log compaction that has this name (Delta protocol, "Log
/// Compaction Files"): twice 20 digits up to 2^63 - 1 with a point between them, the first number
/// under the second, and `.compacted.json`.
pub fn range_of_name(name: &[u8]) -> Option<(u64, u64)>
    ensures { MatchOption result ((x y : ℕ) → ¬ IsRangeName name.now x y)
        (λ r. IsRangeName name.now r.0 r.1) }
{
    if name.len() != 56 {
        return None;
    }
    let (front, rest) = name.split_at(20);
    let (point, digits) = rest.split_at(1);
    let (back, suffix) = digits.split_at(20);
    if !is_point(point) || !is_suffix(suffix) {
        return None;
    }
    range_of_digits(front, back)
}

fn is_point(point: &[u8]) -> bool
    ensures { IsTrue result ↔ (point.now ≡ codes ".") }
{
    point == b".".as_slice()
}

fn is_suffix(suffix: &[u8]) -> bool
    ensures { IsTrue result ↔ (suffix.now ≡ codes ".compacted.json") }
{
    suffix == b".compacted.json".as_slice()
}

fn digits_text(alloc: Global, version: u64) -> Result<Text, AllocError>
    ensures { IfOk result (λ t. IsVersionDigits t version) }
{
    Ok(Text::from_string(format!(in alloc; "{version:020}")?))
}

/// The name of the log compaction of these versions. `range_of_name` gives versions up to 2^63 - 1
/// back.
pub fn name_of_range(alloc: Global, first: u64, last: u64) -> Result<Text, AllocError>
    requires { first < last }
    ensures { IfOk result (λ t. IsPaddedRange t first last) }
{
    let front = digits_text(alloc, first)?;
    let back = digits_text(alloc, last)?;
    let name = format!(in alloc; "{}.{}.compacted.json", front.as_str(), back.as_str())?;
    Ok(Text::from_string(name))
}
