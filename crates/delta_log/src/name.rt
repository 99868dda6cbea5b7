//! The names of a log's commits.

ghost use Rattle.std.specs.Prelude.{◌≡◌, ◌↔◌, ◌<◌, ◌≤◌, ◌^◌, ℕ, MatchOption, IfOk, IsTrue, codes};
ghost use Rattle.lake_basics.specs.declared.limits.TheConstants.{MAX_DELTA_VERSION};
ghost use Rattle.delta_log.specs.VersionName.{IsVersionDigits, IsPaddedName, IsVersionName};

use lake_basics::Text;
use lake_basics::limits::MAX_DELTA_VERSION;
use std::alloc::{AllocError, Global};

/// The version of the commit that has this name (Delta protocol, "Delta Log Entries"): 20 digits up
/// to 2^63 - 1, and `.json`.
pub fn version_of_name(name: &[u8]) -> Option<u64>
    ensures { MatchOption result ((v : ℕ) → ¬ IsVersionName name.now v) (IsVersionName name.now) }
{
    if name.len() != 25 {
        return None;
    }
    let (digits, suffix) = name.split_at(20);
    if !is_json_suffix(suffix) {
        return None;
    }
    version_of_digits(digits)
}

fn is_json_suffix(suffix: &[u8]) -> bool
    ensures { IsTrue result ↔ (suffix.now ≡ codes ".json") }
{
    suffix == b".json".as_slice()
}

fn version_of_digits(digits: &[u8]) -> Option<u64>
    ensures { MatchOption result ((v : ℕ) → v ≤ MAX_DELTA_VERSION → ¬ IsVersionDigits digits.now v)
        (λ v. IsVersionDigits digits.now v × (v ≤ MAX_DELTA_VERSION)) }
{
    match str::from_utf8(digits) {
        Ok(text) => version_of_text(text),
        Err(_) => None,
    }
}

fn version_of_text(text: &str) -> Option<u64>
    ensures { MatchOption result ((v : ℕ) → v ≤ MAX_DELTA_VERSION → ¬ IsVersionDigits text.now v)
        (λ v. IsVersionDigits text.now v × (v ≤ MAX_DELTA_VERSION)) }
{
    let version = number_of_digits(text)?;
    if version > MAX_DELTA_VERSION {
        return None;
    }
    Some(version)
}

fn number_of_digits(text: &str) -> Option<u64>
    ensures { MatchOption result ((n : ℕ) → n < 2 ^ 64 → ¬ IsVersionDigits text.now n)
        (IsVersionDigits text.now) }
{
    if text.len() != 20 {
        return None;
    }
    if text.as_bytes()[0] == b'+' {
        return None;
    }
    text.parse::<u64>().ok()
}

fn digits_text(alloc: Global, version: u64) -> Result<Text, AllocError>
    ensures { IfOk result (λ t. IsVersionDigits t version) }
{
    Ok(Text::from_string(format!(in alloc; "{version:020}")?))
}

/// The name of the commit of a version. `version_of_name` gives a version up to 2^63 - 1 back.
pub fn name_of_version(alloc: Global, version: u64) -> Result<Text, AllocError>
    ensures name { IfOk result (λ t. IsPaddedName t version) }
    ensures reads_back { IfOk result (λ t. version ≤ MAX_DELTA_VERSION → IsVersionName t version) }
{
    let digits = digits_text(alloc, version)?;
    Ok(Text::from_string(format!(in alloc; "{}.json", digits.as_str())?))
}
