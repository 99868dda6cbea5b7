//! The names of the versions of a table's metadata.

ghost use Rattle.std.specs.Prelude.{◌≡◌, ◌≤◌, ◌<◌, ◌^◌, ◌++◌, ℕ, MatchOption, Some, codes};
ghost use Rattle.std.specs.Fmt.{decimal};
ghost use Rattle.lake_basics.specs.declared.limits.TheConstants.{MAX_ICEBERG_VERSION};
ghost use Rattle.iceberg_metadata.specs.VersionName.{IsVersionName};

use lake_basics::limits::MAX_ICEBERG_VERSION;

/// The version of the metadata of this name: `v`, a decimal up to 2^31 - 1 without leading zeros, and
/// `.metadata.json` (Apache Iceberg specification, "File System Tables").
pub fn version_of_name(name: &[u8]) -> Option<u32>
    ensures { MatchOption result ((v : ℕ) → ¬ IsVersionName name.now v) (IsVersionName name.now) }
{
    match name {
        [b'v', rest @ ..] => version_of_rest(rest),
        _ => None,
    }
}

fn version_of_rest(rest: &[u8]) -> Option<u32>
    ensures { MatchOption result
        ((v : ℕ) → v ≤ MAX_ICEBERG_VERSION → ¬ (rest.now ≡ decimal v ++ codes ".metadata.json"))
        (λ v. (v ≤ MAX_ICEBERG_VERSION) × (rest.now ≡ decimal v ++ codes ".metadata.json")) }
{
    let digits = rest.strip_suffix(b".metadata.json")?;
    let version = decimal_of(digits)?;
    if version as u64 > MAX_ICEBERG_VERSION {
        return None;
    }
    Some(version)
}

fn decimal_of(digits: &[u8]) -> Option<u32>
    ensures { MatchOption result ((v : ℕ) → v < 2 ^ 32 → ¬ (digits.now ≡ decimal v))
        (λ v. (v < 2 ^ 32) × (digits.now ≡ decimal v)) }
{
    if digits.is_empty() {
        return None;
    }
    if digits[0] == b'+' {
        return None;
    }
    if digits[0] == b'0' && digits.len() != 1 {
        return None;
    }
    match str::from_utf8(digits) {
        Ok(text) => text.parse::<u32>().ok(),
        Err(_) => None,
    }
}
