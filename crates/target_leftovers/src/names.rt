//! The names that a commit writes under before it publishes.

ghost use Rattle.std.specs.Prelude.{◌≡◌, ◌≢◌, ◌↔◌, ◌<◌, ◌==◌, ◌++◌, ℕ, List, IsTrue, MatchOption, length};
ghost use Rattle.std.specs.Char.{is_ascii_digit};
ghost use Rattle.std.specs.List.{list_all, position};
ghost use Rattle.std.specs.Str.Parse.{IsNumeral};
ghost use Rattle.hudi_names.specs.Time.{IsDigits};
ghost use Rattle.target_leftovers.specs.Names.{AreNumbers, IsDecimal, IsDeltaName, IsIcebergName, IsManifestName, IsNumbered};

/// Whether a Delta version may have been staged under the name: `.lakebridge-`, 20 digits and
/// `.json`.
pub fn is_delta_name(name: &[u8]) -> bool
    ensures { IsTrue result ↔ IsDeltaName name.now }
{
    match between(name, b".lakebridge-", b".json") {
        Some(digits) => are_so_many_digits(digits, 20),
        None => false,
    }
}

/// Whether a commit may have written the name before it published: `lb-v-`, a decimal and `.json`,
/// `lb-s-`, a decimal and `.avro`, or `lb-m-`, two decimals with a hyphen and `.avro`.
pub fn is_iceberg_name(name: &[u8]) -> bool
    ensures { IsTrue result ↔ IsIcebergName name.now }
{
    is_numbered(name, b"lb-v-", b".json")
        || is_numbered(name, b"lb-s-", b".avro")
        || is_manifest(name)
}

/// Whether the name is the 17 digits of an instant, as a claim has them (Hudi technical
/// specification, timeline).
pub fn is_claim_name(name: &[u8]) -> bool
    ensures { IsTrue result ↔ IsDigits name.now }
{
    are_so_many_digits(name, 17)
}

/// Whether the name is a decimal between these.
fn is_numbered(name: &[u8], front: &[u8], behind: &[u8]) -> bool
    ensures { IsTrue result ↔ IsNumbered front.now behind.now name.now }
{
    match between(name, front, behind) {
        Some(number) => is_decimal(number),
        None => false,
    }
}

fn is_manifest(name: &[u8]) -> bool
    ensures { IsTrue result ↔ IsManifestName name.now }
{
    match between(name, b"lb-m-", b".avro") {
        Some(numbers) => are_numbers(numbers),
        None => false,
    }
}

/// What stands in the name between these.
fn between<'a>(name: &'a [u8], front: &[u8], behind: &[u8]) -> Option<&'a [u8]>
    ensures { MatchOption result
        ((middle : List ℕ) → name.now ≢ front.now ++ (middle ++ behind.now))
        (λ middle. name.now ≡ front.now ++ (middle.now ++ behind.now)) }
{
    let rest = name.strip_prefix(front)?;
    rest.strip_suffix(behind)
}

/// Whether the bytes are two decimals with a hyphen between them.
fn are_numbers(bytes: &[u8]) -> bool
    ensures { IsTrue result ↔ AreNumbers bytes.now }
{
    match hyphen_in(bytes) {
        Some(place) => is_decimal(&bytes[..place]) && is_decimal(&bytes[place + 1..]),
        None => false,
    }
}

fn hyphen_in(bytes: &[u8]) -> Option<usize>
    ensures { result ≡ position (λ b. b == 45) bytes.now }
{
    bytes.iter().position(|b| *b == b'-')
}

/// Whether the bytes are digits without a leading zero.
fn is_decimal(bytes: &[u8]) -> bool
    ensures { IsTrue result ↔ IsDecimal bytes.now }
{
    if bytes.is_empty() {
        return false;
    }
    if bytes[0] == b'0' && bytes.len() != 1 {
        return false;
    }
    are_digits(bytes)
}

/// Whether the bytes are so many digits.
fn are_so_many_digits(bytes: &[u8], count: usize) -> bool
    requires { 0 < count }
    ensures { IsTrue result ↔ (length bytes.now ≡ count) × IsNumeral 10 bytes.now }
{
    bytes.len() == count && are_digits(bytes)
}

fn are_digits(bytes: &[u8]) -> bool
    ensures { result ≡ list_all is_ascii_digit bytes.now }
{
    bytes.iter().all(|b| b.is_ascii_digit())
}
