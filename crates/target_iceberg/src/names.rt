//! The names in the folder of a table's metadata that a commit may have written and not published.

ghost use Rattle.std.specs.Prelude.{◌≡◌, ◌≢◌, ◌↔◌, ◌==◌, ◌++◌, ℕ, List, Contains, IsTrue, MatchOption};
ghost use Rattle.std.specs.Char.{is_ascii_digit};
ghost use Rattle.std.specs.List.{list_all, position};
ghost use Rattle.target_iceberg.specs.Leftovers.{IsDecimal, IsLeftoverName};
ghost use Rattle.target_iceberg.specs.InspectSteps.{AreNumbers, IsFirstOf, IsManifestName, IsNumbered};

use lake_basics::Text;

/// The first of the names that no commit writes before it publishes.
pub(crate) fn first_stray(names: &[Text]) -> Option<&Text>
    ensures { MatchOption result
        ((name : List ℕ) → Contains names.now name → IsLeftoverName name)
        (λ name. IsFirstOf names.now name.now) }
{
    for name in names {
        if !is_leftover(name.as_bytes()) {
            return Some(name);
        }
    }
    None
}

/// Whether a commit may have written the name before it published.
fn is_leftover(name: &[u8]) -> bool
    ensures { IsTrue result ↔ IsLeftoverName name.now }
{
    is_numbered(name, b"lb-v-", b".json")
        || is_numbered(name, b"lb-s-", b".avro")
        || is_manifest(name)
}

/// Whether the name is a decimal between these.
fn is_numbered(name: &[u8], front: &[u8], behind: &[u8]) -> bool
    ensures { IsTrue result ↔ IsNumbered front.now behind.now name.now }
{
    match between(name, front, behind) {
        Some(number) => is_decimal(number),
        None => false,
    }
}

fn is_manifest(name: &[u8]) -> bool
    ensures { IsTrue result ↔ IsManifestName name.now }
{
    match between(name, b"lb-m-", b".avro") {
        Some(numbers) => are_numbers(numbers),
        None => false,
    }
}

/// What stands in the name between these.
fn between<'a>(name: &'a [u8], front: &[u8], behind: &[u8]) -> Option<&'a [u8]>
    ensures { MatchOption result
        ((middle : List ℕ) → name.now ≢ front.now ++ (middle ++ behind.now))
        (λ middle. name.now ≡ front.now ++ (middle.now ++ behind.now)) }
{
    let rest = name.strip_prefix(front)?;
    rest.strip_suffix(behind)
}

/// Whether the bytes are two decimals with a hyphen between them.
fn are_numbers(bytes: &[u8]) -> bool
    ensures { IsTrue result ↔ AreNumbers bytes.now }
{
    match hyphen_in(bytes) {
        Some(place) => is_decimal(&bytes[..place]) && is_decimal(&bytes[place + 1..]),
        None => false,
    }
}

fn hyphen_in(bytes: &[u8]) -> Option<usize>
    ensures { result ≡ position (λ b. b == 45) bytes.now }
{
    bytes.iter().position(|b| *b == b'-')
}

/// Whether the bytes are digits without a leading zero.
fn is_decimal(bytes: &[u8]) -> bool
    ensures { IsTrue result ↔ IsDecimal bytes.now }
{
    if bytes.is_empty() {
        return false;
    }
    if bytes[0] == b'0' && bytes.len() != 1 {
        return false;
    }
    are_digits(bytes)
}

fn are_digits(bytes: &[u8]) -> bool
    ensures { result ≡ list_all is_ascii_digit bytes.now }
{
    bytes.iter().all(|b| b.is_ascii_digit())
}
