//! The number that a token of JSON writes, without keeping it.

ghost use Rattle.std.specs.Prelude.{◌≡◌, ◌<◌, ◌==◌, length, slice_index, IsTrue, true, false, is_some, option_map};
ghost use Rattle.serde_json.specs.Data.{number};
ghost use Rattle.serde_json.specs.Read.{number_of, number_from, float_of};
ghost use Rattle.json_reading.specs.Json.{whole};

use fast_float::Numeral;

fn has_minus(bytes: &[u8]) -> bool
    ensures value { result ≡ (slice_index bytes.now 0 == 45) }
    ensures some { IsTrue result → 0 < length bytes.now }
{
    !bytes.is_empty() && bytes[0] == b'-'
}

/// Whether a float comes near enough, as one does to all but the largest numbers.
fn is_finite(negative: bool, numeral: &Numeral<'_>) -> bool
    ensures { result ≡ is_some (float_of negative numeral.now) }
{
    numeral.to_float::<f64>(negative).is_finite()
}

fn unsigned_whole(numeral: &Numeral<'_>) -> Option<Option<i64>>
    ensures { result ≡ option_map (λ n. whole (number n)) (number_from false numeral.now) }
{
    match numeral.to_u64() {
        Some(n) if n <= i64::MAX as u64 => Some(Some(n as i64)),
        Some(_) => Some(None),
        None if is_finite(false, numeral) => Some(None),
        None => None,
    }
}

fn negative_whole(numeral: &Numeral<'_>) -> Option<Option<i64>>
    ensures { result ≡ option_map (λ n. whole (number n)) (number_from true numeral.now) }
{
    match numeral.to_i64(true) {
        Some(n) if n < 0 => Some(Some(n)),
        _ if is_finite(true, numeral) => Some(None),
        _ => None,
    }
}

/// Nothing where the number is out of range, and else the whole number of 64 bits with a sign that it
/// is, if it is one.
pub(crate) fn number_whole(text: &str) -> Option<Option<i64>>
    ensures { result ≡ option_map (λ n. whole (number n)) (number_of text.now) }
{
    let bytes = text.as_bytes();
    if has_minus(bytes) {
        negative_whole(&Numeral::scan(&bytes[1..]))
    } else {
        unsigned_whole(&Numeral::scan(bytes))
    }
}
