//! The number that a token of JSON writes.

ghost use Rattle.std.specs.Prelude.{◌≡◌, ◌<◌, ◌==◌, length, slice_index, IsTrue, true, false, option_map};
ghost use Rattle.serde_json.specs.Find.{as_i64};
ghost use Rattle.serde_json.specs.Read.{number_of, number_from, float_of};
ghost use Rattle.json_outline.specs.View.{number_view};

use fast_float::Numeral;

/// A JSON number (RFC 8259, section 6): a whole number of 64 bits, from zero or below it, and else the
/// nearest finite float.
#[derive(Clone, Copy, Drop)]
pub enum Number {
    Unsigned(u64),
    Negative(i64),
    Float(f64),
}

impl Number {
    /// The number, where it is a whole number of 64 bits with a sign.
    pub fn as_i64(&self) -> Option<i64>
        ensures { result ≡ as_i64 (number_view self.now) }
    {
        match *self {
            Number::Unsigned(n) => if n <= i64::MAX as u64 {
                Some(n as i64)
            } else {
                None
            },
            Number::Negative(n) => Some(n),
            Number::Float(_) => None,
        }
    }
}

fn has_minus(bytes: &[u8]) -> bool
    ensures value { result ≡ (slice_index bytes.now 0 == 45) }
    ensures some { IsTrue result → 0 < length bytes.now }
{
    !bytes.is_empty() && bytes[0] == b'-'
}

/// The nearest float, unless the number is too large for one.
fn nearest(negative: bool, numeral: &Numeral<'_>) -> Option<Number>
    ensures { option_map number_view result ≡ float_of negative numeral.now }
{
    let float = numeral.to_float::<f64>(negative);
    if float.is_finite() {
        Some(Number::Float(float))
    } else {
        None
    }
}

fn unsigned(numeral: &Numeral<'_>) -> Option<Number>
    ensures { option_map number_view result ≡ number_from false numeral.now }
{
    match numeral.to_u64() {
        Some(n) => Some(Number::Unsigned(n)),
        None => nearest(false, numeral),
    }
}

fn negative(numeral: &Numeral<'_>) -> Option<Number>
    ensures { option_map number_view result ≡ number_from true numeral.now }
{
    match numeral.to_i64(true) {
        Some(n) if n < 0 => Some(Number::Negative(n)),
        _ => nearest(true, numeral),
    }
}

/// The number that a token's text writes, where it is in range.
pub(crate) fn number_of(text: &str) -> Option<Number>
    ensures { option_map number_view result ≡ number_of text.now }
{
    let bytes = text.as_bytes();
    if has_minus(bytes) {
        negative(&Numeral::scan(&bytes[1..]))
    } else {
        unsigned(&Numeral::scan(bytes))
    }
}
