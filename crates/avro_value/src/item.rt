//! Items: values without parts, indices, counts and sizes, each at the front of some bytes.

ghost use Rattle.std.specs.Prelude.{◌≡◌, [], ◌∷◌, MatchOption};
ghost use Rattle.avro_value.specs.Layout.{indices};
ghost use Rattle.avro_value.specs.Varint.{zigzag_value as zigzag_value_of};
ghost use Rattle.avro_value.specs.Reading.{GivesAlways, varint_at, long_at, int_at, natural_at, index_at, boolean_at, run_at, bytes_at, text_at};

use crate::fault::Fault;

/// The first byte, and those after it.
fn next_byte(bytes: &[u8]) -> Option<(u8, &[u8])>
    ensures { MatchOption result (bytes.now ≡ []) (λ x. bytes.now ≡ x.0 ∷ x.1.now) }
{
    match bytes {
        [] => None,
        [byte, rest @ ..] => Some((*byte, rest)),
    }
}

/// The number in groups of seven bits, which are mostly one.
#[tactic(auto, unfolding(crate::specs::Reading::varint_at, crate::specs::Reading::varint_in))]
pub fn number(bytes: &[u8]) -> Result<(u64, &[u8]), Fault>
    ensures { GivesAlways (λ x. (x.0, x.1.now)) result (varint_at bytes.now) }
{
    match next_byte(bytes) {
        Some((byte, rest)) if byte < 128 => Ok((u64::from(byte), rest)),
        _ => number_in_groups(bytes),
    }
}

fn number_in_groups(bytes: &[u8]) -> Result<(u64, &[u8]), Fault>
    ensures { GivesAlways (λ x. (x.0, x.1.now)) result (varint_at bytes.now) }
{
    let mut low = 0u64;
    let mut unit = 1u64;
    let mut rest = bytes;
    for i in 0..10u32 {
        let Some((byte, after)) = next_byte(rest) else {
            return Err(Fault::Short);
        };
        let group = u64::from(byte);
        if i == 9 && group >= 2 {
            break;
        }
        if group < 128 {
            return Ok((low + group * unit, after));
        }
        low += (group - 128) * unit;
        unit *= 128;
        rest = after;
    }
    Err(Fault::BadLong)
}

/// An even number stands for its half, an odd one for a negative number.
pub fn zigzag_value(z: u64) -> i64
    ensures { result ≡ zigzag_value_of z }
{
    let half = (z / 2) as i64;
    if z % 2 == 0 { half } else { -1 - half }
}

/// A `long` at the front, and the bytes after it.
#[tactic(auto, unfolding(crate::specs::Reading::long_at))]
pub fn long(bytes: &[u8]) -> Result<(i64, &[u8]), Fault>
    ensures { GivesAlways (λ x. (x.0, x.1.now)) result (long_at bytes.now) }
{
    let (z, rest) = number(bytes)?;
    Ok((zigzag_value(z), rest))
}

/// An `int` at the front, and the bytes after it. A number past 32 bits is a fault.
#[tactic(auto, unfolding(crate::specs::Reading::int_at))]
pub fn int(bytes: &[u8]) -> Result<(i32, &[u8]), Fault>
    ensures { GivesAlways (λ x. (x.0, x.1.now)) result (int_at bytes.now) }
{
    let (z, rest) = number(bytes)?;
    if z >= 1 << 32 {
        return Err(Fault::BadLong);
    }
    let half = (z / 2) as i32;
    Ok((if z % 2 == 0 { half } else { -1 - half }, rest))
}

/// A number from 0 on, or that fault.
#[tactic(auto, unfolding(crate::specs::Reading::natural_at))]
pub fn natural(negative: Fault, bytes: &[u8]) -> Result<(u64, &[u8]), Fault>
    ensures { GivesAlways (λ x. (x.0, x.1.now)) result (natural_at negative bytes.now) }
{
    let (z, rest) = number(bytes)?;
    if z % 2 != 0 {
        return Err(negative);
    }
    Ok((z / 2, rest))
}

/// An index under that number, which a value holds in 32 bits.
#[tactic(auto, unfolding(crate::specs::Reading::index_at))]
pub fn index(count: usize, bytes: &[u8]) -> Result<(u32, &[u8]), Fault>
    ensures { GivesAlways (λ x. (x.0, x.1.now)) result (index_at (indices count) bytes.now) }
{
    let (i, rest) = natural(Fault::BadIndex, bytes)?;
    if i >= (count as u64).min(1 << 32) {
        return Err(Fault::BadIndex);
    }
    Ok((i as u32, rest))
}

/// A `boolean` at the front, and the bytes after it: one byte, 0 or 1.
#[tactic(auto, unfolding(crate::specs::Reading::boolean_at))]
pub fn boolean(bytes: &[u8]) -> Result<(bool, &[u8]), Fault>
    ensures { GivesAlways (λ x. (x.0, x.1.now)) result (boolean_at bytes.now) }
{
    match bytes {
        [] => Err(Fault::Short),
        [0, rest @ ..] => Ok((false, rest)),
        [1, rest @ ..] => Ok((true, rest)),
        [_, ..] => Err(Fault::BadBool),
    }
}

/// So many bytes.
#[tactic(auto, unfolding(crate::specs::Reading::run_at))]
pub fn run(len: usize, bytes: &[u8]) -> Result<(&[u8], &[u8]), Fault>
    ensures { GivesAlways (λ x. (x.0.now, x.1.now)) result (run_at len bytes.now) }
{
    if bytes.len() < len {
        return Err(Fault::Short);
    }
    Ok(bytes.split_at(len))
}

/// The same as an array.
#[tactic(auto, unfolding(crate::specs::Reading::run_at))]
pub fn array<const N: usize>(bytes: &[u8]) -> Result<([u8; N], &[u8]), Fault>
    ensures { GivesAlways (λ x. (x.0, x.1.now)) result (run_at N bytes.now) }
{
    let (run, rest) = run(N, bytes)?;
    match <[u8; N]>::try_from(run) {
        Ok(array) => Ok((array, rest)),
        Err(_) => Err(Fault::Short),
    }
}

/// `bytes` at the front, and those after them: a length, and so many bytes.
#[tactic(auto, unfolding(crate::specs::Reading::bytes_at))]
pub fn bytes(bytes: &[u8]) -> Result<(&[u8], &[u8]), Fault>
    ensures { GivesAlways (λ x. (x.0.now, x.1.now)) result (bytes_at bytes.now) }
{
    let (len, rest) = natural(Fault::BadLength, bytes)?;
    run(len as usize, rest)
}

/// A `string` at the front, and the bytes after it: a length, and so many bytes of UTF-8.
#[tactic(auto, unfolding(crate::specs::Reading::text_at))]
pub fn text(input: &[u8]) -> Result<(&str, &[u8]), Fault>
    ensures { GivesAlways (λ x. (x.0.now, x.1.now)) result (text_at input.now) }
{
    let (run, rest) = bytes(input)?;
    match simdutf8::basic::from_utf8(run) {
        Ok(text) => Ok((text, rest)),
        Err(_) => Err(Fault::BadText),
    }
}
