//! Writing values.

ghost use Rattle.std.specs.Prelude.{◌≡◌, ℕ, ◌*◌, ◌≤◌, ◌++◌, ◌<◌, ◌^◌, ◌∷◌, List, [], map, length, take, drop, FitsSigned, OnOk, if◌then◌else◌};
ghost use Rattle.std.specs.Int.{w32, w64};
ghost use Rattle.avro_value.specs.ValueTree.{value_tree, entry_tree, values_of, entries_of};
ghost use Rattle.avro_value.specs.Varint.{Long};
ghost use Rattle.avro_value.specs.Writing.{zigzag_of, varint_of, length_prefixed, block_encoding, encoding, values_encoding, entries_encoding};
ghost use Rattle.avro_value.specs.Fitting.{IsText, IsSound, AreSound, EntriesAreSound};

use crate::value::Value;
use lake_basics::{Blob, Text};
use std::alloc::AllocError;

/// The natural number that stands for a number with a sign.
fn zigzag(n: i64) -> u64
    ensures { result ≡ zigzag_of n }
{
    if n >= 0 {
        n as u64 * 2
    } else {
        (-1 - n) as u64 * 2 + 1
    }
}

/// Writes a number at the front in as few groups as it needs, and says how many these are.
fn put_varint(out: &mut [u8; 10], z: u64) -> usize
    ensures within { result ≤ 10 }
    ensures exact { take result out.new ≡ varint_of z }
{
    let mut rest = z;
    let mut len = 0;
    while rest >= 128 {
        out[len] = (rest % 128) as u8 + 128;
        len += 1;
        rest /= 128;
    }
    out[len] = rest as u8;
    len + 1
}

/// Writes the shortest spelling of a number at the front, and gives its length.
pub fn put_long(out: &mut [u8; 10], n: i64) -> usize
    ensures within { result ≤ 10 }
    ensures spelled { Long n (take result out.new) }
    ensures shortest { (spelling : List ℕ) → Long n spelling → result ≤ length spelling }
    ensures exact { take result out.new ≡ varint_of (zigzag_of n) }
{
    put_varint(out, zigzag(n))
}

/// Adds a number in as few groups as it needs, which is mostly one.
#[tactic(auto, unfolding(crate::specs::Writing::varint_of, crate::specs::Writing::varint_in_groups))]
fn push_varint(out: &mut Vec<u8>, z: u64) -> Result<(), AllocError>
    ensures { OnOk result (out.new.items ≡ out.old.items ++ varint_of z) }
{
    if z < 128 {
        return push_byte(out, z as u8);
    }
    let mut bytes = [0; 10];
    let len = put_varint(&mut bytes, z);
    out.extend_from_slice(&bytes[..len])
}

fn push_byte(out: &mut Vec<u8>, byte: u8) -> Result<(), AllocError>
    ensures { OnOk result (out.new.items ≡ out.old.items ++ byte ∷ []) }
{
    out.push(byte)?;
    Ok(())
}

/// Adds a `boolean`.
pub fn push_boolean(out: &mut Vec<u8>, b: bool) -> Result<(), AllocError>
    ensures { OnOk result (out.new.items ≡ out.old.items ++ (if b then 1 else 0) ∷ []) }
{
    push_byte(out, if b { 1 } else { 0 })
}

/// Adds an `int`.
pub fn push_int(out: &mut Vec<u8>, n: i32) -> Result<(), AllocError>
    ensures bytes { OnOk result (out.new.items ≡ out.old.items ++ varint_of (zigzag_of n)) }
    ensures sound { FitsSigned w32 n }
{
    push_varint(out, zigzag(i64::from(n)))
}

/// Adds a `long`.
pub fn push_long(out: &mut Vec<u8>, n: i64) -> Result<(), AllocError>
    ensures bytes { OnOk result (out.new.items ≡ out.old.items ++ varint_of (zigzag_of n)) }
    ensures sound { FitsSigned w64 n }
{
    push_varint(out, zigzag(n))
}

/// Adds a number from 0 on, as a `long`.
pub fn push_natural(out: &mut Vec<u8>, n: u64) -> Result<(), AllocError>
    requires { n < 2 ^ 63 }
    ensures { OnOk result (out.new.items ≡ out.old.items ++ varint_of (2 * n)) }
{
    push_varint(out, 2 * n)
}

fn push_index(out: &mut Vec<u8>, index: u32) -> Result<(), AllocError>
    ensures bytes { OnOk result (out.new.items ≡ out.old.items ++ varint_of (2 * index)) }
    ensures sound { index < 2 ^ 32 }
{
    push_natural(out, u64::from(index))
}

/// Adds bytes as they are.
pub fn push_bytes(out: &mut Vec<u8>, bytes: &[u8]) -> Result<(), AllocError>
    ensures { OnOk result (out.new.items ≡ out.old.items ++ bytes.now) }
{
    out.extend_from_slice(bytes)
}

fn push_exact<const N: usize>(out: &mut Vec<u8>, bytes: &[u8; N]) -> Result<(), AllocError>
    ensures bytes { OnOk result (out.new.items ≡ out.old.items ++ bytes.now) }
    ensures sound { length bytes.now ≡ N }
{
    push_bytes(out, bytes)
}

/// Adds a length, and so many bytes.
fn push_prefixed(out: &mut Vec<u8>, bytes: &[u8]) -> Result<(), AllocError>
    ensures { OnOk result (out.new.items ≡ out.old.items ++ length_prefixed bytes.now) }
{
    push_natural(out, bytes.len() as u64)?;
    push_bytes(out, bytes)
}

/// Adds `bytes`: their number, and then they.
pub fn push_blob(out: &mut Vec<u8>, blob: &Blob) -> Result<(), AllocError>
    ensures bytes { OnOk result (out.new.items ≡ out.old.items ++ length_prefixed blob.now) }
    ensures sound { length blob.now < 2 ^ 63 }
{
    push_prefixed(out, blob.as_slice())
}

/// Adds a `string`: the number of its bytes, and then they.
pub fn push_text(out: &mut Vec<u8>, text: &Text) -> Result<(), AllocError>
    ensures bytes { OnOk result (out.new.items ≡ out.old.items ++ length_prefixed text.now) }
    ensures sound { IsText text.now }
{
    push_prefixed(out, text.as_bytes())
}

/// Adds a value.
#[cycle(encode)]
pub fn push_value(out: &mut Vec<u8>, value: &Value) -> Result<(), AllocError>
    ensures bytes { OnOk result (out.new.items ≡ out.old.items ++ encoding (value_tree value.now)) }
    ensures sound { OnOk result (IsSound (value_tree value.now)) }
{
    match value {
        Value::Null => Ok(()),
        Value::Boolean(b) => push_boolean(out, *b),
        Value::Int(n) => push_int(out, *n),
        Value::Long(n) => push_long(out, *n),
        Value::Float(bytes) => push_exact(out, bytes),
        Value::Double(bytes) => push_exact(out, bytes),
        Value::Bytes(blob) => push_blob(out, blob),
        Value::Text(text) => push_text(out, text),
        Value::Fixed(blob) => push_bytes(out, blob.as_slice()),
        Value::Enum(index) => push_index(out, *index),
        Value::Array(items) => push_items(out, items),
        Value::Map(entries) => push_map(out, entries),
        Value::Union(index, inner) => {
            push_index(out, *index)?;
            push_value(out, inner)
        }
        Value::NullBranch(index) => push_index(out, *index),
        Value::Fields(values) => push_values(out, values),
    }
}

#[cycle(encode)]
fn push_items(out: &mut Vec<u8>, items: &Vec<Value>) -> Result<(), AllocError>
    ensures bytes { OnOk result (out.new.items ≡ out.old.items
        ++ block_encoding (length items.now.items)
        (values_encoding (values_of (map value_tree items.now.items)))) }
    ensures short { length items.now.items < 2 ^ 63 }
    ensures sound { OnOk result (AreSound (values_of (map value_tree items.now.items))) }
{
    if items.is_empty() {
        return push_byte(out, 0);
    }
    push_natural(out, items.len() as u64)?;
    push_values(out, items)?;
    push_byte(out, 0)
}

#[cycle(encode)]
fn push_map(out: &mut Vec<u8>, entries: &Vec<(Text, Value)>) -> Result<(), AllocError>
    ensures bytes { OnOk result (out.new.items ≡ out.old.items
        ++ block_encoding (length entries.now.items)
        (entries_encoding (entries_of (map entry_tree entries.now.items)))) }
    ensures short { length entries.now.items < 2 ^ 63 }
    ensures sound { OnOk result (EntriesAreSound (entries_of (map entry_tree entries.now.items))) }
{
    if entries.is_empty() {
        return push_byte(out, 0);
    }
    push_natural(out, entries.len() as u64)?;
    push_entries(out, entries)?;
    push_byte(out, 0)
}

/// Adds values one behind the other.
#[cycle(encode)]
pub fn push_values(out: &mut Vec<u8>, values: &[Value]) -> Result<(), AllocError>
    ensures bytes { OnOk
        result (out.new.items
        ≡ out.old.items ++ values_encoding (values_of (map value_tree values.now))) }
    ensures sound { OnOk result (AreSound (values_of (map value_tree values.now))) }
{
    for value in values {
        push_value(out, value)?;
    }
    Ok(())
}

/// Adds keys and values one behind the other.
#[cycle(encode)]
fn push_entries(out: &mut Vec<u8>, entries: &[(Text, Value)]) -> Result<(), AllocError>
    ensures bytes { OnOk
        result (out.new.items
        ≡ out.old.items ++ entries_encoding (entries_of (map entry_tree entries.now))) }
    ensures sound { OnOk result (EntriesAreSound (entries_of (map entry_tree entries.now))) }
{
    for pair in entries {
        push_text(out, &pair.0)?;
        push_value(out, &pair.1)?;
    }
    Ok(())
}
