//! The calls over a whole input and a place in it.

ghost use Rattle.std.specs.Prelude.{◌≡◌, ℕ, ℤ, ◌+◌, ◌-◌, ◌≤◌, length, drop, ◌⊎◌, Err, IfOk, IfErr, MatchResult};
ghost use Rattle.avro_schema.specs.Tree.{tree_of};
ghost use Rattle.avro_value.specs.Layout.{layout, layout_of};
ghost use Rattle.avro_value.specs.ValueTree.{value_tree, ValueTree, value_count};
ghost use Rattle.avro_value.specs.Reading.{value_at, long_at};
ghost use Rattle.avro_value.specs.Answers.{Answers, LongAnswers, Encodes, error_of};
ghost use Rattle.avro_value.specs.Laws.{IsSpelled, IsPrefixFree, IsRefused, IsLimit, IsUnspelled, IsLongAt, IsNoLongAt};
ghost use Rattle.avro_value.specs.Spelling.{Spells};
ghost use Rattle.avro_value.specs.Writing.{encoding};
ghost use Rattle.avro_value.specs.Fitting.{Fits};

use crate::error::AvroError;
use crate::fault::{Fault, FaultAt};
use crate::input::Input;
use crate::value::Value;
use crate::{item, reader, writer};
use avro_schema::Schema;
use lake_basics::limits::MAX_AVRO_VALUES;
use lake_basics::{Blob, ReadError};
use std::alloc::Global;

/// As many values may be made in one call.
pub const MAX_VALUES: usize = MAX_AVRO_VALUES as usize;

/// The fault at its place in an input of that length.
fn error(fault: FaultAt, len: usize) -> AvroError
    ensures { result ≡ error_of fault.fault (len - fault.left) }
{
    fault_error(fault.fault, len.saturating_sub(fault.left))
}

/// The fault at that place.
pub fn fault_error(fault: Fault, at: usize) -> AvroError
    ensures { result ≡ error_of fault at }
{
    match fault {
        Fault::Short => AvroError::Short { at },
        Fault::BadLong => AvroError::BadLong { at },
        Fault::BadLength => AvroError::BadLength { at },
        Fault::BadIndex => AvroError::BadIndex { at },
        Fault::BadText => AvroError::BadText { at },
        Fault::BadBool => AvroError::BadBool { at },
        Fault::Limit => AvroError::Limit { at },
    }
}

/// What reading from the place gives.
fn decoded(
    alloc: Global,
    schema: &Schema,
    bytes: &[u8],
    at: usize,
    budget: usize,
) -> Result<(Value, usize, usize), AvroError>
    requires { at ≤ length bytes.now }
    ensures { Answers (length bytes.now)
        result (value_at (layout schema.now) (drop at bytes.now) budget) }
{
    let mut input = Input {
        rest: &bytes[at..],
        budget,
    };
    match reader::value(alloc, schema, &mut input) {
        Ok(value) => {
            let end = bytes.len().saturating_sub(input.rest.len());
            Ok((value, end, input.budget))
        }
        Err(ReadError::Memory) => Err(AvroError::Memory),
        Err(ReadError::Fault(fault)) => Err(error(fault, bytes.len())),
    }
}

/// The value that begins at the place, the place behind it, and how many of the values that may be
/// made are left. A value counts as it begins, before its parts. What is refused is the first item
/// at fault.
pub fn decode_within(
    alloc: Global,
    schema: &Schema,
    bytes: &[u8],
    at: usize,
    budget: usize,
) -> Result<(Value, usize, usize), AvroError>
    requires { at ≤ length bytes.now }
    // What is read is spelled there.
    ensures found { IfOk result (λ x.
        IsSpelled budget (layout_of (tree_of schema.now)) bytes.now at (value_tree x.0) x.1) }
    ensures fits { IfOk result (λ x. Fits (layout_of (tree_of schema.now)) (value_tree x.0)) }
    ensures counted { IfOk result (λ x. x.2 + value_count (value_tree x.0) ≡ budget) }
    // What is spelled there is read, unless memory runs out.
    ensures only { (v : ValueTree) (end : ℕ)
        → IsSpelled budget (layout_of (tree_of schema.now)) bytes.now at v end
        → MatchResult result (λ x. (value_tree x.0 ≡ v) × (x.1 ≡ end)) (λ e. e ≡ AvroError.Memory) }
    // What is refused is the first fault there, and all before it is spelled.
    ensures refused { IfErr result (λ e. (e ≡ AvroError.Memory)
        ⊎ IsRefused budget (layout_of (tree_of schema.now)) bytes.now at e) }
    // Each refusal but Limit says that no value is spelled there, however many values it has.
    ensures none { IfErr result (λ e. (e ≡ AvroError.Memory) ⊎ IsLimit e
        ⊎ IsUnspelled (layout_of (tree_of schema.now)) bytes.now at) }
    // The first fault there is refused, unless memory runs out.
    ensures first { (e : AvroError)
        → IsRefused budget (layout_of (tree_of schema.now)) bytes.now at e
        → (result ≡ Err e) ⊎ (result ≡ Err AvroError.Memory) }
{
    decoded(alloc, schema, bytes, at, budget)
}

/// The value that begins at the place, and the place behind it. It is refused as `decode_within`
/// refuses it, where 16,777,216 values may be made.
pub fn decode(
    alloc: Global,
    schema: &Schema,
    bytes: &[u8],
    at: usize,
) -> Result<(Value, usize), AvroError>
    requires { at ≤ length bytes.now }
    // What is read is spelled there.
    ensures found { IfOk result (λ x.
        IsSpelled MAX_VALUES (layout_of (tree_of schema.now)) bytes.now at (value_tree x.0) x.1) }
    ensures fits { IfOk result (λ x. Fits (layout_of (tree_of schema.now)) (value_tree x.0)) }
    // What is spelled there is read, unless memory runs out.
    ensures only { (v : ValueTree) (end : ℕ)
        → IsSpelled MAX_VALUES (layout_of (tree_of schema.now)) bytes.now at v end
        → MatchResult result (λ x. (value_tree x.0 ≡ v) × (x.1 ≡ end)) (λ e. e ≡ AvroError.Memory) }
    // No spelling begins another one, so it doesn't matter what follows.
    ensures prefix_free { IsPrefixFree (layout_of (tree_of schema.now)) }
    // What is refused is the first fault there, and all before it is spelled.
    ensures refused { IfErr result (λ e. (e ≡ AvroError.Memory)
        ⊎ IsRefused MAX_VALUES (layout_of (tree_of schema.now)) bytes.now at e) }
    // Each refusal but Limit says that no value is spelled there, however many values it has.
    ensures none { IfErr result (λ e. (e ≡ AvroError.Memory) ⊎ IsLimit e
        ⊎ IsUnspelled (layout_of (tree_of schema.now)) bytes.now at) }
    // The first fault there is refused, unless memory runs out.
    ensures first { (e : AvroError)
        → IsRefused MAX_VALUES (layout_of (tree_of schema.now)) bytes.now at e
        → (result ≡ Err e) ⊎ (result ≡ Err AvroError.Memory) }
{
    match decode_within(alloc, schema, bytes, at, MAX_VALUES) {
        Ok((value, end, _)) => Ok((value, end)),
        Err(error) => Err(error),
    }
}

/// What reading a number from the place gives.
fn long_from(bytes: &[u8], at: usize) -> Result<(i64, usize), AvroError>
    requires { at ≤ length bytes.now }
    ensures { LongAnswers (length bytes.now) at result (long_at (drop at bytes.now)) }
{
    match item::long(&bytes[at..]) {
        Ok((n, rest)) => Ok((n, bytes.len().saturating_sub(rest.len()))),
        Err(fault) => Err(fault_error(fault, at)),
    }
}

/// The number at the place, and the place behind it. It takes no memory.
pub fn read_long(bytes: &[u8], at: usize) -> Result<(i64, usize), AvroError>
    requires { at ≤ length bytes.now }
    // What is read is spelled there.
    ensures found { IfOk result (λ x. IsLongAt bytes.now at x.0 x.1) }
    // What is spelled there is read.
    ensures only { (n : ℤ) (end : ℕ) → IsLongAt bytes.now at n end → result ≡ Ok (n, end) }
    // What is refused is no number there, and says why.
    ensures refused { IfErr result (IsNoLongAt bytes.now at) }
    // What is no number there is refused so.
    ensures first { (e : AvroError) → IsNoLongAt bytes.now at e → result ≡ Err e }
{
    long_from(bytes, at)
}

/// What is written of a value.
fn encoded(alloc: Global, value: &Value) -> Result<Blob, AvroError>
    ensures { Encodes (value_tree value.now) result }
{
    let mut out = Vec::new(alloc);
    match writer::push_value(&mut out, value) {
        Ok(()) => Ok(Blob::from_vec(out)),
        Err(_) => Err(AvroError::Memory),
    }
}

/// A spelling of a value that fits the schema: the shortest numbers, and one block of positive
/// count per array or map that isn't empty.
pub fn encode(alloc: Global, schema: &Schema, value: &Value) -> Result<Blob, AvroError>
    requires { Fits (layout_of (tree_of schema.now)) (value_tree value.now) }
    ensures spelled { IfOk
        result (λ b. Spells (layout_of (tree_of schema.now)) (value_tree value.now) b) }
    ensures exact { IfOk result (λ b. b ≡ encoding (value_tree value.now)) }
    // Decoding it gives the value, where as many values may be made.
    ensures read_back { IfOk result (λ b. value_count (value_tree value.now) ≤ MAX_VALUES
        → IsSpelled MAX_VALUES (layout_of (tree_of schema.now)) b 0 (value_tree value.now)
        (length b)) }
    ensures err { IfErr result (λ e. e ≡ AvroError.Memory) }
{
    let _ = schema;
    encoded(alloc, value)
}
