//! Values of the fields of an Avro record.

ghost use Rattle.std.specs.Prelude.{◌≡◌, ◌<◌, ◌^◌, map, option_map, IfOk, MatchOption};
ghost use Rattle.lake_basics.specs.Outcome.{Gives};
ghost use Rattle.avro_value.specs.ValueTree.{null, value_tree, values_of};
ghost use Rattle.partition_map.specs.Avro.{branch_of};
ghost use Rattle.iceberg_manifest.specs.Values.{value_at as value_in, whole_value as whole_of, whole_at as whole_in, whole_if_any as whole_if_any_in, required_whole as required_whole_in, whole_or_zero as whole_or_zero_in, sequence_at, int_of, natural_of, required_int as required_int_in, required_natural as required_natural_in, text_value, required_text as required_text_in, record_value, required_record as required_record_in};

use avro_value::Value;
use iceberg_manifest::{FLAW, Reading};
use lake_basics::Text;
use std::alloc::Global;

/// The value of a union's branch, or of a field that is no union. `None` stands for null.
pub(crate) fn branch(value: &Value) -> Option<&Value>
    ensures { MatchOption result (branch_of (value_tree value.now) ≡ null)
        (λ branch. value_tree branch.now ≡ branch_of (value_tree value.now)) }
{
    match value {
        Value::Union(_, branch) => Some(branch),
        Value::NullBranch(_) => None,
        _ => Some(value),
    }
}

pub(crate) fn value_at(values: &[Value], place: usize) -> Option<&Value>
    ensures { option_map (λ v. value_tree v.now) result
        ≡ value_in (values_of (map value_tree values.now)) place }
{
    if place < values.len() {
        Some(&values[place])
    } else {
        None
    }
}

fn whole(value: &Value) -> Reading<Option<i64>>
    ensures { Gives (λ n. n) result (whole_of (value_tree value.now)) }
{
    match value {
        Value::Null => Ok(None),
        Value::Int(n) => Ok(Some(i64::from(*n))),
        Value::Long(n) => Ok(Some(*n)),
        _ => Err(FLAW),
    }
}

/// The whole number at that place, or null.
#[tactic(auto, unfolding(iceberg_manifest::specs::Values::whole_at))]
fn whole_at(values: &[Value], place: usize) -> Reading<Option<i64>>
    ensures { Gives (λ n. n) result (whole_in (values_of (map value_tree values.now)) place) }
{
    let Some(value) = value_at(values, place) else {
        return Ok(None);
    };
    match branch(value) {
        Some(branch) => whole(branch),
        None => Ok(None),
    }
}

/// The same of a field that may be absent, which is as null.
pub(crate) fn whole_if_any(values: &[Value], place: Option<usize>) -> Reading<Option<i64>>
    ensures { Gives (λ n. n) result
        (whole_if_any_in (values_of (map value_tree values.now)) place) }
{
    match place {
        Some(place) => whole_at(values, place),
        None => Ok(None),
    }
}

/// The whole number at that place, which must be there.
#[tactic(auto, unfolding(iceberg_manifest::specs::Values::required_whole))]
pub(crate) fn required_whole(values: &[Value], place: usize) -> Reading<i64>
    ensures { Gives (λ n. n) result
        (required_whole_in (values_of (map value_tree values.now)) place) }
{
    match whole_at(values, place)? {
        Some(n) => Ok(n),
        None => Err(FLAW),
    }
}

/// The whole number of a field that may be absent or null, and then is 0.
#[tactic(auto, unfolding(iceberg_manifest::specs::Values::whole_or_zero))]
pub(crate) fn whole_or_zero(values: &[Value], place: Option<usize>) -> Reading<i64>
    ensures { Gives (λ n. n) result
        (whole_or_zero_in (values_of (map value_tree values.now)) place) }
{
    Ok(whole_if_any(values, place)?.unwrap_or(0))
}

/// A sequence number, which is 0 where there is no such field, and may be null.
pub(crate) fn sequence(values: &[Value], place: Option<usize>) -> Reading<Option<i64>>
    ensures { Gives (λ n. n) result (sequence_at (values_of (map value_tree values.now)) place) }
{
    match place {
        Some(place) => whole_at(values, place),
        None => Ok(Some(0)),
    }
}

/// The number, where it is one of 32 bits.
pub(crate) fn int(n: i64) -> Reading<i32>
    ensures { Gives (λ m. m) result (int_of n) }
{
    if n < -2_147_483_648 || 2_147_483_647 < n {
        return Err(FLAW);
    }
    Ok(n as i32)
}

/// The number, where it isn't negative.
fn natural(n: i64) -> Reading<u64>
    ensures is { Gives (λ m. m) result (natural_of n) }
    ensures small { IfOk result (λ m. m < 2 ^ 63) }
{
    if n < 0 {
        return Err(FLAW);
    }
    Ok(n as u64)
}

#[tactic(auto, unfolding(iceberg_manifest::specs::Values::required_int))]
pub(crate) fn required_int(values: &[Value], place: usize) -> Reading<i32>
    ensures { Gives (λ n. n) result (required_int_in (values_of (map value_tree values.now)) place) }
{
    let n = required_whole(values, place)?;
    int(n)
}

#[tactic(auto, unfolding(iceberg_manifest::specs::Values::required_natural))]
pub(crate) fn required_natural(values: &[Value], place: usize) -> Reading<u64>
    ensures is { Gives (λ n. n) result
        (required_natural_in (values_of (map value_tree values.now)) place) }
    ensures small { IfOk result (λ n. n < 2 ^ 63) }
{
    let n = required_whole(values, place)?;
    natural(n)
}

fn text(value: &Value) -> Reading<&Text>
    ensures { Gives (λ t. t.now) result (text_value (value_tree value.now)) }
{
    match value {
        Value::Text(text) => Ok(text),
        _ => Err(FLAW),
    }
}

/// The text at that place, which must be there.
#[tactic(auto, unfolding(iceberg_manifest::specs::Values::required_text))]
pub(crate) fn required_text(values: &[Value], place: usize) -> Reading<&Text>
    ensures { Gives (λ t. t.now) result
        (required_text_in (values_of (map value_tree values.now)) place) }
{
    let Some(value) = value_at(values, place) else {
        return Err(FLAW);
    };
    match branch(value) {
        Some(branch) => text(branch),
        None => Err(FLAW),
    }
}

pub(crate) fn record(value: &Value) -> Reading<&Vec<Value>>
    ensures { Gives (λ vs. values_of (map value_tree vs.now.items)) result
        (record_value (value_tree value.now)) }
{
    match value {
        Value::Fields(values) => Ok(values),
        _ => Err(FLAW),
    }
}

/// The record at that place, which must be there.
#[tactic(auto, unfolding(iceberg_manifest::specs::Values::required_record))]
pub(crate) fn required_record(values: &[Value], place: usize) -> Reading<&Vec<Value>>
    ensures { Gives (λ vs. values_of (map value_tree vs.now.items)) result
        (required_record_in (values_of (map value_tree values.now)) place) }
{
    let Some(value) = value_at(values, place) else {
        return Err(FLAW);
    };
    match branch(value) {
        Some(branch) => record(branch),
        None => Err(FLAW),
    }
}
