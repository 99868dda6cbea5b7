//! The named member of a JSON value, where it is of a kind.

ghost use Rattle.std.specs.Prelude.{◌≡◌, ◌<◌, ◌^◌, option_map, IfSome};
ghost use Rattle.serde_json.specs.View.{view, items_view, members_view};
ghost use Rattle.json_reading.specs.Json.{text_member, bool_member, whole, whole_member, int, int_member, count, count_member, list_member, object_member, present};

use serde_json::{Map, Value};

/// The member, where it is a text.
pub fn text_of<'a>(value: &'a Value, name: &str) -> Option<&'a str>
    ensures { option_map (λ s. s.now) result ≡ text_member name.now (view value.now) }
{
    value.get(name).and_then(Value::as_str)
}

/// The member, where it is true or false.
pub fn bool_of(value: &Value, name: &str) -> Option<bool>
    ensures { result ≡ bool_member name.now (view value.now) }
{
    value.get(name).and_then(Value::as_bool)
}

/// The member, where it is a whole number of 64 bits with a sign.
pub fn whole_of(value: &Value, name: &str) -> Option<i64>
    ensures { result ≡ whole_member name.now (view value.now) }
{
    value.get(name).and_then(Value::as_i64)
}

/// The member, where it is an array.
pub fn list_of<'a>(value: &'a Value, name: &str) -> Option<&'a Vec<Value>>
    ensures { option_map (λ v. items_view v.now.items) result
        ≡ list_member name.now (view value.now) }
{
    value.get(name).and_then(Value::as_array)
}

/// The member, where it is an object.
pub fn object_of<'a>(value: &'a Value, name: &str) -> Option<&'a Map<String, Value>>
    ensures { option_map (λ m. members_view m.now.entries) result
        ≡ object_member name.now (view value.now) }
{
    value.get(name).and_then(Value::as_object)
}

/// The member, where it is there and isn't null.
pub fn present_of<'a>(value: &'a Value, name: &str) -> Option<&'a Value>
    ensures { option_map (λ v. view v.now) result ≡ present name.now (view value.now) }
{
    match value.get(name) {
        Some(Value::Null) | None => None,
        Some(member) => Some(member),
    }
}

/// The number, where the value is a whole number of 64 bits with a sign.
pub fn whole_in(value: &Value) -> Option<i64>
    ensures { result ≡ whole (view value.now) }
{
    value.as_i64()
}

/// The number, where the value is a whole number of 32 bits with a sign.
pub fn int_in(value: &Value) -> Option<i32>
    ensures { result ≡ int (view value.now) }
{
    let number = value.as_i64()?;
    if number < -2_147_483_648 || 2_147_483_647 < number {
        return None;
    }
    Some(number as i32)
}

/// The number, where the value is a whole number from 0 to 2^63 - 1.
pub fn count_in(value: &Value) -> Option<u64>
    ensures is { result ≡ count (view value.now) }
    ensures small { IfSome result (λ n. n < 2 ^ 63) }
{
    let number = value.as_i64()?;
    if number < 0 {
        return None;
    }
    Some(number as u64)
}

/// The member, where it is a whole number of 32 bits with a sign.
pub fn int_of(value: &Value, name: &str) -> Option<i32>
    ensures { result ≡ int_member name.now (view value.now) }
{
    int_in(value.get(name)?)
}

/// The member, where it is a whole number from 0 to 2^63 - 1.
pub fn count_of(value: &Value, name: &str) -> Option<u64>
    ensures is { result ≡ count_member name.now (view value.now) }
    ensures small { IfSome result (λ n. n < 2 ^ 63) }
{
    count_in(value.get(name)?)
}
