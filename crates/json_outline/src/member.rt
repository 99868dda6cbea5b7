//! The named member of a value, where it is of a kind.

ghost use Rattle.std.specs.Prelude.{◌≡◌, ◌<◌, ◌^◌, option_map, IfSome};
ghost use Rattle.json_outline.specs.View.{view, items_view, members_view};
ghost use Rattle.json_reading.specs.Json.{text_member, bool_member, whole, whole_member, int, int_member, count, count_member, list_member, object_member, present};

use crate::node::{Members, Node};

/// The member, where it is a text.
pub fn text_of<'a, 't>(value: &'a Node<'t>, name: &str) -> Option<&'t str>
    ensures { option_map (λ s. s.now) result ≡ text_member name.now (view value.now) }
{
    value.get(name).and_then(Node::as_str)
}

/// The member, where it is true or false.
pub fn bool_of(value: &Node<'_>, name: &str) -> Option<bool>
    ensures { result ≡ bool_member name.now (view value.now) }
{
    value.get(name).and_then(Node::as_bool)
}

/// The member, where it is a whole number of 64 bits with a sign.
pub fn whole_of(value: &Node<'_>, name: &str) -> Option<i64>
    ensures { result ≡ whole_member name.now (view value.now) }
{
    value.get(name).and_then(Node::as_i64)
}

/// The member, where it is an array.
pub fn list_of<'a, 't>(value: &'a Node<'t>, name: &str) -> Option<&'a Vec<Node<'t>>>
    ensures { option_map (λ v. items_view v.now.items) result
        ≡ list_member name.now (view value.now) }
{
    value.get(name).and_then(Node::as_array)
}

/// The member, where it is an object.
pub fn object_of<'a, 't>(value: &'a Node<'t>, name: &str) -> Option<&'a Members<'t>>
    ensures { option_map (λ m. members_view m.now.items) result
        ≡ object_member name.now (view value.now) }
{
    value.get(name).and_then(Node::as_object)
}

/// The member, where it is there and isn't null.
pub fn present_of<'a, 't>(value: &'a Node<'t>, name: &str) -> Option<&'a Node<'t>>
    ensures { option_map (λ v. view v.now) result ≡ present name.now (view value.now) }
{
    match value.get(name) {
        Some(Node::Null) | None => None,
        Some(member) => Some(member),
    }
}

/// The number, where the value is a whole number of 64 bits with a sign.
pub fn whole_in(value: &Node<'_>) -> Option<i64>
    ensures { result ≡ whole (view value.now) }
{
    value.as_i64()
}

/// The number, where the value is a whole number of 32 bits with a sign.
pub fn int_in(value: &Node<'_>) -> Option<i32>
    ensures { result ≡ int (view value.now) }
{
    let number = value.as_i64()?;
    if number < -2_147_483_648 || 2_147_483_647 < number {
        return None;
    }
    Some(number as i32)
}

/// The number, where the value is a whole number from 0 to 2^63 - 1.
pub fn count_in(value: &Node<'_>) -> Option<u64>
    ensures is { result ≡ count (view value.now) }
    ensures small { IfSome result (λ n. n < 2 ^ 63) }
{
    let number = value.as_i64()?;
    if number < 0 {
        return None;
    }
    Some(number as u64)
}

/// The member, where it is a whole number of 32 bits with a sign.
pub fn int_of(value: &Node<'_>, name: &str) -> Option<i32>
    ensures { result ≡ int_member name.now (view value.now) }
{
    int_in(value.get(name)?)
}

/// The member, where it is a whole number from 0 to 2^63 - 1.
pub fn count_of(value: &Node<'_>, name: &str) -> Option<u64>
    ensures is { result ≡ count_member name.now (view value.now) }
    ensures small { IfSome result (λ n. n < 2 ^ 63) }
{
    count_in(value.get(name)?)
}
