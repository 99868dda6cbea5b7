//! Texts and pairs as JSON values, and the compact text of a value.

ghost use Rattle.std.specs.Prelude.{◌≡◌, ◌≤◌, IfOk, false};
ghost use Rattle.serde_json.specs.Data.{string, array, object, no_members, put, depth};
ghost use Rattle.serde_json.specs.Read.{max_depth};
ghost use Rattle.serde_json.specs.View.{view, items_view, members_view};
ghost use Rattle.serde_json.specs.Written.{compact_text, has_float};
ghost use Rattle.json_reading.specs.Json.{texts_data, text_or_null_data, members_with, IsReadAgain};

use lake_basics::Text;
use serde_json::{Map, Value};
use std::alloc::{AllocError, Global};

/// The text as a value.
pub fn text_value(alloc: Global, text: &str) -> Result<Value, AllocError>
    ensures { IfOk result (λ v. view v ≡ string text.now) }
{
    Ok(Value::String(String::from_str(alloc, text)?))
}

/// The text as a value, or null.
pub fn text_or_null(alloc: Global, text: &Option<Text>) -> Result<Value, AllocError>
    ensures { IfOk result (λ v. view v ≡ text_or_null_data text.now) }
{
    match text {
        None => Ok(Value::Null),
        Some(text) => text_value(alloc, text.as_str()),
    }
}

fn texts_list(alloc: Global, texts: &[Text]) -> Result<Vec<Value>, AllocError>
    ensures { IfOk result (λ v. items_view v.items ≡ texts_data texts.now) }
{
    let mut list = Vec::new(alloc);
    for text in texts {
        list.push(text_value(alloc, text.as_str())?)?;
    }
    Ok(list)
}

/// The array of the texts.
pub fn texts_array(alloc: Global, texts: &[Text]) -> Result<Value, AllocError>
    ensures { IfOk result (λ v. view v ≡ array (texts_data texts.now)) }
{
    Ok(Value::Array(texts_list(alloc, texts)?))
}

/// The members with this one. Of two with one name the later stands.
pub fn with_member(
    alloc: Global,
    members: Map<String, Value>,
    name: &str,
    value: Value,
) -> Result<Map<String, Value>, AllocError>
    ensures { IfOk result (λ m. members_view m.entries
        ≡ put name.now (view value) (members_view members.entries)) }
{
    let mut members = members;
    serde_json::put(&mut members, alloc, name, value)?;
    Ok(members)
}

/// The members with a text. Of two with one name the later stands.
pub fn with_text(
    alloc: Global,
    members: Map<String, Value>,
    name: &str,
    text: &str,
) -> Result<Map<String, Value>, AllocError>
    ensures { IfOk result (λ m. members_view m.entries
        ≡ put name.now (string text.now) (members_view members.entries)) }
{
    let value = text_value(alloc, text)?;
    with_member(alloc, members, name, value)
}

fn texts_map(alloc: Global, pairs: &[(Text, Text)]) -> Result<Map<String, Value>, AllocError>
    ensures { IfOk result (λ m. members_view m.entries
        ≡ members_with string pairs.now no_members) }
{
    let mut map = Map::new(alloc);
    for (name, text) in pairs {
        let value = text_value(alloc, text.as_str())?;
        serde_json::put(&mut map, alloc, name.as_str(), value)?;
    }
    Ok(map)
}

/// The object with these members. Of two with one name the later stands.
pub fn texts_object(alloc: Global, pairs: &[(Text, Text)]) -> Result<Value, AllocError>
    ensures { IfOk result (λ v. view v ≡ object (members_with string pairs.now no_members)) }
{
    Ok(Value::Object(texts_map(alloc, pairs)?))
}

fn nullable_texts_map(
    alloc: Global,
    pairs: &[(Text, Option<Text>)],
) -> Result<Map<String, Value>, AllocError>
    ensures { IfOk result (λ m. members_view m.entries
        ≡ members_with text_or_null_data pairs.now no_members) }
{
    let mut map = Map::new(alloc);
    for (name, text) in pairs {
        let value = text_or_null(alloc, text)?;
        serde_json::put(&mut map, alloc, name.as_str(), value)?;
    }
    Ok(map)
}

/// The object with these members, each a text or null. Of two with one name the later stands.
pub fn nullable_texts_object(
    alloc: Global,
    pairs: &[(Text, Option<Text>)],
) -> Result<Value, AllocError>
    ensures { IfOk result (λ v. view v
        ≡ object (members_with text_or_null_data pairs.now no_members)) }
{
    Ok(Value::Object(nullable_texts_map(alloc, pairs)?))
}

/// The compact text of a value, its members in byte order of their names. What is said of the text
/// is said of a value without a fraction or an exponent in its numbers.
pub fn json_text(alloc: Global, value: &Value) -> Result<Text, AllocError>
    ensures text { IfOk result (λ t. has_float (view value.now) ≡ false
        → t ≡ compact_text (view value.now)) }
    // What nests within the reader's bound is read back.
    ensures reads_back { IfOk result (λ t. has_float (view value.now) ≡ false
        → depth (view value.now) ≤ max_depth → IsReadAgain (view value.now)) }
{
    Ok(Text::from_string(value.to_string(alloc)?))
}
