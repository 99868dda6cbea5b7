//! JSON from bytes and texts, and texts in JSON.

ghost use Rattle.std.specs.Prelude.{◌≡◌, IfOk};
ghost use Rattle.serde_json.specs.Read.{read};
ghost use Rattle.serde_json.specs.View.{view, items_view};
ghost use Rattle.lake_basics.specs.Outcome.{Gives, required, each};
ghost use Rattle.json_reading.specs.Json.{json, items, text, text_member};

use crate::member::text_of;
use lake_basics::{Items, ReadError, Text};
use serde_json::Value;
use std::alloc::{AllocError, Global};

/// The value that the bytes are, or this fault where they aren't UTF-8 or no JSON text.
pub fn read_json<F: Drop>(alloc: Global, bytes: &[u8], fault: F) -> Result<Value, ReadError<F>>
    ensures { Gives view result (required fault (json bytes.now)) }
{
    match Value::from_slice(alloc, bytes) {
        Ok(value) => Ok(value),
        Err(error) if error.is_memory() => Err(ReadError::Memory),
        Err(_) => Err(ReadError::Fault(fault)),
    }
}

/// The value that the text is, or this fault where it is no JSON text.
pub fn read_json_text<F: Drop>(alloc: Global, text: &str, fault: F) -> Result<Value, ReadError<F>>
    ensures { Gives view result (required fault (read text.now)) }
{
    match Value::from_str(alloc, text) {
        Ok(value) => Ok(value),
        Err(error) if error.is_memory() => Err(ReadError::Memory),
        Err(_) => Err(ReadError::Fault(fault)),
    }
}

/// The text that the value is, or this fault where it is none.
pub fn text_from<F: Drop>(alloc: Global, value: &Value, fault: F) -> Result<Text, ReadError<F>>
    ensures { Gives (λ t. t) result (text fault (view value.now)) }
{
    match value.as_str() {
        None => Err(ReadError::Fault(fault)),
        Some(text) => Ok(Text::from_str(alloc, text)?),
    }
}

/// The texts that the values are, or this fault where one is none.
pub fn texts_from<F: Copy + Drop>(
    alloc: Global,
    values: &Vec<Value>,
    fault: F,
) -> Result<Items<Text>, ReadError<F>>
    ensures { Gives (λ ts. ts) result (each (text fault) (items (items_view values.now.items))) }
{
    let mut texts = Items::new(alloc);
    for value in values {
        texts.push(text_from(alloc, value, fault)?)?;
    }
    Ok(texts)
}

/// The member as a text of its own, or `None` where there is no such member or it is no text, as
/// null is.
pub fn text_member(alloc: Global, value: &Value, name: &str) -> Result<Option<Text>, AllocError>
    ensures { IfOk result (λ t. t ≡ text_member name.now (view value.now)) }
{
    match text_of(value, name) {
        None => Ok(None),
        Some(text) => Ok(Some(Text::from_str(alloc, text)?)),
    }
}
