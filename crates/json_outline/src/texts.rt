//! The texts that values are.

ghost use Rattle.lake_basics.specs.Outcome.{Gives, each};
ghost use Rattle.json_reading.specs.Json.{items, text};
ghost use Rattle.json_outline.specs.View.{view, items_view};

use crate::node::Node;
use lake_basics::{Items, ReadError, Text};
use std::alloc::Global;

/// The text that the value is, or this fault where it is none.
pub fn text_from<F: Drop>(alloc: Global, value: &Node<'_>, fault: F) -> Result<Text, ReadError<F>>
    ensures { Gives (λ t. t) result (text fault (view value.now)) }
{
    match value.as_str() {
        None => Err(ReadError::Fault(fault)),
        Some(text) => Ok(Text::from_str(alloc, text)?),
    }
}

/// The texts that the values are, or this fault where one is none.
pub fn texts_from<F: Copy + Drop>(
    alloc: Global,
    values: &Vec<Node<'_>>,
    fault: F,
) -> Result<Items<Text>, ReadError<F>>
    ensures { Gives (λ ts. ts) result (each (text fault) (items (items_view values.now.items))) }
{
    let mut texts = Items::new(alloc);
    for value in values {
        texts.push(text_from(alloc, value, fault)?)?;
    }
    Ok(texts)
}
