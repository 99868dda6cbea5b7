//! The outline of a schema's text.

ghost use Rattle.std.specs.Prelude.{IfOk, IfErr};
ghost use Rattle.serde_json.specs.View.{view};
ghost use Rattle.lake_basics.specs.Outcome.{Gives};
ghost use Rattle.delta_outline.specs.Outlines.{outlined, outline_of, outline_of_text, IsOutline, IsNoOutline};

use crate::fault::{MALFORMED, OutlineFault};
use crate::form::{Form, field_names, form_within};
use json_reading::{list_of, read_json, text_of};
use lake_basics::{Items, ReadError, Text};
use serde_json::Value;
use std::alloc::Global;

/// The most levels in which JSON is read.
const MAX_JSON_LEVELS: u64 = 127;

/// The names of the top-level columns, in their order, and whether a type stands anywhere that has no
/// row in the table of types.
#[derive(Drop)]
pub struct Outline {
    pub names: Items<Text>,
    pub has_other: bool,
}

fn outlined(
    alloc: Global,
    value: &Value,
    has_other: bool,
) -> Result<Outline, ReadError<OutlineFault>>
    ensures { Gives (λ o. o) result (outlined has_other (view value.now)) }
{
    let fields = list_of(value, "fields").ok_or(MALFORMED)?;
    let names = field_names(alloc, fields)?;
    Ok(Outline { names, has_other })
}

fn outline_of(alloc: Global, value: &Value) -> Result<Outline, ReadError<OutlineFault>>
    ensures { Gives (λ o. o) result (outline_of (view value.now)) }
{
    let word = text_of(value, "type").ok_or(MALFORMED)?;
    if word != "struct" {
        return Err(MALFORMED);
    }
    match form_within(alloc, value, MAX_JSON_LEVELS)? {
        Form::Known => outlined(alloc, value, false),
        Form::Other => outlined(alloc, value, true),
        Form::Malformed => Err(MALFORMED),
    }
}

#[tactic(auto, unfolding(crate::specs::Outlines::outline_of_text))]
fn outline_of_text(alloc: Global, text: &[u8]) -> Result<Outline, ReadError<OutlineFault>>
    ensures { Gives (λ o. o) result (outline_of_text text.now) }
{
    let value = read_json(alloc, text, OutlineFault::Malformed)?;
    outline_of(alloc, &value)
}

/// The outline of a Delta schema text (Delta Lake protocol, "Schema Serialization Format"), which is
/// gone over whole: its types need no row in the table of types, and no number of columns or levels
/// is too large. `Malformed` comes exactly where the text isn't in the grammar.
pub fn read_outline(alloc: Global, text: &[u8]) -> Result<Outline, ReadError<OutlineFault>>
    // The text is in the grammar, and has just what the outline tells.
    ensures found { IfOk result (IsOutline text.now) }
    // A text without an outline isn't in the grammar.
    ensures refused { IfErr result (IsNoOutline text.now) }
    // The same as a function of the bytes.
    ensures exact { Gives (λ o. o) result (outline_of_text text.now) }
{
    outline_of_text(alloc, text)
}
