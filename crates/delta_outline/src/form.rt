//! What stands at the places of a schema's JSON.

ghost use Rattle.std.specs.Prelude.{◌≡◌, IfOk};
ghost use Rattle.serde_json.specs.View.{view, items_view};
ghost use Rattle.lake_basics.specs.Outcome.{Gives, each};
ghost use Rattle.json_reading.specs.Json.{items};
ghost use Rattle.delta_outline.specs.Forms.{worse, form_if, field_name, fields_form, struct_form, list_form, map_form, nested_form, own_form, member_form, types_form, parts_form, form};

use crate::fault::{MALFORMED, OutlineFault};
use crate::word::is_known_word;
use json_reading::{bool_of, list_of, text_of};
use lake_basics::{Items, ReadError, Text};
use partition_map::are_distinct;
use serde_json::Value;
use std::alloc::{AllocError, Global};

/// What stands at a place in the JSON of a schema.
#[derive(Clone, Copy, Debug, PartialEq, Eq)]
pub(crate) enum Form {
    /// In the grammar, and a type of the table of types.
    Known,
    /// In the grammar, and no type of the table of types.
    Other,
    /// Not in the grammar.
    Malformed,
}

/// The worse of two forms.
fn worse(one: Form, other: Form) -> Form
    ensures { result ≡ worse one other }
{
    match one {
        Form::Known => other,
        Form::Malformed => Form::Malformed,
        Form::Other => match other {
            Form::Malformed => Form::Malformed,
            Form::Known | Form::Other => Form::Other,
        },
    }
}

fn form_if(is_known: bool) -> Form
    ensures { result ≡ form_if is_known }
{
    if is_known {
        Form::Known
    } else {
        Form::Malformed
    }
}

// ---- one place by itself

/// The name of a field that has a name, a type and whether it may be null.
#[tactic(auto, unfolding(crate::specs::Forms::field_name))]
fn field_name(alloc: Global, field: &Value) -> Result<Text, ReadError<OutlineFault>>
    ensures { Gives (λ t. t) result (field_name (view field.now)) }
{
    let name = text_of(field, "name").ok_or(MALFORMED)?;
    bool_of(field, "nullable").ok_or(MALFORMED)?;
    field.get("type").ok_or(MALFORMED)?;
    Ok(Text::from_str(alloc, name)?)
}

pub(crate) fn field_names(
    alloc: Global,
    fields: &Vec<Value>,
) -> Result<Items<Text>, ReadError<OutlineFault>>
    ensures { Gives (λ ns. ns) result (each field_name (items (items_view fields.now.items))) }
{
    let mut names = Items::new(alloc);
    for field in fields {
        names.push(field_name(alloc, field)?)?;
    }
    Ok(names)
}

fn fields_form(alloc: Global, fields: &Vec<Value>) -> Result<Form, AllocError>
    ensures { IfOk result (λ f. f ≡ fields_form (items_view fields.now.items)) }
{
    match field_names(alloc, fields) {
        Ok(names) => Ok(form_if(are_distinct(alloc, names.as_slice())?)),
        Err(ReadError::Memory) => Err(AllocError),
        Err(ReadError::Fault(OutlineFault::Malformed)) => Ok(Form::Malformed),
    }
}

fn struct_form(alloc: Global, value: &Value) -> Result<Form, AllocError>
    ensures { IfOk result (λ f. f ≡ struct_form (view value.now)) }
{
    match list_of(value, "fields") {
        None => Ok(Form::Malformed),
        Some(fields) => fields_form(alloc, fields),
    }
}

fn list_form(value: &Value) -> Form
    ensures { result ≡ list_form (view value.now) }
{
    form_if(bool_of(value, "containsNull").is_some() && value.get("elementType").is_some())
}

fn map_form(value: &Value) -> Form
    ensures { result ≡ map_form (view value.now) }
{
    form_if(
        bool_of(value, "valueContainsNull").is_some()
            && value.get("keyType").is_some()
            && value.get("valueType").is_some(),
    )
}

fn nested_form(alloc: Global, value: &Value) -> Result<Form, AllocError>
    ensures { IfOk result (λ f. f ≡ nested_form (view value.now)) }
{
    match text_of(value, "type") {
        None => Ok(Form::Malformed),
        Some(word) => {
            if word == "struct" {
                struct_form(alloc, value)
            } else if word == "array" {
                Ok(list_form(value))
            } else if word == "map" {
                Ok(map_form(value))
            } else {
                Ok(Form::Other)
            }
        }
    }
}

/// What stands at this place by itself.
fn own_form(alloc: Global, value: &Value) -> Result<Form, AllocError>
    ensures { IfOk result (λ f. f ≡ own_form (view value.now)) }
{
    match value {
        Value::String(word) => {
            if is_known_word(alloc, word.as_str())? {
                Ok(Form::Known)
            } else {
                Ok(Form::Other)
            }
        }
        Value::Object(_) => nested_form(alloc, value),
        _ => Ok(Form::Malformed),
    }
}

// ---- a place with those inside it

/// The worst form in the member of this name, where it is there.
#[cycle(form)]
fn member_form(alloc: Global, value: &Value, name: &str, levels: u64) -> Result<Form, AllocError>
    ensures { IfOk result (λ f. f ≡ member_form (form levels) name.now (view value.now)) }
{
    match value.get(name) {
        None => Ok(Form::Known),
        Some(part) => form_within(alloc, part, levels),
    }
}

/// The worst form in the types of the fields.
#[cycle(form)]
fn types_form(alloc: Global, fields: &Vec<Value>, levels: u64) -> Result<Form, AllocError>
    ensures { IfOk result (λ f. f
        ≡ types_form (form levels) (items (items_view fields.now.items))) }
{
    let mut worst = Form::Known;
    for field in fields {
        worst = worse(worst, member_form(alloc, field, "type", levels)?);
    }
    Ok(worst)
}

/// The worst form in the parts of a type of this word.
#[cycle(form)]
fn parts_form(alloc: Global, value: &Value, levels: u64) -> Result<Form, AllocError>
    ensures { IfOk result (λ f. f ≡ parts_form (form levels) (view value.now)) }
{
    match text_of(value, "type") {
        None => Ok(Form::Known),
        Some(word) => {
            if word == "struct" {
                match list_of(value, "fields") {
                    None => Ok(Form::Known),
                    Some(fields) => types_form(alloc, fields, levels),
                }
            } else if word == "array" {
                member_form(alloc, value, "elementType", levels)
            } else if word == "map" {
                let key = member_form(alloc, value, "keyType", levels)?;
                Ok(worse(key, member_form(alloc, value, "valueType", levels)?))
            } else {
                Ok(Form::Known)
            }
        }
    }
}

/// The worst form at a place and, in this many levels, inside it.
#[tactic(auto, unfolding(crate::specs::Forms::form))]
#[cycle(form)]
pub(crate) fn form_within(alloc: Global, value: &Value, levels: u64) -> Result<Form, AllocError>
    ensures { IfOk result (λ f. f ≡ form levels (view value.now)) }
{
    let own = own_form(alloc, value)?;
    if levels == 0 {
        return Ok(own);
    }
    Ok(worse(own, parts_form(alloc, value, levels - 1)?))
}
