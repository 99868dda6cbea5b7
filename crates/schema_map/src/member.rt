//! The named member of a JSON value, which must be there and of a kind.

ghost use Rattle.std.specs.Prelude.{◌≡◌};
ghost use Rattle.serde_json.specs.Find.{get};
ghost use Rattle.serde_json.specs.View.{view, items_view};
ghost use Rattle.lake_basics.specs.Outcome.{Gives, required};
ghost use Rattle.json_reading.specs.Json.{text_member, bool_member, int_member, list_member};
ghost use Rattle.schema_map.specs.declared.fault.Fault.TheVariants.{BadSchema};

use crate::fault::{BAD_SCHEMA, Fault};
use json_reading::{bool_of, int_of, list_of, text_of};
use lake_basics::ReadError;
use serde_json::Value;

/// The member of this name, which must be a text. `BadSchema` comes where it isn't.
pub fn required_text<'a>(value: &'a Value, name: &str) -> Result<&'a str, ReadError<Fault>>
    ensures { Gives (λ s. s.now) result
        (required BadSchema (text_member name.now (view value.now))) }
{
    text_of(value, name).ok_or(BAD_SCHEMA)
}

/// The member of this name, which must be true or false. `BadSchema` comes where it isn't.
pub fn required_bool(value: &Value, name: &str) -> Result<bool, ReadError<Fault>>
    ensures { Gives (λ b. b) result
        (required BadSchema (bool_member name.now (view value.now))) }
{
    bool_of(value, name).ok_or(BAD_SCHEMA)
}

/// The member of this name, which must be a whole number of 32 bits. `BadSchema` comes where it isn't.
pub fn required_int(value: &Value, name: &str) -> Result<i32, ReadError<Fault>>
    ensures { Gives (λ n. n) result (required BadSchema (int_member name.now (view value.now))) }
{
    int_of(value, name).ok_or(BAD_SCHEMA)
}

/// The member of this name, which must be a list. `BadSchema` comes where it isn't.
pub fn required_list<'a>(value: &'a Value, name: &str) -> Result<&'a Vec<Value>, ReadError<Fault>>
    ensures { Gives (λ v. items_view v.now.items) result
        (required BadSchema (list_member name.now (view value.now))) }
{
    list_of(value, name).ok_or(BAD_SCHEMA)
}

/// The member of this name, of any kind. `BadSchema` comes where it isn't there.
pub fn required_member<'a>(value: &'a Value, name: &str) -> Result<&'a Value, ReadError<Fault>>
    ensures { Gives (λ v. view v.now) result (required BadSchema (get name.now (view value.now))) }
{
    value.get(name).ok_or(BAD_SCHEMA)
}
