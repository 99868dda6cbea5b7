//! Members of metadata that must be there, by their kinds.

ghost use Rattle.serde_json.specs.View.{view, items_view};
ghost use Rattle.iceberg_metadata.specs.Errors.{Gives, GivesBy};
ghost use Rattle.iceberg_metadata.specs.Members as read;

use iceberg_metadata::{MALFORMED, MetadataError};
use json_reading::{bool_of, int_of, list_of, text_member, whole_of};
use lake_basics::Text;
use serde_json::Value;
use std::alloc::Global;

/// The text of this member. `Malformed` where there is none.
pub fn required_text(alloc: Global, value: &Value, name: &str) -> Result<Text, MetadataError>
    ensures { Gives result (read.text_in name.now (view value.now)) }
{
    text_member(alloc, value, name)?.ok_or(MALFORMED)
}

/// The whole number of this member. `Malformed` where there is none.
pub fn required_whole(value: &Value, name: &str) -> Result<i64, MetadataError>
    ensures { Gives result (read.whole_in name.now (view value.now)) }
{
    whole_of(value, name).ok_or(MALFORMED)
}

/// The whole number of 32 bits of this member. `Malformed` where there is none.
pub fn required_int(value: &Value, name: &str) -> Result<i32, MetadataError>
    ensures { Gives result (read.int_in name.now (view value.now)) }
{
    int_of(value, name).ok_or(MALFORMED)
}

/// The list of this member. `Malformed` where there is none.
pub fn required_list<'a>(value: &'a Value, name: &str) -> Result<&'a Vec<Value>, MetadataError>
    ensures { GivesBy (λ v. items_view v.now.items) result
        (read.list_in name.now (view value.now)) }
{
    list_of(value, name).ok_or(MALFORMED)
}

/// The truth value of this member. `Malformed` where there is none.
pub fn required_bool(value: &Value, name: &str) -> Result<bool, MetadataError>
    ensures { Gives result (read.bool_in name.now (view value.now)) }
{
    bool_of(value, name).ok_or(MALFORMED)
}

/// This member, of any kind. `Malformed` where there is none.
pub fn required_member<'a>(value: &'a Value, name: &str) -> Result<&'a Value, MetadataError>
    ensures { GivesBy (λ v. view v.now) result (read.member_in name.now (view value.now)) }
{
    value.get(name).ok_or(MALFORMED)
}
