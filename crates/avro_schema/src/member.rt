//! Sizes and ids in JSON objects.
ghost use Rattle.std.specs.Prelude.{◌≡◌};
ghost use Rattle.serde_json.specs.View.{view};
ghost use Rattle.lake_basics.specs.Outcome.{Gives};
ghost use Rattle.avro_schema.specs.Reading.{size_member, id_member};

use crate::error::SchemaFault;
use json_reading::int_in;
use lake_basics::ReadError;
use serde_json::Value;

/// The member, where it is a whole number from 0 to 2,147,483,647.
pub fn size_of(value: &Value, name: &str) -> Option<u32>
    ensures { result ≡ size_member name.now (view value.now) }
{
    let number = value.get(name).and_then(Value::as_i64)?;
    if number < 0 || 2_147_483_647 < number {
        return None;
    }
    Some(number as u32)
}

/// The id that the member is, which may be absent and else is a whole number of 32 bits.
pub fn id_of(value: &Value, name: &str) -> Result<Option<i32>, ReadError<SchemaFault>>
    ensures { Gives (λ id. id) result (id_member name.now (view value.now)) }
{
    let Some(member) = value.get(name) else {
        return Ok(None);
    };
    match int_in(member) {
        Some(id) => Ok(Some(id)),
        None => Err(ReadError::Fault(SchemaFault::BadSchema)),
    }
}
