//! The texts of partition values in Delta commits.
ghost use Rattle.std.specs.Prelude.{◌≡◌, ◌↔◌, Some, IfOk, IfErr, IsErrOf};
ghost use Rattle.std.specs.Str.{IsAscii};
ghost use Rattle.partition_map.specs.DeltaText.{IsDeltaText, HasFourDigitYear, HasNoDeltaText};
ghost use Rattle.partition_map.specs.Errors.{IsWritingError};

use crate::date::date_bytes;
use crate::error::PartError;
use lake_basics::Text;
use std::alloc::{AllocError, Global};
use table_history::PartValue;

/// The text of the value in a Delta commit, or None for null. `ValueForm` where the value is the
/// empty text, which would be read as null, or a day outside the years 0000 to 9999.
pub fn to_delta_text(alloc: Global, value: &PartValue) -> Result<Option<Text>, PartError>
    ensures ok { IfOk result (IsDeltaText value.now) }
    ensures form { IsErrOf result PartError.ValueForm ↔ HasNoDeltaText value.now }
    ensures refused { IfErr result IsWritingError }
{
    match value {
        PartValue::Null => Ok(None),
        PartValue::Boolean(b) => Ok(Some(bool_text(alloc, *b)?)),
        PartValue::Int(n) => Ok(Some(int_text(alloc, *n)?)),
        PartValue::Long(n) => Ok(Some(long_text(alloc, *n)?)),
        PartValue::Text(text) => match text.as_str() {
            "" => Err(PartError::ValueForm),
            _ => Ok(Some(text.copy(alloc)?)),
        },
        PartValue::Date(days) => Ok(Some(date_text(alloc, *days)?)),
    }
}

fn bool_text(alloc: Global, b: bool) -> Result<Text, AllocError>
    ensures { IfOk result (λ t. IsDeltaText (PartValue.Boolean b) (Some t)) }
{
    Text::from_str(alloc, if b { "true" } else { "false" })
}

fn int_text(alloc: Global, n: i32) -> Result<Text, AllocError>
    ensures { IfOk result (λ t. IsDeltaText (PartValue.Int n) (Some t)) }
{
    Ok(Text::from_string(n.to_string(alloc)?))
}

fn long_text(alloc: Global, n: i64) -> Result<Text, AllocError>
    ensures { IfOk result (λ t. IsDeltaText (PartValue.Long n) (Some t)) }
{
    Ok(Text::from_string(n.to_string(alloc)?))
}

fn date_text(alloc: Global, days: i32) -> Result<Text, PartError>
    ensures ok { IfOk result (λ t. IsDeltaText (PartValue.Date days) (Some t)) }
    ensures form { IsErrOf result PartError.ValueForm ↔ ¬ HasFourDigitYear days }
    ensures refused { IfErr result IsWritingError }
{
    match date_bytes(days) {
        Some(bytes) => Ok(ascii_text(alloc, &bytes)?),
        None => Err(PartError::ValueForm),
    }
}

fn ascii_text(alloc: Global, bytes: &[u8]) -> Result<Text, AllocError>
    requires { IsAscii bytes.now }
    ensures { IfOk result (λ t. t ≡ bytes.now) }
{
    match Text::from_bytes(alloc, bytes) {
        Ok(text) => Ok(text),
        Err(_) => Err(AllocError),
    }
}
