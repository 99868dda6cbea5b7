//! The words for types without parts.

ghost use Rattle.std.specs.Prelude.{◌≡◌};
ghost use Rattle.table_history.specs.SchemaView.{type_view};
ghost use Rattle.lake_basics.specs.Outcome.{Gives};
ghost use Rattle.schema_delta.specs.Delta.{delta_simple, delta_word};

use lake_basics::ReadError;
use schema_map::{Fault, SCHEMA_TYPE, decimal_of};
use table_history::ColumnType;

/// Delta's type of this word.
#[tactic(auto, unfolding(crate::specs::Delta::delta_word))]
fn delta_word_type(word: &str) -> Result<ColumnType, ReadError<Fault>>
    ensures { Gives type_view result (delta_word word.now) }
{
    match word {
        "boolean" => Ok(ColumnType::Boolean),
        "byte" => Ok(ColumnType::Byte),
        "short" => Ok(ColumnType::Short),
        "integer" => Ok(ColumnType::Int),
        "long" => Ok(ColumnType::Long),
        "float" => Ok(ColumnType::Float),
        "double" => Ok(ColumnType::Double),
        "string" => Ok(ColumnType::Text),
        "binary" => Ok(ColumnType::Binary),
        "date" => Ok(ColumnType::Date),
        "timestamp" => Ok(ColumnType::Timestamp),
        "timestamp_ntz" => Ok(ColumnType::TimestampNtz),
        _ => Err(SCHEMA_TYPE),
    }
}

/// Delta's type without parts of this name.
pub(crate) fn delta_simple_type(name: &str) -> Result<ColumnType, ReadError<Fault>>
    ensures { Gives type_view result (delta_simple name.now) }
{
    match decimal_of(name) {
        Some((precision, scale)) => Ok(ColumnType::Decimal { precision, scale }),
        None => delta_word_type(name),
    }
}
