//! Partition values read from the texts of Delta commits and hive folders.
ghost use Rattle.std.specs.Prelude.{◌≡◌, ◌↔◌, IsTrue, IfOk, IfErr, IsErrOf};
ghost use Rattle.std.specs.Option.{option_copied};
ghost use Rattle.table_history.specs.declared.row.PartValue.{PartValue};
ghost use Rattle.partition_map.specs.Errors.{IsReadingError};
ghost use Rattle.partition_map.specs.Stands.{IsTextOf, IsTextOfSome, DeltaStands, HiveStands, StandsInFolder};

use crate::date::read_date;
use crate::error::PartError;
use crate::kind::PartKind;
use crate::number::{read_int, read_long};
use lake_basics::Text;
use std::alloc::Global;
use table_history::PartValue;

/// The value that a text of a Delta commit stands for. `BadValue` where it stands for none.
pub fn from_delta_text(
    alloc: Global,
    kind: PartKind,
    text: Option<&str>,
) -> Result<PartValue, PartError>
    ensures ok { IfOk result (DeltaStands kind (option_copied text.entry)) }
    ensures only { IfOk result
        (λ v. (w : PartValue) → DeltaStands kind (option_copied text.entry) w → w ≡ v) }
    ensures bad { IsErrOf result PartError.BadValue
        ↔ ((v : PartValue) → ¬ DeltaStands kind (option_copied text.entry) v) }
    ensures refused { IfErr result IsReadingError }
{
    match text {
        None => Ok(PartValue::Null),
        Some(text) => {
            if text.is_empty() {
                Ok(PartValue::Null)
            } else {
                text_value(alloc, kind, text)
            }
        }
    }
}

/// The value that a component of a hive folder stands for: the part behind `name=`, or the whole of
/// a plain component, already unescaped where the table says so. `BadValue` where it stands for
/// none.
pub fn from_hive(alloc: Global, kind: PartKind, component: &str) -> Result<PartValue, PartError>
    ensures ok { IfOk result (HiveStands kind component.now) }
    ensures only { IfOk result (λ v. (w : PartValue) → HiveStands kind component.now w → w ≡ v) }
    ensures bad { IsErrOf result PartError.BadValue
        ↔ ((v : PartValue) → ¬ HiveStands kind component.now v) }
    ensures refused { IfErr result IsReadingError }
{
    match component {
        "__HIVE_DEFAULT_PARTITION__" => Ok(PartValue::Null),
        "" => Err(PartError::BadValue),
        _ => text_value(alloc, kind, component),
    }
}

fn text_value(alloc: Global, kind: PartKind, text: &str) -> Result<PartValue, PartError>
    ensures ok { IfOk result (IsTextOf kind text.now) }
    ensures only { IfOk result (λ v. (w : PartValue) → IsTextOf kind text.now w → w ≡ v) }
    ensures bad { IsErrOf result PartError.BadValue
        ↔ ((v : PartValue) → ¬ IsTextOf kind text.now v) }
    ensures refused { IfErr result IsReadingError }
{
    match kind {
        PartKind::Boolean => match text {
            "true" => Ok(PartValue::Boolean(true)),
            "false" => Ok(PartValue::Boolean(false)),
            _ => Err(PartError::BadValue),
        },
        PartKind::Int => match read_int(text) {
            Some(n) => Ok(PartValue::Int(n)),
            None => Err(PartError::BadValue),
        },
        PartKind::Long => match read_long(text) {
            Some(n) => Ok(PartValue::Long(n)),
            None => Err(PartError::BadValue),
        },
        PartKind::Text => Ok(PartValue::Text(Text::from_str(alloc, text)?)),
        PartKind::Date => match read_date(text.as_bytes()) {
            Some(days) => Ok(PartValue::Date(days)),
            None => Err(PartError::BadValue),
        },
    }
}

/// Whether the text stands for the value in a hive folder.
pub(crate) fn stands_in_folder(text: &str, value: &PartValue) -> bool
    ensures { IsTrue result ↔ StandsInFolder text.now value.now }
{
    match text {
        "__HIVE_DEFAULT_PARTITION__" => matches!(value, PartValue::Null),
        "" => false,
        _ => is_text_of(text, value),
    }
}

// Whether the text spells the value, which is of one kind.
fn is_text_of(text: &str, value: &PartValue) -> bool
    ensures { IsTrue result ↔ IsTextOfSome text.now value.now }
{
    match value {
        PartValue::Null => false,
        PartValue::Boolean(true) => text == "true",
        PartValue::Boolean(false) => text == "false",
        PartValue::Int(n) => is_int_text(text, *n),
        PartValue::Long(n) => is_long_text(text, *n),
        PartValue::Text(t) => t.as_str() == text,
        PartValue::Date(days) => is_date_text(text, *days),
    }
}

fn is_int_text(text: &str, n: i32) -> bool
    ensures { IsTrue result ↔ IsTextOfSome text.now (PartValue.Int n) }
{
    match read_int(text) {
        Some(read) => read == n,
        None => false,
    }
}

fn is_long_text(text: &str, n: i64) -> bool
    ensures { IsTrue result ↔ IsTextOfSome text.now (PartValue.Long n) }
{
    match read_long(text) {
        Some(read) => read == n,
        None => false,
    }
}

fn is_date_text(text: &str, days: i32) -> bool
    ensures { IsTrue result ↔ IsTextOfSome text.now (PartValue.Date days) }
{
    match read_date(text.as_bytes()) {
        Some(read) => read == days,
        None => false,
    }
}
