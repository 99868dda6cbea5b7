//! What Avro can't spell: maps whose keys aren't texts, and names that aren't Avro names (Apache Avro
//! specification, "Maps" and "Names").

ghost use Rattle.std.specs.Prelude.{◌≡◌, IfOk, option_map};
ghost use Rattle.std.specs.List.{list_all};
ghost use Rattle.lake_basics.specs.Outcome.{GivesUnlessMemory};
ghost use Rattle.table_history.specs.SchemaView.{type_view, columns_view};
ghost use Rattle.schema_map.specs.Errors.{is_memory};
ghost use Rattle.schema_map.specs.Image.{is_letter, is_name_byte, is_avro_name, is_text};
ghost use Rattle.schema_map.specs.Image.{has_text_keys, have_text_keys};
ghost use Rattle.schema_map.specs.Image.{has_avro_names, have_avro_names};
ghost use Rattle.schema_avro.specs.AvroWriting.{key_fault, name_fault, avro_columns};

use lake_basics::Text;
use schema_map::MapError;
use std::alloc::Global;
use table_history::{Column, ColumnType};

fn is_letter(byte: u8) -> bool
    ensures { result ≡ is_letter byte }
{
    (64 < byte && byte < 91) || (96 < byte && byte < 123) || byte == 95
}

fn is_name_byte(byte: u8) -> bool
    ensures { result ≡ is_name_byte byte }
{
    is_letter(byte) || (47 < byte && byte < 58)
}

fn are_name_bytes(bytes: &[u8]) -> bool
    ensures { result ≡ list_all is_name_byte bytes.now }
{
    for byte in bytes {
        if !is_name_byte(*byte) {
            return false;
        }
    }
    true
}

fn is_avro_name(name: &str) -> bool
    ensures { result ≡ is_avro_name name.now }
{
    match name.as_bytes() {
        [] => false,
        [first, rest @ ..] => is_letter(*first) && are_name_bytes(rest),
    }
}

fn is_text(kind: &ColumnType) -> bool
    ensures { result ≡ is_text (type_view kind.now) }
{
    match kind {
        ColumnType::Text => true,
        _ => false,
    }
}

#[cycle(keys)]
fn has_text_keys(kind: &ColumnType) -> bool
    ensures { result ≡ has_text_keys (type_view kind.now) }
{
    match kind {
        ColumnType::Struct(columns) => have_text_keys(columns.as_slice()),
        ColumnType::List { element, .. } => has_text_keys(element),
        ColumnType::Map { key, value, .. } => is_text(key) && has_text_keys(value),
        _ => true,
    }
}

#[cycle(keys)]
fn have_text_keys(columns: &[Column]) -> bool
    ensures { result ≡ have_text_keys (columns_view columns.now) }
{
    for column in columns {
        if !has_text_keys(&column.kind) {
            return false;
        }
    }
    true
}

#[cycle(avro_names)]
fn has_avro_names(kind: &ColumnType) -> bool
    ensures { result ≡ has_avro_names (type_view kind.now) }
{
    match kind {
        ColumnType::Struct(columns) => have_avro_names(columns.as_slice()),
        ColumnType::List { element, .. } => has_avro_names(element),
        ColumnType::Map { key, value, .. } => has_avro_names(key) && has_avro_names(value),
        _ => true,
    }
}

#[cycle(avro_names)]
fn have_avro_names(columns: &[Column]) -> bool
    ensures { result ≡ have_avro_names (columns_view columns.now) }
{
    for column in columns {
        if !is_avro_name(column.name.as_str()) || !has_avro_names(&column.kind) {
            return false;
        }
    }
    true
}

/// The name of the first column that has a map whose key isn't a text.
fn key_fault(columns: &[Column]) -> Option<&str>
    ensures { option_map (λ name. name.now) result ≡ key_fault (columns_view columns.now) }
{
    for column in columns {
        if !has_text_keys(&column.kind) {
            return Some(column.name.as_str());
        }
    }
    None
}

/// The name of the first column that has a name which isn't an Avro name.
fn name_fault(columns: &[Column]) -> Option<&str>
    ensures { option_map (λ name. name.now) result ≡ name_fault (columns_view columns.now) }
{
    for column in columns {
        if !is_avro_name(column.name.as_str()) || !has_avro_names(&column.kind) {
            return Some(column.name.as_str());
        }
    }
    None
}

/// The columns, where Avro can spell them.
pub(crate) fn avro_columns(alloc: Global, columns: &[Column]) -> Result<&[Column], MapError>
    ensures given { GivesUnlessMemory is_memory (λ cs. columns_view cs.now) result
        (avro_columns (columns_view columns.now)) }
    ensures same { IfOk result (λ cs. cs.now ≡ columns.now) }
{
    if let Some(name) = key_fault(columns) {
        let column = Text::from_str(alloc, name)?;
        return Err(MapError::SchemaType { column });
    }
    if let Some(name) = name_fault(columns) {
        let column = Text::from_str(alloc, name)?;
        return Err(MapError::AvroName { column });
    }
    Ok(columns)
}
