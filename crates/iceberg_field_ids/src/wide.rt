//! The Image of columns in a format that has no whole number of fewer than 32 bits.

ghost use Rattle.std.specs.Prelude.{◌≡◌, IfOk};
ghost use Rattle.table_history.specs.SchemaView.{type_view, columns_view};
ghost use Rattle.schema_map.specs.Image.{wide_type, wide_columns};

use std::alloc::{AllocError, Global};
use table_history::{Column, ColumnType};

#[cycle(widen)]
fn wide_type(alloc: Global, kind: &ColumnType) -> Result<ColumnType, AllocError>
    ensures { IfOk result (λ t. type_view t ≡ wide_type (type_view kind.now)) }
{
    match kind {
        ColumnType::Byte | ColumnType::Short => Ok(ColumnType::Int),
        ColumnType::Struct(columns) => Ok(ColumnType::Struct(wide_columns(
            alloc,
            columns.as_slice(),
        )?)),
        ColumnType::List { element, nullable } => {
            let element = wide_type(alloc, element)?;
            Ok(ColumnType::List {
                element: Box::new(alloc, element)?,
                nullable: *nullable,
            })
        }
        ColumnType::Map {
            key,
            value,
            nullable,
        } => {
            let key = wide_type(alloc, key)?;
            let value = wide_type(alloc, value)?;
            Ok(ColumnType::Map {
                key: Box::new(alloc, key)?,
                value: Box::new(alloc, value)?,
                nullable: *nullable,
            })
        }
        other => other.copy(alloc),
    }
}

#[cycle(widen)]
pub(crate) fn wide_columns(alloc: Global, columns: &[Column]) -> Result<Vec<Column>, AllocError>
    ensures { IfOk result (λ v. columns_view v.items ≡ wide_columns (columns_view columns.now)) }
{
    let mut wide = Vec::with_capacity(alloc, columns.len())?;
    for column in columns {
        let name = column.name.copy(alloc)?;
        let kind = wide_type(alloc, &column.kind)?;
        let nullable = column.nullable;
        wide.push(Column {
            name,
            kind,
            nullable,
        })?;
    }
    Ok(wide)
}
