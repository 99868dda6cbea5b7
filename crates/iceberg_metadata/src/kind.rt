//! The kinds of columns by their names.

ghost use Rattle.std.specs.Prelude.{◌≡◌, option_map};
ghost use Rattle.table_history.specs.History.{column_type};
ghost use Rattle.table_history.specs.SchemaView.{type_view};
ghost use Rattle.partition_map.specs.Columns.{column_kind};

use partition_map::{PartKind, part_kind};
use table_history::{ColumnType, Schema};

fn type_of<'a>(schema: &'a Schema, name: &str) -> Option<&'a ColumnType>
    ensures { option_map (λ t. type_view t.now) result ≡ column_type schema.now name.now }
{
    let columns = schema.columns();
    for column in columns {
        if column.name.as_str() == name {
            return Some(&column.kind);
        }
    }
    None
}

/// The kind of the values of a top-level column, where its type has one.
pub fn kind_of(schema: &Schema, name: &str) -> Option<PartKind>
    ensures { result ≡ column_kind schema.now name.now }
{
    match type_of(schema, name) {
        None => None,
        Some(kind) => part_kind(kind),
    }
}
