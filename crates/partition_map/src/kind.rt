//! The kinds of partition values.
ghost use Rattle.std.specs.Prelude.{◌≡◌};
ghost use Rattle.table_history.specs.SchemaView.{type_view};
ghost use Rattle.partition_map.specs.Kind.{part_kind_of};

use table_history::ColumnType;

/// The kind of a partition column's values.
#[derive(Clone, Copy, PartialEq, Eq, Debug)]
pub enum PartKind {
    Boolean,
    Int,
    Long,
    Text,
    Date,
}

/// The kind of a column of this type. None where its type can't be that of a partition column.
pub fn part_kind(kind: &ColumnType) -> Option<PartKind>
    ensures { result ≡ part_kind_of (type_view kind.now) }
{
    match kind {
        ColumnType::Boolean => Some(PartKind::Boolean),
        ColumnType::Byte | ColumnType::Short | ColumnType::Int => Some(PartKind::Int),
        ColumnType::Long => Some(PartKind::Long),
        ColumnType::Text => Some(PartKind::Text),
        ColumnType::Date => Some(PartKind::Date),
        _ => None,
    }
}
