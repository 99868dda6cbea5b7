//! How large a schema is.

ghost use Rattle.std.specs.Prelude.{◌≡◌, ◌+◌, ◌<◌, ◌≤◌, ◌↔◌, IsTrue, MatchOption, None};
ghost use Rattle.table_history.specs.SchemaView.{type_view, columns_view};
ghost use Rattle.table_history.specs.SchemaSize.{inner_count, column_count, levels, column_levels, IsWithinLimits};
ghost use Rattle.schema_map.specs.Limits.{schema_limit};

use lake_basics::limits::{MAX_COLUMNS, MAX_SCHEMA_LEVELS};
use table_history::{Column, ColumnType, LimitKind, Schema};

/// The most levels of a column's type: the schema is a level of its own.
pub const MAX_TYPE_LEVELS: u64 = MAX_SCHEMA_LEVELS - 1;

/// What is left of the room behind the columns inside a type.
#[cycle(count)]
fn room_behind_type(kind: &ColumnType, room: u64) -> Option<u64>
    ensures { MatchOption result (room < inner_count (type_view kind.now))
        (λ left. left + inner_count (type_view kind.now) ≡ room) }
{
    match kind {
        ColumnType::Struct(columns) => room_behind(columns.as_slice(), room),
        ColumnType::List { element, .. } => room_behind_type(element, room),
        ColumnType::Map { key, value, .. } => {
            let room = room_behind_type(key, room)?;
            room_behind_type(value, room)
        }
        _ => Some(room),
    }
}

/// What is left of the room behind these columns, those at all levels counted.
#[cycle(count)]
fn room_behind(columns: &[Column], room: u64) -> Option<u64>
    ensures { MatchOption result (room < column_count (columns_view columns.now))
        (λ left. left + column_count (columns_view columns.now) ≡ room) }
{
    let mut left = room;
    for column in columns {
        left = room_behind_type(&column.kind, left.checked_sub(1)?)?;
    }
    Some(left)
}

/// Whether there are no more columns, at all levels, than a schema may have.
pub(crate) fn has_few_columns(columns: &[Column]) -> bool
    ensures { IsTrue result ↔ (column_count (columns_view columns.now) ≤ MAX_COLUMNS) }
{
    room_behind(columns, MAX_COLUMNS).is_some()
}

/// Whether a type has at most so many levels.
#[cycle(levels)]
fn has_levels_within(kind: &ColumnType, limit: u64) -> bool
    ensures { IsTrue result ↔ (levels (type_view kind.now) ≤ limit) }
{
    if limit == 0 {
        return false;
    }
    match kind {
        ColumnType::Struct(columns) => have_levels_within(columns.as_slice(), limit - 1),
        ColumnType::List { element, .. } => has_levels_within(element, limit - 1),
        ColumnType::Map { key, value, .. } => {
            has_levels_within(key, limit - 1) && has_levels_within(value, limit - 1)
        }
        _ => true,
    }
}

/// Whether the types of these columns have at most so many levels.
#[cycle(levels)]
fn have_levels_within(columns: &[Column], limit: u64) -> bool
    ensures { IsTrue result ↔ (column_levels (columns_view columns.now) ≤ limit) }
{
    for column in columns {
        if !has_levels_within(&column.kind, limit) {
            return false;
        }
    }
    true
}

/// The limit that a schema passes: `Columns` where it has too many columns at all levels, or else
/// `Depth` where it has too many levels.
pub fn schema_limit(schema: &Schema) -> Option<LimitKind>
    ensures limit { result ≡ schema_limit schema.now }
    ensures none { result ≡ None ↔ IsWithinLimits schema.now }
{
    if !has_few_columns(schema.columns()) {
        return Some(LimitKind::Columns);
    }
    if !have_levels_within(schema.columns(), MAX_TYPE_LEVELS) {
        return Some(LimitKind::Depth);
    }
    None
}
