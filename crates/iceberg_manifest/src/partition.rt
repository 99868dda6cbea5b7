//! The partition columns of a manifest.

use partition_map::PartKind;

/// A partition column: the id of its field in a manifest's partition record, and the kind of its
/// values.
#[derive(Clone, Copy, Debug, Drop, PartialEq, Eq)]
pub struct PartColumn {
    pub field_id: i32,
    pub kind: PartKind,
}

/// Where a manifest's partition record has a column, if it has it.
#[derive(Clone, Copy, Debug, Drop, PartialEq, Eq)]
pub struct ColumnPlace {
    pub kind: PartKind,
    pub place: Option<usize>,
}
