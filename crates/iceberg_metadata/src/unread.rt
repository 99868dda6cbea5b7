//! What is known of a held schema that can't be taken over.

use crate::error::MetadataError;
use lake_basics::Items;
use partition_map::PartKind;
use schema_map::ColumnPath;

/// Columns that can't be taken over: why, their paths with their field ids, and the kinds of the
/// top-level ones by their field ids.
#[derive(Drop)]
pub struct Unread {
    pub refusal: MetadataError,
    pub paths: Items<(ColumnPath, i32)>,
    pub kinds: Items<(i32, PartKind)>,
}
