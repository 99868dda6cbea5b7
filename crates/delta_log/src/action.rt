//! What one line of a commit says, before it is judged.

use crate::commit::{MetaData, Protocol};
use lake_basics::{Items, Text};

/// The one action of a line as it is spelled, its path still a URI.
#[derive(Drop)]
pub enum LineAction {
    /// A blank line, or one whose members are all skipped.
    NoAction,
    Protocol(Protocol),
    MetaData {
        meta: MetaData,
        is_parquet: bool,
    },
    Add {
        uri: Text,
        values: Items<(Text, Option<Text>)>,
        size: u64,
        count: Option<u64>,
        has_deletion_vector: bool,
    },
    Remove {
        uri: Text,
        has_deletion_vector: bool,
    },
}
