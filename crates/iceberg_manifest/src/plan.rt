//! Where a manifest's schema has the fields of its entries.

use crate::partition::ColumnPlace;
use lake_basics::Items;

/// The places of the fields of `data_file`.
#[derive(Debug, Drop)]
pub struct FilePlan {
    pub content: Option<usize>,
    pub path: usize,
    pub format: usize,
    pub partition: usize,
    pub count: usize,
    pub size: usize,
    pub columns: Items<ColumnPlace>,
}

/// The places of the fields of `manifest_entry`.
#[derive(Debug, Drop)]
pub struct EntryPlan {
    pub status: usize,
    pub snapshot: Option<usize>,
    pub sequence: Option<usize>,
    pub file_sequence: Option<usize>,
    pub file: usize,
    pub fields: FilePlan,
}
