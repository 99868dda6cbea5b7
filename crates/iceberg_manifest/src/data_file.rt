//! Entries with what tells whether they are read.

use crate::entry::Entry;
use lake_basics::Text;
use table_history::Values;

/// The file of an entry.
#[derive(Debug, Drop)]
pub struct DataFile {
    pub content: i32,
    pub is_parquet: bool,
    pub path: Text,
    pub values: Values,
    pub count: u64,
    pub size: u64,
}

/// An entry with its file's content, and whether the file is Parquet.
#[derive(Debug, Drop)]
pub struct EntryRecord {
    pub content: i32,
    pub is_parquet: bool,
    pub entry: Entry,
}
