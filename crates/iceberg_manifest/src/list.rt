//! Where the values of a manifest list have the fields of its rows, and what they say there.

/// The places of a row's counts.
#[derive(Debug, Drop)]
pub struct CountPlaces {
    pub added_files: Option<usize>,
    pub existing_files: Option<usize>,
    pub deleted_files: Option<usize>,
    pub added_rows: Option<usize>,
    pub existing_rows: Option<usize>,
    pub deleted_rows: Option<usize>,
}

/// The places of the fields of `manifest_file`: looked up once in a list.
#[derive(Debug, Drop)]
pub struct ListPlan {
    pub path: usize,
    pub size: usize,
    pub spec: usize,
    pub content: Option<usize>,
    pub sequence: Option<usize>,
    pub least: Option<usize>,
    pub snapshot: usize,
    pub counts: CountPlaces,
}

/// How many files and records of each status a manifest has.
#[derive(Debug, Drop)]
pub struct Counts {
    pub added_files: i32,
    pub existing_files: i32,
    pub deleted_files: i32,
    pub added_rows: i64,
    pub existing_rows: i64,
    pub deleted_rows: i64,
}

/// The numbers of a row other than its counts.
#[derive(Debug, Drop)]
pub struct RowNumbers {
    pub size: i64,
    pub spec: i32,
    pub sequence: i64,
    pub least: i64,
    pub snapshot: i64,
}
