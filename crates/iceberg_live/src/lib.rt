//! The rows of a manifest's live entries (Apache Iceberg table specification, "Scan Planning"), and the
//! paths of files within a table's location.
#![tactic(auto)]

mod live;
mod metadata_file;
mod text;

pub use live::{LiveRow, Rows, live_rows};
pub use metadata_file::metadata_path;
