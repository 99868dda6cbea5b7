//! The columns that the metadata of an Iceberg table names by field ids (Apache Iceberg specification,
//! "Schemas" and "Partitioning"): the partition columns, and which metadata isn't read for its columns.
#![tactic(auto)]

mod columns;
mod partition;
mod paths;

pub use columns::{SourceColumn, default_columns};
pub use partition::{has_other_partition, has_other_transform};
pub use paths::is_renamed;
