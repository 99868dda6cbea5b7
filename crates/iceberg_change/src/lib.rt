//! The table of an Iceberg snapshot, read behind that of the one before it, and the change between
//! them (Apache Iceberg table specification, "Scan Planning").
#![tactic(auto)]

mod behind;
mod held;
mod joining;
mod own;

pub use behind::Listed;
pub use own::{Own, read_behind};
