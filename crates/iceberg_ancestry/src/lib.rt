//! The ancestors of a snapshot in the metadata of an Iceberg table (Apache Iceberg specification,
//! "Snapshots").
#![tactic(auto)]

mod ancestors;

pub use ancestors::ancestry;
