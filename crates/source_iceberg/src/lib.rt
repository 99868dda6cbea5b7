//! An Iceberg table as a source: its head, its table read from scratch, and its commits after a
//! position.
#![tactic(auto)]

mod columns;
mod counted;
mod later;
mod newest;
mod since;
mod source;
mod told;

pub use source::IcebergSource;
