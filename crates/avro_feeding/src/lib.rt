//! Avro object container files, read as their bytes come, piece by piece.
#![tactic(auto)]

mod blocks;
mod feeder;
mod header;
mod metadata;
mod place;

pub use feeder::Feeder;
