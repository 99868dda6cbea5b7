//! The commits of a Delta table's log, read as their bytes come, piece by piece.
#![tactic(auto)]

mod feeder;
mod lines;
mod so_far;

pub use feeder::LineFeeder;
