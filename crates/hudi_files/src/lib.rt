//! The files that an instant of a Hudi table wrote, and their rows: what the names of the files show,
//! and the partition values that their folders spell.
#![tactic(auto)]

mod rows;

pub use rows::{read_files, rows_of};
