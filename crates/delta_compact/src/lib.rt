//! The log compactions of a Delta table in its folder: blocks of ten versions are joined, written under
//! their names, and read in place of their commits.
#![tactic(auto)]

mod blocks;
mod compacting;
mod error;
mod joining;
mod publishing;
mod reading;
mod whole;

pub use compacting::{Compacted, compact};
pub use error::CompactFault;
pub use whole::whole_compacted;
