//! Many tables in one run: a batch file, and one command for each of its tables.
#![tactic(auto)]

mod access;
mod batch;
mod calls;
mod command;
mod fence;
mod file;
mod lines;
mod part;
mod tables;
mod top;

pub use access::writes;
pub use batch::{Batch, BatchError, Item, Why, read_batch};
pub use part::Under;
pub use top::{BatchStatus, run_all};
