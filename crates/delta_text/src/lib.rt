//! The text of a Delta commit, as it is written.
#![tactic(auto)]

mod file_text;
mod writing;

pub use writing::commit_text;
