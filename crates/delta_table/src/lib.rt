//! The log of a Delta table in its folder: which versions are there, and the table that they make
//! one after another.
#![tactic(auto)]

mod error;
mod log;
mod pieces;
mod versions;

pub use error::LogError;
pub use log::{Log, read_log, read_version};
pub use versions::{LOG_FOLDER, Versions, list_versions, version_path, versions_of};
