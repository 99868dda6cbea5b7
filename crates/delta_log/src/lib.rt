//! The commits of a Delta table's log: their names, and their lines as they are read.
#![tactic(auto)]

mod action;
mod commit;
mod error;
mod judging;
mod line;
mod name;
mod place;
mod reading;
mod space;

pub use commit::{DeltaCommit, FileAction, MetaData, Protocol};
pub use error::{DeltaError, Fault};
pub use name::{name_of_version, version_of_name};
pub use reading::{Reading, error_with_line, newline_in, read_commit};
