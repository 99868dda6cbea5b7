//! The new version of an Iceberg table that a commit makes: its texts, and what is kept behind it.
#![tactic(auto)]

mod behind;
mod new_list;
mod next;
mod texts;
mod version;

pub use next::{NextVersion, next_version};
