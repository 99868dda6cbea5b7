//! The timeline of a Hudi table in its folder: which instants are there, and the table that the
//! completed ones make one after another.
#![tactic(auto)]

mod error;
mod file;
mod instants;
mod properties;
mod reading;
mod timeline;

pub use error::TimelineError;
pub use file::timeline_path;
pub use instants::{CompletedInstant, InstantName};
pub use properties::{Properties, read_table_properties};
pub use reading::{
    InstantChange, Latest, Naming, instant_change, read_change, read_instant_file, read_next,
    read_timeline,
};
pub use timeline::{TIMELINE_FOLDER, Timeline, list_timeline, timeline_of};
