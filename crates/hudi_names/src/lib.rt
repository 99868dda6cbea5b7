//! The names of a Hudi timeline's files and the times in them, and why a file of a table isn't read.
#![tactic(auto)]

mod error;
mod name;
mod next;
mod time;

pub use error::{HudiError, MALFORMED};
pub use name::{Action, State, instant_of_name};
pub use next::next_instant;
pub use time::{read_time, time_text};
