//! The texts of log compactions: their names, the newest lines of several commits joined into one
//! text, and whether such a text agrees with its commits.
#![tactic(auto)]

mod error;
mod joining;
mod key;
mod kind;
mod name;
mod newest;
mod same;

pub use error::CompactError;
pub use joining::{agrees, reconcile};
pub use key::LineKey;
pub use name::{name_of_range, range_of_name};
pub use newest::{NewestLines, newest_lines};
