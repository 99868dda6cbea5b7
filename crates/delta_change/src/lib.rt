//! The change that a Delta commit makes of a table: its schema and its partition columns judged, and
//! its rows.
#![tactic(auto)]

mod change;
mod columns;
mod features;

pub use change::change_of;
