//! The change that a completed instant makes of a Hudi table.
#![tactic(auto)]

mod change;

pub use change::change_of;
