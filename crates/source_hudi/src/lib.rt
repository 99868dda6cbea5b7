//! A Hudi table as a source: its head, its table read from scratch, and the commits after a position.
#![tactic(auto)]

mod archive;
mod instants;
mod since;
mod source;
mod told;

pub use source::HudiSource;
