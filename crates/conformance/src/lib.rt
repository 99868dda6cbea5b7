//! Lists of events over a source and its targets: what an event is, the events of a drill, which are
//! determined by a number, and sample inputs.
#![tactic(auto)]

mod commit;
mod drill;
mod event;
mod file;
mod vectors;

pub use drill::{events, sync_points};
pub use event::Event;
pub use vectors::vector;
