//! Lists of events, played over a store in memory that fails as its script says.
#![tactic(auto)]

mod drilling;
mod log;
mod playing;
mod putting;
mod scripted;
mod summary;
mod syncing;

pub use drilling::drill;
pub use playing::play;
