//! How a commit is published to the timeline of a Hudi table, with recovery from a stop at any moment.
#![tactic(auto)]

mod commit;
mod laws;
mod paths;
mod properties;
mod publication;
mod recovery;

pub use commit::publish_commit;
pub use laws::timeline_laws;
