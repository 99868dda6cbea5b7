//! What a completed commit or replacecommit of a Hudi table did, read from its file and written.
#![tactic(auto)]

mod instant;
mod write;

pub use instant::{Instant, Stat, read_instant};
pub use write::instant_text;
