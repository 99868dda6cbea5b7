//! What a source tells: its head, and why it isn't read.
#![tactic(auto)]

mod error;
mod head;
mod since;
mod source;

pub use error::SourceError;
pub use head::{Head, position_of};
pub use since::Since;
pub use source::Source;
