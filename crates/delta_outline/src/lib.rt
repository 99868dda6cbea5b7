//! What the JSON of a Delta schema has in it, whatever its types are and however large it is.
#![tactic(auto)]

mod fault;
mod form;
mod outline;
mod word;

pub use fault::OutlineFault;
pub use outline::{Outline, read_outline};
