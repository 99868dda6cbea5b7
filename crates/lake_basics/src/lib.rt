//! The small types that every crate of the bridge speaks of: texts, bytes and lists, which contracts
//! see as lists, and the outcome of a reading. Also the numbers that a table may not pass.
#![tactic(auto)]

mod blob;
mod items;
pub mod limits;
mod outcome;
mod text;

pub use blob::Blob;
pub use items::Items;
pub use outcome::ReadError;
pub use text::{Text, TextError};
