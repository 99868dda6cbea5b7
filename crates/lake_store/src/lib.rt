//! The store that a lake table's metadata lies in: files that a crash may damage, sinks and clocks.
#![tactic(auto)]

mod clock;
mod files;
mod fuse;
mod memory;
mod names;
mod publication;
mod sink;
mod store;

pub use clock::{Clock, FixedClock};
pub use fuse::{FuseStore, Script};
pub use lake_basics::{Blob, Items, ReadError, Text, TextError};
pub use memory::MemoryStore;
pub use names::Names;
pub use publication::stage_and_publish;
pub use sink::{MemorySink, Sink, SinkError};
pub use store::{Store, StoreError};
