//! The system as a store, a sink and a clock: the files below a folder, the standard output, and the time.
#![tactic(auto)]

mod access;
mod clock;
mod files;
mod folder;
mod held;
mod sink;

pub use access::{Access, lock_folder};
pub use clock::SystemClock;
pub use folder::FolderStore;
pub use held::HeldFolder;
pub use sink::StdSink;
