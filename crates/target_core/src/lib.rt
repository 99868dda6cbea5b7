//! Targets: the mark that a target's commits carry, what a target's files stand for, and how
//! commits are published to it, one by one or a list in order.
#![tactic(auto)]

mod folder;
mod in_order;
mod mark;
mod target;

pub use folder::metadata_folder;
pub use in_order::follow;
pub use mark::{Mark, mark_text, read_mark};
pub use target::{Seen, Target, TargetError};
