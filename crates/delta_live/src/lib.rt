//! The rows that Delta commits leave live: what the file actions of one commit make of the rows
//! before it.
#![tactic(auto)]

mod between;
mod change;
mod order;
mod rows;
mod texts;

pub use change::change_over;
pub use order::in_order;
