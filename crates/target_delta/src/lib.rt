//! A Delta table as the target of a sync: what its log stands for, and the calls that inspect it and
//! publish commits.
#![tactic(auto)]

mod actions;
mod fitting;
mod fresh;
mod inspect;
mod kept;
mod meta;
mod names;
mod ntz;
mod target;
mod version;
mod written;

pub use kept::DeltaKept;
pub use target::DeltaTarget;
