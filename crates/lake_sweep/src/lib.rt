//! Sweeping: removing what interrupted commits left in a target's folder and no published commit
//! reaches. At each moment the target reads as before.
#![tactic(auto)]

mod delta;
mod error;
mod hudi;
mod iceberg;
mod known;
mod names;
mod plan;
mod reached;
mod removing;
mod sweeping;
mod versions;

pub use error::SweepError;
pub use plan::{Swept, sweep_plan};
pub use sweeping::sweep;
