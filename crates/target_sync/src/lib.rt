//! Bringing one target to the head of a source: what is due to it, publishing that, and why it is
//! refused.
#![tactic(auto)]

mod apply;
mod cause;
mod copying;
mod plan;
mod sharing;
mod status;
mod sync;

pub use apply::{Report, apply_one, position_of};
pub use cause::{status_of_source, status_of_target};
pub use plan::{Mode, Plan, may_be_same, plan_found, plan_one, plan_with};
pub use sharing::plan_beside;
pub use status::{Side, Status};
pub use sync::{found, inspected, sync_found, sync_from, sync_one};
