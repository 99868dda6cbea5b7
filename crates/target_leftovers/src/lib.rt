//! What interrupted commits leave in a target's folder: their names, and which of them no published
//! commit reaches.
#![tactic(auto)]

mod names;

pub use names::{is_claim_name, is_delta_name, is_iceberg_name};
