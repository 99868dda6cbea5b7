//! A Hudi table as the target of a sync.
#![tactic(auto)]

mod commit;
mod fitting;
mod fresh;
mod inspect;
mod kept;
mod laws;
mod new_instant;
mod own_names;
mod properties;
mod replaced;
mod stats;
mod stop;
mod target;
mod written;

pub use kept::HudiKept;
pub use laws::timeline_laws;
pub use target::HudiTarget;
