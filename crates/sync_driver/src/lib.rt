//! The commands of the bridge, over any store, clock and sink.
#![tactic(auto)]

mod checking;
mod command;
mod compacting;
mod formats;
mod line;
mod pair;
mod showing;
mod sweeping;
mod tell;
mod top;
mod words;

pub use checking::{Same, check};
pub use showing::show;
pub use target_sync::{Mode, Plan, Report, Side, Status, apply_one, plan_one, sync_one};
pub use tell::{put_line, refuse};
pub use top::{refuse_words, run};
pub use words::{location_in, location_of};
