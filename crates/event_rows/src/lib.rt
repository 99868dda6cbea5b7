//! The steps of rows of lists of events.
//!
//! A row begins without events. Its steps are:
//!
//! - `vector NUMBER` shows a sample input in hexadecimal digits;
//! - `events NUMBER` shows how many events of each kind the drill of a number has, and `events NUMBER
//!   stopped` those of the drill with stops;
//! - `event PLACE of NUMBER` shows one of them, and `event PLACE of NUMBER stopped` one of those with stops;
//! - `extend` adds a commit of the lines below it to the row's events, and so do `shorten NUMBER`, `sync TARGET`,
//!   `full TARGET`, `stop CALL` and `crash CHOICE ..` each an event of its own;
//! - `play` plays the row's events over a store without files, and shows what each sync answers, and of each
//!   target how many commits it has and which files are live in it;
//! - `drill NUMBER` shows what a drill prints and how it ends.
#![tactic(auto)]

mod counts;
mod playing;
mod samples;
mod steps;

pub use steps::EventSteps;
