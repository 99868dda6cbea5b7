//! Plays scripts of commands, of batches and of lists of events over stores in memory, and prints their
//! transcripts.
//!
//! A row begins with an empty store. Its steps are those of `store_rows` and of `event_rows`, and:
//!
//! - `place PLACE` and `clock MILLISECONDS` say where and when commands are run, and `puts fail NUMBER ..`
//!   which of their lines can't be put out;
//! - `calls fail NUMBER ..` says which calls of the store fail, counted from this step on, and `calls stop
//!   NUMBER` from which call on all do;
//! - `run WORDS` runs a command or a batch, and shows its status and its lines;
//! - `at each call TROUBLE: WORDS` runs a command with a trouble at each of its calls of the store in turn,
//!   each time over a copy of the store, then the command again, and shows each outcome that came, with what
//!   each of its targets stands at. TROUBLE is `fail`, `contest`, or `stop and crash CHOICE ..`;
//! - `report SOURCE TARGET` shows what the call below a sync answers;
//! - `standing TARGET SOURCE` shows what a target stands at for a source.
#![tactic(auto)]

mod commands;
mod running;
mod setting;
mod standing;
mod trouble;

use crate::commands::Commands;
use rows::play_files;
use std::process::ExitCode;

fn main(rt: HostRuntime) -> ExitCode {
    let mut commands = Commands::new(rt.alloc());
    play_files(&rt, &mut commands)
}
