//! Plays scripts over a real folder, and prints their transcripts.
//!
//! A row begins with an empty folder `row`, and with a store over `row/t` that reads. Steps on the disk are:
//!
//! - `folder PATH`, `file PATH` with its lines, `file PATH of COUNT bytes`, `link PATH to TARGET` (a symbolic one),
//!   `name PATH of PATH` (a hard link) and `pipe PATH` put something there;
//! - `at PATH` shows what is there, and `in PATH` the names in a folder.
//!
//! `CALL answers ERROR` has each such call of the store answer this error from then on, by its name of the system's,
//! `CALL works` has it work again, and `lists begin with HEX` has each list of a folder begin with these names, each
//! ended by a NUL. `looks see PATH` has each look at a path see what is at this one, and `reads bring COUNT bytes` has
//! each read bring at most so many, where every other one is interrupted.
//!
//! `reading PATH` and `writing PATH` give a new store over a folder. Steps on the store show the calls of the system
//! that change something or make it durable, or that failed, in order, and then the answer: `list PATH`, `read PATH`,
//! `part PATH FROM LENGTH`, `write PATH` with the lines below it, `sync`, `publish PATH as PATH` and `remove PATH`.
//! `held folder` shows what each call of a folder answers that another run holds.
//!
//! Other steps are `run NAME reads PATH`, `run NAME writes PATH` and `run NAME ends` on the lock; `put TEXT` on the
//! standard output; `clock at SECONDS NANOSECONDS`, `clock that fails` and `clock of the system`.
#![tactic(auto)]

mod disk;
mod locks;
mod shown;
mod steps;
mod store;
mod system;
mod watch;
mod watched;
mod watched_file;

use crate::steps::FolderSteps;
use crate::watch::Watch;
use rows::play_files;
use std::cell::RefCell;
use std::process::ExitCode;

fn main(rt: HostRuntime) -> ExitCode {
    let watch = RefCell::new(Watch::new(rt.alloc()));
    match FolderSteps::new(&rt, &watch) {
        Ok(mut steps) => play_files(&rt, &mut steps),
        Err(_) => ExitCode::FAILURE,
    }
}
