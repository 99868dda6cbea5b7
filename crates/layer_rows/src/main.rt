//! Plays scripts on each layer below the commands, and prints their transcripts.
//!
//! A step `rows of LAYER` says whose steps the rows behind it have: those of `value_rows`, `avro_rows`,
//! `lake_rows`, `delta_rows`, `hudi_rows` or `iceberg_rows`.
#![tactic(auto)]

mod layers;

use crate::layers::Layers;
use rows::play_files;
use std::process::ExitCode;

fn main(rt: HostRuntime) -> ExitCode {
    match Layers::new(rt.alloc()) {
        Ok(mut layers) => play_files(&rt, &mut layers),
        Err(_) => ExitCode::FAILURE,
    }
}
