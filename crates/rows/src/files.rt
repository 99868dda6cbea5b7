//! A program that plays scripts.
use crate::playing::{Steps, play};
use std::process::ExitCode;
use std::rt::Runtime;
use std::{env, fs, io};

/// Plays the files that the program's words name, in order, and prints their transcripts. It fails where a
/// file can't be read as text, memory runs out or nothing can be printed; what came before is printed.
pub fn play_files<R: Runtime + AllocGlobal, S: Steps>(rt: &R, steps: &mut S) -> ExitCode {
    let mut shown = String::new(rt.alloc());
    let played = play_each(rt, steps, &mut shown);
    match rt.print(shown.as_str()) {
        Ok(()) if played.is_ok() => ExitCode::SUCCESS,
        _ => ExitCode::FAILURE,
    }
}

fn play_each<R: Runtime + AllocGlobal, S: Steps>(
    rt: &R,
    steps: &mut S,
    shown: &mut String,
) -> io::Result<()> {
    for name in env::args(rt)?.skip(1) {
        let script = fs::read_to_string(rt, name.as_str())?;
        play(rt.alloc(), script.as_str(), steps, shown)?;
    }
    Ok(())
}
