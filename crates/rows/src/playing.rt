//! Plays a script, and writes its transcript.
use crate::script::{Part, Step, parts_of};
use std::alloc::{AllocError, Global};

/// What the steps of a script do.
pub trait Steps {
    /// Begins a row: nothing of the rows before it is left.
    fn begin(&mut self) -> Result<(), AllocError>;

    /// Does a step, and adds to `shown` what it shows: whole lines, or nothing.
    fn step(&mut self, step: &Step<'_>, shown: &mut String) -> Result<(), AllocError>;
}

/// Plays a script, and adds to `shown` its transcript: the heading of each row below an empty line, and for
/// each step that shows something its words behind `> ` and what it shows.
pub fn play<S: Steps>(
    alloc: Global,
    script: &str,
    steps: &mut S,
    shown: &mut String,
) -> Result<(), AllocError> {
    let parts = parts_of(alloc, script)?;
    steps.begin()?;
    for part in parts.iter() {
        play_part(alloc, part, steps, shown)?;
    }
    Ok(())
}

fn play_part<S: Steps>(
    alloc: Global,
    part: &Part<'_>,
    steps: &mut S,
    shown: &mut String,
) -> Result<(), AllocError> {
    match part {
        Part::Heading(heading) => {
            steps.begin()?;
            show_heading(heading, shown)
        }
        Part::Step(step) => {
            let mut told = String::new(alloc);
            steps.step(step, &mut told)?;
            show_told(step, told.as_str(), shown)
        }
    }
}

fn show_heading(heading: &str, shown: &mut String) -> Result<(), AllocError> {
    if !shown.is_empty() {
        shown.push('\n')?;
    }
    shown.push_str("# ")?;
    shown.push_str(heading)?;
    shown.push('\n')
}

/// Adds what a step told, if it told something.
fn show_told(step: &Step<'_>, told: &str, shown: &mut String) -> Result<(), AllocError> {
    if told.is_empty() {
        return Ok(());
    }
    shown.push_str("> ")?;
    shown.push_str(step.words())?;
    shown.push('\n')?;
    shown.push_str(told)?;
    if !told.ends_with('\n') {
        shown.push('\n')?;
    }
    Ok(())
}
