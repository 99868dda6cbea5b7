//! How what came of a step is shown.
use crate::script::Step;
use std::alloc::AllocError;
use std::fmt::Debug;

/// Shows what came of an input.
pub fn show_answer(shown: &mut String, input: &str, answer: &str) -> Result<(), AllocError> {
    let input = if input.is_empty() { "(empty)" } else { input };
    writeln!(shown, "{input} -> {answer}")
}

/// Shows why something was refused.
pub fn show_error<E: Debug>(shown: &mut String, error: &E) -> Result<(), AllocError> {
    writeln!(shown, "Err {error:?}")
}

/// Shows why an input was refused.
pub fn show_refused<E: Debug>(
    shown: &mut String,
    input: &str,
    error: &E,
) -> Result<(), AllocError> {
    writeln!(shown, "{input} -> Err {error:?}")
}

/// Shows that the words are those of no step.
pub fn show_no_step(shown: &mut String, step: &Step<'_>) -> Result<(), AllocError> {
    writeln!(shown, "no step: {}", step.words())
}
