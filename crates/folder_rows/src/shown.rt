//! Answers as lines.
use lake_store::StoreError;
use std::alloc::{AllocError, Global};
use std::io;

/// Adds a line.
pub(crate) fn show_line(shown: &mut String, line: &str) -> Result<(), AllocError> {
    shown.push_str(line)?;
    shown.push('\n')
}

/// Adds the bytes as text.
pub(crate) fn show_text(shown: &mut String, bytes: &[u8]) -> Result<(), AllocError> {
    match str::from_utf8(bytes) {
        Ok(text) if text.ends_with('\n') => shown.push_str(text),
        Ok(text) => show_line(shown, text),
        Err(_) => show_line(shown, "no text"),
    }
}

/// Adds that there is no such step.
pub(crate) fn show_no_step(shown: &mut String) -> Result<(), AllocError> {
    show_line(shown, "no step")
}

/// Adds why a store refused a call.
pub(crate) fn show_refusal(
    alloc: Global,
    error: StoreError,
    shown: &mut String,
) -> Result<(), AllocError> {
    match error {
        StoreError::Memory => show_line(shown, "Err Memory"),
        StoreError::Failed => show_line(shown, "Err Failed"),
        StoreError::Taken => show_line(shown, "Err Taken"),
        StoreError::TooLong { length } => {
            show_line(shown, format!(in alloc; "Err TooLong {length}")?.as_str())
        }
    }
}

/// Adds the answer of a call that gives nothing.
pub(crate) fn show_done(
    alloc: Global,
    answer: Result<(), StoreError>,
    shown: &mut String,
) -> Result<(), AllocError> {
    match answer {
        Ok(()) => show_line(shown, "Ok"),
        Err(error) => show_refusal(alloc, error, shown),
    }
}

/// Adds that a step on the disk failed, if it did.
pub(crate) fn show_failure(
    alloc: Global,
    answer: io::Result<()>,
    shown: &mut String,
) -> Result<(), AllocError> {
    match answer {
        Ok(()) => Ok(()),
        Err(error) => {
            let line = format!(in alloc; "the step failed: {:?}", error.kind())?;
            show_line(shown, line.as_str())
        }
    }
}
