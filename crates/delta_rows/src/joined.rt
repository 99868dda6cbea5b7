//! Log compactions as lines.
use delta_compaction::{CompactError, agrees, reconcile};
use lake_basics::Blob;
use rows::{Step, show_no_step, unended};
use std::alloc::{AllocError, Global};
use table_rows::show_text;

/// Does a step on the commits that are joined.
pub(crate) fn tell_joined_step(
    alloc: Global,
    commits: &mut Vec<Blob>,
    step: &Step<'_>,
    text: &str,
    shown: &mut String,
) -> Result<(), AllocError> {
    match step.words() {
        "commit" => add_commit(alloc, commits, text),
        "commit unended" => add_commit(alloc, commits, unended(text)),
        "join" => tell_joined(alloc, commits.as_slice(), shown),
        "agrees" => tell_agreement(alloc, text.as_bytes(), commits.as_slice(), shown),
        _ => show_no_step(shown, step),
    }
}

fn add_commit(alloc: Global, commits: &mut Vec<Blob>, text: &str) -> Result<(), AllocError> {
    commits.push(Blob::from_slice(alloc, text.as_bytes())?)?;
    Ok(())
}

fn show_error(error: CompactError, shown: &mut String) -> Result<(), AllocError> {
    match error {
        CompactError::Memory => Err(AllocError),
        CompactError::Malformed { index, line } => {
            writeln!(shown, "commit {index}, line {line}: malformed")
        }
        CompactError::Unsupported {
            feature,
            index,
            line,
        } => writeln!(shown, "commit {index}, line {line}: {}", feature.word()),
        CompactError::Limit { which } => writeln!(shown, "limit {}", which.word()),
    }
}

/// Adds the text of the commits together.
fn tell_joined(alloc: Global, commits: &[Blob], shown: &mut String) -> Result<(), AllocError> {
    match reconcile(alloc, commits) {
        Ok(text) => show_text(text.as_slice(), shown),
        Err(error) => show_error(error, shown),
    }
}

/// Adds whether a compacted text agrees with the commits.
fn tell_agreement(
    alloc: Global,
    compacted: &[u8],
    commits: &[Blob],
    shown: &mut String,
) -> Result<(), AllocError> {
    match agrees(alloc, compacted, commits) {
        Ok(is_so) => writeln!(shown, "{is_so}"),
        Err(error) => show_error(error, shown),
    }
}
