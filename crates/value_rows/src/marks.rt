//! Steps on the marks of targets, and on what targets answer for a store's refusals.
use lake_basics::Text;
use lake_store::StoreError;
use rows::{Step, show_answer, show_no_step};
use std::alloc::{AllocError, Global};
use table_history::Kind;
use target_core::{Mark, TargetError, mark_text, read_mark};

/// Does a step on marks or refusals.
pub fn step(alloc: Global, step: &Step<'_>, shown: &mut String) -> Result<(), AllocError> {
    match step.each_word() {
        ["mark", at, source, to] => show_written(alloc, at, source, to, None, shown),
        ["mark", at, source, to, table] => {
            show_written(alloc, at, source, to, Some(*table), shown)
        }
        ["marks"] => show_marks(alloc, step.lines(), shown),
        ["refusals", "of", "a", "store"] => show_refusals(shown),
        _ => show_no_step(shown, step),
    }
}

/// Shows the text of a mark, and what is read of it.
fn show_written(
    alloc: Global,
    at: &str,
    source: &str,
    to: &str,
    table: Option<&str>,
    shown: &mut String,
) -> Result<(), AllocError> {
    match Kind::from_word(source) {
        Some(source) => {
            let mark = mark_of(alloc, at, source, to, table)?;
            show_again(alloc, &mark, shown)
        }
        None => writeln!(shown, "not asked: no kind"),
    }
}

/// Shows what is read of a mark's text.
fn show_again(alloc: Global, mark: &Mark, shown: &mut String) -> Result<(), AllocError> {
    let text = mark_text(alloc, mark)?;
    show_mark(alloc, text.as_str(), shown)
}

fn mark_of(
    alloc: Global,
    at: &str,
    source: Kind,
    to: &str,
    table: Option<&str>,
) -> Result<Mark, AllocError> {
    Ok(Mark {
        at: Text::from_str(alloc, at)?,
        source,
        to: Text::from_str(alloc, to)?,
        table: text_of(alloc, table)?,
    })
}

fn text_of(alloc: Global, text: Option<&str>) -> Result<Option<Text>, AllocError> {
    match text {
        Some(text) => Ok(Some(Text::from_str(alloc, text)?)),
        None => Ok(None),
    }
}

fn show_marks(alloc: Global, lines: &[&str], shown: &mut String) -> Result<(), AllocError> {
    for line in lines {
        show_mark(alloc, line, shown)?;
    }
    Ok(())
}

/// Shows the mark that a text is.
fn show_mark(alloc: Global, text: &str, shown: &mut String) -> Result<(), AllocError> {
    match read_mark(alloc, text)? {
        Some(mark) => show_read(text, &mark, shown),
        None => show_answer(shown, text, "no mark"),
    }
}

fn show_read(text: &str, mark: &Mark, shown: &mut String) -> Result<(), AllocError> {
    let (at, source, to) = (mark.at.as_str(), mark.source.word(), mark.to.as_str());
    write!(shown, "{text} -> at {at} up to {to} of {source}")?;
    match &mark.table {
        Some(table) => writeln!(shown, ", table {}", table.as_str()),
        None => shown.push('\n'),
    }
}

/// Shows what a target answers for each refusal of a file and of a list.
fn show_refusals(shown: &mut String) -> Result<(), AllocError> {
    let length = 300_000_000;
    for refusal in [
        StoreError::TooLong { length },
        StoreError::Memory,
        StoreError::Failed,
        StoreError::Taken,
    ] {
        show_answers(refusal, shown)?;
    }
    Ok(())
}

fn show_answers(refusal: StoreError, shown: &mut String) -> Result<(), AllocError> {
    write!(shown, "{refusal:?}: of a file ")?;
    show_refusal(TargetError::from(refusal), shown)?;
    shown.push_str(", of a list ")?;
    show_refusal(TargetError::of_list(refusal), shown)?;
    shown.push('\n')
}

fn show_refusal(error: TargetError, shown: &mut String) -> Result<(), AllocError> {
    match error {
        TargetError::Limit { which, number } => write!(shown, "{} {number}", which.word()),
        TargetError::Unsupported { feature, .. } => shown.push_str(feature.word()),
        other => write!(shown, "{other:?}"),
    }
}
