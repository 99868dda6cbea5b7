//! Steps on the folders that carry partition values.
use crate::columns::texts;
use crate::part_values::value_of;
use crate::schemas;
use lake_basics::Text;
use partition_map::{FolderStyle, last_components, path_carries, unescape, value_part};
use rows::{Step, show_answer};
use std::alloc::{AllocError, Global};
use table_history::PartValue;

/// The partition columns of a row, and the values that paths are to carry.
#[derive(Drop)]
pub struct Folders {
    alloc: Global,
    columns: Vec<Text>,
    values: Vec<PartValue>,
}

impl Folders {
    /// No columns and no values.
    pub fn new(alloc: Global) -> Folders {
        Folders {
            alloc,
            columns: Vec::new(alloc),
            values: Vec::new(alloc),
        }
    }

    /// Sets the partition columns.
    pub fn set_columns(&mut self, lines: &[&str]) -> Result<(), AllocError> {
        self.columns = texts(self.alloc, lines)?;
        Ok(())
    }

    /// Sets the values that paths are to carry.
    pub fn set_values(&mut self, lines: &[&str]) -> Result<(), AllocError> {
        self.values = Vec::new(self.alloc);
        for line in lines {
            if let Some((_, value)) = value_of(self.alloc, line)? {
                self.values.push(value)?;
            }
        }
        Ok(())
    }

    /// Shows whether each path carries the values.
    pub fn show_carried(&self, lines: &[&str], shown: &mut String) -> Result<(), AllocError> {
        for line in lines {
            let carries = path_carries(self.alloc, line, &self.columns, &self.values)?;
            show_answer(shown, line, if carries { "yes" } else { "no" })?;
        }
        Ok(())
    }
}

/// Does a step on parts of paths, or else one on schemas.
pub fn step(alloc: Global, step: &Step<'_>, shown: &mut String) -> Result<(), AllocError> {
    let lines = step.lines();
    match step.each_word() {
        ["last", count, "components"] => show_components(alloc, count, lines, shown),
        ["parts", "of", column, style] => show_parts(alloc, column, style, lines, shown),
        ["unescaped", style] => show_unescaped(alloc, style, lines, shown),
        _ => schemas::step(alloc, step, shown),
    }
}

fn show_components(
    alloc: Global,
    count: &str,
    lines: &[&str],
    shown: &mut String,
) -> Result<(), AllocError> {
    let count = count.parse::<usize>().unwrap_or(0);
    for line in lines {
        show_last(alloc, count, line, shown)?;
    }
    Ok(())
}

/// Shows so many components at the end of a path.
fn show_last(
    alloc: Global,
    count: usize,
    path: &str,
    shown: &mut String,
) -> Result<(), AllocError> {
    match last_components(alloc, path, count)? {
        Some(components) => writeln!(shown, "{path} -> {:?}", components.as_slice()),
        None => show_answer(shown, path, "none"),
    }
}

const PLAIN: FolderStyle = FolderStyle {
    hive_style: false,
    url_encode: false,
};

/// The style that a word names: `hive`, or values alone as they are.
fn style_of(word: &str) -> FolderStyle {
    match word {
        "hive" => FolderStyle::HIVE,
        _ => PLAIN,
    }
}

fn show_parts(
    alloc: Global,
    column: &str,
    style: &str,
    lines: &[&str],
    shown: &mut String,
) -> Result<(), AllocError> {
    for line in lines {
        let part = value_part(alloc, style_of(style), column, line)?;
        show_answer(shown, line, part.unwrap_or("none"))?;
    }
    Ok(())
}

fn show_unescaped(
    alloc: Global,
    style: &str,
    lines: &[&str],
    shown: &mut String,
) -> Result<(), AllocError> {
    for line in lines {
        show_plain(alloc, style_of(style), line, shown)?;
    }
    Ok(())
}

/// Shows a part of a path without its escapes.
fn show_plain(
    alloc: Global,
    style: FolderStyle,
    part: &str,
    shown: &mut String,
) -> Result<(), AllocError> {
    match unescape(alloc, style, part)? {
        Some(text) => show_answer(shown, part, text.as_str()),
        None => show_answer(shown, part, "none"),
    }
}
