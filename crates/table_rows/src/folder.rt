//! A table's folder, with the steps on it as a source and as a target.
use crate::files::empty_store;
use crate::lines::{add_commits, texts_of};
use crate::log::table_of_lines;
use crate::sources::{tell_head, tell_since, tell_table};
use crate::targets::{Origin, tell_fit, tell_publication, tell_seen};
use lake_basics::Text;
use lake_store::FuseStore;
use rows::{Step, show_no_step};
use source_core::Source;
use std::alloc::{AllocError, Global};
use table_history::{Kind, Table};
use target_core::Target;

/// Noon of 2024-01-05 in milliseconds since 1970-01-01.
pub const NOON_MS: u64 = 1_704_456_000_000;

/// The files of a table's folder, and the source and the target of one format over them.
#[derive(Drop)]
pub struct TableFolder<S: Drop, T: Drop> {
    pub alloc: Global,
    pub store: FuseStore,
    pub source: S,
    pub target: T,
    /// The id of the source's table that the marks of commits have.
    pub id: Option<&'static str>,
    /// The table that commits are read over.
    pub base: Table,
}

impl<S: Source + Drop, T: Target + Drop> TableFolder<S, T> {
    /// A folder without files.
    pub fn new(
        alloc: Global,
        source: S,
        target: T,
        id: Option<&'static str>,
    ) -> Result<TableFolder<S, T>, AllocError> {
        let base = Table::empty(alloc, &[])?;
        Ok(TableFolder {
            alloc,
            store: empty_store(alloc),
            source,
            target,
            id,
            base,
        })
    }

    /// Does a step on the source or the target: `head`, `table` and `since POSITION` show what the source
    /// tells, and `base` gives the table that commits are read over, in the lines below it;
    /// `inspect for SOURCE` shows what the target tells, `fits COLUMN ..` whether the commits below it fit a
    /// target that has none yet, and `fits COUNT times COLUMN ..` whether they do so many times over;
    /// `publish POSITION from SOURCE` publishes what leads to the table below it.
    pub fn play(&mut self, step: &Step<'_>, shown: &mut String) -> Result<(), AllocError> {
        let store = &mut self.store;
        match step.word_at(0) {
            "head" => tell_head(self.alloc, &self.source, store, shown),
            "table" => tell_table(self.alloc, &self.source, store, shown),
            "since" => {
                let position = step.word_at(1);
                tell_since(self.alloc, &self.source, store, position, &self.base, shown)
            }
            "base" => set_base(self.alloc, &mut self.base, step, shown),
            _ => tell_target_step(self.alloc, &self.target, store, self.id, step, shown),
        }
    }
}

fn set_base(
    alloc: Global,
    base: &mut Table,
    step: &Step<'_>,
    shown: &mut String,
) -> Result<(), AllocError> {
    match table_of_lines(alloc, step.lines())? {
        Some(table) => {
            *base = table;
            Ok(())
        }
        None => shown.push_str("no table\n"),
    }
}

fn tell_target_step<T: Target>(
    alloc: Global,
    target: &T,
    store: &mut FuseStore,
    id: Option<&str>,
    step: &Step<'_>,
    shown: &mut String,
) -> Result<(), AllocError> {
    match (step.word_at(0), source_of(step)) {
        ("inspect", Some(source)) => tell_seen(alloc, target, store, source, shown),
        ("publish", Some(source)) => publish_lines(alloc, target, store, id, source, step, shown),
        ("fits", _) => tell_lines_fit(alloc, target, step, shown),
        _ => show_no_step(shown, step),
    }
}

/// The source's format, which the last of the words names.
pub fn source_of(step: &Step<'_>) -> Option<Kind> {
    match step.each_word() {
        [.., source] => Kind::from_word(source),
        [] => None,
    }
}

/// How many times, and the partition columns, that words `fits COLUMN ..` and `fits COUNT times COLUMN ..`
/// say.
fn fit_of<'s, 'a>(step: &'s Step<'a>) -> Option<(u32, &'s [&'a str])> {
    match step.word_at(2) {
        "times" => Some((step.word_at(1).parse::<u32>().ok()?, step.words_from(3))),
        _ => Some((1, step.words_from(1))),
    }
}

fn tell_lines_fit<T: Target>(
    alloc: Global,
    target: &T,
    step: &Step<'_>,
    shown: &mut String,
) -> Result<(), AllocError> {
    match fit_of(step) {
        Some((times, columns)) => tell_fit_times(alloc, target, times, columns, step, shown),
        None => show_no_step(shown, step),
    }
}

fn tell_fit_times<T: Target>(
    alloc: Global,
    target: &T,
    times: u32,
    columns: &[&str],
    step: &Step<'_>,
    shown: &mut String,
) -> Result<(), AllocError> {
    let partition = texts_of(alloc, columns)?;
    let partition = partition.as_slice();
    let mut commits = Vec::new(alloc);
    if add_commits(alloc, partition, times, step.lines(), &mut commits)? {
        tell_fit(alloc, target, partition, commits.as_slice(), shown)
    } else {
        show_no_step(shown, step)
    }
}

/// What the mark of a commit at noon of 2024-01-05 says, whose source's table has this id.
fn origin_at_noon<'a>(
    alloc: Global,
    source: Kind,
    id: Option<&str>,
    position: &'a str,
) -> Result<Origin<'a>, AllocError> {
    let table = match id {
        Some(id) => Some(Text::from_str(alloc, id)?),
        None => None,
    };
    Ok(Origin {
        source,
        table,
        position,
        now_ms: NOON_MS,
    })
}

fn publish_lines<T: Target>(
    alloc: Global,
    target: &T,
    store: &mut FuseStore,
    id: Option<&str>,
    source: Kind,
    step: &Step<'_>,
    shown: &mut String,
) -> Result<(), AllocError> {
    let origin = origin_at_noon(alloc, source, id, step.word_at(1))?;
    match table_of_lines(alloc, step.lines())? {
        Some(table) => tell_publication(alloc, target, store, &table, &origin, shown),
        None => show_no_step(shown, step),
    }
}
