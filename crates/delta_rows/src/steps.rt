//! The steps of a script.
use crate::commits::{tell_next, tell_text_step};
use crate::joined::tell_joined_step;
use crate::logs::tell_log_step;
use lake_basics::Blob;
use rows::{Step, Steps};
use source_delta::DeltaSource;
use std::alloc::{AllocError, Global};
use table_rows::TableFolder;
use target_delta::DeltaTarget;

/// The folder of a row's table, and the commits that are joined.
#[derive(Drop)]
pub struct DeltaSteps {
    folder: TableFolder<DeltaSource, DeltaTarget>,
    joined: Vec<Blob>,
}

/// What a step is on.
#[derive(Clone, Copy)]
enum Part {
    Text,
    Base,
    Joined,
    Log,
    Folder,
}

fn part_of(step: &Step<'_>) -> Part {
    match step.word_at(0) {
        "read" | "cut" | "write" | "change" | "version" | "name" | "range" => Part::Text,
        "follow" => Part::Base,
        "commit" | "join" | "agrees" => Part::Joined,
        "versions" | "file" | "empty" | "show" | "stop" | "log" | "compacted" => Part::Log,
        "table" if step.word_at(1) == "in" => Part::Log,
        _ => Part::Folder,
    }
}

fn target(alloc: Global) -> Result<DeltaTarget, AllocError> {
    match DeltaTarget::new(alloc, "/data/t") {
        Ok(target) => Ok(target),
        Err(_) => Err(AllocError),
    }
}

impl DeltaSteps {
    /// A row that has just begun.
    pub fn new(alloc: Global) -> Result<DeltaSteps, AllocError> {
        let target = target(alloc)?;
        Ok(DeltaSteps {
            folder: TableFolder::new(alloc, DeltaSource::new(), target, None)?,
            joined: Vec::new(alloc),
        })
    }

    /// Does a step whose lines are this text.
    fn play(&mut self, step: &Step<'_>, text: &str, shown: &mut String) -> Result<(), AllocError> {
        let alloc = self.folder.alloc;
        match part_of(step) {
            Part::Text => tell_text_step(alloc, step, text, shown),
            Part::Base => tell_next(alloc, text, &mut self.folder.base, shown),
            Part::Joined => tell_joined_step(alloc, &mut self.joined, step, text, shown),
            Part::Log => tell_log_step(alloc, &mut self.folder.store, step, text, shown),
            Part::Folder => self.folder.play(step, shown),
        }
    }
}

impl Steps for DeltaSteps {
    fn begin(&mut self) -> Result<(), AllocError> {
        *self = DeltaSteps::new(self.folder.alloc)?;
        Ok(())
    }

    fn step(&mut self, step: &Step<'_>, shown: &mut String) -> Result<(), AllocError> {
        let text = step.text(self.folder.alloc)?;
        self.play(step, text.as_str(), shown)
    }
}
