//! The steps of a script.
use crate::changes::{table_by, tell_instant_step};
use crate::properties::tell_text_step;
use crate::timelines::tell_store_step;
use hudi_groups::Form;
use hudi_properties::HudiTable;
use lake_basics::Items;
use rows::{Step, Steps};
use source_hudi::HudiSource;
use std::alloc::{AllocError, Global};
use table_rows::TableFolder;
use target_hudi::HudiTarget;

/// The folder of a row's table, and what instants are read by.
#[derive(Drop)]
pub struct HudiSteps {
    folder: TableFolder<HudiSource, HudiTarget>,
    table: HudiTable,
    form: Form,
}

/// What a step is on.
#[derive(Clone, Copy)]
enum Part {
    Text,
    Instant,
    Store,
    Folder,
}

fn part_of(step: &Step<'_>) -> Part {
    match step.word_at(0) {
        "properties" | "instant" | "name" | "time" | "group" | "write" | "stops" => Part::Text,
        "next" if !step.word_at(1).is_empty() => Part::Text,
        "columns" | "external" | "first" | "next" | "many" => Part::Instant,
        "file" | "show" | "timeline" | "read" => Part::Store,
        "table" if step.word_at(1) == "properties" => Part::Store,
        _ => Part::Folder,
    }
}

fn target(alloc: Global) -> Result<HudiTarget, AllocError> {
    match HudiTarget::new(alloc, "/data/t") {
        Ok(target) => Ok(target),
        Err(_) => Err(AllocError),
    }
}

impl HudiSteps {
    /// A row that has just begun.
    pub fn new(alloc: Global) -> Result<HudiSteps, AllocError> {
        let target = target(alloc)?;
        Ok(HudiSteps {
            folder: TableFolder::new(alloc, HudiSource::new(), target, Some("a1"))?,
            table: table_by(Items::new(alloc)),
            form: Form::Base,
        })
    }

    /// Does a step whose lines are this text.
    fn play(&mut self, step: &Step<'_>, text: &str, shown: &mut String) -> Result<(), AllocError> {
        let folder = &mut self.folder;
        let alloc = folder.alloc;
        match part_of(step) {
            Part::Text => tell_text_step(alloc, step, text, shown),
            Part::Instant => {
                let base = &mut folder.base;
                tell_instant_step(alloc, &mut self.table, &mut self.form, base, step, shown)
            }
            Part::Store => {
                let store = &mut folder.store;
                tell_store_step(alloc, store, &self.table, step, text, shown)
            }
            Part::Folder => folder.play(step, shown),
        }
    }
}

impl Steps for HudiSteps {
    fn begin(&mut self) -> Result<(), AllocError> {
        *self = HudiSteps::new(self.folder.alloc)?;
        Ok(())
    }

    fn step(&mut self, step: &Step<'_>, shown: &mut String) -> Result<(), AllocError> {
        let text = step.text(self.folder.alloc)?;
        self.play(step, text.as_str(), shown)
    }
}
