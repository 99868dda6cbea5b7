//! The steps of rows on what every lake table is read and written by: texts, bytes and lists, JSON, words and
//! paths, stores, printed lines, and the marks of targets.
#![tactic(auto)]

mod basics;
mod json;
mod marks;
mod shown;
mod stores;
mod words;

use crate::stores::Stores;
use rows::{Step, Steps};
use std::alloc::{AllocError, Global};

/// What the steps of a row work on.
#[derive(Drop)]
pub struct Values {
    alloc: Global,
    stores: Stores,
}

impl Values {
    /// A row that has just begun.
    pub fn new(alloc: Global) -> Values {
        Values {
            alloc,
            stores: Stores::new(alloc),
        }
    }
}

impl Steps for Values {
    fn begin(&mut self) -> Result<(), AllocError> {
        self.stores = Stores::new(self.alloc);
        Ok(())
    }

    fn step(&mut self, step: &Step<'_>, shown: &mut String) -> Result<(), AllocError> {
        self.stores.step(step, shown)
    }
}
