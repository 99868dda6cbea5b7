//! The steps of rows on Avro: schemas, numbers, values and containers.
#![tactic(auto)]

mod containers;
mod pieces;
mod schemas;
mod values;

use rows::{Step, Steps};
use std::alloc::{AllocError, Global};

/// What the steps of a row work on.
#[derive(Drop)]
pub struct Avro {
    alloc: Global,
}

impl Avro {
    /// A row that has just begun.
    pub fn new(alloc: Global) -> Avro {
        Avro { alloc }
    }
}

impl Steps for Avro {
    fn begin(&mut self) -> Result<(), AllocError> {
        Ok(())
    }

    fn step(&mut self, step: &Step<'_>, shown: &mut String) -> Result<(), AllocError> {
        values::step(self.alloc, step, shown)
    }
}
