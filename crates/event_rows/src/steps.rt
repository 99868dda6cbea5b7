//! The steps of rows of events.
use crate::counts::show_counts;
use crate::playing::{event_of, show_drill, show_play};
use crate::samples::{show_event, show_vector};
use conformance::Event;
use rows::{Step, Steps, first_of, show_no_step};
use std::alloc::{AllocError, Global};

/// The events of a row so far.
#[derive(Drop)]
pub struct EventSteps {
    alloc: Global,
    events: Vec<Event>,
}

impl EventSteps {
    /// No events yet.
    pub fn new(alloc: Global) -> EventSteps {
        EventSteps {
            alloc,
            events: Vec::new(alloc),
        }
    }

    /// Does a step that adds an event.
    fn add(&mut self, step: &Step<'_>, shown: &mut String) -> Result<(), AllocError> {
        match event_of(self.alloc, step)? {
            Some(event) => {
                self.events.push(event)?;
                Ok(())
            }
            None => show_no_step(shown, step),
        }
    }
}

impl Steps for EventSteps {
    fn begin(&mut self) -> Result<(), AllocError> {
        self.events = Vec::new(self.alloc);
        Ok(())
    }

    fn step(&mut self, step: &Step<'_>, shown: &mut String) -> Result<(), AllocError> {
        let (verb, rest) = first_of(step.words());
        match verb {
            "vector" => show_vector(self.alloc, rest, shown),
            "events" => show_counts(self.alloc, rest, shown),
            "event" => show_event(self.alloc, rest, shown),
            "play" => show_play(self.alloc, self.events.as_slice(), shown),
            "drill" => show_drill(self.alloc, rest, shown),
            _ => self.add(step, shown),
        }
    }
}
