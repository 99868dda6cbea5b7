//! The steps of rows of commands.
use crate::running::{answer, report};
use crate::setting::{Setting, clock_at, failing_of, stop_of};
use crate::standing::{kinds_of, standing};
use crate::trouble::{Trial, trouble_of};
use event_rows::EventSteps;
use rows::{Step, Steps, first_of, show_no_step};
use std::alloc::{AllocError, Global};
use store_rows::StoreSteps;

/// A store in memory, how commands are run over it, and the events that are played over one of their own.
#[derive(Drop)]
pub(crate) struct Commands {
    alloc: Global,
    files: StoreSteps,
    setting: Setting,
    events: EventSteps,
}

impl Commands {
    pub(crate) fn new(alloc: Global) -> Commands {
        Commands {
            alloc,
            files: StoreSteps::new(alloc),
            setting: Setting::new(alloc),
            events: EventSteps::new(alloc),
        }
    }

    /// Does a step that runs a command or says how, one of the row's events, or one on files.
    fn run(&mut self, step: &Step<'_>, shown: &mut String) -> Result<(), AllocError> {
        let (verb, rest) = first_of(step.words());
        match verb {
            "place" => self.set_place(rest),
            "clock" => self.set_clock(rest, step, shown),
            "puts" => self.set_puts(rest, step, shown),
            "calls" => self.set_calls(rest, step, shown),
            "run" => self.show_run(rest, shown),
            "at" => self.run_troubled(rest, step, shown),
            "report" if rest == "hudi delta" => self.show_report(shown),
            "standing" => self.stand(rest, step, shown),
            "vector"
            | "events"
            | "event"
            | "extend"
            | "shorten"
            | "sync"
            | "full"
            | "stop"
            | "crash"
            | "play"
            | "drill" => self.events.step(step, shown),
            _ => self.files.step(step, shown),
        }
    }

    fn set_place(&mut self, place: &str) -> Result<(), AllocError> {
        self.setting.place = String::from_str(self.alloc, place)?;
        Ok(())
    }

    fn set_clock(
        &mut self,
        milliseconds: &str,
        step: &Step<'_>,
        shown: &mut String,
    ) -> Result<(), AllocError> {
        match clock_at(milliseconds) {
            Some(clock) => {
                self.setting.clock = clock;
                Ok(())
            }
            None => show_no_step(shown, step),
        }
    }

    fn set_puts(
        &mut self,
        words: &str,
        step: &Step<'_>,
        shown: &mut String,
    ) -> Result<(), AllocError> {
        match failing_of(self.alloc, words)? {
            Some(numbers) => {
                self.setting.failing_puts = numbers;
                Ok(())
            }
            None => show_no_step(shown, step),
        }
    }

    fn set_calls(
        &mut self,
        words: &str,
        step: &Step<'_>,
        shown: &mut String,
    ) -> Result<(), AllocError> {
        if let Some(call) = stop_of(words) {
            self.files.store.set_stop(Some(call));
            return Ok(());
        }
        match failing_of(self.alloc, words)? {
            Some(numbers) => {
                self.files.fail_calls(numbers);
                Ok(())
            }
            None => show_no_step(shown, step),
        }
    }

    fn show_run(&mut self, line: &str, shown: &mut String) -> Result<(), AllocError> {
        let answer = answer(self.alloc, &self.setting, &mut self.files.store, line)?;
        shown.push_str(answer.as_str())
    }

    fn show_report(&mut self, shown: &mut String) -> Result<(), AllocError> {
        let report = report(self.alloc, &self.setting, &mut self.files.store)?;
        shown.push_str(report.as_str())
    }

    fn run_troubled(
        &mut self,
        words: &str,
        step: &Step<'_>,
        shown: &mut String,
    ) -> Result<(), AllocError> {
        let Some((trouble, line)) = words.split_once(": ") else {
            return show_no_step(shown, step);
        };
        let Some(trouble) = trouble_of(self.alloc, trouble)? else {
            return show_no_step(shown, step);
        };
        let trial = Trial {
            alloc: self.alloc,
            setting: &self.setting,
            line,
        };
        let outcomes = trial.outcomes(&mut self.files.store, &trouble)?;
        shown.push_str(outcomes.as_str())
    }

    fn stand(
        &mut self,
        words: &str,
        step: &Step<'_>,
        shown: &mut String,
    ) -> Result<(), AllocError> {
        let (target, source) = first_of(words);
        match kinds_of(target, source) {
            Some((target, source)) => {
                let standing = standing(self.alloc, &mut self.files.store, target, source)?;
                shown.push_str(standing.as_str())
            }
            None => show_no_step(shown, step),
        }
    }
}

impl Steps for Commands {
    fn begin(&mut self) -> Result<(), AllocError> {
        self.files.begin()?;
        self.setting = Setting::usual(self.alloc)?;
        self.events.begin()
    }

    fn step(&mut self, step: &Step<'_>, shown: &mut String) -> Result<(), AllocError> {
        self.run(step, shown)
    }
}
