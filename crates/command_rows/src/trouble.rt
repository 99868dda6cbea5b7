//! Commands with a trouble at each of their calls of the store.
use crate::running::answer;
use crate::setting::Setting;
use crate::standing::{kinds_of, standing};
use lake_store::{FuseStore, Script};
use rows::numbers_of;
use std::alloc::{AllocError, Global};
use store_rows::{copy_of, no_trouble};

/// The most calls of a command at which troubles are tried.
const MOST_CALLS: u64 = 1000;

/// What goes wrong at a call of the store.
#[derive(Drop)]
pub(crate) enum Trouble {
    /// This call fails.
    Fail,
    /// Another writer's file is in the way of a publication.
    Contest,
    /// This call and all behind it fail, and then a crash damages each dirty path by its choice.
    StopAndCrash(Vec<u64>),
}

/// The trouble at each call that the words name, if they do.
pub(crate) fn trouble_of(alloc: Global, words: &str) -> Result<Option<Trouble>, AllocError> {
    match words {
        "each call fail" => Ok(Some(Trouble::Fail)),
        "each call contest" => Ok(Some(Trouble::Contest)),
        _ => crash_of(alloc, words),
    }
}

fn crash_of(alloc: Global, words: &str) -> Result<Option<Trouble>, AllocError> {
    let Some(choices) = words.strip_prefix("each call stop and crash ") else {
        return Ok(None);
    };
    match numbers_of(alloc, choices)? {
        Some(choices) => Ok(Some(Trouble::StopAndCrash(choices))),
        None => Ok(None),
    }
}

/// The script of a trouble at this call.
fn script_at(alloc: Global, trouble: &Trouble, call: u64) -> Result<Script, AllocError> {
    let mut script = no_trouble(alloc);
    match trouble {
        Trouble::Fail => script.failing.push(call)?,
        Trouble::Contest => script.contested.push(call)?,
        Trouble::StopAndCrash(_) => script.stop = Some(call),
    }
    Ok(script)
}

/// Ends the trouble, where it would go on.
fn end_trouble(alloc: Global, store: &mut FuseStore, trouble: &Trouble) -> Result<(), AllocError> {
    match trouble {
        Trouble::Fail | Trouble::Contest => Ok(()),
        Trouble::StopAndCrash(choices) => {
            store.set_stop(None);
            store.inner().crash(alloc, choices.as_slice())
        }
    }
}

/// What each target of a command stands at, in the order of the words.
fn standings(alloc: Global, store: &mut FuseStore, line: &str) -> Result<String, AllocError> {
    let mut told = String::new(alloc);
    let mut words = line.split(' ').skip(1);
    let Some(source) = words.next() else {
        return Ok(told);
    };
    for target in words {
        if let Some((target, source)) = kinds_of(target, source) {
            let standing = standing(alloc, store, target, source)?;
            told.push_str("standing\n")?;
            told.push_str(standing.as_str())?;
        }
    }
    Ok(told)
}

/// A command that is run again and again, each time over a copy of a store.
#[derive(Drop)]
pub(crate) struct Trial<'a> {
    pub(crate) alloc: Global,
    pub(crate) setting: &'a Setting,
    pub(crate) line: &'a str,
}

impl Trial<'_> {
    /// What the command answers over a copy of the store all of whose calls from this one on fail.
    fn stopped(&self, store: &mut FuseStore, call: Option<u64>) -> Result<String, AllocError> {
        let mut script = no_trouble(self.alloc);
        script.stop = call;
        let mut copy = copy_of(self.alloc, store, script)?;
        answer(self.alloc, self.setting, &mut copy, self.line)
    }

    /// How many calls of the store the command makes: a stop after them changes no answer.
    fn calls(&self, store: &mut FuseStore) -> Result<u64, AllocError> {
        let whole = self.stopped(store, None)?;
        for call in 0..MOST_CALLS {
            if self.stopped(store, Some(call))? == whole {
                return Ok(call);
            }
        }
        Ok(MOST_CALLS)
    }

    /// What the command answers with the trouble at this call and what its target then stands at, and the
    /// same of the command again.
    fn outcome(
        &self,
        store: &mut FuseStore,
        trouble: &Trouble,
        call: u64,
    ) -> Result<String, AllocError> {
        let script = script_at(self.alloc, trouble, call)?;
        let mut copy = copy_of(self.alloc, store, script)?;
        let first = answer(self.alloc, self.setting, &mut copy, self.line)?;
        end_trouble(self.alloc, &mut copy, trouble)?;
        let between = standings(self.alloc, &mut copy, self.line)?;
        let again = answer(self.alloc, self.setting, &mut copy, self.line)?;
        let after = standings(self.alloc, &mut copy, self.line)?;
        format!(in self.alloc; "first {first}{between}again {again}{after}")
    }

    /// The outcomes of the trouble at each call, in the order in which they first came.
    pub(crate) fn outcomes(
        &self,
        store: &mut FuseStore,
        trouble: &Trouble,
    ) -> Result<String, AllocError> {
        let calls = self.calls(store)?;
        let mut outcomes: Vec<String> = Vec::new(self.alloc);
        for call in 0..calls {
            let outcome = self.outcome(store, trouble, call)?;
            if !outcomes.contains(&outcome) {
                outcomes.push(outcome)?;
            }
        }
        self.told(calls, &outcomes)
    }

    fn told(&self, calls: u64, outcomes: &[String]) -> Result<String, AllocError> {
        let mut told = match calls {
            0..=5 => format!(in self.alloc; "{calls} calls\n")?,
            _ => String::from_str(self.alloc, "more than 5 calls\n")?,
        };
        for outcome in outcomes {
            told.push_str("- ")?;
            told.push_str(outcome.as_str())?;
        }
        Ok(told)
    }
}
