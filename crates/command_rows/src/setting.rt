//! How commands are run.
use lake_store::FixedClock;
use rows::numbers_of;
use std::alloc::{AllocError, Global};

/// 2024-01-05 12:00:00 UTC.
const NOON_MS: u64 = 1_704_456_000_000;

/// Where the table lies.
pub(crate) const PLACE: &str = "/data/t";

/// How commands are run: where the table is said to lie, the time, and the puts of a command that fail, by
/// their numbers from 0.
#[derive(Drop)]
pub(crate) struct Setting {
    pub(crate) place: String,
    pub(crate) clock: FixedClock,
    pub(crate) failing_puts: Vec<u64>,
}

impl Setting {
    /// A setting without a place.
    pub(crate) fn new(alloc: Global) -> Setting {
        Setting {
            place: String::new(alloc),
            clock: FixedClock::new(NOON_MS),
            failing_puts: Vec::new(alloc),
        }
    }

    /// The usual one.
    pub(crate) fn usual(alloc: Global) -> Result<Setting, AllocError> {
        let mut setting = Setting::new(alloc);
        setting.place.push_str(PLACE)?;
        Ok(setting)
    }
}

/// The clock that stands at this time, if it is one.
pub(crate) fn clock_at(milliseconds: &str) -> Option<FixedClock> {
    match milliseconds.parse::<u64>() {
        Ok(milliseconds) if milliseconds < 1 << 63 => Some(FixedClock::new(milliseconds)),
        _ => None,
    }
}

/// The numbers behind `fail`, if the words are these.
pub(crate) fn failing_of(alloc: Global, words: &str) -> Result<Option<Vec<u64>>, AllocError> {
    match words.strip_prefix("fail ") {
        Some(numbers) => numbers_of(alloc, numbers),
        None => Ok(None),
    }
}

/// The number behind `stop`, if the words are these.
pub(crate) fn stop_of(words: &str) -> Option<u64> {
    words.strip_prefix("stop ")?.parse::<u64>().ok()
}
