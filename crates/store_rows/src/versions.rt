//! Delta versions that are made by their numbers.
use crate::files::push_replaced;
use std::alloc::{AllocError, Global};

/// Versions that are alike: their numbers, and how many files each of them speaks of.
#[derive(Clone, Copy)]
pub(crate) struct Versions {
    pub(crate) first: u64,
    pub(crate) last: u64,
    files: u64,
}

impl Versions {
    /// The versions that three words say, if they say some.
    pub(crate) fn from_words(words: &str) -> Option<Versions> {
        let (first, rest) = words.split_once(' ')?;
        let (last, files) = rest.split_once(' ')?;
        Some(Versions {
            first: first.parse::<u64>().ok()?,
            last: last.parse::<u64>().ok()?,
            files: files.parse::<u64>().ok()?,
        })
    }

    /// The text of a version: each line, and one with `FILE` once for each file. `FILE`, `VERSION` and
    /// `EARLIER` stand for the file's number, for the version's, and for how many of the versions come before it.
    pub(crate) fn text(
        self,
        alloc: Global,
        version: u64,
        lines: &[&str],
    ) -> Result<String, AllocError> {
        let mut text = String::new(alloc);
        for line in lines {
            let own = self.of_version(alloc, version, line)?;
            self.push_line(alloc, own.as_str(), &mut text)?;
        }
        Ok(text)
    }

    /// The line with the version's numbers in it.
    fn of_version(self, alloc: Global, version: u64, line: &str) -> Result<String, AllocError> {
        let number = format!(in alloc; "{version}")?;
        let earlier = format!(in alloc; "{}", version.saturating_sub(self.first))?;
        let own = line.replace(alloc, "VERSION", number.as_str())?;
        own.as_str().replace(alloc, "EARLIER", earlier.as_str())
    }

    fn push_line(self, alloc: Global, line: &str, text: &mut String) -> Result<(), AllocError> {
        let count = if line.contains("FILE") { self.files } else { 1 };
        for file in 0..count {
            let number = format!(in alloc; "{file:05}")?;
            push_replaced(alloc, line, "FILE", number.as_str(), text)?;
        }
        Ok(())
    }
}

/// The path of a version.
pub(crate) fn path_of(alloc: Global, version: u64) -> Result<String, AllocError> {
    format!(in alloc; "_delta_log/{version:020}.json")
}
