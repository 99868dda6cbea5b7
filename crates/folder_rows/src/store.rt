//! Steps on the store.
use crate::shown::{show_done, show_line, show_no_step, show_refusal, show_text};
use crate::steps::FolderSteps;
use lake_store::{Blob, Names, Store, StoreError, Text};
use rows::{Step, first_of};
use std::alloc::{AllocError, Global};

impl<'a> FolderSteps<'a> {
    /// Does a step on the store, on the disk or on the system.
    pub(crate) fn on_store(
        &mut self,
        step: &Step<'_>,
        shown: &mut String,
    ) -> Result<(), AllocError> {
        let (verb, rest) = first_of(step.words());
        match verb {
            "list" => self.list(rest, shown),
            "read" => self.read(rest, shown),
            "part" => self.read_part(rest, shown),
            "write" => self.write(rest, step, shown),
            "sync" => self.sync(shown),
            "publish" => self.publish(rest, shown),
            "remove" => self.remove(rest, shown),
            _ => self.on_disk(step, shown),
        }
    }

    fn list(&mut self, path: &str, shown: &mut String) -> Result<(), AllocError> {
        let alloc = self.alloc();
        let answer = self.store.list(alloc, path);
        self.show_noted(shown)?;
        show_names(alloc, answer, shown)
    }

    fn read(&mut self, path: &str, shown: &mut String) -> Result<(), AllocError> {
        let alloc = self.alloc();
        let answer = self.store.read(alloc, path);
        self.show_noted(shown)?;
        show_bytes(alloc, answer, shown)
    }

    fn read_part(&mut self, words: &str, shown: &mut String) -> Result<(), AllocError> {
        let (path, range) = first_of(words);
        let Some((from, length)) = range_of(range) else {
            return show_no_step(shown);
        };
        let alloc = self.alloc();
        let answer = self.store.read_part(alloc, path, from, length);
        self.show_noted(shown)?;
        show_bytes(alloc, answer, shown)
    }

    fn write(&mut self, path: &str, step: &Step<'_>, shown: &mut String) -> Result<(), AllocError> {
        let text = step.text(self.alloc())?;
        let answer = self.store.write(path, text.as_str().as_bytes());
        self.show_noted(shown)?;
        show_done(self.alloc(), answer, shown)
    }

    fn sync(&mut self, shown: &mut String) -> Result<(), AllocError> {
        let answer = self.store.sync();
        self.show_noted(shown)?;
        show_done(self.alloc(), answer, shown)
    }

    fn publish(&mut self, words: &str, shown: &mut String) -> Result<(), AllocError> {
        let Some((from, to)) = words.split_once(" as ") else {
            return show_no_step(shown);
        };
        let answer = self.store.publish(from, to);
        self.show_noted(shown)?;
        show_done(self.alloc(), answer, shown)
    }

    fn remove(&mut self, path: &str, shown: &mut String) -> Result<(), AllocError> {
        let answer = self.store.remove(path);
        self.show_noted(shown)?;
        show_done(self.alloc(), answer, shown)
    }
}

/// Where a part begins and how long it is.
fn range_of(words: &str) -> Option<(u64, u32)> {
    let (from, length) = words.split_once(' ')?;
    Some((from.parse::<u64>().ok()?, length.parse::<u32>().ok()?))
}

fn show_names(
    alloc: Global,
    answer: Result<Names, StoreError>,
    shown: &mut String,
) -> Result<(), AllocError> {
    match answer {
        Ok(names) if names.is_empty() => show_line(shown, "no names"),
        Ok(names) => show_lines(names.as_slice(), shown),
        Err(error) => show_refusal(alloc, error, shown),
    }
}

fn show_lines(names: &[Text], shown: &mut String) -> Result<(), AllocError> {
    for name in names {
        show_line(shown, name.as_str())?;
    }
    Ok(())
}

fn show_bytes(
    alloc: Global,
    answer: Result<Option<Blob>, StoreError>,
    shown: &mut String,
) -> Result<(), AllocError> {
    match answer {
        Ok(Some(bytes)) if bytes.as_slice().is_empty() => show_line(shown, "no bytes"),
        Ok(Some(bytes)) => show_text(shown, bytes.as_slice()),
        Ok(None) => show_line(shown, "no file"),
        Err(error) => show_refusal(alloc, error, shown),
    }
}
