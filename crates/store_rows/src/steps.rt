//! The steps of rows over a store in memory.
use crate::container::{bytes_of_lines, container_of_lines};
use crate::files::{
    all_files, copy_file, cut_file, file_text, no_trouble, numbered_lines, remove_file, show_file,
    show_files, show_lists, show_manifests,
};
use crate::versions::{Versions, path_of};
use lake_store::{FuseStore, MemoryStore};
use rows::{Step, Steps, first_of, show_no_step};
use std::alloc::{AllocError, Global};
use std::mem;

/// A store in memory, and its files as they were remembered.
#[derive(Drop)]
pub struct StoreSteps {
    alloc: Global,
    pub store: FuseStore,
    remembered: String,
}

impl StoreSteps {
    /// A store without files, none of whose calls fails.
    pub fn new(alloc: Global) -> StoreSteps {
        StoreSteps {
            alloc,
            store: FuseStore::new(alloc, MemoryStore::new(alloc), no_trouble(alloc)),
            remembered: String::new(alloc),
        }
    }

    /// Lets the calls of these numbers fail, counted from 0 and from here on.
    pub fn fail_calls(&mut self, numbers: Vec<u64>) {
        let mut script = no_trouble(self.alloc);
        script.failing = numbers;
        let files = mem::replace(self.store.inner(), MemoryStore::new(self.alloc));
        self.store = FuseStore::new(self.alloc, files, script);
    }

    /// Does a step that changes files, or one that shows them.
    fn change(&mut self, step: &Step<'_>, shown: &mut String) -> Result<(), AllocError> {
        let (verb, rest) = first_of(step.words());
        match verb {
            "file" => self.put_file(rest, step),
            "lines" => self.put_lines(rest, step, shown),
            "bytes" => self.put_bytes(rest, step, shown),
            "container" => self.put_container(rest, step, shown),
            "versions" => self.put_versions(rest, step, shown),
            "cut" => cut_file(self.alloc, &mut self.store, rest),
            "copy" => self.copy(rest, step, shown),
            "remove" => self.remove(rest),
            _ => self.look(step, shown),
        }
    }

    fn put_file(&mut self, words: &str, step: &Step<'_>) -> Result<(), AllocError> {
        let text = step.text(self.alloc)?;
        match words.strip_suffix(" unended") {
            Some(path) => self.put_text(path, text.as_str().trim_end_matches('\n')),
            None => self.put_text(words, text.as_str()),
        }
    }

    fn put_text(&mut self, path: &str, text: &str) -> Result<(), AllocError> {
        self.store.inner().put(path, text.as_bytes())
    }

    fn put_lines(
        &mut self,
        words: &str,
        step: &Step<'_>,
        shown: &mut String,
    ) -> Result<(), AllocError> {
        let (path, count) = first_of(words);
        match numbered_lines(self.alloc, count, step.lines())? {
            Some(text) => self.put_text(path, text.as_str()),
            None => show_no_step(shown, step),
        }
    }

    fn put_bytes(
        &mut self,
        path: &str,
        step: &Step<'_>,
        shown: &mut String,
    ) -> Result<(), AllocError> {
        match bytes_of_lines(self.alloc, step.lines())? {
            Some(bytes) => self.store.inner().put(path, bytes.as_slice()),
            None => show_no_step(shown, step),
        }
    }

    fn put_container(
        &mut self,
        words: &str,
        step: &Step<'_>,
        shown: &mut String,
    ) -> Result<(), AllocError> {
        let (path, kind) = first_of(words);
        let (codec, count) = first_of(kind);
        match container_of_lines(self.alloc, codec, count, step.lines())? {
            Some(bytes) => self.store.inner().put(path, bytes.as_slice()),
            None => show_no_step(shown, step),
        }
    }

    fn put_versions(
        &mut self,
        words: &str,
        step: &Step<'_>,
        shown: &mut String,
    ) -> Result<(), AllocError> {
        let Some(versions) = Versions::from_words(words) else {
            return show_no_step(shown, step);
        };
        for version in versions.first..versions.last.saturating_add(1) {
            self.put_version(versions, version, step.lines())?;
        }
        Ok(())
    }

    fn put_version(
        &mut self,
        versions: Versions,
        version: u64,
        lines: &[&str],
    ) -> Result<(), AllocError> {
        let path = path_of(self.alloc, version)?;
        let text = versions.text(self.alloc, version, lines)?;
        self.put_text(path.as_str(), text.as_str())
    }

    fn copy(&mut self, words: &str, step: &Step<'_>, shown: &mut String) -> Result<(), AllocError> {
        match words.split_once(' ') {
            Some((from, to)) => copy_file(self.alloc, &mut self.store, from, to),
            None => show_no_step(shown, step),
        }
    }

    fn remove(&mut self, paths: &str) -> Result<(), AllocError> {
        for path in paths.split(' ') {
            remove_file(&mut self.store, path)?;
        }
        Ok(())
    }

    /// Does a step that shows files.
    fn look(&mut self, step: &Step<'_>, shown: &mut String) -> Result<(), AllocError> {
        let (verb, rest) = first_of(step.words());
        match verb {
            "show" => show_file(self.alloc, &mut self.store, rest, shown),
            "has" => self.show_whether(rest, step, shown),
            "list" => show_lists(self.alloc, &mut self.store, rest, shown),
            "files" => show_files(self.alloc, &mut self.store, rest, shown),
            "manifests" => show_manifests(self.alloc, &mut self.store, rest, shown),
            "remember" => self.remember(),
            "changes" => self.compare(shown),
            _ => show_no_step(shown, step),
        }
    }

    fn show_whether(
        &mut self,
        path: &str,
        step: &Step<'_>,
        shown: &mut String,
    ) -> Result<(), AllocError> {
        let text = file_text(self.alloc, &mut self.store, path)?;
        let sought = step.text(self.alloc)?;
        let sought = sought.as_str().trim_end_matches('\n');
        let is_there = text.as_str().contains(sought);
        shown.push_str(if is_there { "yes" } else { "no" })
    }

    fn remember(&mut self) -> Result<(), AllocError> {
        self.remembered = all_files(self.alloc, &mut self.store)?;
        Ok(())
    }

    fn compare(&mut self, shown: &mut String) -> Result<(), AllocError> {
        let files = all_files(self.alloc, &mut self.store)?;
        if files == self.remembered {
            shown.push_str("no file changes")
        } else {
            shown.push_str("files change")
        }
    }
}

impl Steps for StoreSteps {
    fn begin(&mut self) -> Result<(), AllocError> {
        *self = StoreSteps::new(self.alloc);
        Ok(())
    }

    fn step(&mut self, step: &Step<'_>, shown: &mut String) -> Result<(), AllocError> {
        self.change(step, shown)
    }
}
