//! The system's files, where each call is noted and may be told to fail.
use crate::watch::{Call, Watch, after, before, listed_before, seen_at};
use crate::watched_file::{ListedDir, WatchedFile};
use std::alloc::{Allocator, Global};
use std::cell::RefCell;
use std::fmt::Display;
use std::fs::{Metadata, OpenOptions};
use std::io;
use std::rt::Files;

/// A runtime whose files are the system's. Those calls are passed on that a store makes.
#[derive(Clone, Copy)]
pub(crate) struct Watched<'a> {
    pub rt: &'a HostRuntime,
    pub watch: &'a RefCell<Watch>,
}

impl<'a> Watched<'a> {
    /// Which call it is to open a path so, and then to sync what was opened.
    fn calls_of(&self, how: &OpenOptions, path: &str) -> (Call, Call) {
        if how.asks_write() {
            return (Call::Create, Call::SyncFile);
        }
        match self.rt.metadata(path) {
            Ok(metadata) if metadata.is_dir() => (Call::Open, Call::SyncFolder),
            _ => (Call::Open, Call::SyncFile),
        }
    }
}

impl<'a> Alloc for Watched<'a> {
    type A = Global;

    fn alloc(&self) -> Global {
        self.rt.alloc()
    }
}

impl<'a> Files for Watched<'a> {
    type File = WatchedFile<'a>;

    type Dir = ListedDir<<HostRuntime as Files>::Dir>;

    fn open_file(&self, how: &OpenOptions, path: &str) -> io::Result<WatchedFile<'a>> {
        let (call, sync) = self.calls_of(how, path);
        before(self.watch, call, path)?;
        let opened = self.rt.open_file(how, path);
        let file = after(self.watch, call, path, opened)?;
        Ok(WatchedFile {
            file,
            path: path.to_string(self.rt.alloc())?,
            sync,
            watch: self.watch,
        })
    }

    fn open_dir(&self, path: &str) -> io::Result<ListedDir<<HostRuntime as Files>::Dir>> {
        before(self.watch, Call::List, path)?;
        Ok(ListedDir {
            before: listed_before(self.watch)?,
            dir: self.rt.open_dir(path)?,
        })
    }

    fn metadata(&self, path: &str) -> io::Result<Metadata> {
        before(self.watch, Call::Look, path)?;
        let seen = seen_at(self.watch, self.rt.alloc(), path)?;
        self.rt.metadata(seen.as_str())
    }

    fn symlink_metadata(&self, path: &str) -> io::Result<Metadata> {
        before(self.watch, Call::Look, path)?;
        self.rt.symlink_metadata(path)
    }

    fn copy(&self, from: &str, to: &str) -> io::Result<u64> {
        self.rt.copy(from, to)
    }

    fn rename(&self, from: &str, to: &str) -> io::Result<()> {
        before(self.watch, Call::Rename, to)?;
        let answer = self.rt.rename(from, to);
        after(self.watch, Call::Rename, to, answer)
    }

    fn remove_file(&self, path: &str) -> io::Result<()> {
        before(self.watch, Call::Remove, path)?;
        let answer = self.rt.remove_file(path);
        after(self.watch, Call::Remove, path, answer)
    }

    fn create_dir(&self, path: &str) -> io::Result<()> {
        before(self.watch, Call::MakeFolder, path)?;
        let answer = self.rt.create_dir(path);
        after(self.watch, Call::MakeFolder, path, answer)
    }

    fn remove_dir(&self, path: &str) -> io::Result<()> {
        self.rt.remove_dir(path)
    }

    fn remove_dir_all<B: Allocator>(&self, alloc: B, path: &str) -> io::Result<()> {
        self.rt.remove_dir_all(alloc, path)
    }

    fn hard_link(&self, original: &str, link: &str) -> io::Result<()> {
        before(self.watch, Call::Link, link)?;
        let answer = self.rt.hard_link(original, link);
        after(self.watch, Call::Link, link, answer)
    }
}

impl<'a> Print for Watched<'a> {
    fn print<D: Display + Drop>(&self, value: D) -> io::Result<()> {
        self.rt.print(value)
    }

    fn println<D: Display + Drop>(&self, value: D) -> io::Result<()> {
        self.rt.println(value)
    }

    fn write_all(&self, bytes: &[u8]) -> io::Result<()> {
        let text = str::from_utf8(bytes).unwrap_or("no text");
        before(self.watch, Call::Print, text)?;
        after(self.watch, Call::Print, text, Ok(()))
    }
}
