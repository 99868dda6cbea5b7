//! A store over a folder of the system. It tells nothing of content: it is proved safe, and to count each fault.
ghost use Rattle.std.specs.Prelude.{◌≡◌, ◌⊎◌, ◌≤◌, length, IfErr, IfOk};
ghost use Rattle.std.specs.Ordering.{nat_cmp};
ghost use Rattle.std.specs.Cmp.Lexicographic.{slice_cmp};
ghost use Rattle.std.specs.List.Sorted.{IsStrictlySortedBy};
ghost use Rattle.lake_store.specs.Cause.{Rose};
ghost use Rattle.lake_system.specs.Lengths.{IsWithin};

use crate::access::Access;
use crate::files;
use crate::files::Found;
use lake_store::{Blob, Names, Store, StoreError};
use std::alloc::{AllocError, Global};
use std::collections::BTreeSet;
use std::io::{self, ErrorKind};
use std::rt::Files;
use table_history::limits::MAX_NAMES;

/// The files below one folder.
#[derive(Drop)]
pub struct FolderStore<R> {
    rt: R,
    alloc: Global,
    folder: String,
    // whether it is made durable what a list finds, since more is built on it
    builds: bool,
    // the folders whose names were on the disk when they were first listed
    settled: BTreeSet<String>,
    // the folders whose names may not be on the disk
    unsynced: BTreeSet<String>,
    faults: u64,
    contests: u64,
}

impl<R: Files + AllocGlobal + Clone + Drop> FolderStore<R> {
    /// The files below the folder, which needn't be there yet. Where a run writes, each folder that it lists, and those
    /// above it, are on the disk before anything is built on the names in them: a run that was cut off may have left
    /// one that isn't.
    pub fn new(rt: R, alloc: Global, folder: String, access: Access) -> FolderStore<R> {
        FolderStore {
            rt,
            alloc,
            folder,
            builds: access == Access::Writes,
            settled: BTreeSet::new(alloc),
            unsynced: BTreeSet::new(alloc),
            faults: 0,
            contests: 0,
        }
    }

    // The answer to an error of the system, which is counted. Want of memory is told as such.
    fn refuse(&mut self, error: io::Error) -> StoreError
        ensures kind { (result ≡ StoreError.Memory) ⊎ (result ≡ StoreError.Failed) }
        ensures rose { Rose self.old.faults self.new.faults }
        ensures faults { self.old.faults ≤ self.new.faults }
        ensures contests { self.new.contests ≡ self.old.contests }
    {
        self.faults = self.faults.saturating_add(1);
        if error.kind() == ErrorKind::OutOfMemory {
            StoreError::Memory
        } else {
            StoreError::Failed
        }
    }

    fn full_path(&self, path: &str) -> Result<String, StoreError>
        ensures { IfErr result (λ e. e ≡ StoreError.Memory) }
    {
        Ok(format!(in self.alloc; "{}/{path}", self.folder)?)
    }

    // The names of the files in the folder. At its first list they are made durable, where the run writes.
    fn names_in(&mut self, alloc: Global, folder: &str) -> io::Result<Found<Names>>
        ensures names { IfOk result (λ found. IsWithin MAX_NAMES (λ names. length names) found) }
        ensures faults { self.new.faults ≡ self.old.faults }
        ensures contests { self.new.contests ≡ self.old.contests }
    {
        if self.builds {
            settle(
                &self.rt,
                self.alloc,
                folder,
                self.folder.as_str(),
                &mut self.settled,
            )?;
        }
        files::names_in(&self.rt, alloc, folder)
    }

    // Makes the file anew, and notes which folders have a name that may not be on the disk.
    fn write_file(&mut self, path: &str, bytes: &[u8]) -> io::Result<()>
        ensures faults { self.new.faults ≡ self.old.faults }
        ensures contests { self.new.contests ≡ self.old.contests }
    {
        let there = files::folder_there(&self.rt, path)?;
        add_folders(self.alloc, path, there, &mut self.unsynced)?;
        if there != files::folder_of(path) {
            files::make_folder_of(&self.rt, path)?;
        }
        files::write_new(&self.rt, path, bytes)
    }

    fn sync_folders(&self) -> io::Result<()> {
        for folder in &self.unsynced {
            files::sync_folder(&self.rt, folder.as_str())?;
        }
        Ok(())
    }
}

// Has the names in the folder on the disk, and those of the folders that it lies in, up to `own`: each once in a run.
fn settle<R: Files>(
    rt: &R,
    alloc: Global,
    folder: &str,
    own: &str,
    settled: &mut BTreeSet<String>,
) -> io::Result<()> {
    let mut folder = folder.trim_end_matches('/');
    for _ in 0..folder.len() {
        if settled.contains(folder) {
            break;
        }
        files::sync_folder(rt, folder)?;
        settled.insert(folder.to_string(alloc)?)?;
        if folder == own {
            break;
        }
        folder = files::folder_of(folder);
    }
    Ok(())
}

// Adds the folders that the path lies in, up to `last`.
fn add_folders(
    alloc: Global,
    path: &str,
    last: &str,
    folders: &mut BTreeSet<String>,
) -> Result<(), AllocError> {
    let mut folder = path;
    for _ in 0..path.len() {
        folder = files::folder_of(folder);
        folders.insert(folder.to_string(alloc)?)?;
        if folder == last {
            break;
        }
    }
    Ok(())
}

impl<R: Files + AllocGlobal + Clone + Drop> Store for FolderStore<R> {
    ghost use Rattle.std.specs.Prelude.{ℕ};
    ghost use Rattle.lake_store.specs.Cause.{count_ends, count_of};
    ghost use Rattle.lake_store.specs.Disk.{empty_disk};

    ghost tells = { ⊥ };

    ghost disk = { λ _. empty_disk };

    ghost time = { λ _. 0 };

    ghost left_since = { λ _ t image. ⊥ };

    ghost faults = { λ s. count_of s.faults };

    ghost may_fail = { λ _. Unit {0} };

    ghost contests = { λ s. count_of s.contests };

    ghost may_contest = { λ _. Unit {0} };

    ghost counts_end = { λ s. (count_ends s.faults, count_ends s.contests) };

    ghost earlier = { λ s t u image told le left. absurd told };

    ghost counts_now = { λ s t image told le may. absurd told };

    ghost only_now = { λ s image told left. absurd told };

    fn list(&mut self, alloc: Global, folder: &str) -> Result<Names, StoreError> {
        let path = self.full_path(folder)?;
        match self.names_in(alloc, path.as_str()) {
            Ok(Found::Here(names)) => Ok(names),
            Ok(Found::Absent) => Ok(Names::new(alloc)),
            Ok(Found::TooLong { length }) => Err(StoreError::TooLong { length }),
            Err(error) => Err(self.refuse(error)),
        }
    }

    fn read(&mut self, alloc: Global, path: &str) -> Result<Option<Blob>, StoreError> {
        let path = self.full_path(path)?;
        match files::read_whole(&self.rt, alloc, path.as_str()) {
            Ok(Found::Here(bytes)) => Ok(Some(Blob::from_vec(bytes))),
            Ok(Found::Absent) => Ok(None),
            Ok(Found::TooLong { length }) => Err(StoreError::TooLong { length }),
            Err(error) => Err(self.refuse(error)),
        }
    }

    fn read_part(
        &mut self,
        alloc: Global,
        path: &str,
        from: u64,
        len: u32,
    ) -> Result<Option<Blob>, StoreError> {
        let path = self.full_path(path)?;
        match files::read_range(&self.rt, alloc, path.as_str(), from, len) {
            Ok(Some(bytes)) => Ok(Some(Blob::from_vec(bytes))),
            Ok(None) => Ok(None),
            Err(error) => Err(self.refuse(error)),
        }
    }

    fn write(&mut self, path: &str, bytes: &[u8]) -> Result<(), StoreError> {
        let path = self.full_path(path)?;
        match self.write_file(path.as_str(), bytes) {
            Ok(()) => Ok(()),
            Err(error) => Err(self.refuse(error)),
        }
    }

    fn sync(&mut self) -> Result<(), StoreError> {
        match self.sync_folders() {
            Ok(()) => {
                self.unsynced.clear();
                Ok(())
            }
            Err(error) => Err(self.refuse(error)),
        }
    }

    fn publish(&mut self, from: &str, to: &str) -> Result<(), StoreError> {
        let (from, to) = (self.full_path(from)?, self.full_path(to)?);
        match files::move_to_free(&self.rt, from.as_str(), to.as_str()) {
            Ok(true) => Ok(()),
            Ok(false) => {
                self.contests = self.contests.saturating_add(1);
                Err(StoreError::Taken)
            }
            Err(error) => Err(self.refuse(error)),
        }
    }

    fn remove(&mut self, path: &str) -> Result<(), StoreError> {
        let full = self.full_path(path)?;
        match files::remove_durably(&self.rt, full.as_str()) {
            Ok(()) => Ok(()),
            Err(error) => Err(self.refuse(error)),
        }
    }
}
