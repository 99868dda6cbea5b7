//! A store in memory. It keeps what each call replaced, so that what a crash might have left at a
//! past moment is known.
ghost use Rattle.std.specs.Prelude.{◌≡◌, List, ℕ, drop, take, IfOk, IsSome, None, OnErr, OnOk, Some};
ghost use Rattle.std.specs.FinMap as map;
ghost use Rattle.std.specs.FinSet as set;
ghost use Rattle.lake_store.specs.Crash.{IsCrashed};
ghost use Rattle.lake_store.specs.Disk.{MayLeave, moved, stored, written};
ghost use Rattle.lake_store.specs.Memory.{changed, empty_memory};

use crate::files::{FileMap, PathSet};
use crate::names::Names;
use crate::store::{Store, StoreError};
use lake_basics::limits::MAX_FILE_BYTES;
use lake_basics::{Blob, Text};
use std::alloc::{AllocError, Global};
use std::collections::VecDeque;
use std::marker::Model;
use std::mem;

/// What a call replaced.
#[derive(Drop)]
pub enum Change {
    /// The file at a path, and whether the path was dirty.
    At {
        path: Text,
        bytes: Option<Blob>,
        dirty: bool,
    },
    /// A file that moved, and whether the path that it moved to was dirty.
    Moved {
        from: Text,
        to: Text,
        dirty: bool,
    },
    /// The paths that were dirty before a sync.
    Synced {
        dirty: PathSet,
    },
    /// The paths that were dirty before a crash, and the files there.
    Crashed {
        files: FileMap,
        dirty: PathSet,
    },
}

/// Files in memory.
#[derive(Drop)]
pub struct MemoryStore {
    alloc: Global,
    files: FileMap,
    dirty: PathSet,
    // The newest first.
    past: VecDeque<Change>,
}

impl Model for MemoryStore {
    ghost use Rattle.lake_store.specs.Memory.{Memory, memory_code};

    ghost Value = { Memory };

    ghost coded = { memory_code };

    ghost use Rattle.lake_store.specs.Past.{memory_of};

    ghost view = { λ m. memory_of m.files m.dirty m.past.items };
}

impl MemoryStore {
    /// A store without files.
    pub fn new(alloc: Global) -> MemoryStore
        ensures { result ≡ empty_memory }
    {
        MemoryStore {
            alloc,
            files: FileMap::new(alloc),
            dirty: PathSet::new(alloc),
            past: VecDeque::new(alloc),
        }
    }

    /// How many files there are.
    pub fn file_count(&self) -> u64
        ensures { result ≡ map.len self.now.disk.files }
    {
        self.files.len()
    }

    /// Sets the bytes of a file, durably.
    pub fn put(&mut self, path: &str, bytes: &[u8]) -> Result<(), AllocError>
        ensures ok { OnOk result
            (self.new ≡ changed self.old (stored self.old.disk path.now bytes.now)) }
        ensures err { OnErr result (self.new ≡ self.old) }
    {
        let bytes = Blob::from_slice(self.alloc, bytes)?;
        let changed = Text::from_str(self.alloc, path)?;
        self.past.reserve(1)?;
        let before = self.files.insert(self.alloc, path, bytes)?;
        let dirty = self.dirty.remove(path);
        self.past.push_front_reserved(Change::At {
            path: changed,
            bytes: before,
            dirty,
        });
        Ok(())
    }

    // Sets the bytes of a file, which a crash may then damage.
    fn write_over(&mut self, path: &str, bytes: &[u8]) -> Result<(), AllocError>
        ensures ok { OnOk result
            (self.new ≡ changed self.old (written self.old.disk path.now bytes.now)) }
        ensures err { OnErr result (self.new ≡ self.old) }
    {
        let bytes = Blob::from_slice(self.alloc, bytes)?;
        let changed = Text::from_str(self.alloc, path)?;
        self.past.reserve(1)?;
        let (bytes, dirty) = write_file(self.alloc, &mut self.files, &mut self.dirty, path, bytes)?;
        self.past.push_front_reserved(Change::At {
            path: changed,
            bytes,
            dirty,
        });
        Ok(())
    }

    // Moves a file to a path where there is none, durably.
    fn rename(&mut self, from: &str, to: &str) -> Result<(), AllocError>
        requires there { IsSome (map.get self.old.disk.files from.now) }
        requires free { map.get self.old.disk.files to.now ≡ None }
        ensures ok { OnOk result ((bytes : List ℕ)
            × (map.get self.old.disk.files from.now ≡ Some bytes)
            × (self.new ≡ changed self.old (moved self.old.disk from.now to.now bytes))) }
        ensures err { OnErr result (self.new ≡ self.old) }
    {
        let moved_from = Text::from_str(self.alloc, from)?;
        let moved_to = Text::from_str(self.alloc, to)?;
        self.past.reserve(1)?;
        self.files.rename(self.alloc, from, to)?;
        let dirty = self.dirty.remove(to);
        self.past.push_front_reserved(Change::Moved {
            from: moved_from,
            to: moved_to,
            dirty,
        });
        Ok(())
    }

    /// Becomes an image that a crash may leave: each dirty path, in byte order, follows its choice.
    pub fn crash(&mut self, alloc: Global, choices: &[u64]) -> Result<(), AllocError>
        ensures ok { OnOk result (IsCrashed self.old.disk choices.now self.new.disk) }
        ensures image { OnOk result (MayLeave self.old.disk self.new.disk.files) }
        ensures past { OnOk result (self.new ≡ changed self.old self.new.disk) }
        ensures err { OnErr result (self.new ≡ self.old) }
    {
        self.past.reserve(1)?;
        let mut image = self.files.copy()?;
        self.dirty.tear_all(alloc, &mut image, choices)?;
        let mut files = mem::replace(&mut self.files, image);
        let dirty = mem::replace(&mut self.dirty, PathSet::new(self.alloc));
        files.keep(&dirty);
        self.past
            .push_front_reserved(Change::Crashed { files, dirty });
        Ok(())
    }
}

impl Store for MemoryStore {
    ghost use Rattle.lake_store.specs.Cause.{nothing_counted};
    ghost use Rattle.lake_store.specs.Memory.{counts_now, disk_of, earlier, left_since_of, only_now, time_of};

    ghost tells = { Unit {0} };

    ghost disk = { disk_of };

    ghost time = { time_of };

    ghost left_since = { left_since_of };

    ghost faults = { λ _. 0 };

    ghost may_fail = { λ _. ⊥ };

    ghost contests = { λ _. 0 };

    ghost may_contest = { λ _. ⊥ };

    ghost counts_end = { λ _. (nothing_counted, nothing_counted) };

    ghost earlier = { λ m t u image told le left. earlier m t u image le left };

    ghost counts_now = { λ m t image told le may. counts_now m t image le may };

    ghost only_now = { λ m image told left. only_now m image left };

    fn list(&mut self, alloc: Global, folder: &str) -> Result<Names, StoreError> {
        self.files.names(alloc, folder)
    }

    fn read(&mut self, alloc: Global, path: &str) -> Result<Option<Blob>, StoreError> {
        let Some(bytes) = self.files.get(path) else {
            return Ok(None);
        };
        let bytes = bytes.as_slice();
        let length = bytes.len() as u64;
        if length > MAX_FILE_BYTES {
            return Err(StoreError::TooLong { length });
        }
        Ok(Some(Blob::from_slice(alloc, bytes)?))
    }

    fn read_part(
        &mut self,
        alloc: Global,
        path: &str,
        from: u64,
        len: u32,
    ) -> Result<Option<Blob>, StoreError> {
        let Some(bytes) = self.files.get(path) else {
            return Ok(None);
        };
        Ok(Some(Blob::from_slice(alloc, part(bytes.as_slice(), from, len))?))
    }

    fn write(&mut self, path: &str, bytes: &[u8]) -> Result<(), StoreError> {
        Ok(self.write_over(path, bytes)?)
    }

    fn sync(&mut self) -> Result<(), StoreError> {
        self.past.reserve(1)?;
        let dirty = mem::replace(&mut self.dirty, PathSet::new(self.alloc));
        self.past.push_front_reserved(Change::Synced { dirty });
        Ok(())
    }

    fn publish(&mut self, from: &str, to: &str) -> Result<(), StoreError> {
        Ok(self.rename(from, to)?)
    }

    fn remove(&mut self, path: &str) -> Result<(), StoreError> {
        let changed = Text::from_str(self.alloc, path)?;
        self.past.reserve(1)?;
        let bytes = self.files.remove(path);
        let dirty = self.dirty.remove(path);
        self.past.push_front_reserved(Change::At {
            path: changed,
            bytes,
            dirty,
        });
        Ok(())
    }
}

// Sets the bytes of a file, and its path dirty. Answers what they were.
fn write_file(
    alloc: Global,
    files: &mut FileMap,
    dirty: &mut PathSet,
    path: &str,
    bytes: Blob,
) -> Result<(Option<Blob>, bool), AllocError>
    ensures before { IfOk result (λ before. (before.0 ≡ map.get files.old path.now)
        × (before.1 ≡ set.contains dirty.old path.now)) }
    ensures files { OnOk result (files.new ≡ map.insert files.old path.now bytes) }
    ensures dirty { OnOk result (dirty.new ≡ set.insert dirty.old path.now) }
    ensures files_stay { OnErr result (files.new ≡ files.old) }
    ensures dirty_stays { OnErr result (dirty.new ≡ dirty.old) }
{
    let added = dirty.insert(alloc, path)?;
    match files.insert(alloc, path, bytes) {
        Ok(before) => Ok((before, !added)),
        Err(error) => {
            if added {
                dirty.remove(path);
            }
            Err(error)
        }
    }
}

// At most `len` bytes from a place on.
fn part(bytes: &[u8], from: u64, len: u32) -> &[u8]
    ensures { result.now ≡ take len (drop from bytes.now) }
{
    let from = (from as usize).min(bytes.len());
    let rest = &bytes[from..];
    &rest[..rest.len().min(len as usize)]
}
