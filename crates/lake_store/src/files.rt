//! Files and paths in memory, which contracts see as a finite map and a finite set.
ghost use Rattle.std.specs.Prelude.{◌≡◌, ◌<◌, ◌≤◌, ◌++◌, List, ℕ, length, IfOk, IsErrOf, IsSome, None, OnErr, OnOk, Some, not, string_bytes, take};
ghost use Rattle.std.specs.Option.{option_copied};
ghost use Rattle.std.specs.FinMap as map;
ghost use Rattle.std.specs.Ordering.{nat_cmp};
ghost use Rattle.std.specs.Cmp.Lexicographic.{slice_cmp};
ghost use Rattle.std.specs.List.Sorted.{IsStrictlySortedBy};
ghost use Rattle.std.specs.FinSet as set;
ghost use Rattle.lake_store.specs.Crash;
ghost use Rattle.lake_store.specs.Crash.{IsListing, IsNextChoice, all_torn, among, torn};
ghost use Rattle.lake_store.specs.Disk;
ghost use Rattle.lake_store.specs.Disk.{ListsFolder, names_in};
ghost use Rattle.lake_store.specs.Folder.{IsRangeOf};

use crate::names::Names;
use crate::store::StoreError;
use lake_basics::limits::MAX_NAMES;
use lake_basics::{Blob, Text};
use std::alloc::{AllocError, Global};
use std::collections::{BTreeMap, BTreeSet};
use std::marker::Model;
use std::ops::Bound;

/// The bytes of files, by their paths.
#[derive(Drop)]
pub struct FileMap {
    files: BTreeMap<String, Blob>,
}

impl Model for FileMap {
    ghost use Rattle.std.specs.Coded.{coded_list, coded_ℕ};
    ghost use Rattle.std.specs.FinMap as map;
    ghost use Rattle.lake_store.specs.Disk.{Files};
    ghost use Rattle.lake_store.specs.Trees.{files_of};

    ghost Value = { Files };

    ghost coded = { map.code (coded_list coded_ℕ) (coded_list coded_ℕ) };

    ghost view = { λ a. files_of a.files };
}

impl FileMap {
    /// No files.
    pub fn new(alloc: Global) -> FileMap
        ensures { result ≡ map.empty }
    {
        FileMap {
            files: BTreeMap::new(alloc),
        }
    }

    /// The bytes of the file at a path. None where no file is there.
    pub fn get(&self, path: &str) -> Option<&Blob>
        ensures { option_copied result ≡ map.get self.now path.now }
    {
        self.files.get(path)
    }

    /// Sets the bytes of a file, and answers those before.
    pub fn insert(
        &mut self,
        alloc: Global,
        path: &str,
        bytes: Blob,
    ) -> Result<Option<Blob>, AllocError>
        ensures before { IfOk result (λ before. before ≡ map.get self.old path.now) }
        ensures ok { OnOk result (self.new ≡ map.insert self.old path.now bytes) }
        ensures err { OnErr result (self.new ≡ self.old) }
    {
        let key = String::from_str(alloc, path)?;
        Ok(self.files.insert(key, bytes)?)
    }

    /// Removes a file, and answers its bytes.
    pub fn remove(&mut self, path: &str) -> Option<Blob>
        ensures before { result ≡ map.get self.old path.now }
        ensures removed { self.new ≡ map.remove self.old path.now }
    {
        self.files.remove(path)
    }

    /// How many files there are.
    pub fn len(&self) -> u64
        ensures { result ≡ map.len self.now }
    {
        self.files.len() as u64
    }

    /// Equal files in memory of their own.
    pub fn copy(&self) -> Result<FileMap, AllocError>
        ensures { IfOk result (λ files. files ≡ self.now) }
    {
        Ok(FileMap {
            files: self.files.clone()?,
        })
    }

    /// Removes all files but those at the paths.
    pub fn keep(&mut self, paths: &PathSet)
        ensures { self.new ≡ among self.old paths.now }
    {
        self.files.retain(|path, _| paths.contains(path.as_str()));
    }

    /// Leaves of a file what a choice says.
    pub fn tear(&mut self, alloc: Global, path: &str, choice: u64) -> Result<(), AllocError>
        ensures { OnOk result (self.new ≡ torn self.old path.now choice) }
    {
        match left_by(alloc, self.get(path), choice)? {
            Some(bytes) => {
                self.insert(alloc, path, bytes)?;
            }
            None => {
                self.remove(path);
            }
        }
        Ok(())
    }

    /// Moves a file to a path where there is none.
    pub fn rename(&mut self, alloc: Global, from: &str, to: &str) -> Result<(), AllocError>
        requires there { IsSome (map.get self.old from.now) }
        requires free { map.get self.old to.now ≡ None }
        ensures ok { OnOk result ((bytes : List ℕ) × (map.get self.old from.now ≡ Some bytes)
            × (self.new ≡ map.insert (map.remove self.old from.now) to.now bytes)) }
        ensures err { OnErr result (self.new ≡ self.old) }
    {
        let key = String::from_str(alloc, to)?;
        // Room is made first, so that the file is never lost.
        self.insert(alloc, to, Blob::new(alloc))?;
        match self.remove(from) {
            Some(bytes) => self.replace(key, bytes),
            None => unreachable!(),
        }
        Ok(())
    }

    // Sets the bytes of a file that is there, which needs no room.
    fn replace(&mut self, path: String, bytes: Blob)
        requires { IsSome (map.get self.old (string_bytes path)) }
        ensures { self.new ≡ map.insert self.old (string_bytes path) bytes }
    {
        match self.files.insert(path, bytes) {
            Ok(_) => {}
            Err(_) => unreachable!(),
        }
    }

    /// The names of the files directly in a folder.
    pub fn names(&self, alloc: Global, folder: &str) -> Result<Names, StoreError>
        ensures names { IfOk result (λ names. names ≡ names_in self.now folder.now) }
        ensures listed { IfOk result (ListsFolder self.now folder.now) }
        ensures sorted { IfOk result (IsStrictlySortedBy (slice_cmp nat_cmp)) }
        ensures few { IfOk result (λ names. length names ≤ MAX_NAMES) }
        ensures too_long { (n : ℕ) → IsErrOf result (StoreError.TooLong n)
            → (MAX_NAMES < n) × (n ≡ length (names_in self.now folder.now)) }
        ensures not_failed { IsErrOf result StoreError.Failed → ⊥ }
        ensures not_taken { IsErrOf result StoreError.Taken → ⊥ }
    {
        let names = self.list(alloc, folder)?;
        let length = names.len() as u64;
        if length > MAX_NAMES {
            return Err(StoreError::TooLong { length });
        }
        Ok(Names::from_sorted(names))
    }

    fn list(&self, alloc: Global, folder: &str) -> Result<Vec<Text>, AllocError>
        ensures names { IfOk result (λ names. names.items ≡ names_in self.now folder.now) }
        ensures listed { IfOk result (λ names. ListsFolder self.now folder.now names.items) }
    {
        let front = front_of(alloc, folder)?;
        let mut names = Vec::new(alloc);
        for (path, _) in self.files.range(range_of(alloc, folder)?) {
            if let Some(name) = name_behind(front.as_str(), path.as_str()) {
                names.push(Text::from_str(alloc, name)?)?;
            }
        }
        Ok(names)
    }
}

// What a choice leaves of a file.
fn left_by(alloc: Global, file: Option<&Blob>, choice: u64) -> Result<Option<Blob>, AllocError>
    ensures { IfOk result (λ left. left ≡ Crash.left_by choice (option_copied file.entry)) }
{
    match choice {
        0 => Ok(None),
        1 => match file {
            Some(bytes) => Ok(Some(bytes.copy(alloc)?)),
            None => Ok(None),
        },
        _ if choice % 2 == 1 => match file {
            Some(bytes) => Ok(Some(Blob::from_slice(alloc, first(bytes.as_slice(), choice / 2))?)),
            None => Ok(None),
        },
        _ => Ok(Some(Blob::repeated(alloc, b'#', (choice / 2).min(65_536) as usize)?)),
    }
}

fn first(bytes: &[u8], count: u64) -> &[u8]
    ensures { result.now ≡ take count bytes.now }
{
    &bytes[..bytes.len().min(count as usize)]
}

// What all paths in a folder begin with.
fn front_of(alloc: Global, folder: &str) -> Result<String, AllocError>
    ensures { IfOk result (λ front. string_bytes front ≡ Disk.front_of folder.now) }
{
    let mut front = String::from_str(alloc, folder)?;
    if !folder.is_empty() {
        front.push_str("/")?;
    }
    Ok(front)
}

// Between which paths those in a folder lie.
fn range_of(alloc: Global, folder: &str) -> Result<(Bound<String>, Bound<String>), AllocError>
    ensures { IfOk result (IsRangeOf folder.now) }
{
    if folder.is_empty() {
        return Ok((Bound::Unbounded, Bound::Unbounded));
    }
    let from = joined(alloc, folder, "/")?;
    // The byte behind the slash.
    let end = joined(alloc, folder, "0")?;
    Ok((Bound::Included(from), Bound::Excluded(end)))
}

fn joined(alloc: Global, front: &str, rest: &str) -> Result<String, AllocError>
    ensures { IfOk result (λ text. string_bytes text ≡ front.now ++ rest.now) }
{
    let mut text = String::from_str(alloc, front)?;
    text.push_str(rest)?;
    Ok(text)
}

// The name of a path that lies directly behind a front.
fn name_behind<'a>(front: &str, path: &'a str) -> Option<&'a str>
    ensures { option_copied result ≡ Disk.name_behind front.now path.now }
{
    let name = path.strip_prefix(front)?;
    if is_name(name) { Some(name) } else { None }
}

fn is_name(text: &str) -> bool
    ensures { result ≡ Disk.is_name text.now }
{
    !text.is_empty() && !text.as_bytes().contains(&b'/')
}

/// A set of paths.
#[derive(Drop)]
pub struct PathSet {
    paths: BTreeSet<String>,
}

impl Model for PathSet {
    ghost use Rattle.std.specs.Coded.{coded_list, coded_ℕ};
    ghost use Rattle.std.specs.FinSet as set;
    ghost use Rattle.lake_store.specs.Disk.{Paths};
    ghost use Rattle.lake_store.specs.Trees.{paths_of};

    ghost Value = { Paths };

    ghost coded = { set.code (coded_list coded_ℕ) };

    ghost view = { λ a. paths_of a.paths };
}

impl PathSet {
    /// No paths.
    pub fn new(alloc: Global) -> PathSet
        ensures { result ≡ set.empty }
    {
        PathSet {
            paths: BTreeSet::new(alloc),
        }
    }

    /// Whether a path is among them.
    pub fn contains(&self, path: &str) -> bool
        ensures { result ≡ set.contains self.now path.now }
    {
        self.paths.contains(path)
    }

    /// Adds a path, and answers whether it was new.
    pub fn insert(&mut self, alloc: Global, path: &str) -> Result<bool, AllocError>
        ensures added { IfOk result (λ added. added ≡ not (set.contains self.old path.now)) }
        ensures ok { OnOk result (self.new ≡ set.insert self.old path.now) }
        ensures err { OnErr result (self.new ≡ self.old) }
    {
        let key = String::from_str(alloc, path)?;
        Ok(self.paths.insert(key)?)
    }

    /// Removes a path, and answers whether it was there.
    pub fn remove(&mut self, path: &str) -> bool
        ensures before { result ≡ set.contains self.old path.now }
        ensures removed { self.new ≡ set.remove self.old path.now }
    {
        self.paths.remove(path)
    }

    /// Leaves of each file at a path of the set, in byte order, what its choice says.
    pub fn tear_all(
        &self,
        alloc: Global,
        files: &mut FileMap,
        choices: &[u64],
    ) -> Result<(), AllocError>
        ensures { OnOk result ((paths : List (List ℕ)) × IsListing self.now paths
            × (files.new ≡ all_torn files.old paths choices.now)) }
    {
        let mut rest = choices;
        for path in self.paths.iter() {
            let (choice, others) = next_choice(rest);
            files.tear(alloc, path.as_str(), choice)?;
            rest = others;
        }
        Ok(())
    }
}

// The first choice and the others. A path without one stays whole.
fn next_choice(choices: &[u64]) -> (u64, &[u64])
    ensures { IsNextChoice choices.now result.0 result.1.now }
{
    match choices {
        [first, others @ ..] => (*first, others),
        [] => (1, choices),
    }
}
