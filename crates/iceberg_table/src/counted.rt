//! The entries of the manifests that are read, of which each counts once.

ghost use Rattle.std.specs.Prelude.{◌≡◌, ◌≤◌, ◌+◌, ◌++◌, ◌∷◌, [], List, IfOk};
ghost use Rattle.lake_basics.specs.declared.limits.TheConstants.{MAX_ACTIONS};
ghost use Rattle.std.specs.List.{list_any};
ghost use Rattle.std.specs.Str.{bytes_eq};
ghost use Rattle.iceberg_table.specs.Counted.{AreFew, Counts, before_of};
ghost use Rattle.iceberg_table.specs.declared.manifest.Manifest.{Manifest};

use crate::manifest::Manifest;
use indexmap::IndexSet;
use lake_basics::Text;
use std::alloc::{AllocError, Global};

/// The manifests that were read so far: their paths, and how many entries they have together. A
/// manifest that several lists name, or that one list names twice, counts once.
#[derive(Drop)]
pub struct Counted {
    paths: IndexSet<Text>,
    entries: u64,
}

impl Counted {
    /// No manifest was read.
    pub fn new(alloc: Global) -> Counted
        ensures counts { Counts [] result }
        ensures few { AreFew result }
    {
        Counted {
            paths: IndexSet::new(alloc),
            entries: 0,
        }
    }

    /// Whether the manifest at this path was read.
    pub fn contains(&self, path: &Text) -> bool
        ensures { result ≡ list_any (bytes_eq path.now) self.now.paths.keys }
    {
        self.paths.contains(path)
    }

    /// How many entries count before the manifest at this path is read. There is none where it was
    /// read before, since its entries don't count again.
    pub fn before(&self, path: &Text) -> u64
        ensures { result ≡ before_of path.now self.now }
    {
        if self.paths.contains(path) {
            return 0;
        }
        self.entries
    }

    /// The same with one manifest more.
    pub fn with_manifest(self, alloc: Global, manifest: &Manifest) -> Result<Counted, AllocError>
        requires { before_of manifest.now.file.path self + manifest.now.entries ≤ MAX_ACTIONS }
        ensures counts { (read : List Manifest) → Counts read self
            → IfOk result (Counts (read ++ manifest.now ∷ [])) }
        ensures few { AreFew self → IfOk result AreFew }
    {
        if self.paths.contains(&manifest.file.path) {
            return Ok(self);
        }
        let Counted { mut paths, entries } = self;
        paths.insert(manifest.file.path.copy(alloc)?)?;
        Ok(Counted {
            paths,
            entries: entries + manifest.entries,
        })
    }
}
