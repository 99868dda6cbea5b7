//! The entries of the manifests that are read, of which each counts once.

ghost use Rattle.std.specs.Prelude.{◌≤◌, ◌++◌, ◌∷◌, [], List, IfErr, IsErrOf, OnOk};
ghost use Rattle.lake_basics.specs.declared.limits.TheConstants.{MAX_ACTIONS};
ghost use Rattle.iceberg_table.specs.declared.manifest.Manifest.{Manifest};
ghost use Rattle.source_core.specs.Answers.{IsReadRefusal};
ghost use Rattle.source_core.specs.declared.error.SourceError.TheVariants.{StoreFault};
ghost use Rattle.source_iceberg.specs.Counted.{Counts};
ghost use Rattle.source_iceberg.specs.Since.{HasManyEntries};

use crate::told::limit;
use iceberg_table::Manifest;
use indexmap::IndexSet;
use lake_basics::Text;
use lake_basics::limits::MAX_ACTIONS;
use source_core::SourceError;
use std::alloc::Global;
use table_history::LimitKind;

/// The manifests that were read so far: their paths, and how many entries they have together. A
/// manifest that several lists name, or that one list names twice, counts once.
#[derive(Drop)]
pub(crate) struct Counted {
    paths: IndexSet<Text>,
    entries: u64,
}

impl Counted {
    /// No manifest was read.
    pub fn new(alloc: Global) -> Counted
        ensures counts { Counts [] result }
        ensures few { result.entries ≤ MAX_ACTIONS }
    {
        Counted {
            paths: IndexSet::new(alloc),
            entries: 0,
        }
    }

    /// Counts one manifest more, where the entries aren't more than are read.
    fn count(&mut self, alloc: Global, manifest: &Manifest) -> Result<(), SourceError>
        requires { self.old.entries ≤ MAX_ACTIONS }
        ensures counts { (read : List Manifest) → Counts read self.old
            → OnOk result (Counts (read ++ manifest.now ∷ []) self.new) }
        ensures few { OnOk result (self.new.entries ≤ MAX_ACTIONS) }
        ensures many { (read : List Manifest) → Counts read self.old
            → IfErr result (IsReadRefusal (HasManyEntries read (manifest.now ∷ []))) }
        ensures no_fault { IsErrOf result StoreFault → ⊥ }
    {
        if self.paths.contains(&manifest.file.path) {
            return Ok(());
        }
        if manifest.entries > MAX_ACTIONS - self.entries {
            return Err(limit(LimitKind::Actions));
        }
        self.paths.insert(manifest.file.path.copy(alloc)?)?;
        self.entries += manifest.entries;
        Ok(())
    }

    /// Counts these manifests, where the entries aren't more than are read.
    pub fn count_each(&mut self, alloc: Global, manifests: &[Manifest]) -> Result<(), SourceError>
        requires { self.old.entries ≤ MAX_ACTIONS }
        ensures counts { (read : List Manifest) → Counts read self.old
            → OnOk result (Counts (read ++ manifests.now) self.new) }
        ensures few { OnOk result (self.new.entries ≤ MAX_ACTIONS) }
        ensures many { (read : List Manifest) → Counts read self.old
            → IfErr result (IsReadRefusal (HasManyEntries read manifests.now)) }
        ensures no_fault { IsErrOf result StoreFault → ⊥ }
    {
        for manifest in manifests {
            self.count(alloc, manifest)?;
        }
        Ok(())
    }
}
