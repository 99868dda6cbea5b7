//! The manifest lists and manifests that an Iceberg table's versions reach.

ghost use Rattle.std.specs.Prelude.{◌≡◌, ◌⊎◌, ◌↔◌, ◌∷◌, ◌++◌, [], ℕ, List, Contains, IfErr, IfOk, IsErrOf, IsTrue, length, map};
ghost use Rattle.std.specs.List.{IsDistinct};
ghost use Rattle.std.specs.List.Sorted.{IsStrictlySortedBy};
ghost use Rattle.std.specs.Ordering.{nat_cmp};
ghost use Rattle.std.specs.Str.{bytes_eq};
ghost use Rattle.lake_store.specs.Disk.{Files};
ghost use Rattle.lake_store.specs.Runs.{FailsBy, IsUncontestedBy, OnlyReads};
ghost use Rattle.iceberg_metadata.specs.declared.metadata.Metadata.{Metadata};
ghost use Rattle.iceberg_table.specs.Folder.{HasVersion};
ghost use Rattle.lake_sweep.specs.Reading.{HasRead, HasReadVersions, IsAt, IsNamedIn, ListOf, NamesOnly, list_at};
ghost use Rattle.lake_sweep.specs.Refusals.{HasCause};
ghost use Rattle.lake_sweep.specs.Versions.{HasListRefused, IsFirstRefused, IsListRefused, IsOneRefused, IsVersionRefused};
ghost use Rattle.lake_sweep.specs.declared.error.SweepError.TheVariants.{StoreFault};

use crate::error::SweepError;
use crate::versions::read_lists;
use iceberg_metadata::Metadata;
use iceberg_table::{ManifestFile, read_list_file};
use indexmap::IndexSet;
use lake_basics::Text;
use lake_store::Store;
use std::alloc::{AllocError, Global};

/// The lists and manifests that were reached so far. A list that several versions hold is read once,
/// as long as they have one location and one default spec.
#[derive(Drop)]
pub(crate) struct Reached {
    paths: IndexSet<Text>,
    /// The lists that were read under this location and this default spec.
    read: IndexSet<Text>,
    location: Text,
    spec: i32,
}

/// The paths with those of these manifests more.
fn with_manifest_paths(
    alloc: Global,
    before: IndexSet<Text>,
    manifests: &[ManifestFile],
) -> Result<IndexSet<Text>, AllocError>
    ensures members { IfOk result (λ after. (path : List ℕ)
        → Contains after.keys path ↔ (Contains before.keys path ⊎ IsNamedIn manifests.now path)) }
    ensures distinct { IsDistinct bytes_eq before.keys
        → IfOk result (λ after. IsDistinct bytes_eq after.keys) }
{
    let mut paths = before;
    for manifest in manifests {
        paths.insert(manifest.path.copy(alloc)?)?;
    }
    Ok(paths)
}

/// The paths with this one more.
fn with_path(
    alloc: Global,
    before: IndexSet<Text>,
    path: &Text,
) -> Result<IndexSet<Text>, AllocError>
    ensures members { IfOk result (λ after. (other : List ℕ)
        → Contains after.keys other ↔ (Contains before.keys other ⊎ (other ≡ path.now))) }
    ensures distinct { IsDistinct bytes_eq before.keys
        → IfOk result (λ after. IsDistinct bytes_eq after.keys) }
{
    let mut paths = before;
    paths.insert(path.copy(alloc)?)?;
    Ok(paths)
}

impl Reached {
    fn new(alloc: Global) -> Result<Reached, AllocError>
        ensures { IfOk result (λ r. (files : Files) → HasReadVersions files [] r) }
    {
        let paths = IndexSet::new(alloc);
        let read = IndexSet::new(alloc);
        Ok(Reached {
            paths,
            read,
            location: Text::from_str(alloc, "")?,
            spec: 0,
        })
    }

    /// How many there are.
    pub fn len(&self) -> usize
        ensures { result ≡ length self.now.paths.keys }
    {
        self.paths.len()
    }

    /// Whether the path is one of them.
    pub fn contains(&self, path: &Text) -> bool
        ensures { IsTrue result ↔ Contains self.now.paths.keys path.now }
    {
        self.paths.contains(path)
    }

    /// The same, for lists of metadata with this location and this default spec.
    fn at_place(self, alloc: Global, metadata: &Metadata) -> Result<Reached, AllocError>
        ensures at { IfOk result (IsAt metadata.now) }
        ensures read { (files : Files) (lists : List ListOf) → HasRead files lists self
            → IfOk result (HasRead files lists) }
    {
        if self.spec == metadata.default_spec
            && self.location.as_str() == metadata.location.as_str()
        {
            return Ok(self);
        }
        let Reached { paths, .. } = self;
        let read = IndexSet::new(alloc);
        Ok(Reached {
            paths,
            read,
            location: metadata.location.copy(alloc)?,
            spec: metadata.default_spec,
        })
    }

    /// The same with a list that was read, and the manifests that it names.
    fn with_manifests(
        self,
        alloc: Global,
        list: &Text,
        manifests: &[ManifestFile],
    ) -> Result<Reached, AllocError>
        ensures { (files : Files) (lists : List ListOf) (m : Metadata) → IsAt m self
            → HasRead files lists self → NamesOnly files m list.now manifests.now → IfOk result
            (λ r. IsAt m r × HasRead files (lists ++ list_at m list.now ∷ []) r) }
    {
        let Reached {
            paths,
            read,
            location,
            spec,
        } = self;
        let paths = with_path(alloc, paths, list)?;
        let paths = with_manifest_paths(alloc, paths, manifests)?;
        let read = with_path(alloc, read, list)?;
        Ok(Reached {
            paths,
            read,
            location,
            spec,
        })
    }

    /// The same with the list at this path, which the metadata holds.
    fn with_list<S: Store>(
        self,
        alloc: Global,
        store: &mut S,
        metadata: &Metadata,
        path: &Text,
    ) -> Result<Reached, SweepError>
        ensures read { S.tells → (lists : List ListOf) → IsAt metadata.now self
            → HasRead (S.disk store.old).files lists self
            → IfOk result (λ r. IsAt metadata.now r × HasRead (S.disk store.old).files
            (lists ++ list_at metadata.now path.now ∷ []) r) }
        ensures refused { S.tells → IfErr result
            (HasCause (IsListRefused (S.disk store.old).files metadata.now path.now)) }
        ensures only_reads { S.tells → OnlyReads ⟦<S as Store>⟧ store.old store.new }
        ensures cause { FailsBy ⟦<S as Store>⟧ store.old store.new (IsErrOf result StoreFault) }
        ensures contest { IsUncontestedBy ⟦<S as Store>⟧ store.old store.new ⊥ }
    {
        if self.read.contains(path) {
            return Ok(self);
        }
        let manifests = read_list_file(alloc, store, metadata, path)?;
        Ok(self.with_manifests(alloc, path, manifests.as_slice())?)
    }

    /// The same with the lists at these paths, which the metadata holds.
    fn with_lists<S: Store>(
        self,
        alloc: Global,
        store: &mut S,
        metadata: &Metadata,
        paths: &[Text],
    ) -> Result<Reached, SweepError>
        ensures read { S.tells → (lists : List ListOf) → IsAt metadata.now self
            → HasRead (S.disk store.old).files lists self
            → IfOk result (HasRead (S.disk store.old).files
            (lists ++ map (list_at metadata.now) paths.now)) }
        ensures refused { S.tells → (lists : List ListOf) → IsAt metadata.now self
            → HasRead (S.disk store.old).files lists self → IfErr result
            (HasCause (IsOneRefused (S.disk store.old).files metadata.now paths.now)) }
        ensures only_reads { S.tells → OnlyReads ⟦<S as Store>⟧ store.old store.new }
        ensures cause { FailsBy ⟦<S as Store>⟧ store.old store.new (IsErrOf result StoreFault) }
        ensures contest { IsUncontestedBy ⟦<S as Store>⟧ store.old store.new ⊥ }
    {
        let mut reached = self;
        for path in paths {
            reached = reached.with_list(alloc, store, metadata, path)?;
        }
        Ok(reached)
    }

    /// The same with the lists of a version's snapshots.
    fn with_version<S: Store>(
        self,
        alloc: Global,
        store: &mut S,
        version: u32,
    ) -> Result<Reached, SweepError>
        ensures read { S.tells → (versions : List ℕ)
            → HasReadVersions (S.disk store.old).files versions self → IfOk result
            (HasReadVersions (S.disk store.old).files (versions ++ version ∷ [])) }
        ensures refused { S.tells → (versions : List ℕ)
            → HasReadVersions (S.disk store.old).files versions self → IfErr result (HasCause (λ e.
            IsVersionRefused (S.disk store.old).files version e
            ⊎ HasListRefused (S.disk store.old).files version e)) }
        ensures only_reads { S.tells → OnlyReads ⟦<S as Store>⟧ store.old store.new }
        ensures cause { FailsBy ⟦<S as Store>⟧ store.old store.new (IsErrOf result StoreFault) }
        ensures contest { IsUncontestedBy ⟦<S as Store>⟧ store.old store.new ⊥ }
    {
        let read = read_lists(alloc, store, version)?;
        let reached = self.at_place(alloc, &read.metadata)?;
        reached.with_lists(alloc, store, &read.metadata, read.paths.as_slice())
    }
}

/// What these versions reach, which are all that are there. Each is read, and each list of its
/// snapshots.
pub(crate) fn read_reached<S: Store>(
    alloc: Global,
    store: &mut S,
    versions: &[u32],
) -> Result<Reached, SweepError>
    requires rising { IsStrictlySortedBy nat_cmp versions.now }
    requires all { S.tells → (version : ℕ)
        → Contains versions.now version ↔ HasVersion (S.disk store.old).files version }
    ensures read { S.tells → IfOk result
        (HasReadVersions (S.disk store.old).files versions.now) }
    ensures refused { S.tells → IfErr result
        (HasCause (IsFirstRefused (S.disk store.old).files)) }
    ensures only_reads { S.tells → OnlyReads ⟦<S as Store>⟧ store.old store.new }
    ensures cause { FailsBy ⟦<S as Store>⟧ store.old store.new (IsErrOf result StoreFault) }
    ensures contest { IsUncontestedBy ⟦<S as Store>⟧ store.old store.new ⊥ }
{
    let mut reached = Reached::new(alloc)?;
    for version in versions {
        reached = reached.with_version(alloc, store, *version)?;
    }
    Ok(reached)
}
