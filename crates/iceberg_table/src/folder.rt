//! Which versions of a table's metadata are there.

ghost use Rattle.std.specs.Prelude.{◌≡◌, ◌≤◌, ℕ, find, length, IfErr, IfOk, IsErrOf, MatchOption};
ghost use Rattle.std.specs.Option.{option_copied};
ghost use Rattle.lake_basics.specs.declared.limits.TheConstants.{MAX_NAMES};
ghost use Rattle.lake_store.specs.Disk.{names_in};
ghost use Rattle.lake_store.specs.Runs.{FailsBy, IsUncontestedBy, OnlyReads};
ghost use Rattle.iceberg_table.specs.Errors.{IsRefusal};
ghost use Rattle.iceberg_table.specs.Folder.{HasVersion, IsNamed, IsNewest, is_compressed, is_metadata, metadata_folder, newer};
ghost use Rattle.iceberg_table.specs.Refusals.{HasManyNames};
ghost use Rattle.iceberg_table.specs.declared.error.IcebergError.TheVariants.{StoreFault};

use crate::error::{IcebergError, error_of_list};
use iceberg_metadata::version_of_name;
use lake_basics::Text;
use lake_store::{Names, Store};
use std::alloc::Global;

/// The folder of a table's metadata (Apache Iceberg specification, "File System Tables").
pub const METADATA_FOLDER: &str = "metadata";

/// The names in the folder of a table's metadata, in byte order, and the newest version of the
/// metadata that is there.
#[derive(Debug, Drop)]
pub struct MetadataNames {
    pub names: Names,
    pub newest: Option<u32>,
}

impl MetadataNames {
    /// The first name of compressed metadata.
    pub fn first_compressed(&self) -> Option<&Text>
        ensures { option_copied result ≡ find is_compressed self.now.names }
    {
        self.names
            .as_slice()
            .iter()
            .find(|name| is_compressed(name))
    }

    /// The first name of metadata. Where there is no version, a catalog gave it.
    pub fn first_metadata(&self) -> Option<&Text>
        ensures { option_copied result ≡ find is_metadata self.now.names }
    {
        self.names.as_slice().iter().find(|name| is_metadata(name))
    }
}

fn is_compressed(name: &Text) -> bool
    ensures { result ≡ is_compressed name.now }
{
    name.as_bytes().ends_with(b".metadata.json.gz")
        || name.as_bytes().ends_with(b".gz.metadata.json")
}

fn is_metadata(name: &Text) -> bool
    ensures { result ≡ is_metadata name.now }
{
    name.as_bytes().ends_with(b".metadata.json")
}

/// The newer of two versions, where there are two.
fn newer(newest: Option<u32>, found: Option<u32>) -> Option<u32>
    ensures { result ≡ newer newest found }
{
    match newest {
        None => found,
        Some(version) => match found {
            None => newest,
            Some(other) => Some(if version < other { other } else { version }),
        },
    }
}

/// The newest of the versions that these names name.
fn newest_of(names: &[Text]) -> Option<u32>
    ensures { MatchOption result ((v : ℕ) → ¬ IsNamed names.now v) (IsNewest (IsNamed names.now)) }
{
    let mut newest = None;
    for name in names {
        newest = newer(newest, version_of_name(name.as_bytes()));
    }
    newest
}

/// The names in the folder of a table's metadata, and the newest version there.
pub fn list_metadata<S: Store>(alloc: Global, store: &mut S) -> Result<MetadataNames, IcebergError>
    ensures names { S.tells → IfOk result
        (λ found. found.names ≡ names_in (S.disk store.old).files metadata_folder) }
    ensures newest { S.tells → IfOk result (λ found. MatchOption found.newest
        ((v : ℕ) → ¬ HasVersion (S.disk store.old).files v)
        (IsNewest (HasVersion (S.disk store.old).files))) }
    ensures few { IfOk result (λ found. length found.names ≤ MAX_NAMES) }
    ensures refused { S.tells
        → IfErr result (IsRefusal (HasManyNames (S.disk store.old).files)) }
    ensures only_reads { S.tells → OnlyReads ⟦<S as Store>⟧ store.old store.new }
    ensures cause { FailsBy ⟦<S as Store>⟧ store.old store.new (IsErrOf result StoreFault) }
    ensures contest { IsUncontestedBy ⟦<S as Store>⟧ store.old store.new ⊥ }
{
    let names = match store.list(alloc, METADATA_FOLDER) {
        Ok(names) => names,
        Err(error) => return Err(error_of_list(error)),
    };
    let newest = newest_of(names.as_slice());
    Ok(MetadataNames { names, newest })
}
