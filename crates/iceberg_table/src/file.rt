//! One file of a table's metadata.

ghost use Rattle.std.specs.Prelude.{◌≡◌, ◌≤◌, ◌⊎◌, length, IfErr, IfOk, IsErrOf};
ghost use Rattle.lake_basics.specs.declared.limits.TheConstants.{MAX_FILE_BYTES};
ghost use Rattle.lake_store.specs.Runs.{FailsBy, IsUncontestedBy, OnlyReads};
ghost use Rattle.iceberg_table.specs.Errors.{IsFileFault, IsRefusal, error_at};
ghost use Rattle.iceberg_table.specs.Files.{HoldsFile};
ghost use Rattle.iceberg_table.specs.Folder.{path_of};
ghost use Rattle.iceberg_table.specs.declared.error.IcebergError.TheVariants.{Memory, StoreFault};

use crate::error::{Fault, IcebergError, error_at, error_of_read};
use lake_basics::{Blob, ReadError, Text};
use lake_store::Store;
use std::alloc::{AllocError, Global};

/// The path of the file of this name in the folder of a table's metadata.
pub fn metadata_file_path(alloc: Global, name: &str) -> Result<Text, AllocError>
    ensures { IfOk result (λ path. path ≡ path_of name.now) }
{
    Ok(Text::from_string(format!(in alloc; "metadata/{}", name)?))
}

/// The bytes of the file at this path.
pub(crate) fn read_file<S: Store>(
    alloc: Global,
    store: &mut S,
    path: &Text,
) -> Result<Blob, IcebergError>
    ensures holds { S.tells → IfOk result (HoldsFile (S.disk store.old).files path.now) }
    ensures short { IfOk result (λ bytes. length bytes ≤ MAX_FILE_BYTES) }
    ensures refused { S.tells → IfErr result
        (IsRefusal (IsFileFault (S.disk store.old).files path.now (λ _ _. ⊥))) }
    ensures only_reads { S.tells → OnlyReads ⟦<S as Store>⟧ store.old store.new }
    ensures cause { FailsBy ⟦<S as Store>⟧ store.old store.new (IsErrOf result StoreFault) }
    ensures contest { IsUncontestedBy ⟦<S as Store>⟧ store.old store.new ⊥ }
{
    let told = path.copy(alloc)?;
    match store.read(alloc, path.as_str()) {
        Ok(Some(bytes)) => Ok(bytes),
        Ok(None) => Err(IcebergError::Missing { path: told }),
        Err(error) => Err(error_of_read(told, error)),
    }
}

/// What is told of the file at this path where what it says is refused.
pub(crate) fn refusal(alloc: Global, path: &Text, error: ReadError<Fault>) -> IcebergError
    ensures { (result ≡ Memory) ⊎ (result ≡ error_at path.now error) }
{
    match path.copy(alloc) {
        Ok(path) => error_at(path, error),
        Err(_) => IcebergError::Memory,
    }
}
