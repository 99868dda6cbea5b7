//! The file of a batch in its store.
ghost use Rattle.lake_batch.specs.Whole.{ReadsFile};

use crate::batch::{Batch, Why, read_tables};
use lake_basics::ReadError;
use lake_store::{Store, StoreError};
use std::alloc::Global;

/// Why the file of a batch gives none.
#[derive(Clone, Copy, Debug, PartialEq, Eq)]
pub enum FileError {
    /// Memory ran out.
    Memory,
    /// The store failed.
    Failed,
    /// It is no batch.
    No(Why),
}

// One byte more than a batch may have is enough to tell that the file is too long.
const READ_BYTES: u32 = 1_048_577;

/// The batch that the file holds, for tables at this location.
pub(crate) fn read_file<S: Store>(
    alloc: Global,
    place: &str,
    file: &str,
    store: &mut S,
) -> Result<Batch, FileError>
    ensures { ReadsFile ⟦<S as Store>⟧ place.now file.now store.old store.new result }
{
    match store.read_part(alloc, file, 0, READ_BYTES) {
        Ok(Some(bytes)) => match read_tables(alloc, bytes.as_slice(), place) {
            Ok(batch) => Ok(batch),
            Err(ReadError::Memory) => Err(FileError::Memory),
            Err(ReadError::Fault(why)) => Err(FileError::No(why)),
        },
        Ok(None) => Err(FileError::No(Why::Missing)),
        Err(StoreError::Failed) => Err(FileError::Failed),
        Err(_) => Err(FileError::Memory),
    }
}
