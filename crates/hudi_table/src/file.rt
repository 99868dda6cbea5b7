//! One file of a timeline.

ghost use Rattle.std.specs.Prelude.{◌≡◌, ◌⊎◌, IfErr, IfOk, IsErrOf};
ghost use Rattle.lake_store.specs.Runs.{FailsBy, IsUncontestedBy, OnlyReads};
ghost use Rattle.hudi_table.specs.Files.{HoldsFile};
ghost use Rattle.hudi_table.specs.Instants.{path_of};
ghost use Rattle.hudi_table.specs.Refusals.{IsFileRefusal, TellsOf, error_at};
ghost use Rattle.hudi_table.specs.declared.error.TimelineError.TheVariants.{Memory, StoreFault};

use crate::error::{TimelineError, error_of_read};
use hudi_names::HudiError;
use lake_basics::{Blob, Text};
use lake_store::Store;
use std::alloc::{AllocError, Global};

/// The path of the timeline's file of this name.
pub fn timeline_path(alloc: Global, name: &str) -> Result<Text, AllocError>
    ensures { IfOk result (λ path. path ≡ path_of name.now) }
{
    Ok(Text::from_string(format!(in alloc; ".hoodie/{}", name)?))
}

/// The bytes of the timeline's file of this name.
pub(crate) fn read_file<S: Store>(
    alloc: Global,
    store: &mut S,
    name: &str,
) -> Result<Blob, TimelineError>
    ensures holds { S.tells → IfOk result (HoldsFile (S.disk store.old).files name.now) }
    ensures told { IfErr result (TellsOf (λ p. p ≡ path_of name.now)) }
    ensures refused { S.tells
        → IfErr result (IsFileRefusal (S.disk store.old).files name.now (λ _. ⊥)) }
    ensures only_reads { S.tells → OnlyReads ⟦<S as Store>⟧ store.old store.new }
    ensures cause { FailsBy ⟦<S as Store>⟧ store.old store.new (IsErrOf result StoreFault) }
    ensures contest { IsUncontestedBy ⟦<S as Store>⟧ store.old store.new ⊥ }
{
    let path = timeline_path(alloc, name)?;
    match store.read(alloc, path.as_str()) {
        Ok(Some(bytes)) => Ok(bytes),
        Ok(None) => Err(TimelineError::Missing { path }),
        Err(error) => Err(error_of_read(path, error)),
    }
}

/// What is told of the file of this name where what it says is refused.
pub(crate) fn refusal(alloc: Global, name: &str, error: HudiError) -> TimelineError
    ensures { (result ≡ Memory) ⊎ (result ≡ error_at (path_of name.now) error) }
{
    match timeline_path(alloc, name) {
        Ok(path) => error_at(path, error),
        Err(_) => TimelineError::Memory,
    }
}

fn error_at(path: Text, error: HudiError) -> TimelineError
    ensures { result ≡ error_at path error }
{
    match error {
        HudiError::Memory => TimelineError::Memory,
        error => TimelineError::Refused { path, error },
    }
}
