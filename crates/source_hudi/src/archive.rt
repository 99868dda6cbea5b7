//! The archive of a timeline.

ghost use Rattle.std.specs.Prelude.{◌≡◌, IfErr, IfOk, IsErrOf, OnOk};
ghost use Rattle.lake_store.specs.Disk.{names_in};
ghost use Rattle.lake_store.specs.Runs.{FailsBy, IsUncontestedBy, OnlyReads};
ghost use Rattle.source_core.specs.Answers.{IsReadRefusal};
ghost use Rattle.source_core.specs.declared.error.SourceError.TheVariants.{Memory, StoreFault};
ghost use Rattle.source_hudi.specs.Instants.{archive_folder, first_archived};
ghost use Rattle.source_hudi.specs.Reading.{HasFewNames, HasManyNames};

use crate::told::limit;
use lake_basics::Text;
use lake_store::{Store, StoreError};
use source_core::SourceError;
use std::alloc::Global;
use table_history::LimitKind;

/// The folder of the instants that have left the timeline (Hudi technical specification, "Archived
/// timeline").
const ARCHIVE_FOLDER: &str = ".hoodie/archived";

/// The path of the first of the archive's files, which have these names.
fn first_path(alloc: Global, names: &[Text]) -> Result<Option<Text>, SourceError>
    ensures path { IfOk result (λ path. path ≡ first_archived names.now) }
    ensures memory { IfErr result (λ e. e ≡ Memory) }
{
    match names {
        [name, ..] => {
            let path = format!(in alloc; ".hoodie/archived/{}", name.as_str())?;
            Ok(Some(Text::from_string(path)))
        }
        [] => Ok(None),
    }
}

/// The path of the first file of the archive in byte order. None where it holds no file.
pub(crate) fn first_archived<S: Store>(
    alloc: Global,
    store: &mut S,
) -> Result<Option<Text>, SourceError>
    ensures found { S.tells → IfOk result (λ path. path
        ≡ first_archived (names_in (S.disk store.old).files archive_folder)) }
    ensures few { S.tells → OnOk result (HasFewNames (S.disk store.old).files archive_folder) }
    ensures refused { S.tells → IfErr result
        (IsReadRefusal (HasManyNames (S.disk store.old).files archive_folder)) }
    ensures only_reads { S.tells → OnlyReads ⟦<S as Store>⟧ store.old store.new }
    ensures cause { FailsBy ⟦<S as Store>⟧ store.old store.new (IsErrOf result StoreFault) }
    ensures contest { IsUncontestedBy ⟦<S as Store>⟧ store.old store.new ⊥ }
{
    match store.list(alloc, ARCHIVE_FOLDER) {
        Ok(names) => first_path(alloc, names.as_slice()),
        Err(StoreError::Failed) => Err(SourceError::StoreFault),
        Err(StoreError::TooLong { .. }) => Err(limit(LimitKind::Names)),
        Err(_) => Err(SourceError::Memory),
    }
}
