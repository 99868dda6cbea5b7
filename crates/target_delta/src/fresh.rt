//! What is kept before the first commit.

ghost use Rattle.std.specs.Prelude.{◌≡◌, [], IfOk};
ghost use Rattle.lake_store.specs.Disk.{Files};
ghost use Rattle.target_core.specs.Views.{absent};
ghost use Rattle.target_delta.specs.Kept.{StandsFor, view_of};
ghost use Rattle.target_delta.specs.Reading.{Reads};

use crate::kept::DeltaKept;
use lake_basics::Text;
use std::alloc::{AllocError, Global};
use table_history::Table;

/// What is kept before the first commit of a target of these partition columns, which gives the
/// table this id.
pub(crate) fn fresh_kept(
    alloc: Global,
    id: &Text,
    partition: &[Text],
) -> Result<DeltaKept, AllocError>
    ensures view { IfOk result (λ kept. view_of kept ≡ absent partition.now) }
    ensures stands { IfOk result (λ kept. (files : Files) → Reads files (absent [])
        → StandsFor id.now kept files) }
{
    let id = id.copy(alloc)?;
    Ok(DeltaKept {
        table: Table::empty(alloc, partition)?,
        mark: None,
        commits: 0,
        id,
        names_ntz: false,
    })
}
