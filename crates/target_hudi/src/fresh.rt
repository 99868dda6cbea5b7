//! What is kept before the first commit.

ghost use Rattle.std.specs.Prelude.{◌≡◌, [], IfOk};
ghost use Rattle.lake_store.specs.Disk.{Files};
ghost use Rattle.target_core.specs.Views.{absent};
ghost use Rattle.target_hudi.specs.Kept.{StandsFor, view_of};
ghost use Rattle.target_hudi.specs.Reading.{Reads};

use crate::kept::HudiKept;
use lake_basics::Text;
use std::alloc::{AllocError, Global};
use table_history::Table;

/// What is kept before the first commit of a target of these partition columns.
pub(crate) fn fresh_kept(alloc: Global, partition: &[Text]) -> Result<HudiKept, AllocError>
    ensures view { IfOk result (λ kept. view_of kept ≡ absent partition.now) }
    ensures stands { IfOk result (λ kept. (files : Files) → Reads files (absent [])
        → StandsFor kept files) }
{
    Ok(HudiKept {
        table: Table::empty(alloc, partition)?,
        mark: None,
        commits: 0,
        newest: None,
    })
}
