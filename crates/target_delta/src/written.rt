//! The commit that is written for a change.

ghost use Rattle.std.specs.Prelude.{◌≡◌, All, Contains, IfOk, List, OnOk, Ok, ℕ};
ghost use Rattle.std.specs.List.{IsDistinct};
ghost use Rattle.std.specs.Str.{bytes_eq};
ghost use Rattle.serde_json.specs.Written.{compact_text};
ghost use Rattle.table_history.specs.Path.{IsPath};
ghost use Rattle.table_history.specs.Row.{Row};
ghost use Rattle.table_history.specs.Rows.{HasDistinctPaths};
ghost use Rattle.table_history.specs.SchemaSize.{IsWithinLimits};
ghost use Rattle.table_history.specs.Sound.{IsSound};
ghost use Rattle.schema_delta.specs.Delta.{delta_schema_of};
ghost use Rattle.schema_delta.specs.DeltaWriting.{delta_text};
ghost use Rattle.target_core.specs.Mark.{IsMarkText, mark_data};
ghost use Rattle.delta_log.specs.Sound.{IsSoundFile};
ghost use Rattle.target_delta.specs.NewVersion.{IsWrittenOf};
ghost use Rattle.target_delta.specs.Writing.{CanAdd, LeavesAdded, LosesRemoved};

use crate::actions::actions_of;
use crate::kept::DeltaKept;
use crate::meta::meta_of;
use crate::ntz::{protocol_due, schema_has_ntz};
use delta_log::DeltaCommit;
use std::alloc::{AllocError, Global};
use table_history::Change;
use target_core::Mark;

/// The commit that is written for a change with this mark, where the table of `behind` is that
/// behind the change and all else of it stands before.
pub(crate) fn written_of(
    alloc: Global,
    behind: &DeltaKept,
    change: &Change,
    mark: &Mark,
) -> Result<DeltaCommit, AllocError>
    requires leaves { LeavesAdded change.now.added behind.now.table.rows }
    requires loses { LosesRemoved change.now behind.now.table.rows }
    requires removed { IsDistinct bytes_eq change.now.removed }
    requires added { HasDistinctPaths change.now.added }
    requires fit { (row : Row) → Contains change.now.added row
        → CanAdd behind.now.table.partition row }
    ensures is { IfOk result (IsWrittenOf behind.now change.now mark.now) }
    ensures sound { IfOk result (λ c. ((path : List ℕ) → Contains change.now.removed path
        → IsPath path) → IsDistinct bytes_eq behind.now.table.partition
        → All IsSoundFile c.files) }
    ensures reads_back { OnOk result (IsMarkText (compact_text (mark_data mark.now)) mark.now) }
    ensures spells { OnOk result (IsSound behind.now.table.schema
        → IsWithinLimits behind.now.table.schema
        → delta_schema_of (delta_text behind.now.table.schema) ≡ Ok behind.now.table.schema) }
{
    let table = &behind.table;
    let partition = table.partition.as_slice();
    let files = actions_of(alloc, partition, change, &table.rows)?;
    let has_ntz = schema_has_ntz(&table.schema);
    let protocol = protocol_due(alloc, behind.commits, behind.names_ntz, has_ntz)?;
    let meta = meta_of(alloc, &behind.id, &table.schema, partition, mark)?;
    Ok(DeltaCommit {
        protocol,
        meta: Some(meta),
        files,
    })
}
