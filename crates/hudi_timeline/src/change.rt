//! The change that an instant makes of a table.

ghost use Rattle.std.specs.Prelude.{IfOk, IfErr};
ghost use Rattle.std.specs.Option.{option_copied};
ghost use Rattle.hudi_timeline.specs.Causes.{IsRefusalOf};
ghost use Rattle.hudi_timeline.specs.Change.{IsChangeOf, LeavesLive, GoesOn};
ghost use Rattle.hudi_timeline.specs.Live.{completed};

mod between;
mod schemas;

use between::group_change;
use hudi_files::{read_files, rows_of};
use hudi_groups::{Form, GroupedTable};
use hudi_instant::Instant;
use hudi_names::HudiError;
use hudi_properties::HudiTable;
use schemas::{partition_kinds, schema_after, stated_schema};
use std::alloc::Global;
use table_history::Change;

/// The change that a completed instant makes of a table. `base` is the table before it, and `None`
/// before the first instant; its partition columns are to be those of `table`, which the caller
/// judges. Refusals are told in this order: the instant isn't in its grammar, it
/// shows a feature that isn't supported, or it passes a number (Hudi technical specification,
/// "Timeline" and "File Layout Hierarchy"). It costs what the instant has, and, where groups are
/// named by file ids and the base has no index of them, a look at all its rows.
pub fn change_of(
    alloc: Global,
    instant: &Instant,
    form: &Form,
    table: &HudiTable,
    base: Option<&GroupedTable>,
) -> Result<Change, HudiError>
    ensures found { IfOk result
        (IsChangeOf (completed form.now instant.now) table.now (option_copied base.entry)) }
    ensures live { IfOk result
        (LeavesLive (completed form.now instant.now) table.now (option_copied base.entry)) }
    ensures refused { IfErr result
        (IsRefusalOf (completed form.now instant.now) table.now (option_copied base.entry)) }
    ensures goes_on { IfOk result (GoesOn table.now (option_copied base.entry)) }
{
    let stats = instant.stats.as_slice();
    let files = read_files(alloc, form, stats)?;
    let stated = stated_schema(alloc, &instant.schema)?;
    let schema = schema_after(&stated, base)?;
    let kinds = partition_kinds(alloc, schema, table.partition.as_slice(), base)?;
    let rows = rows_of(alloc, form, table, kinds.as_slice(), stats, files)?;
    let change = group_change(
        alloc,
        form,
        table,
        schema,
        instant.replaced.as_slice(),
        base,
        rows,
    )?;
    Ok(Change {
        schema: stated,
        removed: change.removed,
        added: change.added,
    })
}
