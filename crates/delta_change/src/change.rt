//! The change that a commit makes of a table.

ghost use Rattle.std.specs.Prelude.{◌≡◌, [], IfOk, IfErr, IfSome, OnOk, Contains, unwrap_or};
ghost use Rattle.std.specs.Option.{option_copied};
ghost use Rattle.table_history.specs.First.{NoneOf};
ghost use Rattle.table_history.specs.Row.{Row};
ghost use Rattle.table_history.specs.Tables.{CanApply};
ghost use Rattle.delta_log.specs.Sound.{IsSound};
ghost use Rattle.delta_change.specs.TableBehind.{rows_before, schema_before, partition_behind, table_before};
ghost use Rattle.delta_change.specs.Change.{IsOutsideGrammar, Shows, commit_features, CanFollow, IsChangeOf, IsUnorderedChangeOf, LeadsLive, IsStatedBy, IsTableSchema, GoesOn, IsChangeRefusal};
ghost use Rattle.delta_live.specs.Live.{IsSoundRow};
ghost use Rattle.delta_log.specs.declared.error.DeltaError.TheVariants as errors;

use crate::columns::columns_of;
use delta_live::{change_over, in_order};
use delta_log::{DeltaCommit, DeltaError};
use std::alloc::Global;
use table_history::{Change, FileRows, Table};

/// The change that a commit makes of the table `base`, as `change_of` gives it, but in no order.
fn unordered_change_of(
    alloc: Global,
    commit: &DeltaCommit,
    base: Option<&Table>,
) -> Result<Change, DeltaError>
    requires { IsSound commit.now }
    ensures found { IfOk result (IsUnorderedChangeOf commit.now (option_copied base.entry)) }
    // A commit is taken only where it is in the grammar, shows no feature and passes no number.
    ensures follows { OnOk result (CanFollow commit.now (option_copied base.entry)) }
    // The change may be applied to the table before, and the table after it may be followed on.
    ensures goes_on { IfOk result (GoesOn commit.now (option_copied base.entry)) }
    ensures refused { IfErr result (IsChangeRefusal commit.now (option_copied base.entry)) }
{
    let columns = columns_of(alloc, commit, base)?;
    let none = FileRows::new(alloc);
    change_over(
        alloc,
        columns.stated,
        columns.columns.as_slice(),
        rows_before(base, &none),
        commit.files.as_slice(),
    )
}

/// The change that a commit makes of the table `base` (Delta protocol, "Action Reconciliation"). None
/// is the state before the first commit. The line in a refusal is 0. What the grammar asks of a commit
/// as a whole is told first, then the features that it shows, in one order, and then the numbers that
/// it passes.
pub fn change_of(
    alloc: Global,
    commit: &DeltaCommit,
    base: Option<&Table>,
) -> Result<Change, DeltaError>
    requires { IsSound commit.now }
    // The rows that differ before and behind the commit, and the schema that it states.
    ensures found { IfOk result (IsChangeOf commit.now (option_copied base.entry)) }
    // It leads the rows that are live by some commits to those that are live by them and this one.
    ensures live { IfOk result (LeadsLive commit.now (option_copied base.entry)) }
    // A commit is taken only where it is in the grammar and shows no feature.
    ensures grammar { OnOk result (¬ IsOutsideGrammar commit.now (option_copied base.entry)) }
    ensures supported { OnOk result
        (NoneOf (Shows commit.now (option_copied base.entry)) commit_features) }
    // Nor does it pass a number.
    ensures follows { OnOk result (CanFollow commit.now (option_copied base.entry)) }
    // The change may be applied to the table before.
    ensures fits { IfOk result (CanApply (table_before commit.now (option_copied base.entry))) }
    // Each added row may stand in a table of this schema.
    ensures rows { IfOk result (λ change. (row : Row) → Contains change.added row
        → IsSoundRow (unwrap_or change.schema (schema_before (option_copied base.entry)))
        (partition_behind commit.now.meta (option_copied base.entry)) row) }
    // The schema that it states is what its metadata's text spells.
    ensures spells { IfOk result (λ change. IfSome change.schema (IsStatedBy commit.now)) }
    // That is one that a table may have.
    ensures schema { IfOk result (λ change. IfSome change.schema IsTableSchema) }
    // The table after it may be followed on and published, where the table before may.
    ensures goes_on { IfOk result (GoesOn commit.now (option_copied base.entry)) }
    // A refusal has its cause, and no cause that is told before it.
    ensures refused { IfErr result (IsChangeRefusal commit.now (option_copied base.entry)) }
    // Without a cause there is a change, unless memory runs out.
    ensures complete { CanFollow commit.now (option_copied base.entry)
        → IfErr result (λ e. e ≡ errors.Memory) }
{
    let change = unordered_change_of(alloc, commit, base)?;
    Ok(in_order(change)?)
}

/// The rows before the commit, which are none before the first.
fn rows_before<'a>(base: Option<&'a Table>, none: &'a FileRows) -> &'a FileRows
    requires { none.now ≡ [] }
    ensures { result.now ≡ rows_before (option_copied base.entry) }
{
    match base {
        None => none,
        Some(table) => &table.rows,
    }
}
