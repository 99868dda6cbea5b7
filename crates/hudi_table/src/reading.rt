//! The table that completed instants make one after another.

ghost use Rattle.std.specs.Prelude.{◌≡◌, ◌≤◌, [], Contains, IfErr, IfOk, IfSome, IsErrOf, None, OnOk, Some, length};
ghost use Rattle.std.specs.Option.{option_copied};
ghost use Rattle.lake_basics.specs.declared.limits.TheConstants.{MAX_COMMITS};
ghost use Rattle.lake_store.specs.Runs.{FailsBy, IsUncontestedBy, OnlyReads};
ghost use Rattle.table_history.specs.Tables.{CanApply, IsAfter};
ghost use Rattle.hudi_timeline.specs.Causes.{table_before};
ghost use Rattle.hudi_timeline.specs.Change.{GoesOn, IsChangeOf, IsTableOf};
ghost use Rattle.hudi_instant.specs.InstantText.{IsSound};
ghost use Rattle.hudi_timeline.specs.Live.{completed};
ghost use Rattle.hudi_table.specs.Files.{SaysInstant};
ghost use Rattle.hudi_table.specs.Instants.{path_of};
ghost use Rattle.hudi_table.specs.Reading.{HasLiveRows, IsChangeHere, IsNextHere, IsReadingOf, form_of, table_in};
ghost use Rattle.hudi_table.specs.Refusals.{IsChangeRefusal, IsInstantRefusal, IsReadingRefusal, IsStepRefusal, TellsOf};
ghost use Rattle.hudi_table.specs.declared.instants.CompletedInstant.{CompletedInstant};
ghost use Rattle.hudi_table.specs.declared.error.TimelineError.TheVariants.{StoreFault};

use crate::error::TimelineError;
use crate::file::{read_file, refusal};
use crate::instants::CompletedInstant;
use hudi_groups::{Form, GroupedTable};
use hudi_instant::{Instant, read_instant};
use hudi_names::HudiError;
use hudi_properties::HudiTable;
use hudi_timeline::change_of;
use lake_basics::Text;
use lake_basics::limits::MAX_COMMITS;
use lake_store::Store;
use std::alloc::{AllocError, Global};
use table_history::{Change, Table};

/// How the data files of a table's instants are named: as Hudi names them, or as files of others,
/// with the instant's time behind their path.
#[derive(Clone, Copy, Debug, PartialEq, Eq)]
pub enum Naming {
    Base,
    External,
}

/// The change that an instant makes of the table before it, and the instant's mark.
#[derive(Drop)]
pub struct InstantChange {
    pub change: Change,
    pub mark: Option<Text>,
}

/// The table after some instants, and the mark of the newest of them.
#[derive(Drop)]
pub struct Latest {
    pub table: GroupedTable,
    pub mark: Option<Text>,
}

fn form_of(alloc: Global, naming: Naming, time: &Text) -> Result<Form, AllocError>
    ensures { IfOk result (λ form. form ≡ form_of naming time.now) }
{
    match naming {
        Naming::Base => Ok(Form::Base),
        Naming::External => Ok(Form::External {
            time: time.copy(alloc)?,
        }),
    }
}

/// What the file of a completed instant says. The replacecommit of a time that has a completed
/// commit too is malformed.
pub fn read_instant_file<S: Store>(
    alloc: Global,
    store: &mut S,
    instant: &CompletedInstant,
) -> Result<Instant, TimelineError>
    ensures says { S.tells → IfOk result (SaysInstant (S.disk store.old).files instant.now) }
    ensures sound { IfOk result IsSound }
    ensures told { IfErr result (TellsOf (λ p. p ≡ path_of instant.now.name)) }
    ensures refused { S.tells
        → IfErr result (IsInstantRefusal (S.disk store.old).files instant.now) }
    ensures only_reads { S.tells → OnlyReads ⟦<S as Store>⟧ store.old store.new }
    ensures cause { FailsBy ⟦<S as Store>⟧ store.old store.new (IsErrOf result StoreFault) }
    ensures contest { IsUncontestedBy ⟦<S as Store>⟧ store.old store.new ⊥ }
{
    let name = instant.name.as_str();
    if instant.is_second {
        return Err(refusal(alloc, name, HudiError::Malformed { line: 0 }));
    }
    let bytes = read_file(alloc, store, name)?;
    match read_instant(alloc, bytes.as_slice()) {
        Ok(instant) => Ok(instant),
        Err(error) => Err(refusal(alloc, name, error)),
    }
}

/// The change that a completed instant, which says this, makes of the table before it. There is no
/// table before the first instant (Hudi technical specification, "Timeline").
pub fn instant_change(
    alloc: Global,
    said: &Instant,
    instant: &CompletedInstant,
    naming: Naming,
    table: &HudiTable,
    base: Option<&GroupedTable>,
) -> Result<Change, TimelineError>
    ensures found { IfOk result
        (IsChangeOf (completed (form_of naming instant.now.time) said.now) table.now
        (option_copied base.entry)) }
    ensures goes_on { IfOk result (GoesOn table.now (option_copied base.entry)) }
    ensures told { IfErr result (TellsOf (λ p. p ≡ path_of instant.now.name)) }
    ensures refused { IfErr result
        (IsChangeRefusal naming table.now instant.now said.now (option_copied base.entry)) }
{
    let form = form_of(alloc, naming, &instant.time)?;
    match change_of(alloc, said, &form, table, base) {
        Ok(change) => Ok(change),
        Err(error) => Err(refusal(alloc, instant.name.as_str(), error)),
    }
}

/// The change that a completed instant makes of the table before it, with the instant's mark. There
/// is no table before the first instant.
pub fn read_change<S: Store>(
    alloc: Global,
    store: &mut S,
    instant: &CompletedInstant,
    naming: Naming,
    table: &HudiTable,
    base: Option<&GroupedTable>,
) -> Result<InstantChange, TimelineError>
    ensures found { S.tells → IfOk result
        (IsChangeHere (S.disk store.old).files naming table.now instant.now
        (option_copied base.entry)) }
    ensures goes_on { IfOk result
        (λ made. GoesOn table.now (option_copied base.entry) made.change) }
    ensures told { IfErr result (TellsOf (λ p. p ≡ path_of instant.now.name)) }
    ensures refused { S.tells → IfErr result
        (IsStepRefusal (S.disk store.old).files naming table.now instant.now
        (option_copied base.entry)) }
    ensures only_reads { S.tells → OnlyReads ⟦<S as Store>⟧ store.old store.new }
    ensures cause { FailsBy ⟦<S as Store>⟧ store.old store.new (IsErrOf result StoreFault) }
    ensures contest { IsUncontestedBy ⟦<S as Store>⟧ store.old store.new ⊥ }
{
    let said = read_instant_file(alloc, store, instant)?;
    let change = instant_change(alloc, &said, instant, naming, table, base)?;
    Ok(InstantChange {
        change,
        mark: said.mark,
    })
}

/// The table, with an index of its groups where these are named by file ids.
fn grouped(alloc: Global, naming: Naming, table: Table) -> Result<GroupedTable, AllocError>
    ensures { IfOk result (λ grouped. grouped ≡ table) }
{
    match naming {
        Naming::Base => GroupedTable::by_file_ids(alloc, table),
        Naming::External => Ok(GroupedTable::by_paths(table)),
    }
}

/// The table after the first instant.
fn first_table(
    alloc: Global,
    naming: Naming,
    table: &HudiTable,
    made: InstantChange,
) -> Result<Latest, AllocError>
    requires { GoesOn table.now None made.change }
    ensures after { IfOk result
        (λ next. IsAfter (table_before table.now None) made.change next.table) }
    ensures mark { IfOk result (λ next. next.mark ≡ made.mark) }
{
    let none = grouped(
        alloc,
        naming,
        Table::empty(alloc, table.partition.as_slice())?,
    )?;
    Ok(Latest {
        table: none.with_owned_change(alloc, made.change)?,
        mark: made.mark,
    })
}

/// The table after one instant more.
fn further_table(alloc: Global, latest: Latest, made: InstantChange) -> Result<Latest, AllocError>
    requires { CanApply latest.table made.change }
    ensures after { IfOk result (λ next. IsAfter latest.table made.change next.table) }
    ensures mark { IfOk result (λ next. next.mark ≡ made.mark) }
{
    Ok(Latest {
        table: latest.table.with_owned_change(alloc, made.change)?,
        mark: made.mark,
    })
}

fn read_first<S: Store>(
    alloc: Global,
    store: &mut S,
    instant: &CompletedInstant,
    naming: Naming,
    table: &HudiTable,
) -> Result<Latest, TimelineError>
    ensures found { S.tells → IfOk result
        (IsNextHere (S.disk store.old).files naming table.now instant.now None) }
    ensures sound { IfOk result (λ next. IsTableOf table.now next.table) }
    ensures told { IfErr result (TellsOf (λ p. p ≡ path_of instant.now.name)) }
    ensures refused { S.tells → IfErr result
        (IsStepRefusal (S.disk store.old).files naming table.now instant.now None) }
    ensures only_reads { S.tells → OnlyReads ⟦<S as Store>⟧ store.old store.new }
    ensures cause { FailsBy ⟦<S as Store>⟧ store.old store.new (IsErrOf result StoreFault) }
    ensures contest { IsUncontestedBy ⟦<S as Store>⟧ store.old store.new ⊥ }
{
    let made = read_change(alloc, store, instant, naming, table, None)?;
    Ok(first_table(alloc, naming, table, made)?)
}

fn read_further<S: Store>(
    alloc: Global,
    store: &mut S,
    instant: &CompletedInstant,
    naming: Naming,
    table: &HudiTable,
    latest: Latest,
) -> Result<Latest, TimelineError>
    ensures found { S.tells → IfOk result
        (IsNextHere (S.disk store.old).files naming table.now instant.now (Some latest.table)) }
    ensures sound { IfOk result (λ next. IsTableOf table.now latest.table
        → IsTableOf table.now next.table) }
    ensures told { IfErr result (TellsOf (λ p. p ≡ path_of instant.now.name)) }
    ensures refused { S.tells → IfErr result
        (IsStepRefusal (S.disk store.old).files naming table.now instant.now
        (Some latest.table)) }
    ensures only_reads { S.tells → OnlyReads ⟦<S as Store>⟧ store.old store.new }
    ensures cause { FailsBy ⟦<S as Store>⟧ store.old store.new (IsErrOf result StoreFault) }
    ensures contest { IsUncontestedBy ⟦<S as Store>⟧ store.old store.new ⊥ }
{
    let made = read_change(alloc, store, instant, naming, table, Some(&latest.table))?;
    Ok(further_table(alloc, latest, made)?)
}

/// The table after one completed instant more, and the instant's mark.
pub fn read_next<S: Store>(
    alloc: Global,
    store: &mut S,
    instant: &CompletedInstant,
    naming: Naming,
    table: &HudiTable,
    latest: Option<Latest>,
) -> Result<Latest, TimelineError>
    ensures found { S.tells → IfOk result
        (IsNextHere (S.disk store.old).files naming table.now instant.now (table_in latest)) }
    ensures sound { IfSome latest (λ l. IsTableOf table.now l.table)
        → IfOk result (λ next. IsTableOf table.now next.table) }
    ensures told { IfErr result (TellsOf (λ p. p ≡ path_of instant.now.name)) }
    ensures refused { S.tells → IfErr result
        (IsStepRefusal (S.disk store.old).files naming table.now instant.now
        (table_in latest)) }
    ensures only_reads { S.tells → OnlyReads ⟦<S as Store>⟧ store.old store.new }
    ensures cause { FailsBy ⟦<S as Store>⟧ store.old store.new (IsErrOf result StoreFault) }
    ensures contest { IsUncontestedBy ⟦<S as Store>⟧ store.old store.new ⊥ }
{
    match latest {
        None => read_first(alloc, store, instant, naming, table),
        Some(latest) => read_further(alloc, store, instant, naming, table, latest),
    }
}

/// The table that completed instants make one after another, the oldest first, and the mark of the
/// newest. None where there is no instant. Each file is read once. A refusal is that of the first
/// instant at fault.
pub fn read_timeline<S: Store>(
    alloc: Global,
    store: &mut S,
    instants: &[CompletedInstant],
    naming: Naming,
    table: &HudiTable,
) -> Result<Option<Latest>, TimelineError>
    ensures found { S.tells → IfOk result
        (IsReadingOf (S.disk store.old).files naming table.now instants.now) }
    ensures live { S.tells → IfOk result (λ latest. IfSome latest
        (HasLiveRows (S.disk store.old).files naming table.now instants.now)) }
    // What is read may be followed on and published, and passes no number.
    ensures sound { IfOk result (λ latest. IfSome latest (λ l. IsTableOf table.now l.table)) }
    ensures some { IfOk result (λ latest. latest ≡ None → instants.now ≡ []) }
    ensures few { OnOk result (length instants.now ≤ MAX_COMMITS) }
    ensures told { IfErr result
        (TellsOf (λ p. (c : CompletedInstant) × Contains instants.now c × (p ≡ path_of c.name))) }
    ensures refused { S.tells → IfErr result
        (IsReadingRefusal (S.disk store.old).files naming table.now instants.now) }
    ensures only_reads { S.tells → OnlyReads ⟦<S as Store>⟧ store.old store.new }
    ensures cause { FailsBy ⟦<S as Store>⟧ store.old store.new (IsErrOf result StoreFault) }
    ensures contest { IsUncontestedBy ⟦<S as Store>⟧ store.old store.new ⊥ }
{
    if instants.len() as u64 > MAX_COMMITS {
        return Err(TimelineError::ManyCommits);
    }
    let mut latest = None;
    for instant in instants {
        latest = Some(read_next(alloc, store, instant, naming, table, latest)?);
    }
    Ok(latest)
}
