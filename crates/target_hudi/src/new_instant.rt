//! The instant that a commit is written as.

ghost use Rattle.std.specs.Prelude.{◌≡◌, ◌<◌, ◌≤◌, ◌+◌, ◌∷◌, [], IfErr, IfOk, IfSome, IsErrOf, OnOk, Ok, Some, ℤ, length};
ghost use Rattle.std.specs.Cmp.Lexicographic.{slice_cmp};
ghost use Rattle.std.specs.Option.{option_copied};
ghost use Rattle.std.specs.Ordering.{nat_cmp};
ghost use Rattle.std.specs.declared.cmp.Ordering.TheVariants.{Less};
ghost use Rattle.table_history.specs.Tables.{IsAfter};
ghost use Rattle.table_history.specs.TypeTree.{ColumnTrees};
ghost use Rattle.table_history.specs.Words.{limit_number};
ghost use Rattle.table_history.specs.declared.kind.Kind.TheVariants.{Hudi};
ghost use Rattle.table_history.specs.declared.limit.LimitKind.TheVariants.{Versions};
ghost use Rattle.lake_basics.specs.declared.limits.TheConstants.{MAX_FILE_BYTES};
ghost use Rattle.hudi_names.specs.Time.{IsPast9999, IsSomeTime, IsTime};
ghost use Rattle.hudi_instant.specs.InstantText.{IsWritable, instant_text};
ghost use Rattle.hudi_instant.specs.Instants.{json_instant};
ghost use Rattle.hudi_names.specs.Next.{IsNext};
ghost use Rattle.schema_map.specs.Image.{wide_columns};
ghost use Rattle.target_core.specs.Conditions.{CanPublish, Fits};
ghost use Rattle.target_core.specs.Views.{origin_of};
ghost use Rattle.target_hudi.specs.Fitting.{Unfit};
ghost use Rattle.target_hudi.specs.Kept.{end_of, held_of, view_of};
ghost use Rattle.target_hudi.specs.NewInstant.{AreGiven, IsFileRefusal, IsInstantRefusal, IsNewInstant, IsTextAt, IsTimeRefusal, IsTooLongAt};
ghost use Rattle.target_hudi.specs.Rank.{time_rank};
ghost use Rattle.target_hudi.specs.Writing.{HasLargeProperties, IsReadAs, PassesLast, held_behind};

use crate::kept::HudiKept;
use crate::properties::new_properties;
use crate::written::{mark_of, written_of};
use hudi_instant::{Instant, instant_text};
use hudi_names::{HudiError, next_instant, read_time};
use lake_basics::limits::{MAX_FILE_BYTES, MAX_HUDI_YEAR};
use lake_basics::{Blob, Text};
use schema_avro::from_avro;
use schema_map::MapError;
use std::alloc::{AllocError, Global};
use table_history::{Change, Commit, Kind, LimitKind, Schema, Table};
use target_core::{Mark, TargetError};

/// A commit that is to be published: its time, the text of the table's properties where it is the
/// first, and its own text.
#[derive(Drop)]
pub(crate) struct NewInstant {
    pub(crate) time: Text,
    pub(crate) properties: Option<Blob>,
    pub(crate) text: Blob,
}

/// The time behind the last instant, by a clock of milliseconds. `Limit` past the year 9999.
fn time_behind(alloc: Global, last: Option<&Text>, now_ms: u64) -> Result<Text, TargetError>
    requires { IfSome (option_copied last) IsSomeTime }
    ensures next { IfOk result
        (λ time. (ms : ℤ) × IsNext (option_copied last.entry) now_ms ms × IsTime time ms) }
    ensures later { IfOk result
        (λ time. IfSome (option_copied last.entry) (λ l. slice_cmp nat_cmp l time ≡ Less)) }
    ensures refusal { IfErr result (IsTimeRefusal (option_copied last.entry) now_ms) }
    ensures past { ((ms : ℤ) → IsNext (option_copied last.entry) now_ms ms → IsPast9999 ms)
        → IsErrOf result (TargetError.Limit Versions (limit_number Hudi Versions)) }
{
    match next_instant(alloc, last, now_ms) {
        Ok(time) => Ok(time),
        Err(HudiError::Memory) => Err(TargetError::Memory),
        Err(_) => Err(TargetError::Limit {
            which: LimitKind::Versions,
            number: MAX_HUDI_YEAR,
        }),
    }
}

/// The time of the commit that comes next. `Limit` past the year 9999.
fn next_time(alloc: Global, kept: &HudiKept, now_ms: u64) -> Result<Text, TargetError>
    ensures next { IfOk result
        (λ time. (ms : ℤ) × IsNext kept.now.newest now_ms ms × IsTime time ms) }
    ensures later { IfOk result
        (λ time. IfSome kept.now.newest (λ l. slice_cmp nat_cmp l time ≡ Less)) }
    ensures refusal { IfErr result (IsTimeRefusal kept.now.newest now_ms) }
    ensures past { ((ms : ℤ) → IsNext kept.now.newest now_ms ms → IsPast9999 ms)
        → IsErrOf result (TargetError.Limit Versions (limit_number Hudi Versions)) }
{
    let Some(last) = &kept.newest else {
        return time_behind(alloc, None, now_ms);
    };
    match read_time(last.as_bytes()) {
        Some(_) => time_behind(alloc, Some(last), now_ms),
        None => unreachable!(),
    }
}

/// These bytes. `Limit` where they are too many for a file.
fn file_of(bytes: Blob) -> Result<Blob, TargetError>
    ensures same { IfOk result (λ same. same ≡ bytes) }
    ensures short { IfOk result (λ same. length same ≤ MAX_FILE_BYTES) }
    ensures refusal { IfErr result (IsFileRefusal (MAX_FILE_BYTES < length bytes)) }
{
    if bytes.as_slice().len() as u64 > MAX_FILE_BYTES {
        return Err(TargetError::Limit {
            which: LimitKind::File,
            number: MAX_FILE_BYTES,
        });
    }
    Ok(bytes)
}

/// The text of the table's properties before its first commit. `Limit` where it is too long.
fn first_properties(
    alloc: Global,
    name: &Text,
    kept: &HudiKept,
) -> Result<Option<Blob>, TargetError>
    ensures given { IfOk result (AreGiven (end_of name.now kept.now)) }
    ensures short { IfOk result
        (λ given. IfSome given (λ bytes. length bytes ≤ MAX_FILE_BYTES)) }
    ensures refusal { IfErr result (IsFileRefusal (HasLargeProperties (end_of name.now kept.now))) }
{
    if kept.newest.is_some() {
        return Ok(None);
    }
    let bytes = new_properties(alloc, name, kept.table.partition.as_slice())?;
    Ok(Some(file_of(bytes)?))
}

/// The text of what is written, which is read as it. `Limit` where it is too long.
fn text_of(alloc: Global, written: &Instant) -> Result<Blob, TargetError>
    requires { IsWritable written.now }
    ensures text { IfOk result (λ bytes. bytes ≡ instant_text written.now) }
    ensures read { IfOk result (λ bytes. json_instant bytes ≡ Ok written.now) }
    ensures short { IfOk result (λ bytes. length bytes ≤ MAX_FILE_BYTES) }
    ensures refusal { IfErr result
        (IsFileRefusal (MAX_FILE_BYTES < length (instant_text written.now))) }
{
    match instant_text(alloc, written) {
        Ok(bytes) => file_of(bytes),
        Err(_) => Err(TargetError::Memory),
    }
}

/// The schema that the text is read as.
fn read_schema(alloc: Global, text: &Option<Text>) -> Result<Schema, AllocError>
    requires { (schema : ColumnTrees) × IsReadAs text.now schema }
    ensures { IfOk result (IsReadAs text.now) }
{
    let Some(text) = text else {
        unreachable!();
    };
    match from_avro(alloc, text.as_bytes()) {
        Ok(schema) => Ok(schema),
        Err(MapError::Memory) => Err(AllocError),
        Err(_) => unreachable!(),
    }
}

/// Gives the table the schema that its change states in Hudi's types, as its text is read, where it
/// states one.
fn hold_schema(
    alloc: Global,
    table: &mut Table,
    change: &Change,
    text: &Option<Text>,
) -> Result<(), AllocError>
    requires { (stated : ColumnTrees) → change.now.schema ≡ Some stated
        → IsReadAs text.now (wide_columns stated) }
    ensures schema { OnOk result (table.new.schema ≡ held_behind change.now.schema table.old.schema) }
    ensures rows { table.new.rows ≡ table.old.rows }
    ensures partition { table.new.partition ≡ table.old.partition }
{
    if change.schema.is_some() {
        table.schema = read_schema(alloc, text)?;
    }
    Ok(())
}

/// Goes on by the commit, with its time and its mark. For want of memory the table stays as it is.
fn go_on(
    alloc: Global,
    kept: &mut HudiKept,
    commit: &Commit,
    time: Text,
    mark: Mark,
) -> Result<(), AllocError>
    requires can { CanPublish (view_of kept.old) commit.now }
    requires real { IsSomeTime time }
    requires later { time_rank kept.old.newest < time_rank (Some time) }
    ensures table { OnOk result (IsAfter kept.old.table commit.now.change kept.new.table) }
    ensures mark { kept.new.mark ≡ Some mark }
    ensures newest { kept.new.newest ≡ Some time }
    ensures commits { kept.new.commits ≡ kept.old.commits + 1 }
{
    kept.commits += 1;
    kept.newest = Some(time);
    kept.mark = Some(mark);
    kept.table.apply(alloc, &commit.change)
}

/// The text of what is written, which is read as it. Where the change states a schema, the table gets
/// the one that the text is read as. `Limit` where the text is too long.
fn held_text(
    alloc: Global,
    table: &mut Table,
    change: &Change,
    written: &Instant,
) -> Result<Blob, TargetError>
    requires writable { IsWritable written.now }
    requires stated { (stated : ColumnTrees) → change.now.schema ≡ Some stated
        → IsReadAs written.now.schema (wide_columns stated) }
    ensures text { IfOk result (λ bytes. bytes ≡ instant_text written.now) }
    ensures read { IfOk result (λ bytes. json_instant bytes ≡ Ok written.now) }
    ensures short { IfOk result (λ bytes. length bytes ≤ MAX_FILE_BYTES) }
    ensures refusal { IfErr result
        (IsFileRefusal (MAX_FILE_BYTES < length (instant_text written.now))) }
    ensures schema { OnOk result (table.new.schema ≡ held_behind change.now.schema table.old.schema) }
    ensures rows { table.new.rows ≡ table.old.rows }
    ensures partition { table.new.partition ≡ table.old.partition }
{
    let text = text_of(alloc, written)?;
    hold_schema(alloc, table, change, &written.schema)?;
    Ok(text)
}

/// The text of a commit at this time. `kept` goes on by it. `Limit` where it is too long.
fn text_at(
    alloc: Global,
    time: &Text,
    kept: &mut HudiKept,
    commit: &Commit,
    source: Kind,
    table: Option<&Text>,
) -> Result<Blob, TargetError>
    requires can { CanPublish (view_of kept.old) commit.now }
    requires fits { Fits (Unfit (held_of kept.old)) kept.old.table.partition (commit.now ∷ []) }
    requires real { IsSomeTime time.now }
    requires later { time_rank kept.old.newest < time_rank (Some time.now) }
    ensures is { IfOk result (λ text. IsTextAt
        (origin_of source (option_copied table.entry)) kept.old commit.now
        time.now text kept.new) }
    ensures short { IfOk result (λ text. length text ≤ MAX_FILE_BYTES) }
    ensures refusal { IfErr result (IsFileRefusal (IsTooLongAt
        (origin_of source (option_copied table.entry)) kept.old commit.now
        time.now)) }
{
    let mark = mark_of(alloc, time, &commit.position, source, table)?;
    go_on(alloc, kept, commit, time.copy(alloc)?, mark)?;
    let now = &kept.table;
    let written = written_of(alloc, time, commit, &now.schema, &now.rows, source, table)?;
    held_text(alloc, &mut kept.table, &commit.change, &written)
}

/// The instant that a commit is written as, behind what is kept of the table of this name. `kept`
/// goes on by it. `Limit` where its time or a text of it passes a number.
pub(crate) fn new_instant(
    alloc: Global,
    name: &Text,
    kept: &mut HudiKept,
    commit: &Commit,
    source: Kind,
    table: Option<&Text>,
    now_ms: u64,
) -> Result<NewInstant, TargetError>
    requires can { CanPublish (view_of kept.old) commit.now }
    requires fits { Fits (Unfit (held_of kept.old)) kept.old.table.partition (commit.now ∷ []) }
    ensures is { IfOk result (λ new. IsNewInstant (end_of name.now kept.old)
        (origin_of source (option_copied table.entry)) now_ms kept.old commit.now
        new.time new.properties new.text kept.new) }
    ensures short { IfOk result (λ new. length new.text ≤ MAX_FILE_BYTES) }
    ensures short_properties { IfOk result
        (λ new. IfSome new.properties (λ bytes. length bytes ≤ MAX_FILE_BYTES)) }
    ensures refusal { IfErr result (IsInstantRefusal (PassesLast (end_of name.now kept.old)
        (origin_of source (option_copied table.entry)) now_ms
        (commit.now ∷ []))) }
{
    let time = next_time(alloc, kept, now_ms)?;
    let properties = first_properties(alloc, name, kept)?;
    let text = text_at(alloc, &time, kept, commit, source, table)?;
    Ok(NewInstant {
        time,
        properties,
        text,
    })
}
