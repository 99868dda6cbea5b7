//! The commits of the drill.
ghost use Rattle.std.specs.Prelude.{◌≡◌, ◌<◌, ◌++◌, IfOk, OnOk, Some, true};
ghost use Rattle.table_history.specs.SchemaView.{column_view, type_view};
ghost use Rattle.schema_delta.specs.DeltaWriting.{delta_text};
ghost use Rattle.conformance.specs.Drill.{SaysDrill, SpellsDrill, drill_bytes, drill_commit, drill_files, drill_meta, drill_protocol, drill_schema, removed_files, removes};

use crate::file::{push_added, push_removed, remainder};
use delta_log::{DeltaCommit, FileAction, MetaData, Protocol};
use delta_text::commit_text;
use lake_basics::{Blob, Items, Text};
use schema_delta::to_delta;
use std::alloc::{AllocError, Global};
use table_history::{Column, ColumnType, Schema};

/// The time of the drill's commits: 2024-01-05 12:00:00 UTC, in milliseconds since 1970.
const DRILL_TIME: u64 = 1_704_456_000_000;

/// A column of this name and type, which may be null.
fn column(alloc: Global, name: &str, kind: ColumnType) -> Result<Column, AllocError>
    ensures { IfOk result (λ column. column_view column
        ≡ record { name = name.now; kind = type_view kind; nullable = true }) }
{
    Ok(Column {
        name: Text::from_str(alloc, name)?,
        kind,
        nullable: true,
    })
}

/// The columns of the drill's table.
fn schema(alloc: Global) -> Result<Schema, AllocError>
    ensures { IfOk result (λ schema. schema ≡ drill_schema) }
{
    let mut columns = Vec::new(alloc);
    columns.push(column(alloc, "id", ColumnType::Long)?)?;
    columns.push(column(alloc, "d", ColumnType::Int)?)?;
    Ok(Schema::new(columns))
}

/// The text of the drill's schema, which is read as it.
fn schema_text(alloc: Global) -> Result<Text, AllocError>
    ensures text { IfOk result (λ text. text ≡ delta_text drill_schema) }
    ensures spells { OnOk result SpellsDrill }
{
    let schema = schema(alloc)?;
    match to_delta(alloc, &schema) {
        Ok(text) => Ok(text),
        Err(_) => Err(AllocError),
    }
}

/// The metadata of the drill's table.
fn meta(alloc: Global) -> Result<MetaData, AllocError>
    ensures meta { IfOk result (λ meta. meta ≡ drill_meta) }
    ensures spells { OnOk result SpellsDrill }
{
    let schema = schema_text(alloc)?;
    let id = Text::from_str(alloc, "drill")?;
    let mut partition = Items::new(alloc);
    partition.push(Text::from_str(alloc, "d")?)?;
    Ok(MetaData {
        id,
        schema,
        partition,
        configuration: Items::new(alloc),
    })
}

/// Whether the commit removes the files of an earlier one.
fn removes(number: u64, commit: u64) -> bool
    ensures { result ≡ removes number commit }
{
    commit >= 10 && remainder(number, commit, 4) == 0
}

/// Pushes the removals of a commit, if it has some.
#[tactic(auto, using(crate::proofs::Commits::none_more, crate::proofs::Commits::some_more))]
fn push_removals(
    alloc: Global,
    files: &mut Vec<FileAction>,
    number: u64,
    commit: u64,
) -> Result<(), AllocError>
    requires commit { commit < 200 }
    ensures { OnOk result (files.new.items ≡ files.old.items ++ removed_files number commit) }
{
    if removes(number, commit) {
        push_removed(alloc, files, number, commit - 10)?;
    }
    Ok(())
}

/// The file actions of a commit.
fn files_at(alloc: Global, number: u64, commit: u64) -> Result<Items<FileAction>, AllocError>
    requires commit { commit < 200 }
    ensures { IfOk result (λ files. files ≡ drill_files number commit) }
{
    let mut files = Vec::new(alloc);
    push_added(alloc, &mut files, number, commit)?;
    push_removals(alloc, &mut files, number, commit)?;
    Ok(Items::from_vec(files))
}

/// Commit 0, with these file actions.
fn first_commit(alloc: Global, files: Items<FileAction>) -> Result<DeltaCommit, AllocError>
    ensures commit { IfOk result (λ commit. commit ≡ record {
      protocol = Some drill_protocol;
      meta = Some drill_meta;
      files = files;
    }) }
    ensures spells { OnOk result SpellsDrill }
{
    Ok(DeltaCommit {
        protocol: Some(Protocol {
            reader: 1,
            writer: 2,
            reader_features: None,
            writer_features: None,
        }),
        meta: Some(meta(alloc)?),
        files,
    })
}

/// A commit of the drill.
fn commit_at(alloc: Global, number: u64, commit: u64) -> Result<DeltaCommit, AllocError>
    requires commit { commit < 200 }
    ensures commit { IfOk result (λ c. c ≡ drill_commit number commit) }
    ensures spells { OnOk result (commit ≡ 0 → SpellsDrill) }
{
    let files = files_at(alloc, number, commit)?;
    if commit == 0 {
        return first_commit(alloc, files);
    }
    Ok(DeltaCommit {
        protocol: None,
        meta: None,
        files,
    })
}

/// The bytes of this commit of the drill, which are read as it.
fn bytes_of(
    alloc: Global,
    number: u64,
    place: u64,
    commit: &DeltaCommit,
) -> Result<Blob, AllocError>
    requires place { place < 200 }
    requires is { commit.now ≡ drill_commit number place }
    ensures bytes { IfOk result (λ bytes. bytes ≡ drill_bytes number place) }
    ensures says { OnOk result (SaysDrill number place) }
{
    match commit_text(alloc, commit, DRILL_TIME) {
        Ok(bytes) => Ok(bytes),
        Err(_) => Err(AllocError),
    }
}

/// The bytes of a commit of the drill, which are read as it.
pub(crate) fn bytes_at(alloc: Global, number: u64, place: u64) -> Result<Blob, AllocError>
    requires place { place < 200 }
    ensures bytes { IfOk result (λ bytes. bytes ≡ drill_bytes number place) }
    ensures says { OnOk result (SaysDrill number place) }
    ensures spells { OnOk result (place ≡ 0 → SpellsDrill) }
{
    let commit = commit_at(alloc, number, place)?;
    bytes_of(alloc, number, place, &commit)
}
