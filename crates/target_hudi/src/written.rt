//! The instant that is written for a commit.

ghost use Rattle.std.specs.Prelude.{◌≡◌, ◌≤◌, ◌+◌, Contains, IfOk, List, OnOk, ℕ, length};
ghost use Rattle.std.specs.List.{IsDistinct};
ghost use Rattle.std.specs.Option.{option_copied};
ghost use Rattle.std.specs.Str.{bytes_eq};
ghost use Rattle.serde_json.specs.Written.{compact_text};
ghost use Rattle.lake_basics.specs.declared.limits.TheConstants.{MAX_ACTIONS};
ghost use Rattle.table_history.specs.Path.{IsPath};
ghost use Rattle.table_history.specs.Row.{Row};
ghost use Rattle.table_history.specs.Rows.{HasDistinctPaths};
ghost use Rattle.hudi_names.specs.Time.{IsDigits};
ghost use Rattle.hudi_instant.specs.InstantText.{IsWritable};
ghost use Rattle.target_core.specs.Mark.{IsMarkText, mark_data};
ghost use Rattle.target_core.specs.Views.{origin_of};
ghost use Rattle.target_hudi.specs.Writing.{IsReadBack, IsStatedText, IsWrittenOver, LeavesAdded, LosesRemoved, mark_of};

use crate::replaced::replaced_ids;
use crate::stats::stats_of;
use hudi_instant::Instant;
use lake_basics::{Items, Text};
use schema_avro::to_avro;
use schema_map::MapError;
use std::alloc::{AllocError, Global};
use table_history::{Commit, FileRows, Kind, Schema};
use target_core::{Mark, mark_text};

/// The mark of an instant: the position of the source's commit that it carries, and the id of the
/// source's table where that is stated.
pub(crate) fn mark_of(
    alloc: Global,
    instant: &Text,
    position: &Text,
    source: Kind,
    table: Option<&Text>,
) -> Result<Mark, AllocError>
    ensures { IfOk result (λ mark. mark ≡ mark_of instant.now
        (origin_of source (option_copied table.entry)) position.now) }
{
    let table = match table {
        None => None,
        Some(id) => Some(id.copy(alloc)?),
    };
    Ok(Mark {
        at: instant.copy(alloc)?,
        source,
        to: position.copy(alloc)?,
        table,
    })
}

/// The text of that mark, in version 2.
fn mark_text_of(
    alloc: Global,
    instant: &Text,
    position: &Text,
    source: Kind,
    table: Option<&Text>,
) -> Result<Text, AllocError>
    ensures text { IfOk result (λ text. text ≡ compact_text (mark_data (mark_of instant.now
        (origin_of source (option_copied table.entry)) position.now))) }
    ensures reads_back { IfOk result (λ text. IsMarkText text (mark_of instant.now
        (origin_of source (option_copied table.entry)) position.now)) }
{
    let mark = mark_of(alloc, instant, position, source, table)?;
    mark_text(alloc, &mark)
}

/// The Avro text of a schema, where it has one.
fn schema_text(alloc: Global, schema: &Schema) -> Result<Option<Text>, AllocError>
    ensures stated { IfOk result (IsStatedText schema.now) }
    ensures read_back { IfOk result (IsReadBack schema.now) }
{
    match to_avro(alloc, schema) {
        Ok(text) => Ok(Some(text)),
        Err(MapError::Memory) => Err(AllocError),
        Err(_) => Ok(None),
    }
}

/// What is written for a commit at this instant, where the schema is that behind the commit, and
/// `after` are the rows behind it.
pub(crate) fn written_of(
    alloc: Global,
    instant: &Text,
    commit: &Commit,
    schema: &Schema,
    after: &FileRows,
    source: Kind,
    table: Option<&Text>,
) -> Result<Instant, AllocError>
    requires digits { IsDigits instant.now }
    requires leaves { LeavesAdded commit.now.change.added after.now }
    requires loses { LosesRemoved commit.now.change after.now }
    requires added { HasDistinctPaths commit.now.change.added }
    requires removed { IsDistinct bytes_eq commit.now.change.removed }
    requires added_paths { (row : Row) → Contains commit.now.change.added row → IsPath row.path }
    requires paths { (path : List ℕ) → Contains commit.now.change.removed path → IsPath path }
    requires few { length commit.now.change.added + length commit.now.change.removed
        ≤ MAX_ACTIONS }
    ensures is { IfOk result (IsWrittenOver schema.now
        (origin_of source (option_copied table.entry)) instant.now commit.now) }
    ensures writable { IfOk result IsWritable }
    ensures read_back { IfOk result (λ written. IsReadBack schema.now written.schema) }
    ensures reads_back { OnOk result (IsMarkText (compact_text (mark_data (mark_of instant.now
        (origin_of source (option_copied table.entry)) commit.now.position)))
        (mark_of instant.now (origin_of source (option_copied table.entry))
        commit.now.position)) }
{
    let change = &commit.change;
    let mark = mark_text_of(alloc, instant, &commit.position, source, table)?;
    let schema = schema_text(alloc, schema)?;
    let stats = stats_of(alloc, instant, change.added.as_slice())?;
    let replaced = replaced_ids(alloc, change.removed.as_slice(), after)?;
    Ok(Instant {
        stats: Items::from_vec(stats),
        replaced: Items::from_vec(replaced),
        schema,
        mark: Some(mark),
    })
}
