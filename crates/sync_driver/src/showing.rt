//! Showing a table.
ghost use Rattle.std.specs.Prelude.{◌≡◌, ℕ, List, IfErr, IfOk, Result, Some};
ghost use Rattle.source_core.specs.Answers.{IsReadRefusal};
ghost use Rattle.source_core.specs.declared.error.SourceError.{SourceError};
ghost use Rattle.table_lines.specs.TableLines.{AreTableLines};
ghost use Rattle.sync_driver.specs.Shown.{IsShow, Shows, shown_status, shown_text};
ghost use Rattle.target_sync.specs.Sources.{source_meaning};
ghost use Rattle.sync_driver.specs.Tellings.{Tells};

use crate::tell::{put_pending, refuse, status_of_put};
use lake_basics::Text;
use lake_store::{Sink, Store};
use source_core::{Head, Source, SourceError};
use std::alloc::Global;
use table_history::{Kind, Table};
use table_lines::{put_lines, rows_in_order};
use target_sync::{Status, status_of_source};

/// Puts the table's lines out, and answers how that ended.
fn put_table<O: Sink>(
    alloc: Global,
    out: &mut O,
    kind: Kind,
    position: &Text,
    table: &Table,
) -> Status
    ensures { (answer : Result (List ℕ) SourceError)
        × IfOk answer (AreTableLines kind position.now table.now)
        × IfErr answer (λ e. e ≡ SourceError.Memory)
        × Tells ⟦<O as Sink>⟧ out.old out.new (shown_text (Some answer))
        (shown_status (Some answer)) result }
{
    let Ok(rows) = rows_in_order(alloc, &table.rows) else {
        return Status::Memory;
    };
    let put = put_lines(alloc, out, kind, position, table, &rows);
    status_of_put(put)
}

/// Prints the source's table at its head, behind a line of the commit that is pending there, if one
/// is, and answers how that ended.
pub fn show<F: Source, S: Store, O: Sink>(
    alloc: Global,
    source: &F,
    store: &mut S,
    out: &mut O,
) -> Status
    ensures { Shows ⟦<S as Store>⟧ ⟦<O as Sink>⟧ (source_meaning ⟦<F as Source>⟧ source.now)
        store.old store.new out.old out.new result }
{
    let head = match source.head(alloc, store) {
        Ok(head) => head,
        Err(error) => return refuse(alloc, out, status_of_source(error)),
    };
    match put_pending(alloc, out, &head) {
        Ok(()) => show_table(alloc, source, &head, store, out),
        Err(cut) => cut,
    }
}

/// Prints the source's table at its head, and answers how that ended.
fn show_table<F: Source, S: Store, O: Sink>(
    alloc: Global,
    source: &F,
    head: &Head,
    store: &mut S,
    out: &mut O,
) -> Status
    requires head { S.tells → F.is_head source.now (S.disk store.old).files head.now }
    ensures { (answer : Result (List ℕ) SourceError)
        × IsShow ⟦<S as Store>⟧ (source_meaning ⟦<F as Source>⟧ source.now) store.old store.new
        (Some answer)
        × (S.tells → IfErr answer
        (IsReadRefusal (F.from_scratch source.now (S.disk store.old).files)))
        × Tells ⟦<O as Sink>⟧ out.old out.new (shown_text (Some answer))
        (shown_status (Some answer)) result }
{
    match source.whole(alloc, store, head) {
        Ok(table) => put_table(alloc, out, source.kind(), &head.position, &table),
        Err(error) => refuse(alloc, out, status_of_source(error)),
    }
}
