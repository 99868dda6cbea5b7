//! Copies of texts and of commits.
ghost use Rattle.std.specs.Prelude.{◌≡◌, IfOk};

use lake_basics::{Items, Text};
use std::alloc::{AllocError, Global};
use table_history::{Change, Commit, FileRow, Schema};

/// Equal texts.
pub(crate) fn copy_texts(alloc: Global, texts: &[Text]) -> Result<Items<Text>, AllocError>
    ensures { IfOk result (λ copies. copies ≡ texts.now) }
{
    let mut copies = Vec::with_capacity(alloc, texts.len())?;
    for text in texts {
        copies.push(text.copy(alloc)?)?;
    }
    Ok(Items::from_vec(copies))
}

fn copy_rows(alloc: Global, rows: &[FileRow]) -> Result<Items<FileRow>, AllocError>
    ensures { IfOk result (λ copies. copies ≡ rows.now) }
{
    let mut copies = Vec::with_capacity(alloc, rows.len())?;
    for row in rows {
        copies.push(row.copy(alloc)?)?;
    }
    Ok(Items::from_vec(copies))
}

fn copy_stated(alloc: Global, schema: &Option<Schema>) -> Result<Option<Schema>, AllocError>
    ensures { IfOk result (λ copy. copy ≡ schema.now) }
{
    match schema {
        Some(schema) => Ok(Some(schema.copy(alloc)?)),
        None => Ok(None),
    }
}

fn copy_change(alloc: Global, change: &Change) -> Result<Change, AllocError>
    ensures { IfOk result (λ copy. copy ≡ change.now) }
{
    Ok(Change {
        schema: copy_stated(alloc, &change.schema)?,
        removed: copy_texts(alloc, change.removed.as_slice())?,
        added: copy_rows(alloc, change.added.as_slice())?,
    })
}

fn copy_commit(alloc: Global, commit: &Commit) -> Result<Commit, AllocError>
    ensures { IfOk result (λ copy. copy ≡ commit.now) }
{
    Ok(Commit {
        position: commit.position.copy(alloc)?,
        change: copy_change(alloc, &commit.change)?,
    })
}

/// Equal commits.
pub(crate) fn copy_commits(alloc: Global, commits: &[Commit]) -> Result<Items<Commit>, AllocError>
    ensures { IfOk result (λ copies. copies ≡ commits.now) }
{
    let mut copies = Vec::with_capacity(alloc, commits.len())?;
    for commit in commits {
        copies.push(copy_commit(alloc, commit)?)?;
    }
    Ok(Items::from_vec(copies))
}
