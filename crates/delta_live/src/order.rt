//! A change put in order.

ghost use Rattle.std.specs.Prelude.{◌↔◌, ℕ, List, Contains, IfOk};
ghost use Rattle.std.specs.List.{IsDistinct};
ghost use Rattle.std.specs.Str.{bytes_eq};
ghost use Rattle.table_history.specs.Rows.{HasDistinctPaths, IsInByteOrder};
ghost use Rattle.delta_live.specs.Differences.{IsInOrderOf};

use lake_basics::{Items, Text};
use std::alloc::AllocError;
use table_history::{Change, sorted_rows};

/// The texts in byte order.
fn sorted_texts(texts: Vec<Text>) -> Result<Vec<Text>, AllocError>
    requires { IsDistinct bytes_eq texts.items }
    ensures texts { IfOk result (λ sorted. (text : List ℕ)
        → Contains sorted.items text ↔ Contains texts.items text) }
    ensures order { IfOk result (λ sorted. IsInByteOrder sorted.items) }
{
    let mut sorted = texts;
    sorted.sort_by(|a, b| a.cmp(b))?;
    Ok(sorted)
}

/// The same change, its removed paths and its added rows in byte order of paths.
pub fn in_order(change: Change) -> Result<Change, AllocError>
    requires removed { IsDistinct bytes_eq change.removed }
    requires added { HasDistinctPaths change.added }
    ensures { IfOk result (IsInOrderOf change) }
{
    let Change {
        schema,
        removed,
        added,
    } = change;
    Ok(Change {
        schema,
        removed: Items::from_vec(sorted_texts(removed.into_vec())?),
        added: Items::from_vec(sorted_rows(added.into_vec())?),
    })
}
