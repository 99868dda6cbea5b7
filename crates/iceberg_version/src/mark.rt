//! The mark that a version carries.

ghost use Rattle.std.specs.Prelude.{◌≡◌, IfOk};
ghost use Rattle.std.specs.Option.{option_copied};
ghost use Rattle.iceberg_version.specs.Writing.{mark_of as mark_at};

use lake_basics::Text;
use std::alloc::{AllocError, Global};
use table_history::Kind;
use target_core::Mark;

/// The mark of a version: the position of the source's commit that it carries, and the id of the
/// source's table where that is stated.
pub fn mark_of(
    alloc: Global,
    version: u32,
    position: &Text,
    source: Kind,
    table: Option<&Text>,
) -> Result<Mark, AllocError>
    ensures { IfOk result (λ mark. mark ≡ mark_at version
        (record { source = source; table = option_copied table.entry }) position.now) }
{
    let table = match table {
        None => None,
        Some(id) => Some(id.copy(alloc)?),
    };
    Ok(Mark {
        at: Text::from_string(version.to_string(alloc)?),
        source,
        to: position.copy(alloc)?,
        table,
    })
}
