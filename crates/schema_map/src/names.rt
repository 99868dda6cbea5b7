//! Columns that have names of their own.

ghost use Rattle.std.specs.Prelude.{◌≡◌, IfOk};
ghost use Rattle.table_history.specs.SchemaView.{columns_view};
ghost use Rattle.table_history.specs.Sound.{have_own_names};

use std::alloc::{AllocError, Global};
use std::collections::BTreeSet;
use table_history::Column;

/// Whether no two of these columns have one name.
pub fn have_own_names(alloc: Global, columns: &[Column]) -> Result<bool, AllocError>
    ensures { IfOk result (λ own. own ≡ have_own_names (columns_view columns.now)) }
{
    let mut seen = BTreeSet::new(alloc);
    let mut place = columns.len();
    while place > 0 {
        place -= 1;
        let column = &columns[place];
        if !seen.insert(column.name.as_str())? {
            return Ok(false);
        }
    }
    Ok(true)
}
