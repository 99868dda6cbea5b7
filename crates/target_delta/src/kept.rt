//! What is kept of a Delta target between two commits.

ghost use Rattle.std.specs.Prelude.{◌≡◌, true};
ghost use Rattle.target_core.specs.Held.{are_held};

use lake_basics::Text;
use table_history::Table;
use target_core::Mark;

/// What is kept of a Delta target between two commits.
#[derive(Drop)]
pub struct DeltaKept {
    pub(crate) table: Table,
    pub(crate) mark: Option<Mark>,
    pub(crate) commits: u64,
    /// The id of the table in the newest metadata, or else the one that a first commit gives it.
    pub(crate) id: Text,
    /// Whether the newest protocol lists `timestampNtz` for readers.
    pub(crate) names_ntz: bool,
    ghost rows_held: { are_held table.rows ≡ true },
}
