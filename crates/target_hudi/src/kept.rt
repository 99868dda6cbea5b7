//! What is kept of a Hudi target between two commits.

ghost use Rattle.std.specs.Prelude.{◌≡◌, ◌≤◌, ◌+◌, None, true};
ghost use Rattle.std.specs.Option.{ForSome};
ghost use Rattle.lake_basics.specs.declared.limits.TheConstants.{MAX_COMMITS};
ghost use Rattle.table_history.specs.SchemaSize.{column_count};
ghost use Rattle.hudi_names.specs.Time.{IsSomeTime};
ghost use Rattle.target_core.specs.Held.{are_held};
ghost use Rattle.target_hudi.specs.Rank.{time_rank};

use lake_basics::Text;
use table_history::Table;
use target_core::Mark;

/// What is kept of a Hudi target between two commits.
#[derive(Drop)]
pub struct HudiKept {
    pub(crate) table: Table,
    pub(crate) mark: Option<Mark>,
    pub(crate) commits: u64,
    /// The time of the newest completed instant.
    pub(crate) newest: Option<Text>,
    ghost newest_real: { ForSome newest (λ time. ∥ IsSomeTime time ∥₁) },
    ghost rows_held: { are_held table.rows ≡ true },
    // Each commit has a later time than the one before, so that their number ends with the times.
    ghost commits_bounded: { commits ≤ MAX_COMMITS + time_rank newest },
    ghost begun: { newest ≡ None → (commits ≡ 0) × (column_count table.schema ≡ 0) },
}
