//! The commits of a source after a position.

use lake_basics::Items;
use table_history::Commit;

/// The commits of a source after a position.
#[derive(Drop)]
pub enum Since {
    /// All of them up to the head, the oldest first.
    Commits(Items<Commit>),
    /// One of them is no longer there, or the position isn't one of the source's.
    NotReached,
}
