//! Events.

use lake_basics::{Blob, Items};
use table_history::Kind;

/// What happens to a Delta source and its targets.
#[derive(Debug, Drop)]
pub enum Event {
    /// The source's next version is written, of these bytes.
    Extend { bytes: Blob },
    /// The source's versions below this one are removed.
    Shorten { below: u64 },
    /// The target is brought to the source's head, by the commits since its mark where it can be.
    Sync { target: Kind },
    /// The target is brought to the source's head by one commit with the whole table.
    Full { target: Kind },
    /// From this call on, counted from the next one, the store fails.
    Stop { call: u64 },
    /// The store becomes what a crash leaves by these choices, and works again.
    Crash { choices: Items<u64> },
}
