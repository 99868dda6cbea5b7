//! How a command ends.
ghost use Rattle.std.specs.Prelude.{◌≡◌};
ghost use Rattle.target_sync.specs.Statuses.{number_of};

use lake_store::Text;
use table_history::{Feature, Kind, LimitKind};

/// Which table a refusal speaks of.
#[derive(Clone, Copy, Debug, PartialEq, Eq)]
pub enum Side {
    Source,
    Target(Kind),
}

/// How a command ends.
#[derive(Debug, Drop)]
pub enum Status {
    /// Each target is at the head.
    Done,
    /// Memory ran out.
    Memory,
    /// The words are no form, or the place is empty or longer than 1,024 bytes.
    Usage,
    /// The source has no commit.
    Absent,
    /// The source's file at the path isn't in its grammar.
    Malformed {
        path: Text,
    },
    /// The file at the path, or the row, shows a feature that isn't served.
    Unsupported {
        side: Side,
        feature: Feature,
        path: Text,
    },
    /// A quantity passes its number.
    Limit {
        side: Side,
        which: LimitKind,
        number: u64,
    },
    /// The file at the path isn't this program's.
    Foreign {
        target: Kind,
        path: Text,
    },
    /// Another writer published first.
    Contested {
        target: Kind,
    },
    /// The store failed.
    StoreFault,
    /// The output failed.
    SinkFault,
    /// The target isn't at the source's head.
    Behind {
        target: Kind,
        at: Option<Text>,
        head: Text,
    },
    /// The target's row of the path isn't the source's.
    Differs {
        target: Kind,
        path: Text,
    },
    /// The log compaction at the path doesn't say what its commits say.
    Stale {
        path: Text,
    },
}

impl Status {
    /// The exit status of the process.
    pub fn number(&self) -> u8
        ensures { result ≡ number_of self.now }
    {
        match self {
            Status::Done => 0,
            Status::Memory => 1,
            Status::Usage => 2,
            Status::Absent => 3,
            Status::Malformed { .. } => 4,
            Status::Unsupported { .. } => 5,
            Status::Limit { .. } => 6,
            Status::Foreign { .. } => 7,
            Status::Contested { .. } => 8,
            Status::StoreFault => 9,
            Status::SinkFault => 10,
            Status::Behind { .. } => 11,
            Status::Differs { .. } => 12,
            Status::Stale { .. } => 14,
        }
    }
}
