//! The refusals of a source and of a target, as statuses of a command.
ghost use Rattle.std.specs.Prelude.{◌≡◌};
ghost use Rattle.target_sync.specs.Applied.{status_of_source, status_of_target};

use crate::status::{Side, Status};
use source_core::SourceError;
use table_history::Kind;
use target_core::TargetError;

/// A refusal of the source.
pub fn status_of_source(error: SourceError) -> Status
    ensures { result ≡ status_of_source error }
{
    match error {
        SourceError::Memory => Status::Memory,
        SourceError::Absent => Status::Absent,
        SourceError::Malformed { path } => Status::Malformed { path },
        SourceError::Unsupported { feature, path } => Status::Unsupported {
            side: Side::Source,
            feature,
            path,
        },
        SourceError::Limit { which, number } => Status::Limit {
            side: Side::Source,
            which,
            number,
        },
        SourceError::StoreFault => Status::StoreFault,
    }
}

/// A refusal of a target of this format.
pub fn status_of_target(kind: Kind, error: TargetError) -> Status
    ensures { result ≡ status_of_target kind error }
{
    match error {
        TargetError::Memory => Status::Memory,
        TargetError::StoreFault => Status::StoreFault,
        TargetError::Contested => Status::Contested { target: kind },
        TargetError::Limit { which, number } => Status::Limit {
            side: Side::Target(kind),
            which,
            number,
        },
        TargetError::Unsupported { feature, path } => Status::Unsupported {
            side: Side::Target(kind),
            feature,
            path,
        },
    }
}
