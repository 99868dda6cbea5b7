//! Why inspecting a Hudi target stops before it is known to be absent or ours.

ghost use Rattle.std.specs.Prelude.{◌≡◌};
ghost use Rattle.target_core.specs.declared.target.TargetError.TheVariants.{Memory};
ghost use Rattle.target_hudi.specs.InspectSteps.{limit_of, stop_at, stop_of};
ghost use Rattle.target_hudi.specs.declared.stop.Stop.TheVariants.{Refused};

use hudi_names::HudiError;
use hudi_table::TimelineError;
use lake_basics::Text;
use std::alloc::AllocError;
use table_history::{Kind, LimitKind};
use target_core::TargetError;

/// Why inspecting stops.
#[derive(Drop)]
pub(crate) enum Stop {
    Refused(TargetError),
    /// The first path at fault.
    Foreign(Text),
}

impl From<AllocError> for Stop {
    ghost from_gives = { λ _ stop. stop ≡ Refused Memory };

    fn from(_: AllocError) -> Stop {
        Stop::Refused(TargetError::Memory)
    }
}

/// A file that is missing or that can't be read or taken is at fault.
impl From<TimelineError> for Stop {
    ghost from_gives = { λ error stop. stop ≡ stop_of error };

    fn from(error: TimelineError) -> Stop {
        match error {
            TimelineError::Memory => Stop::Refused(TargetError::Memory),
            TimelineError::StoreFault => Stop::Refused(TargetError::StoreFault),
            TimelineError::ManyNames => Stop::limit(LimitKind::Names),
            TimelineError::ManyCommits => Stop::limit(LimitKind::Commits),
            TimelineError::Missing { path } => Stop::Foreign(path),
            TimelineError::Large { .. } => Stop::limit(LimitKind::File),
            TimelineError::Refused { path, error } => Stop::at(path, error),
        }
    }
}

impl Stop {
    pub(crate) fn limit(which: LimitKind) -> Stop
        ensures { result ≡ limit_of which }
    {
        Stop::Refused(TargetError::Limit {
            which,
            number: which.number(Kind::Hudi),
        })
    }

    fn at(path: Text, error: HudiError) -> Stop
        ensures { result ≡ stop_at path error }
    {
        match error {
            HudiError::Memory => Stop::Refused(TargetError::Memory),
            HudiError::Limit { which } => Stop::limit(which),
            _ => Stop::Foreign(path),
        }
    }
}
