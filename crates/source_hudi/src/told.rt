//! How a fault of a timeline is told.

ghost use Rattle.std.specs.Prelude.{◌≡◌, ◌≢◌, ◌⊎◌, List, ℕ, codes};
ghost use Rattle.table_history.specs.Words.{limit_number};
ghost use Rattle.table_history.specs.declared.feature.Feature.TheVariants.{PartitionChange};
ghost use Rattle.table_history.specs.declared.kind.Kind.TheVariants.{Hudi};
ghost use Rattle.hudi_names.specs.declared.error.HudiError.TheVariants as hudi;
ghost use Rattle.hudi_table.specs.Instants.{path_of};
ghost use Rattle.hudi_table.specs.declared.error.TimelineError.TheVariants as timeline;
ghost use Rattle.source_core.specs.Answers.{IsReadRefusal};
ghost use Rattle.source_core.specs.declared.error.SourceError.TheVariants.{Limit, Memory, StoreFault, Unsupported};
ghost use Rattle.source_hudi.specs.Reading.{IsOfMemory, Tells, TellsFile};

use hudi_names::HudiError;
use hudi_table::{TimelineError, timeline_path};
use lake_basics::Text;
use source_core::SourceError;
use std::alloc::Global;
use table_history::{Feature, Kind, LimitKind};

/// A number is passed.
pub(crate) fn limit(which: LimitKind) -> SourceError
    ensures { result ≡ Limit which (limit_number Hudi which) }
{
    SourceError::Limit {
        which,
        number: which.number(Kind::Hudi),
    }
}

/// What is told of the file at this path where what it says is refused.
fn file_error(path: Text, error: HudiError) -> SourceError
    ensures told { IsReadRefusal (TellsFile path error) result }
    ensures fault { result ≢ StoreFault }
    ensures memory { result ≡ Memory → error ≡ hudi.Memory }
{
    match error {
        HudiError::Memory => SourceError::Memory,
        HudiError::Malformed { .. } => SourceError::Malformed { path },
        HudiError::Unsupported { feature } => SourceError::Unsupported { feature, path },
        HudiError::Limit { which } => limit(which),
    }
}

/// What is told of a timeline that is refused.
pub(crate) fn source_error(error: TimelineError) -> SourceError
    ensures told { IsReadRefusal (Tells error) result }
    ensures fault { result ≡ StoreFault → error ≡ timeline.StoreFault }
    ensures memory { result ≡ Memory → IsOfMemory error }
{
    match error {
        TimelineError::Memory => SourceError::Memory,
        TimelineError::StoreFault => SourceError::StoreFault,
        TimelineError::ManyNames => limit(LimitKind::Names),
        TimelineError::ManyCommits => limit(LimitKind::Commits),
        TimelineError::Missing { path } => SourceError::Malformed { path },
        TimelineError::Large { .. } => limit(LimitKind::File),
        TimelineError::Refused { path, error } => file_error(path, error),
    }
}

/// What is told where the properties name other partition columns than the table that is gone on
/// from.
pub(crate) fn partition_change(alloc: Global) -> SourceError
    ensures told { (result ≡ Memory)
        ⊎ (result ≡ Unsupported PartitionChange (path_of (codes "hoodie.properties"))) }
    ensures fault { result ≢ StoreFault }
{
    match timeline_path(alloc, "hoodie.properties") {
        Ok(path) => SourceError::Unsupported {
            feature: Feature::PartitionChange,
            path,
        },
        Err(_) => SourceError::Memory,
    }
}
