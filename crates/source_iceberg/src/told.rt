//! How a fault of a table's metadata is told.

ghost use Rattle.std.specs.Prelude.{◌≡◌, ◌≢◌};
ghost use Rattle.table_history.specs.Words.{limit_number};
ghost use Rattle.table_history.specs.declared.kind.Kind.TheVariants.{Iceberg};
ghost use Rattle.iceberg_table.specs.Folder.{version_path};
ghost use Rattle.iceberg_table.specs.declared.error.IcebergError.TheVariants as iceberg;
ghost use Rattle.source_core.specs.Answers.{IsReadRefusal};
ghost use Rattle.source_core.specs.declared.error.SourceError.TheVariants.{Limit, Malformed, Memory, StoreFault};
ghost use Rattle.source_iceberg.specs.Reading.{Tells, TellsFault};

use iceberg_table::{Fault, IcebergError, version_path};
use lake_basics::Text;
use source_core::SourceError;
use std::alloc::Global;
use table_history::{Kind, LimitKind};

pub(crate) fn limit(which: LimitKind) -> SourceError
    ensures { result ≡ Limit which (limit_number Iceberg which) }
{
    SourceError::Limit {
        which,
        number: which.number(Kind::Iceberg),
    }
}

/// What is told of the file at this path, which has this fault.
fn fault_error(path: Text, fault: Fault) -> SourceError
    ensures told { TellsFault path fault result }
    ensures fault { result ≢ StoreFault }
    ensures memory { result ≢ Memory }
{
    match fault {
        Fault::Malformed => SourceError::Malformed { path },
        Fault::Unsupported { feature } => SourceError::Unsupported { feature, path },
        Fault::Limit { which } => limit(which),
    }
}

/// What is told where the newest metadata, of this version, no longer has the head among the current
/// snapshot and its ancestors.
pub(crate) fn lacks_head(alloc: Global, version: u32) -> SourceError
    ensures told { IsReadRefusal (λ e. e ≡ Malformed (version_path version)) result }
    ensures fault { result ≢ StoreFault }
{
    match version_path(alloc, version) {
        Ok(path) => SourceError::Malformed { path },
        Err(_) => SourceError::Memory,
    }
}

/// What is told of a table that is refused.
pub(crate) fn source_error(error: IcebergError) -> SourceError
    ensures told { IsReadRefusal (Tells error) result }
    ensures fault { result ≡ StoreFault → error ≡ iceberg.StoreFault }
    ensures memory { result ≡ Memory → error ≡ iceberg.Memory }
{
    match error {
        IcebergError::Memory => SourceError::Memory,
        IcebergError::StoreFault => SourceError::StoreFault,
        IcebergError::ManyNames => limit(LimitKind::Names),
        IcebergError::Missing { path } => SourceError::Malformed { path },
        IcebergError::Large { .. } => limit(LimitKind::File),
        IcebergError::Refused { path, fault } => fault_error(path, fault),
    }
}
