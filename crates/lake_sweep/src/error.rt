//! Why a target isn't swept.

ghost use Rattle.std.specs.Prelude.{◌≡◌};
ghost use Rattle.lake_sweep.specs.Told.{of_inspect, of_store, told_fault, told_of};
ghost use Rattle.lake_sweep.specs.declared.error.SweepError.TheVariants.{Memory};

use iceberg_table::{Fault, IcebergError};
use lake_basics::Text;
use lake_basics::limits::{MAX_FILE_BYTES, MAX_NAMES};
use lake_store::StoreError;
use std::alloc::{AllocError, AllocFailed};
use table_history::{Kind, LimitKind};
use target_core::TargetError;

/// Why a target isn't swept. `Foreign` and `Limit` come before anything is removed.
#[derive(Debug, Drop, thiserror::Error)]
pub enum SweepError {
    #[error("out of memory")]
    Memory,
    /// The target isn't this program's, or a file that it reaches can't be read. The path is that of
    /// the first file at fault.
    #[error("the target is another writer's")]
    Foreign { path: Text },
    /// A number would be passed.
    #[error("more {which:?} than {number}")]
    Limit { which: LimitKind, number: u64 },
    /// The store failed, and counted it.
    #[error("the store failed")]
    StoreFault,
}

impl From<AllocError> for SweepError {
    ghost from_gives = { λ _ e. e ≡ Memory };

    fn from(_error: AllocError) -> SweepError {
        SweepError::Memory
    }
}

impl<T: Drop> From<AllocFailed<T>> for SweepError {
    ghost from_gives = { λ _ e. e ≡ Memory };

    fn from(_error: AllocFailed<T>) -> SweepError {
        SweepError::Memory
    }
}

impl From<StoreError> for SweepError {
    ghost from_gives = { λ error e. e ≡ of_store error };

    fn from(error: StoreError) -> SweepError {
        match error {
            StoreError::Memory | StoreError::Taken => SweepError::Memory,
            StoreError::Failed => SweepError::StoreFault,
            StoreError::TooLong { .. } => SweepError::Limit {
                which: LimitKind::Names,
                number: MAX_NAMES,
            },
        }
    }
}

impl From<TargetError> for SweepError {
    ghost from_gives = { λ error e. e ≡ of_inspect error };

    fn from(error: TargetError) -> SweepError {
        match error {
            TargetError::StoreFault => SweepError::StoreFault,
            TargetError::Limit { which, number } => SweepError::Limit { which, number },
            TargetError::Memory | TargetError::Contested | TargetError::Unsupported { .. } => {
                SweepError::Memory
            }
        }
    }
}

impl From<IcebergError> for SweepError {
    ghost from_gives = { λ error e. e ≡ told_of error };

    fn from(error: IcebergError) -> SweepError {
        match error {
            IcebergError::Memory => SweepError::Memory,
            IcebergError::StoreFault => SweepError::StoreFault,
            IcebergError::ManyNames => SweepError::Limit {
                which: LimitKind::Names,
                number: MAX_NAMES,
            },
            IcebergError::Missing { path } => SweepError::Foreign { path },
            IcebergError::Large { .. } => SweepError::Limit {
                which: LimitKind::File,
                number: MAX_FILE_BYTES,
            },
            IcebergError::Refused { path, fault } => told_fault(path, fault),
        }
    }
}

/// What is told of a file with this fault.
fn told_fault(path: Text, fault: Fault) -> SweepError
    ensures { result ≡ told_fault path fault }
{
    match fault {
        Fault::Malformed | Fault::Unsupported { .. } => SweepError::Foreign { path },
        Fault::Limit { which } => SweepError::Limit {
            which,
            number: which.number(Kind::Iceberg),
        },
    }
}
