//! Why a text or a value has no counterpart.
ghost use Rattle.std.specs.Prelude.{◌≡◌};

use std::alloc::AllocError;

/// Why a text or a value has no counterpart.
#[derive(Clone, Copy, Debug, PartialEq, Eq, thiserror::Error)]
pub enum PartError {
    /// Memory ran out.
    #[error("out of memory")]
    Memory,
    /// The spelling stands for no value of the kind.
    #[error("the spelling stands for no value of the kind")]
    BadValue,
    /// The value has no text in a Delta commit.
    #[error("the value has no text in a Delta commit")]
    ValueForm,
    /// The URI leads out of the table's folder.
    #[error("the URI leads out of the table's folder")]
    OutsideTable,
    /// The URI names no path.
    #[error("the URI names no path")]
    BadPath,
    /// The path has more than 512 bytes, and is a path otherwise.
    #[error("the path has more than 512 bytes")]
    TooLong,
}

impl From<AllocError> for PartError {
    ghost use Rattle.partition_map.specs.declared.error.PartError.TheVariants.{Memory};

    ghost from_gives = { λ _ e. e ≡ Memory };

    fn from(_error: AllocError) -> PartError {
        PartError::Memory
    }
}
