//! The newest position of a source.

ghost use Rattle.std.specs.Prelude.{◌≡◌, IfOk};
ghost use Rattle.std.specs.Fmt.{signed_decimal};

use lake_basics::Text;
use std::alloc::{AllocError, Global};
use table_history::Kind;

/// The newest position of a source, the first commit that is pending behind it, if one is, and the id
/// of its table, where that is stated.
#[derive(Debug, Drop, PartialEq, Eq)]
pub struct Head {
    pub position: Text,
    pub pending: Option<Text>,
    pub table: Option<Text>,
}

/// The position of a Delta version or of an Iceberg snapshot: its number in decimal, in either format.
pub fn position_of(alloc: Global, _kind: Kind, number: i64) -> Result<Text, AllocError>
    ensures { IfOk result (λ text. text ≡ signed_decimal number) }
{
    Ok(Text::from_string(format!(in alloc; "{number}")?))
}
