//! Texts from bytes that are known to be UTF-8.

ghost use Rattle.std.specs.Prelude.{◌≡◌, IfOk};

use lake_basics::Text;
use std::alloc::{AllocError, Global};

/// The text of bytes that are UTF-8.
pub(crate) fn text_of(alloc: Global, bytes: &[u8]) -> Result<Text, AllocError>
    ensures { IfOk result (λ t. t ≡ bytes.now) }
{
    match Text::from_bytes(alloc, bytes) {
        Ok(text) => Ok(text),
        Err(_) => Err(AllocError),
    }
}
