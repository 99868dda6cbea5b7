//! Bytes as text.
ghost use Rattle.std.specs.Prelude.{◌≡◌, IfOk, string_bytes};
ghost use Rattle.hex.specs.Hex.{encode_lower};

use hex::FromHexError;
use std::alloc::{AllocError, Global};

/// The bytes that hexadecimal digits give, two digits each, with white space anywhere between them, or
/// nothing where there is another character or half a byte.
pub fn bytes_of_hex(alloc: Global, text: &str) -> Result<Option<Vec<u8>>, AllocError> {
    let mut digits = String::new(alloc);
    for word in text.split_whitespace() {
        digits.push_str(word)?;
    }
    match hex::decode(alloc, digits) {
        Ok(bytes) => Ok(Some(bytes)),
        Err(FromHexError::OutOfMemory) => Err(AllocError),
        Err(_) => Ok(None),
    }
}

/// The bytes that hexadecimal digits give, and none where they give none.
pub fn bytes_given(alloc: Global, text: &str) -> Result<Vec<u8>, AllocError> {
    Ok(bytes_of_hex(alloc, text)?.unwrap_or(Vec::new(alloc)))
}

/// The bytes as hexadecimal digits in lower case.
pub fn hex_of(alloc: Global, bytes: &[u8]) -> Result<String, AllocError>
    ensures { IfOk result (λ text. string_bytes text ≡ encode_lower bytes.now) }
{
    hex::encode(alloc, bytes)
}
