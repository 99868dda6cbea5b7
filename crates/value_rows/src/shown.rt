//! How bytes are shown.
use rows::hex_of;
use std::alloc::{AllocError, Global};
use std::str::from_utf8;

/// The bytes as text where they are UTF-8, and as hexadecimal digits elsewhere.
pub fn readable(alloc: Global, bytes: &[u8]) -> Result<String, AllocError> {
    match from_utf8(bytes) {
        Ok(text) => String::from_str(alloc, text),
        Err(_) => hex_of(alloc, bytes),
    }
}
