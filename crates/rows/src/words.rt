//! Words.
use std::alloc::{AllocError, Global};

/// The first of the words, and those behind it.
pub fn first_of(words: &str) -> (&str, &str) {
    match words.split_once(' ') {
        Some(parts) => parts,
        None => (words, ""),
    }
}

/// The numbers, if the words are numbers.
pub fn numbers_of(alloc: Global, words: &str) -> Result<Option<Vec<u64>>, AllocError> {
    let mut numbers = Vec::new(alloc);
    for word in words.split_whitespace() {
        let Ok(number) = word.parse::<u64>() else {
            return Ok(None);
        };
        numbers.push(number)?;
    }
    Ok(Some(numbers))
}
