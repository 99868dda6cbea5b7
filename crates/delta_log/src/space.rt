//! The working space that reading a line takes.

use json::Scratch;
use std::alloc::{AllocError, Global};

/// Room for the texts of a line, and for those of a file's statistics, which are read while the line
/// is looked into. It grows, and serves line after line.
#[derive(Drop)]
pub(crate) struct LineSpace {
    pub line: Scratch<Global>,
    pub stats: Scratch<Global>,
}

impl LineSpace {
    /// Room for no text yet.
    #[inline(never)]
    pub fn boxed(alloc: Global) -> Result<Box<LineSpace>, AllocError> {
        let space = LineSpace {
            line: Scratch::new(alloc),
            stats: Scratch::new(alloc),
        };
        Ok(Box::new(alloc, space)?)
    }
}
