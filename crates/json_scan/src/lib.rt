//! What the text of a JSON object (RFC 8259) says under one name, without building the rest of it.
#![tactic(auto)]

mod counted;
mod number;
mod passing;

pub use counted::stated_count;
