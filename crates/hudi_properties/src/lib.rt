//! The properties of a Hudi table: their text, as java.util.Properties reads and writes it, and what
//! they say of the table.
#![tactic(auto)]

mod escape;
mod line;
mod pair;
mod table;
mod write;

pub use pair::{Pairs, read_properties};
pub use table::{HudiTable, check_properties};
pub use write::properties_text;
