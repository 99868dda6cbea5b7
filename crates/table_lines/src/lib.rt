//! The lines that tell of a table, and where they are put.
#![tactic(auto)]

mod line;
mod put;
mod row;
mod summary;

pub use line::line_of_text;
pub use put::{put_lines, rows_in_order};
pub use row::row_line;
pub use summary::totals;
