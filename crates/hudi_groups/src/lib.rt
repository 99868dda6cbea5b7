//! The file groups of a Hudi table: how its data files are named, and what an instant makes of the
//! groups that it writes or replaces.
#![tactic(auto)]

mod form;
mod group;
mod grouped_table;
mod groups;
mod index;

pub use form::{Form, file_id_in, suffix_of, without_end};
pub use group::{folder_of, group_of};
pub use grouped_table::GroupedTable;
pub use groups::{Groups, Newest, touched};
