//! Lake tables: their schemas, their live files, and the changes that commits make of them. Also the
//! names of formats, features and limits, and the form of a path.
#![tactic(auto)]

mod by_path;
mod feature;
mod kind;
mod limit;
mod path;
mod row;
mod rows;
mod schema;
mod sorting;
mod table;

pub use feature::Feature;
pub use json_reading::{list_of, object_of, text_of, whole_of};
pub use kind::Kind;
pub use lake_basics::limits;
pub use limit::LimitKind;
pub use path::{path_form, path_form_of_any_length};
pub use row::{FileRow, PartValue, Values};
pub use rows::FileRows;
pub use schema::{Column, ColumnType, Schema};
pub use sorting::{rows_in_order, sorted_rows};
pub use table::{Change, Commit, Table};
