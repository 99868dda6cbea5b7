//! What the spellings of a schema in Delta, Avro and Iceberg share: why one isn't read or written, decimal
//! types, limits, names, column paths, and the Image of a schema in a format.
#![tactic(auto)]

mod decimal;
mod fault;
mod limits;
mod member;
mod names;
mod paths;
mod shared;

pub use decimal::{decimal_in_range, decimal_of};
pub use fault::{BAD_SCHEMA, DEPTH, Fault, MapError, SCHEMA_TYPE};
pub use limits::{MAX_TYPE_LEVELS, schema_limit};
pub use member::{required_bool, required_int, required_list, required_member, required_text};
pub use names::have_own_names;
pub use paths::{ColumnPath, Ids, column_paths};
pub use shared::{error_in, json_of, name_of, schema_fields, schema_of, struct_json};
