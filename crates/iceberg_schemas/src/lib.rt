//! The schemas in the metadata of an Iceberg table (Apache Iceberg specification, "Schemas"), read: the
//! columns of each, or why they can't be taken over and what is known of them all the same.
#![tactic(auto)]

mod outline;
mod required;
mod schemas;

pub use required::{
    required_bool, required_int, required_list, required_member, required_text, required_whole,
};
pub use schemas::{
    HeldSchemas, has_limit_of_columns, has_limit_of_depth, has_schema_type, schemas_in,
};
