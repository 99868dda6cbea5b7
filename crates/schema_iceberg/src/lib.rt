//! A schema in Iceberg's spelling with its field ids, read and written, and its name mapping (Apache
//! Iceberg specification, "JSON serialization" and "Column Projection").
#![tactic(auto)]

mod mapping;
mod reading;
mod writing;

pub use mapping::name_mapping;
pub use reading::from_iceberg;
pub use writing::iceberg_json;
