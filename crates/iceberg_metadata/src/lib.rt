//! What the metadata of an Iceberg table is (Apache Iceberg specification, format version 2, "Table
//! Metadata and Snapshots"): its types, the names of its versions, and what the grammar of its text says.
#![tactic(auto)]

mod error;
mod held;
mod ids;
mod kind;
mod location;
mod metadata;
mod name;
mod outline;
mod unread;

pub use error::{MALFORMED, MetadataError};
pub use held::{default_fields, held_schema};
pub use ids::id_set;
pub use kind::kind_of;
pub use location::{after_front, location_front};
pub use metadata::{Metadata, Snapshot, Snapshots, Spec, SpecField};
pub use name::version_of_name;
pub use outline::Outline;
pub use unread::Unread;
