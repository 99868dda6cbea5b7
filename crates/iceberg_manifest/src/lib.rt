//! What Iceberg's manifests and manifest lists are (Apache Iceberg table specification, "Manifests" and
//! "Manifest Lists"): their types, and what their Avro values say.
#![tactic(auto)]

mod data_file;
mod entry;
mod error;
mod field;
mod info;
mod list;
mod partition;
mod plan;

pub use data_file::{DataFile, EntryRecord};
pub use entry::{Entries, Entry};
pub use error::{EntryFault, FLAW, Fault, Flaw, ManifestError};
pub use field::{FieldKind, Reading};
pub use info::{Infos, ManifestInfo};
pub use list::{CountPlaces, Counts, ListPlan, RowNumbers};
pub use partition::{ColumnPlace, PartColumn};
pub use plan::{EntryPlan, FilePlan};
