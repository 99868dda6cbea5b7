//! The parts of a new version of an Iceberg table: its schemas, its partition spec, its manifests'
//! entries and its metadata; and what is kept of the table between two commits.
#![tactic(auto)]

mod added;
mod advancing;
mod before;
mod carrying;
mod columns;
mod entries;
mod fresh;
mod infos;
mod json;
mod kept;
mod layout;
mod mark;
mod metadata;
mod names;
mod removed;
mod rewriting;
mod rows;
mod schemas;
mod spec;
mod touched;

pub use added::parts_of;
pub use advancing::advance;
pub use before::{Before, before_of};
pub use carrying::{Next, next_manifests};
pub use fresh::{fresh_kept, no_version};
pub use infos::info_of;
pub use kept::{IcebergKept, KeptManifest};
pub use layout::{Layout, layout_of};
pub use mark::mark_of;
pub use metadata::{hold_properties, hold_snapshot, hold_spec, snapshot_of};
pub use names::{list_path, manifest_path, staged_path};
pub use rewriting::{added_entries, rewritten_entries};
pub use schemas::hold_schema;
pub use spec::spec_fields;
