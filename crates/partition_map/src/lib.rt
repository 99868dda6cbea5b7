//! Partition values as Delta commits, hive folders and Avro spell them, and paths of files as parts of
//! folders and relative URIs.
#![tactic(auto)]

mod avro;
mod columns;
mod date;
mod delta;
mod error;
mod folder;
mod kind;
mod number;
mod texts;
mod uri;

pub use avro::{from_avro_value, to_avro_value};
pub use columns::{are_distinct, column_kinds, has_other_kind};
pub use delta::to_delta_text;
pub use error::PartError;
pub use folder::{FolderStyle, last_components, path_carries, unescape, value_part};
pub use kind::{PartKind, part_kind};
pub use texts::{from_delta_text, from_hive};
pub use uri::{decode_uri_path, encode_uri_path};
