//! Tables in worked examples: tables and changes as lines of a transcript, tables and commits read from lines
//! of a script, what a source or a target tells, in words, and the steps on the folder of a table that each
//! format plays.
#![tactic(auto)]

mod files;
mod folder;
mod lines;
mod log;
mod shown;
mod sources;
mod targets;

pub use files::{empty_store, put_file, put_text, show_text, tell_file};
pub use folder::{NOON_MS, TableFolder, source_of};
pub use lines::texts_of;
pub use log::table_of_lines;
pub use shown::{or_none, show_change, show_line, show_names, show_source_error, show_table};
pub use sources::{tell_head, tell_since, tell_table};
pub use targets::{Origin, tell_publication, tell_seen};
