//! The steps of rows over a store in memory.
//!
//! A row begins with an empty store. Its steps are:
//!
//! - `file PATH` puts the lines below it, durably; `file PATH unended` puts them without the last newline;
//! - `lines PATH COUNT` puts the lines below it so many times, with a number from 0 on in place of `NUMBER`;
//! - `bytes PATH` puts the bytes whose hexadecimal digits are below it;
//! - `container PATH CODEC COUNT` puts an Avro container of one block of so many objects: below it are the
//!   schema on a line, and the digits of the objects;
//! - `versions FIRST LAST COUNT` puts a Delta version for each of these numbers: the lines below it, and one
//!   with `FILE` so many times, where `FILE`, `VERSION` and `EARLIER` stand for the file's number, the version's,
//!   and the number of versions that the step puts before it;
//! - `cut PATH` takes off a file's last byte, `copy FROM TO` copies a file, and `remove PATH ..` removes files;
//! - `show PATH`, `list FOLDER ..` and `files FOLDER ..` show a text, names, and names and texts;
//! - `has PATH` shows whether the text below it stands in a file;
//! - `remember` and `changes` show whether a file has changed in between;
//! - `manifests PATH` shows the manifests in a list, each with its files that were added, that were there and
//!   that went.
#![tactic(auto)]

mod container;
mod files;
mod steps;
mod versions;

pub use files::{copy_of, no_trouble, text_of};
pub use steps::StoreSteps;
