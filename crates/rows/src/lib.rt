//! Scripts of worked examples: rows of steps in plain text, which a program plays and whose transcript it prints.
//!
//! A line `# HEADING` begins a row, which starts from nothing. Every other line is the words of a step, and
//! the lines below it that begin with `| ` are the step's lines. `text NAME` is a step that gives a name to
//! its lines, for this script: a line `@NAME` of a later step stands for them. Empty lines and those that
//! begin with `-- ` say nothing.
#![tactic(auto)]

mod files;
mod hexadecimal;
mod playing;
mod script;
mod shown;
mod words;

pub use files::play_files;
pub use hexadecimal::{bytes_given, bytes_of_hex, hex_of};
pub use playing::{Steps, play};
pub use script::{Step, unended};
pub use shown::{show_answer, show_error, show_no_step, show_refused};
pub use words::{first_of, numbers_of};
