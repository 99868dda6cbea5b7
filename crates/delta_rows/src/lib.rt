//! The steps of rows of Delta logs.
//!
//! A row begins with an empty store. Its steps on texts are:
//!
//! - `read` shows what the commit below it says, `read bytes` that of hexadecimal digits, and `write` the text of that commit at noon of 2024-01-05;
//! - `cut` shows what the commit below it says, and whether it says the same where it is cut in two at each
//!   place, and where it is read byte by byte, `cut unended` that without the last newline;
//! - `change` shows the change that the commit below it makes as the first of a table, and `follow` the one
//!   that it makes of the table behind those before it, which is empty at first;
//! - `version of NAME` and `name of VERSION` show a version by its file's name, and the name.
//!
//! Those on the store are:
//!
//! - `file PATH` puts the lines below it, `file PATH unended` without the last newline, `file PATH filled
//!   to NUMBER bytes` with so many newlines behind them, and `empty versions FIRST to LAST` a version without
//!   a line at each of these numbers; `show PATH` shows a file, and `stop at call NUMBER` lets all calls of
//!   the store from this one on fail, counted from 0;
//! - `versions` shows which versions are there, and `log VERSION` what the log says up to this one;
//! - `compacted table in NUMBER calls` writes the log compactions, and shows the table that is read with them in
//!   so many calls of the store;
//! - `head`, `table` and `since POSITION` show what the source tells, and `table in NUMBER calls` the table
//!   that it tells in so many calls of the store behind those that find the head; `base` gives the table that
//!   commits are read over, in the lines below it;
//! - `inspect for SOURCE` shows what the target tells, `fits COLUMN ..` whether the commits below it fit a
//!   target that has none yet, and `publish POSITION from SOURCE` publishes what leads to the table below it.
//!
//! Those on log compactions are:
//!
//! - `range of NAME` shows the versions that a name names, and `name of FIRST to LAST` the name;
//! - `commit` takes the lines below it as one commit more, `commit unended` without the last newline;
//! - `join` shows the text of the commits together;
//! - `agrees` tells whether the lines below it agree with the commits.
#![tactic(auto)]

mod commits;
mod joined;
mod logs;
mod names;
mod steps;

pub use steps::DeltaSteps;
