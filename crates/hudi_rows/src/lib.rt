//! The steps of rows of Hudi timelines.
//!
//! A row begins with an empty store. Its steps on texts are:
//!
//! - `name NAME`, `time TEXT` and `write time MILLISECONDS` show what a file's name and an instant's time say;
//! - `next at MILLISECONDS` and `next behind TIME at MILLISECONDS` show the instant that is next by the clock;
//! - `group PATH` shows how many bytes of a path are its folder, and how many its file group;
//! - `properties` shows the keys and values of the properties below it, `properties unended` without the last
//!   newline and `properties bytes` of hexadecimal digits; `properties text` shows how they are written, and
//!   `properties table` the table that they say;
//! - `instant` shows what the completed instant below it says.
//!
//! Those on instants, which are said by lines `schema TEXT`, `write [FOLDER,GROUP,PATH,RECORDS]` and
//! `replace [FOLDER,GROUP]`, are:
//!
//! - `columns NAME ..` gives the partition columns, and `external TIME` says that the files of instants are
//!   named by another writer's paths and this time;
//! - `first` shows the change that an instant makes as the first, and `next` the one that it makes behind the
//!   first;
//! - `many files COUNT`, and `many columns COUNT PARTITION`, show whether a first instant of so many files, and
//!   of so many columns, with this many partition columns among them, can be taken.
//!
//! Those on the store are:
//!
//! - `file PATH` puts the lines below it, `file PATH unended` without the last newline; `show PATH` shows a
//!   file;
//! - `timeline` shows the head, the first pending instant and the number of completed ones, `read timeline`
//!   and `read external timeline` the table at the head, `read commit TIME` the change of one commit, and
//!   `table properties` whose a table is;
//! - `head`, `table` and `since POSITION` show what the source tells; `base` gives the table that commits are
//!   read over, in the lines below it;
//! - `inspect for SOURCE` shows what the target tells, `fits COLUMN ..` whether the commits below it fit a
//!   target that has none yet, `fits COUNT times COLUMN ..` whether they do so many times over, and
//!   `publish POSITION from SOURCE` publishes what leads to the table below it;
//! - `stops of TIME before NEXT`, and `stops of TIME behind TIME before NEXT`, publish a commit that stops at
//!   each of its calls in turn and after which the store crashes, and then the next commit, and show each
//!   outcome that came.
#![tactic(auto)]

mod changes;
mod properties;
mod steps;
mod stops;
mod timelines;
mod times;

pub use steps::HudiSteps;
