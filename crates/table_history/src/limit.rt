//! Which number a table passes.

ghost use Rattle.std.specs.Prelude.{◌≡◌};
ghost use Rattle.table_history.specs.Words.{limit_word, limit_number};

use crate::kind::Kind;
use lake_basics::limits::{
    MAX_ACTIONS, MAX_AVRO_VALUES, MAX_COLUMNS, MAX_COMMITS, MAX_DELTA_VERSION, MAX_FILE_BYTES,
    MAX_HUDI_YEAR, MAX_ICEBERG_VERSION, MAX_LIVE_FILES, MAX_NAMES, MAX_PARTITION_COLUMNS,
    MAX_PATH_BYTES, MAX_PUBLISHED_COMMITS, MAX_SCHEMA_LEVELS,
};

/// What is counted where a table passes one of the numbers of `limits`.
#[derive(Clone, Copy, Debug, PartialEq, Eq)]
pub enum LimitKind {
    /// Bytes of one file that is read, or of a text that is written.
    File,
    /// Names in one folder.
    Names,
    /// Live files after any commit.
    LiveFiles,
    /// Commits of one table that a reading has to read.
    Commits,
    /// Commits to be published to one target.
    Publish,
    /// Adds, removes, write stats and replaced ids, or entries of manifests, each manifest once: of
    /// all commits after a position together, and in any other reading of one commit or snapshot.
    Actions,
    /// Avro values of one manifest or manifest list.
    Values,
    /// Bytes of a file's path.
    Path,
    /// Partition columns.
    PartitionColumns,
    /// Columns of a schema at all levels: the top-level ones and the fields of structs.
    Columns,
    /// Levels of a schema, which is itself the first, above those of its columns' types.
    Depth,
    /// A Delta version, an Iceberg metadata version or field id, or the year of a Hudi instant.
    Versions,
}

impl LimitKind {
    /// The name that is printed.
    pub fn word(self) -> &'static str
        ensures { result.now ≡ limit_word self }
    {
        match self {
            LimitKind::File => "File",
            LimitKind::Names => "Names",
            LimitKind::LiveFiles => "LiveFiles",
            LimitKind::Commits => "Commits",
            LimitKind::Publish => "Publish",
            LimitKind::Actions => "Actions",
            LimitKind::Values => "Values",
            LimitKind::Path => "Path",
            LimitKind::PartitionColumns => "PartitionColumns",
            LimitKind::Columns => "Columns",
            LimitKind::Depth => "Depth",
            LimitKind::Versions => "Versions",
        }
    }

    /// The number that is printed, in a table of this format.
    pub fn number(self, format: Kind) -> u64
        ensures { result ≡ limit_number format self }
    {
        match self {
            LimitKind::File => MAX_FILE_BYTES,
            LimitKind::Names => MAX_NAMES,
            LimitKind::LiveFiles => MAX_LIVE_FILES,
            LimitKind::Commits => MAX_COMMITS,
            LimitKind::Publish => MAX_PUBLISHED_COMMITS,
            LimitKind::Actions => MAX_ACTIONS,
            LimitKind::Values => MAX_AVRO_VALUES,
            LimitKind::Path => MAX_PATH_BYTES,
            LimitKind::PartitionColumns => MAX_PARTITION_COLUMNS,
            LimitKind::Columns => MAX_COLUMNS,
            LimitKind::Depth => MAX_SCHEMA_LEVELS,
            LimitKind::Versions => match format {
                Kind::Delta => MAX_DELTA_VERSION,
                Kind::Iceberg => MAX_ICEBERG_VERSION,
                Kind::Hudi => MAX_HUDI_YEAR,
            },
        }
    }
}
