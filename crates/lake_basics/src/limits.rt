//! The numbers that a table may not pass.

/// The most bytes of one file that is read, or of a text that is written.
pub const MAX_FILE_BYTES: u64 = 268_435_456;

/// The most names in one folder.
pub const MAX_NAMES: u64 = 2_000_000;

/// The most live files after any commit that is read.
pub const MAX_LIVE_FILES: u64 = 200_000;

/// The most commits of one table that a reading has to read.
pub const MAX_COMMITS: u64 = 100_000;

/// The most commits that are published to one target in one go.
pub const MAX_PUBLISHED_COMMITS: u64 = 2_000;

/// The most adds, removes, write stats and replaced ids, or manifest entries, of one reading.
pub const MAX_ACTIONS: u64 = 1_000_000;

/// The most Avro values of one manifest or manifest list.
pub const MAX_AVRO_VALUES: u64 = 16_777_216;

/// The most bytes of a file's path.
pub const MAX_PATH_BYTES: u64 = 512;

/// The most partition columns.
pub const MAX_PARTITION_COLUMNS: u64 = 16;

/// The most columns of a schema at all levels.
pub const MAX_COLUMNS: u64 = 2_000;

/// The most levels of a schema: the schema is level 1, and the parts of a struct, list or map are
/// one level below it.
pub const MAX_SCHEMA_LEVELS: u64 = 32;

/// The greatest Delta version.
pub const MAX_DELTA_VERSION: u64 = 9_223_372_036_854_775_807;

/// The greatest version of Iceberg metadata, and the greatest field id.
pub const MAX_ICEBERG_VERSION: u64 = 2_147_483_647;

/// The greatest year of a Hudi instant.
pub const MAX_HUDI_YEAR: u64 = 9999;

/// The most entries of an Iceberg manifest that is written.
pub const MAX_MANIFEST_ENTRIES: u64 = 20_000;
