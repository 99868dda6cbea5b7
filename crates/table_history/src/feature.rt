//! What a table may show that isn't supported.

ghost use Rattle.std.specs.Prelude.{◌≡◌};
ghost use Rattle.table_history.specs.Words.{feature_word};

/// A feature of a table that isn't supported.
#[derive(Clone, Copy, Debug, PartialEq, Eq)]
pub enum Feature {
    /// A Delta log without each version from 0 to its newest, where it has to be read from scratch.
    NeedsCheckpoint,
    /// A Hudi timeline with archived instants, where it has to be read from scratch.
    NeedsArchive,
    /// A Delta reader version other than 1, 2 and 3.
    ReaderVersion,
    /// A Delta reader feature that this profile doesn't know.
    ReaderFeature,
    /// Delta column mapping.
    ColumnMapping,
    /// A Delta deletion vector.
    DeletionVector,
    /// A file outside the table's folder.
    OutsideTable,
    /// A Delta add without a record count.
    NoRecordCount,
    /// Data files that aren't Parquet.
    FileFormat,
    /// A type that a source has and tables here haven't, or that the target's schemas can't spell.
    SchemaType,
    /// A column name that isn't an Avro name.
    AvroName,
    /// A partition column that isn't a top-level column, is named twice, or has another type than
    /// boolean, whole number, text and date.
    PartitionType,
    /// Other partition columns than before, or another kind of one.
    PartitionChange,
    /// A text that stands for no value of its partition column.
    PartitionValue,
    /// A folder that doesn't carry its files' partition values.
    PartitionPath,
    /// A partition value that Delta has no text for.
    ValueForm,
    /// An Avro container with another codec than `null`.
    AvroCodec,
    /// Compressed Iceberg metadata.
    CompressedMetadata,
    /// Iceberg metadata named by a catalog.
    CatalogNames,
    /// An Iceberg format version other than 2.
    FormatVersion,
    /// An Iceberg partition transform other than identity.
    Transform,
    /// A manifest of another partition spec than the default.
    PartitionSpecs,
    /// A renamed or reused Iceberg column.
    Renamed,
    /// An Iceberg snapshot without a schema id.
    NoSchemaId,
    /// Iceberg row-level deletes.
    RowDeletes,
    /// One file live twice in an Iceberg snapshot.
    SharedFile,
    /// A change of a column's type that Iceberg doesn't allow.
    TypeChange,
    /// A Hudi table that isn't copy-on-write.
    HudiType,
    /// A Hudi table version other than 5 and 6.
    HudiVersion,
    /// A time-based or custom Hudi key generator.
    KeyGenerator,
    /// A Hudi delta commit or compaction.
    MergeOnRead,
    /// A Hudi restore.
    Restore,
    /// A Hudi action that this profile doesn't know.
    UnknownAction,
    /// A Hudi write stat whose path isn't that of its file id.
    FileId,
    /// An external file of a Hudi source.
    ExternalFile,
    /// A Hudi timeline that states no schema at first.
    NoSchema,
    /// A Delta line that a log compaction can't keep.
    CompactAction,
}

impl Feature {
    /// The name that is printed.
    pub fn word(self) -> &'static str
        ensures { result.now ≡ feature_word self }
    {
        match self {
            Feature::NeedsCheckpoint => "NeedsCheckpoint",
            Feature::NeedsArchive => "NeedsArchive",
            Feature::ReaderVersion => "ReaderVersion",
            Feature::ReaderFeature => "ReaderFeature",
            Feature::ColumnMapping => "ColumnMapping",
            Feature::DeletionVector => "DeletionVector",
            Feature::OutsideTable => "OutsideTable",
            Feature::NoRecordCount => "NoRecordCount",
            Feature::FileFormat => "FileFormat",
            Feature::SchemaType => "SchemaType",
            Feature::AvroName => "AvroName",
            Feature::PartitionType => "PartitionType",
            Feature::PartitionChange => "PartitionChange",
            Feature::PartitionValue => "PartitionValue",
            Feature::PartitionPath => "PartitionPath",
            Feature::ValueForm => "ValueForm",
            Feature::AvroCodec => "AvroCodec",
            Feature::CompressedMetadata => "CompressedMetadata",
            Feature::CatalogNames => "CatalogNames",
            Feature::FormatVersion => "FormatVersion",
            Feature::Transform => "Transform",
            Feature::PartitionSpecs => "PartitionSpecs",
            Feature::Renamed => "Renamed",
            Feature::NoSchemaId => "NoSchemaId",
            Feature::RowDeletes => "RowDeletes",
            Feature::SharedFile => "SharedFile",
            Feature::TypeChange => "TypeChange",
            Feature::HudiType => "HudiType",
            Feature::HudiVersion => "HudiVersion",
            Feature::KeyGenerator => "KeyGenerator",
            Feature::MergeOnRead => "MergeOnRead",
            Feature::Restore => "Restore",
            Feature::UnknownAction => "UnknownAction",
            Feature::FileId => "FileId",
            Feature::ExternalFile => "ExternalFile",
            Feature::NoSchema => "NoSchema",
            Feature::CompactAction => "CompactAction",
        }
    }
}
