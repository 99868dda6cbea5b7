//! The types of an Avro schema.
use lake_basics::Text;

/// A type, with what a schema text says beside it: the logical type, and a decimal's precision and
/// scale (Avro specification, "Logical Types").
#[cycle(schema)]
#[derive(Debug, Drop)]
pub struct Schema {
    pub shape: Shape,
    pub logical: Option<Text>,
    pub precision: Option<u32>,
    pub scale: Option<u32>,
}

/// The primitive and complex types. Names are full names, and the ids are those that Apache Iceberg
/// writes into its schemas.
#[cycle(schema)]
#[derive(Debug, Drop)]
pub enum Shape {
    Null,
    Boolean,
    Int,
    Long,
    Float,
    Double,
    Bytes,
    Text,
    /// So many bytes.
    Fixed {
        name: Text,
        size: u32,
    },
    Enum {
        name: Text,
        symbols: Vec<Text>,
    },
    Array {
        items: Box<Schema>,
        element_id: Option<i32>,
    },
    Map {
        values: Box<Schema>,
        key_id: Option<i32>,
        value_id: Option<i32>,
    },
    Union(Vec<Schema>),
    /// A record.
    Fields {
        name: Text,
        fields: Vec<Field>,
    },
}

/// A field of a record.
#[cycle(schema)]
#[derive(Debug, Drop)]
pub struct Field {
    pub name: Text,
    pub schema: Schema,
    pub field_id: Option<i32>,
}
