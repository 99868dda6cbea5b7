//! What the metadata of a table says (Apache Iceberg specification, "Table Metadata Fields").

ghost use Rattle.std.specs.Prelude.{◌≡◌, IfOk};

use lake_basics::{Items, Text};
use schema_map::Ids;
use std::alloc::{AllocError, Global};
use table_history::Schema;

/// A field of a partition spec: its id, the id of the column that it is made of, its name, and the
/// name of its transform.
#[derive(Debug, Drop)]
pub struct SpecField {
    pub field_id: i32,
    pub source_id: i32,
    pub name: Text,
    pub transform: Text,
}

/// A partition spec and its id.
#[derive(Debug, Drop)]
pub struct Spec {
    pub id: i32,
    pub fields: Items<SpecField>,
}

/// A snapshot: its time in milliseconds since 1970, the path of its manifest list as it is written,
/// and the operation that its summary states.
#[derive(Debug, Drop)]
pub struct Snapshot {
    pub id: i64,
    pub parent: Option<i64>,
    pub sequence: i64,
    pub timestamp: i64,
    pub list: Text,
    pub schema_id: Option<i32>,
    pub operation: Option<Text>,
}

/// Snapshots in an order that the call says.
pub type Snapshots = Items<Snapshot>;

/// The metadata of one version of a table. Each schema has its id and its field ids, depth first.
#[derive(Debug, Drop)]
pub struct Metadata {
    pub uuid: Text,
    pub location: Text,
    pub last_sequence: i64,
    pub last_updated: i64,
    pub last_column_id: i32,
    pub schemas: Items<(i32, Schema, Ids)>,
    pub current_schema: i32,
    pub specs: Items<Spec>,
    pub default_spec: i32,
    pub last_partition_id: i32,
    pub properties: Items<(Text, Text)>,
    pub current_snapshot: Option<i64>,
    pub snapshots: Snapshots,
}

impl Snapshot {
    /// An equal snapshot.
    pub fn copy(&self, alloc: Global) -> Result<Snapshot, AllocError>
        ensures { IfOk result (λ s. s ≡ self.now) }
    {
        let list = self.list.copy(alloc)?;
        let operation = copy_if_any(&self.operation, alloc)?;
        Ok(Snapshot {
            id: self.id,
            parent: self.parent,
            sequence: self.sequence,
            timestamp: self.timestamp,
            list,
            schema_id: self.schema_id,
            operation,
        })
    }
}

fn copy_if_any(text: &Option<Text>, alloc: Global) -> Result<Option<Text>, AllocError>
    ensures { IfOk result (λ t. t ≡ text.now) }
{
    match text {
        None => Ok(None),
        Some(text) => Ok(Some(text.copy(alloc)?)),
    }
}
