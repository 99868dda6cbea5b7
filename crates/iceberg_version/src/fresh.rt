//! What is kept before the first commit.

ghost use Rattle.std.specs.Prelude.{◌≡◌, [], IfOk, None};
ghost use Rattle.table_history.specs.Tables.{empty_table};
ghost use Rattle.table_history.specs.TypeTree.{no_columns};
ghost use Rattle.iceberg_version.specs.KeptEnd.{end_of};
ghost use Rattle.iceberg_version.specs.Writing.{no_version as no_metadata};

use crate::kept::IcebergKept;
use file_links::Links;
use iceberg_metadata::Metadata;
use lake_basics::{Items, Text};
use std::alloc::{AllocError, Global};
use table_history::Table;

/// The metadata of a table of this id at this location before its first version.
pub fn no_version(alloc: Global, id: Text, location: Text) -> Metadata
    ensures { result ≡ no_metadata id location }
{
    Metadata {
        uuid: id,
        location,
        last_sequence: 0,
        last_updated: 0,
        last_column_id: 0,
        schemas: Items::new(alloc),
        current_schema: -1,
        specs: Items::new(alloc),
        default_spec: 0,
        last_partition_id: 0,
        properties: Items::new(alloc),
        current_snapshot: None,
        snapshots: Items::new(alloc),
    }
}

/// What is kept before the first commit of a target of these partition columns, which makes a table
/// of this id at this location.
pub fn fresh_kept(
    alloc: Global,
    id: &Text,
    location: &Text,
    partition: &[Text],
) -> Result<IcebergKept, AllocError>
    ensures table { IfOk result (λ kept. kept.table ≡ empty_table partition.now) }
    ensures mark { IfOk result (λ kept. kept.mark ≡ None) }
    ensures links { IfOk result (λ kept. kept.links.owners ≡ []) }
    ensures end { IfOk result (λ kept. end_of kept ≡ record {
      version = 0;
      metadata = no_metadata id.now location.now;
      schema = no_columns;
      partition = partition.now;
      manifests = [];
    }) }
{
    Ok(IcebergKept {
        table: Table::empty(alloc, partition)?,
        mark: None,
        version: 0,
        metadata: no_version(alloc, id.copy(alloc)?, location.copy(alloc)?),
        manifests: Items::new(alloc),
        links: Links::new(alloc),
    })
}
