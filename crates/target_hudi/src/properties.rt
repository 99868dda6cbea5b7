//! The properties of a new table.

ghost use Rattle.std.specs.Prelude.{◌≡◌, ◌∷◌, ◌++◌, [], IfOk, codes};
ghost use Rattle.std.specs.List.{join_with_byte};
ghost use Rattle.hudi_properties.specs.Written.{properties_text};
ghost use Rattle.target_hudi.specs.TableName.{IsNewTable, new_pairs, partition_pairs};

use hudi_properties::{Pairs, properties_text};
use lake_basics::{Blob, Items, Text};
use std::alloc::{AllocError, Global};

/// The pairs with one more behind them.
fn with_pair(alloc: Global, pairs: Pairs, key: &str, value: &str) -> Result<Pairs, AllocError>
    ensures { IfOk result (λ more. more ≡ pairs ++ (key.now, value.now) ∷ []) }
{
    let mut more = pairs;
    more.push((Text::from_str(alloc, key)?, Text::from_str(alloc, value)?))?;
    Ok(more)
}

/// The names, parted by commas.
fn joined_names(alloc: Global, first: &Text, others: &[Text]) -> Result<Text, AllocError>
    ensures { IfOk result (λ text. text ≡ join_with_byte 44 (first.now ∷ others.now)) }
{
    let mut joined = String::from_str(alloc, first.as_str())?;
    for name in others {
        joined.push_str(",")?;
        joined.push_str(name.as_str())?;
    }
    Ok(Text::from_string(joined))
}

/// The pairs, and behind them that of the partition columns, where there are some.
fn with_partition(alloc: Global, pairs: Pairs, partition: &[Text]) -> Result<Pairs, AllocError>
    ensures { IfOk result (λ more. more ≡ pairs ++ partition_pairs partition.now) }
{
    let [first, others @ ..] = partition else {
        return Ok(pairs);
    };
    let names = joined_names(alloc, first, others)?;
    with_pair(
        alloc,
        pairs,
        "hoodie.table.partition.fields",
        names.as_str(),
    )
}

/// How folders and records are written, and the table's name.
fn layout_pairs(alloc: Global, name: &Text) -> Result<Pairs, AllocError>
    ensures { IfOk result (λ pairs. pairs
        ≡ (codes "hoodie.datasource.write.hive_style_partitioning", codes "true")
        ∷ (codes "hoodie.datasource.write.partitionpath.urlencode", codes "true")
        ∷ (codes "hoodie.populate.meta.fields", codes "false")
        ∷ (codes "hoodie.table.base.file.format", codes "PARQUET")
        ∷ (codes "hoodie.table.name", name.now)
        ∷ []) }
{
    let pairs = Items::new(alloc);
    let key = "hoodie.datasource.write.hive_style_partitioning";
    let pairs = with_pair(alloc, pairs, key, "true")?;
    let key = "hoodie.datasource.write.partitionpath.urlencode";
    let pairs = with_pair(alloc, pairs, key, "true")?;
    let pairs = with_pair(alloc, pairs, "hoodie.populate.meta.fields", "false")?;
    let pairs = with_pair(alloc, pairs, "hoodie.table.base.file.format", "PARQUET")?;
    with_pair(alloc, pairs, "hoodie.table.name", name.as_str())
}

/// The pairs, and behind them the table's type, the versions, and the mark that it is ours.
fn with_versions(alloc: Global, pairs: Pairs) -> Result<Pairs, AllocError>
    ensures { IfOk result (λ more. more
        ≡ pairs ++ (codes "hoodie.table.type", codes "COPY_ON_WRITE")
        ∷ (codes "hoodie.table.version", codes "6")
        ∷ (codes "hoodie.timeline.layout.version", codes "1")
        ∷ (codes "lakebridge.version", codes "1")
        ∷ []) }
{
    let pairs = with_pair(alloc, pairs, "hoodie.table.type", "COPY_ON_WRITE")?;
    let pairs = with_pair(alloc, pairs, "hoodie.table.version", "6")?;
    let pairs = with_pair(alloc, pairs, "hoodie.timeline.layout.version", "1")?;
    with_pair(alloc, pairs, "lakebridge.version", "1")
}

/// The properties of a new table (Hudi technical specification, "Table Properties").
fn pairs_of(alloc: Global, name: &Text, partition: &[Text]) -> Result<Pairs, AllocError>
    ensures { IfOk result (λ pairs. pairs ≡ new_pairs name.now partition.now) }
{
    let pairs = layout_pairs(alloc, name)?;
    let pairs = with_partition(alloc, pairs, partition)?;
    with_versions(alloc, pairs)
}

/// The text of the properties of a new table. It is read as them, and as a table that is ours.
pub(crate) fn new_properties(
    alloc: Global,
    name: &Text,
    partition: &[Text],
) -> Result<Blob, AllocError>
    ensures text { IfOk result
        (λ bytes. bytes ≡ properties_text (new_pairs name.now partition.now)) }
    ensures read { IfOk result (IsNewTable name.now partition.now) }
{
    let pairs = pairs_of(alloc, name, partition)?;
    match properties_text(alloc, &pairs) {
        Ok(bytes) => Ok(bytes),
        Err(_) => Err(AllocError),
    }
}
