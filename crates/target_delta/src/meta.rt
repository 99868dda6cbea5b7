//! The metadata that a commit writes.

ghost use Rattle.std.specs.Prelude.{◌≡◌, ◌∷◌, [], IfOk, OnOk, Ok};
ghost use Rattle.std.specs.Fmt.{decimal};
ghost use Rattle.std.specs.Option.{option_copied};
ghost use Rattle.serde_json.specs.Written.{compact_text};
ghost use Rattle.table_history.specs.SchemaSize.{IsWithinLimits};
ghost use Rattle.table_history.specs.Sound.{IsSound};
ghost use Rattle.schema_delta.specs.Delta.{delta_schema_of};
ghost use Rattle.schema_delta.specs.DeltaWriting.{delta_text};
ghost use Rattle.target_core.specs.Mark.{IsMarkText, mark_data};
ghost use Rattle.target_delta.specs.Reading.{mark_setting};

use delta_log::MetaData;
use lake_basics::{Items, Text};
use schema_delta::to_delta;
use std::alloc::{AllocError, Global};
use table_history::{Kind, Schema};
use target_core::{Mark, mark_text};

/// The mark of a version: the position of the source's commit that it carries, and the id of the
/// source's table where that is stated.
pub(crate) fn mark_of(
    alloc: Global,
    version: u64,
    position: &Text,
    source: Kind,
    table: Option<&Text>,
) -> Result<Mark, AllocError>
    ensures { IfOk result (λ mark. mark ≡ record {
      at = decimal version;
      source = source;
      to = position.now;
      table = option_copied table.entry;
    }) }
{
    let table = match table {
        None => None,
        Some(id) => Some(id.copy(alloc)?),
    };
    Ok(Mark {
        at: Text::from_string(version.to_string(alloc)?),
        source,
        to: position.copy(alloc)?,
        table,
    })
}

/// The text of a schema, which is read as it.
fn schema_text(alloc: Global, schema: &Schema) -> Result<Text, AllocError>
    ensures text { IfOk result (λ t. t ≡ delta_text schema.now) }
    ensures spells { OnOk result (IsSound schema.now → IsWithinLimits schema.now
        → delta_schema_of (delta_text schema.now) ≡ Ok schema.now) }
{
    match to_delta(alloc, schema) {
        Ok(text) => Ok(text),
        Err(_) => Err(AllocError),
    }
}

/// The one setting of a commit's metadata, which is the mark.
fn configuration_of(alloc: Global, mark: &Mark) -> Result<Items<(Text, Text)>, AllocError>
    ensures setting { IfOk result
        (λ settings. settings ≡ (mark_setting, compact_text (mark_data mark.now)) ∷ []) }
    ensures reads_back { OnOk result (IsMarkText (compact_text (mark_data mark.now)) mark.now) }
{
    let text = mark_text(alloc, mark)?;
    let mut settings = Items::new(alloc);
    settings.push((Text::from_str(alloc, "lakebridge.mark")?, text))?;
    Ok(settings)
}

/// The metadata of a commit: the table's id, its schema and partition columns, and the mark as its
/// one setting.
pub(crate) fn meta_of(
    alloc: Global,
    id: &Text,
    schema: &Schema,
    partition: &[Text],
    mark: &Mark,
) -> Result<MetaData, AllocError>
    ensures meta { IfOk result (λ meta. meta ≡ record {
      id = id.now;
      schema = delta_text schema.now;
      partition = partition.now;
      configuration = (mark_setting, compact_text (mark_data mark.now)) ∷ [];
    }) }
    ensures reads_back { OnOk result (IsMarkText (compact_text (mark_data mark.now)) mark.now) }
    ensures spells { OnOk result (IsSound schema.now → IsWithinLimits schema.now
        → delta_schema_of (delta_text schema.now) ≡ Ok schema.now) }
{
    Ok(MetaData {
        id: id.copy(alloc)?,
        schema: schema_text(alloc, schema)?,
        partition: texts_copy(alloc, partition)?,
        configuration: configuration_of(alloc, mark)?,
    })
}

/// Copies of the texts.
fn texts_copy(alloc: Global, texts: &[Text]) -> Result<Items<Text>, AllocError>
    ensures { IfOk result (λ copies. copies ≡ texts.now) }
{
    let mut copies = Vec::with_capacity(alloc, texts.len())?;
    for text in texts {
        copies.push(text.copy(alloc)?)?;
    }
    Ok(Items::from_vec(copies))
}
