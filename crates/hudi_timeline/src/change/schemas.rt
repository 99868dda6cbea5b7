//! The schema that holds after an instant, and the kinds of the partition columns in it.

ghost use Rattle.std.specs.Prelude.{◌≡◌, ◌↔◌, Ok, None, Some, false, IfOk, IfErr, IsTrue, MatchOption, Contains, map};
ghost use Rattle.std.specs.List.{IsDistinct};
ghost use Rattle.std.specs.Option.{option_copied};
ghost use Rattle.std.specs.Str.{bytes_eq};
ghost use Rattle.table_history.specs.Sound.{IsSound};
ghost use Rattle.table_history.specs.TypeTree.{ColumnTrees};
ghost use Rattle.table_history.specs.declared.feature.Feature.TheVariants.{NoSchema};
ghost use Rattle.table_history.specs.declared.table.Table.{Table};
ghost use Rattle.partition_map.specs.Columns.{HasOtherKind};
ghost use Rattle.hudi_timeline.specs.Schemas.{stated_schema, spelled_schema, schema_after, AreKindsOf};
ghost use Rattle.hudi_timeline.specs.Steps.{IsTextRefusal, IsKindFault};
ghost use Rattle.hudi_files.specs.FileFaults.{OnlyFeature};

use hudi_groups::GroupedTable;
use hudi_names::{HudiError, MALFORMED};
use lake_basics::Text;
use partition_map::{PartKind, are_distinct, column_kinds, has_other_kind};
use schema_avro::read_avro;
use schema_map::MapError;
use std::alloc::{AllocError, Global};
use table_history::{Feature, Schema};

const NO_SCHEMA: HudiError = HudiError::Unsupported {
    feature: Feature::NoSchema,
};

const SCHEMA_TYPE: HudiError = HudiError::Unsupported {
    feature: Feature::SchemaType,
};

const PARTITION_TYPE: HudiError = HudiError::Unsupported {
    feature: Feature::PartitionType,
};

const PARTITION_CHANGE: HudiError = HudiError::Unsupported {
    feature: Feature::PartitionChange,
};

// ---- the schema

/// The schema that the text of an instant states. An absent or empty text states none.
pub(super) fn stated_schema(alloc: Global, text: &Option<Text>) -> Result<Option<Schema>, HudiError>
    ensures ok { IfOk result (λ stated. stated_schema text.now ≡ Ok stated) }
    ensures sound { IfOk result (λ stated. (s : ColumnTrees) → stated ≡ Some s → IsSound s) }
    ensures refused { IfErr result (IsTextRefusal (stated_schema text.now)) }
{
    let Some(text) = text else {
        return Ok(None);
    };
    if text.as_bytes().is_empty() {
        return Ok(None);
    }
    Ok(Some(read_schema(alloc, text.as_bytes())?))
}

fn read_schema(alloc: Global, text: &[u8]) -> Result<Schema, HudiError>
    ensures ok { IfOk result (λ schema. spelled_schema text.now ≡ Ok (Some schema)) }
    ensures sound { IfOk result IsSound }
    ensures refused { IfErr result (IsTextRefusal (spelled_schema text.now)) }
{
    match read_avro(alloc, text) {
        Ok(schema) => Ok(schema),
        Err(MapError::BadSchema) => Err(MALFORMED),
        Err(MapError::SchemaType { .. }) => Err(SCHEMA_TYPE),
        Err(MapError::Memory) => Err(HudiError::Memory),
        Err(MapError::AvroName { .. } | MapError::Limit { .. }) => unreachable!(),
    }
}

/// The stated schema, or else that of the table before. The first instant has to state one.
pub(super) fn schema_after<'a>(
    stated: &'a Option<Schema>,
    base: Option<&'a GroupedTable>,
) -> Result<&'a Schema, HudiError>
    ensures found { IfOk result (λ schema.
        schema_after (Ok stated.now) (option_copied base.entry) ≡ Some schema.now) }
    ensures refused { IfErr result (λ e. (e ≡ HudiError.Unsupported NoSchema)
        × (schema_after (Ok stated.now) (option_copied base.entry) ≡ None)) }
{
    match stated {
        Some(schema) => Ok(schema),
        None => match base {
            Some(before) => Ok(&before.table().schema),
            None => Err(NO_SCHEMA),
        },
    }
}

// ---- partition columns

/// The kinds of the partition columns, in their order. A column may have no other kind than in the
/// table before.
pub(super) fn partition_kinds(
    alloc: Global,
    schema: &Schema,
    names: &[Text],
    base: Option<&GroupedTable>,
) -> Result<Vec<PartKind>, HudiError>
    ensures distinct { IfOk result (λ _. IsDistinct bytes_eq names.now) }
    ensures kinds { IfOk result (λ kinds. AreKindsOf schema.now names.now kinds.items) }
    ensures kept { IfOk result (λ _. (before : Table) → option_copied base.entry ≡ Some before
        → ¬ HasOtherKind before.schema schema.now names.now) }
    ensures refused { IfErr result
        (OnlyFeature (IsKindFault schema.now names.now (option_copied base.entry))) }
{
    if !are_distinct(alloc, names)? {
        return Err(PARTITION_TYPE);
    }
    let found = column_kinds(alloc, schema, names)?;
    let Some(kinds) = known_kinds(alloc, found.as_slice())? else {
        return Err(PARTITION_TYPE);
    };
    if changes_kind(alloc, base, schema, names)? {
        return Err(PARTITION_CHANGE);
    }
    Ok(kinds)
}

/// The kinds, where each is known.
fn known_kinds(
    alloc: Global,
    found: &[Option<PartKind>],
) -> Result<Option<Vec<PartKind>>, AllocError>
    ensures { IfOk result (λ known. MatchOption known (Contains found.now None)
        (λ kinds. found.now ≡ map Some kinds.items)) }
{
    let mut kinds = Vec::with_capacity(alloc, found.len())?;
    for kind in found {
        match *kind {
            None => return Ok(None),
            Some(kind) => kinds.push(kind)?,
        }
    }
    Ok(Some(kinds))
}

/// Whether one of the columns has another kind than in the table before.
fn changes_kind(
    alloc: Global,
    base: Option<&GroupedTable>,
    schema: &Schema,
    names: &[Text],
) -> Result<bool, AllocError>
    ensures { IfOk result (λ changes. MatchOption (option_copied base.entry) (changes ≡ false)
        (λ before. IsTrue changes ↔ HasOtherKind before.schema schema.now names.now)) }
{
    match base {
        None => Ok(false),
        Some(before) => has_other_kind(alloc, &before.table().schema, schema, names),
    }
}
