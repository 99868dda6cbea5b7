//! Whether the texts of added files stand for values, where there are too many partition columns
//! for the values to be kept.

ghost use Rattle.std.specs.Prelude.{◌≡◌, ℕ, List, Option, Contains, All, OnOk, IfOk, IfErr};
ghost use Rattle.std.specs.Option.{option_copied};
ghost use Rattle.table_history.specs.declared.feature.Feature.TheVariants.{PartitionValue};
ghost use Rattle.partition_map.specs.declared.kind.PartKind.{PartKind};
ghost use Rattle.delta_live.specs.Live.{SpellsNoValue};
ghost use Rattle.delta_live.specs.RowSteps.{Tells, kind_in, kind_of, StandsForSome, StandsForNone, StandsOf, FailsOf, PairStands, PairFails, FileStands, FileFails, HaveValues};
ghost use Rattle.delta_log.specs.Sound.{IsSoundFile, HaveDistinctNames};
ghost use Rattle.delta_log.specs.declared.commit.FileAction.{FileAction};

use crate::rows::{PARTITION_VALUE, str_of};
use delta_log::{DeltaError, FileAction};
use indexmap::IndexMap;
use lake_basics::Text;
use partition_map::{PartError, PartKind, from_delta_text};
use std::alloc::{AllocError, Global};

type KindsByName<'a> = IndexMap<&'a str, PartKind>;

fn kinds_by_name<'a>(
    alloc: Global,
    columns: &'a [(Text, PartKind)],
) -> Result<KindsByName<'a>, AllocError>
    ensures { IfOk result (λ kinds. (name : List ℕ) → kind_in kinds name ≡ kind_of columns.now name) }
{
    let mut kinds = IndexMap::with_capacity(alloc, columns.len())?;
    for column in columns {
        kinds.insert(column.0.as_str(), column.1)?;
    }
    Ok(kinds)
}

fn kind_at(kinds: &KindsByName, name: &str) -> Option<PartKind>
    ensures { result ≡ kind_in kinds.now name.now }
{
    match kinds.get(name) {
        Some(kind) => Some(*kind),
        None => None,
    }
}

fn judged_text(alloc: Global, kind: PartKind, text: Option<&str>) -> Result<(), DeltaError>
    ensures ok { OnOk result (StandsForSome kind (option_copied text.entry)) }
    ensures refused { IfErr result
        (Tells PartitionValue (StandsForNone kind (option_copied text.entry))) }
{
    match from_delta_text(alloc, kind, text) {
        Ok(_) => Ok(()),
        Err(PartError::BadValue) => Err(PARTITION_VALUE),
        Err(PartError::Memory) => Err(DeltaError::Memory),
        Err(_) => unreachable!(),
    }
}

/// Judges a text, where its name is that of a partition column.
fn judged_text_of(
    alloc: Global,
    kind: Option<PartKind>,
    text: Option<&str>,
) -> Result<(), DeltaError>
    ensures ok { OnOk result (StandsOf kind (option_copied text.entry)) }
    ensures refused { IfErr result (Tells PartitionValue (FailsOf kind (option_copied text.entry))) }
{
    match kind {
        None => Ok(()),
        Some(kind) => judged_text(alloc, kind, text),
    }
}

fn judged_pair(
    alloc: Global,
    kinds: &KindsByName,
    pair: &(Text, Option<Text>),
) -> Result<(), DeltaError>
    ensures ok { OnOk result (PairStands (kind_in kinds.now) pair.now) }
    ensures refused { IfErr result (Tells PartitionValue (PairFails (kind_in kinds.now) pair.now)) }
{
    judged_text_of(alloc, kind_at(kinds, pair.0.as_str()), str_of(&pair.1))
}

fn judged_pairs(
    alloc: Global,
    kinds: &KindsByName,
    pairs: &[(Text, Option<Text>)],
) -> Result<(), DeltaError>
    ensures ok { OnOk result (All (PairStands (kind_in kinds.now)) pairs.now) }
    ensures refused { IfErr result (Tells PartitionValue ((pair : List ℕ × Option (List ℕ))
        × Contains pairs.now pair × PairFails (kind_in kinds.now) pair)) }
{
    for pair in pairs {
        judged_pair(alloc, kinds, pair)?;
    }
    Ok(())
}

fn judged_file(alloc: Global, kinds: &KindsByName, file: &FileAction) -> Result<(), DeltaError>
    ensures ok { OnOk result (FileStands (kind_in kinds.now) file.now) }
    ensures refused { IfErr result (Tells PartitionValue (FileFails (kind_in kinds.now) file.now)) }
{
    match file {
        FileAction::Remove { .. } => Ok(()),
        FileAction::Add { values, .. } => judged_pairs(alloc, kinds, values.as_slice()),
    }
}

fn judged_files(alloc: Global, kinds: &KindsByName, files: &[FileAction]) -> Result<(), DeltaError>
    ensures ok { OnOk result (All (FileStands (kind_in kinds.now)) files.now) }
    ensures refused { IfErr result (Tells PartitionValue ((file : FileAction)
        × Contains files.now file × FileFails (kind_in kinds.now) file)) }
{
    for file in files {
        judged_file(alloc, kinds, file)?;
    }
    Ok(())
}

/// Judges the texts of the added files by the kinds of the columns, in time by the texts alone.
pub(crate) fn judged_values(
    alloc: Global,
    columns: &[(Text, PartKind)],
    files: &[FileAction],
) -> Result<(), DeltaError>
    requires sound { All IsSoundFile files.now }
    requires names { HaveDistinctNames columns.now }
    ensures ok { OnOk result (HaveValues columns.now files.now) }
    ensures refused { IfErr result (Tells PartitionValue ((file : FileAction)
        × (column : List ℕ × PartKind) × Contains files.now file
        × Contains columns.now column × SpellsNoValue column file)) }
{
    let kinds = kinds_by_name(alloc, columns)?;
    judged_files(alloc, &kinds, files)
}
