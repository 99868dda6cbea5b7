//! The rows that a commit adds.

ghost use Rattle.std.specs.Prelude.{◌≡◌, ◌++◌, ℕ, List, Contains, All, IfOk, IfErr, option_to_list};
ghost use Rattle.std.specs.Option.{option_copied};
ghost use Rattle.table_history.specs.declared.row.PartValue.{PartValue};
ghost use Rattle.table_history.specs.declared.feature.Feature.TheVariants.{PartitionValue};
ghost use Rattle.partition_map.specs.Stands.{DeltaStands};
ghost use Rattle.partition_map.specs.declared.kind.PartKind.{PartKind};
ghost use Rattle.delta_live.specs.Live.{text_of, AreValues, SpellsNoValue};
ghost use Rattle.delta_log.specs.Sound.{IsSoundFile};
ghost use Rattle.delta_live.specs.RowSteps.{Tells, IsRowOf, AreRowsOf};
ghost use Rattle.delta_log.specs.declared.commit.FileAction.{FileAction};

use delta_log::{DeltaError, FileAction};
use lake_basics::{Items, Text};
use partition_map::{PartError, PartKind, from_delta_text};
use std::alloc::{AllocError, Global};
use table_history::{Feature, FileRow, PartValue, Values};

pub(crate) const PARTITION_VALUE: DeltaError = DeltaError::Unsupported {
    feature: Feature::PartitionValue,
    line: 0,
};

/// The text of the first pair of this name.
fn text_of<'a>(texts: &'a [(Text, Option<Text>)], name: &str) -> Option<&'a str>
    ensures { option_copied result ≡ text_of name.now texts.now }
{
    for pair in texts {
        if name == pair.0.as_str() {
            return str_of(&pair.1);
        }
    }
    None
}

pub(crate) fn str_of(text: &Option<Text>) -> Option<&str>
    ensures { option_copied result ≡ text.now }
{
    match text {
        None => None,
        Some(text) => Some(text.as_str()),
    }
}

fn value_of(
    alloc: Global,
    column: &(Text, PartKind),
    texts: &[(Text, Option<Text>)],
) -> Result<PartValue, DeltaError>
    ensures ok { IfOk result (DeltaStands column.now.1 (text_of column.now.0 texts.now)) }
    ensures refused { IfErr result (Tells PartitionValue ((v : PartValue)
        → ¬ DeltaStands column.now.1 (text_of column.now.0 texts.now) v)) }
{
    match from_delta_text(alloc, column.1, text_of(texts, column.0.as_str())) {
        Ok(value) => Ok(value),
        Err(PartError::BadValue) => Err(PARTITION_VALUE),
        Err(PartError::Memory) => Err(DeltaError::Memory),
        Err(_) => unreachable!(),
    }
}

fn values_of(
    alloc: Global,
    columns: &[(Text, PartKind)],
    texts: &[(Text, Option<Text>)],
) -> Result<Values, DeltaError>
    ensures ok { IfOk result (AreValues columns.now texts.now) }
    ensures refused { IfErr result (Tells PartitionValue ((column : List ℕ × PartKind)
        × Contains columns.now column
        × ((v : PartValue) → ¬ DeltaStands column.1 (text_of column.0 texts.now) v))) }
{
    let mut values = Items::new(alloc);
    for column in columns {
        values.push(value_of(alloc, column, texts)?)?;
    }
    Ok(values)
}

fn row_of(
    alloc: Global,
    columns: &[(Text, PartKind)],
    file: &FileAction,
) -> Result<Option<FileRow>, DeltaError>
    requires { IsSoundFile file.now }
    ensures ok { IfOk result (IsRowOf columns.now file.now) }
    ensures refused { IfErr result (Tells PartitionValue ((column : List ℕ × PartKind)
        × Contains columns.now column × SpellsNoValue column file.now)) }
{
    match file {
        FileAction::Remove { .. } => Ok(None),
        FileAction::Add {
            path,
            values,
            size,
            count,
        } => {
            let values = values_of(alloc, columns, values.as_slice())?;
            Ok(Some(FileRow {
                path: path.copy(alloc)?,
                values,
                count: *count,
                size: *size,
            }))
        }
    }
}

fn with_row(rows: Vec<FileRow>, row: Option<FileRow>) -> Result<Vec<FileRow>, AllocError>
    ensures { IfOk result (λ all. all.items ≡ rows.items ++ option_to_list row) }
{
    let mut all = rows;
    if let Some(row) = row {
        all.push(row)?;
    }
    Ok(all)
}

/// The rows that the actions add, in their order.
pub(crate) fn rows_of(
    alloc: Global,
    columns: &[(Text, PartKind)],
    files: &[FileAction],
) -> Result<Vec<FileRow>, DeltaError>
    requires { All IsSoundFile files.now }
    ensures ok { IfOk result (λ rows. AreRowsOf columns.now files.now rows.items) }
    ensures refused { IfErr result (Tells PartitionValue ((file : FileAction)
        × (column : List ℕ × PartKind) × Contains files.now file
        × Contains columns.now column × SpellsNoValue column file)) }
{
    let mut rows = Vec::new(alloc);
    for file in files {
        let row = row_of(alloc, columns, file)?;
        rows = with_row(rows, row)?;
    }
    Ok(rows)
}
