//! Entries, encoded.

ghost use Rattle.std.specs.Prelude.{◌≡◌, ◌<◌, ◌^◌, ◌++◌, pos, map, FitsSigned, OnOk};
ghost use Rattle.std.specs.Int.{w64};
ghost use Rattle.avro_value.specs.Fitting.{AreSound, IsSound, IsText};
ghost use Rattle.avro_value.specs.ValueTree.{values_of, union_of, null, boolean, int, long, text as text_tree};
ghost use Rattle.avro_value.specs.Writing.{encoding, length_prefixed, values_encoding};
ghost use Rattle.partition_map.specs.Avro.{avro_value_of};
ghost use Rattle.iceberg_manifest.specs.ManifestWriting.{whole_tree, file_trees, entry_tree};
ghost use Rattle.iceberg_manifest_writing.specs.RowEntries.{entry_in};

use crate::row_entry::RowEntry;
use avro_value::{push_boolean, push_bytes, push_int, push_long, push_natural, push_text};
use lake_basics::Text;
use std::alloc::AllocError;
use table_history::PartValue;

/// Adds the null of a union of null and another type, in this order. The calls below add a value of
/// the other type.
fn push_null(out: &mut Vec<u8>) -> Result<(), AllocError>
    ensures bytes { OnOk result (out.new.items ≡ out.old.items ++ encoding (union_of 0 null)) }
    ensures sound { OnOk result (IsSound (union_of 0 null)) }
{
    push_natural(out, 0)
}

fn push_boolean_branch(out: &mut Vec<u8>, b: bool) -> Result<(), AllocError>
    ensures bytes { OnOk
        result (out.new.items ≡ out.old.items ++ encoding (union_of 1 (boolean b))) }
    ensures sound { OnOk result (IsSound (union_of 1 (boolean b))) }
{
    push_natural(out, 1)?;
    push_boolean(out, b)
}

fn push_int_branch(out: &mut Vec<u8>, n: i32) -> Result<(), AllocError>
    ensures bytes { OnOk result (out.new.items ≡ out.old.items ++ encoding (union_of 1 (int n))) }
    ensures sound { OnOk result (IsSound (union_of 1 (int n))) }
{
    push_natural(out, 1)?;
    push_int(out, n)
}

fn push_long_branch(out: &mut Vec<u8>, n: i64) -> Result<(), AllocError>
    ensures bytes { OnOk result (out.new.items ≡ out.old.items ++ encoding (union_of 1 (long n))) }
    ensures sound { OnOk result (IsSound (union_of 1 (long n))) }
{
    push_natural(out, 1)?;
    push_long(out, n)
}

fn push_text_branch(out: &mut Vec<u8>, text: &Text) -> Result<(), AllocError>
    ensures bytes { OnOk
        result (out.new.items ≡ out.old.items ++ encoding (union_of 1 (text_tree text.now))) }
    ensures sound { OnOk result (IsSound (union_of 1 (text_tree text.now))) }
{
    push_natural(out, 1)?;
    push_text(out, text)
}

/// Adds a number, or null.
fn push_whole(out: &mut Vec<u8>, number: Option<i64>) -> Result<(), AllocError>
    ensures bytes { OnOk result (out.new.items ≡ out.old.items ++ encoding (whole_tree number)) }
    ensures sound { OnOk result (IsSound (whole_tree number)) }
{
    match number {
        None => push_null(out),
        Some(n) => push_long_branch(out, n),
    }
}

/// Adds the value of a partition column, of the union of null and its type.
fn push_part(out: &mut Vec<u8>, value: &PartValue) -> Result<(), AllocError>
    ensures bytes { OnOk
        result (out.new.items ≡ out.old.items ++ encoding (avro_value_of value.now)) }
    ensures sound { OnOk result (IsSound (avro_value_of value.now)) }
{
    match value {
        PartValue::Null => push_null(out),
        PartValue::Boolean(b) => push_boolean_branch(out, *b),
        PartValue::Int(n) => push_int_branch(out, *n),
        PartValue::Long(n) => push_long_branch(out, *n),
        PartValue::Text(text) => push_text_branch(out, text),
        PartValue::Date(days) => push_int_branch(out, *days),
    }
}

fn push_parts(out: &mut Vec<u8>, values: &[PartValue]) -> Result<(), AllocError>
    ensures bytes { OnOk
        result (out.new.items
        ≡ out.old.items ++ values_encoding (values_of (map avro_value_of values.now))) }
    ensures sound { OnOk result (AreSound (values_of (map avro_value_of values.now))) }
{
    for value in values {
        push_part(out, value)?;
    }
    Ok(())
}

/// Adds a `string`.
fn push_str(out: &mut Vec<u8>, text: &str) -> Result<(), AllocError>
    ensures bytes { OnOk result (out.new.items ≡ out.old.items ++ length_prefixed text.now) }
    ensures sound { IsText text.now }
{
    push_natural(out, text.len() as u64)?;
    push_bytes(out, text.as_bytes())
}

/// Adds a number from 0 on, as a `long`.
fn push_count(out: &mut Vec<u8>, n: u64) -> Result<(), AllocError>
    requires { n < 2 ^ 63 }
    ensures bytes { OnOk result (out.new.items ≡ out.old.items ++ encoding (long (pos n))) }
    ensures sound { FitsSigned w64 (pos n) }
{
    push_natural(out, n)
}

/// Adds a path with that front, as a `string`.
#[tactic(auto, using(crate::proofs::EntryLemmas::joined_text))]
fn push_path(out: &mut Vec<u8>, front: &Text, path: &Text) -> Result<(), AllocError>
    ensures bytes { OnOk
        result (out.new.items ≡ out.old.items ++ length_prefixed (front.now ++ path.now)) }
    ensures sound { OnOk result (IsText (front.now ++ path.now)) }
{
    let front = front.as_bytes();
    let path = path.as_bytes();
    let length = front.len() + path.len();
    out.reserve(length)?;
    push_natural(out, length as u64)?;
    push_bytes(out, front)?;
    push_bytes(out, path)
}

/// Adds the values of `data_file`.
fn push_file(out: &mut Vec<u8>, front: &Text, entry: &RowEntry<'_>) -> Result<(), AllocError>
    ensures bytes { OnOk
        result (out.new.items
        ≡ out.old.items ++ values_encoding (values_of (file_trees (entry_in front.now entry.now)))) }
    ensures sound { OnOk
        result (AreSound (values_of (file_trees (entry_in front.now entry.now)))) }
{
    let row = entry.row;
    push_natural(out, 0)?;
    push_path(out, front, &row.path)?;
    push_str(out, "PARQUET")?;
    push_parts(out, row.values.as_slice())?;
    push_count(out, row.count)?;
    push_count(out, row.size)
}

/// Adds an entry, whose path is written with that front.
pub(crate) fn push_entry(
    out: &mut Vec<u8>,
    front: &Text,
    entry: &RowEntry<'_>,
) -> Result<(), AllocError>
    ensures bytes { OnOk
        result (out.new.items
        ≡ out.old.items ++ encoding (entry_tree (entry_in front.now entry.now))) }
    ensures sound { OnOk result (IsSound (entry_tree (entry_in front.now entry.now))) }
{
    push_natural(out, entry.status.number())?;
    push_whole(out, entry.snapshot)?;
    push_whole(out, entry.sequence)?;
    push_whole(out, entry.sequence)?;
    push_file(out, front, entry)
}
