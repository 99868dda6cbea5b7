//! The text of a file action. It is written token by token, so no tree of it stands in memory.

ghost use Rattle.std.specs.Prelude.{◌≡◌, ◌<◌, ◌^◌, ◌∷◌, ◌++◌, [], IfOk, OnOk, decimal, string_bytes};
ghost use Rattle.json.specs.Token.{key, string, number};
ghost use Rattle.json.specs.Tree.{json_tokens};
ghost use Rattle.serde_json.specs.Data.{no_members, object, put};
ghost use Rattle.serde_json.specs.Written.{compact_text, outline};
ghost use Rattle.table_history.specs.Path.{IsPath};
ghost use Rattle.json_reading.specs.Json.{text_or_null_data, members_with, IsReadAgain};
ghost use Rattle.partition_map.specs.Uri.{escaped_path};
ghost use Rattle.partition_map.specs.UriPath.{inside_table, uri_path};
ghost use Rattle.delta_text.specs.Writing.{stats_data, add_data, remove_data, file_data};
ghost use Rattle.delta_text.specs.Again.{HasReadableStats, HasReadableUri, HasSmallNumbers, IsFileAgain};
ghost use Rattle.delta_text.specs.Tokens.{values_members};

use delta_log::FileAction;
use json::Writer;
use lake_basics::Text;
use partition_map::encode_uri_path;
use std::alloc::{AllocError, Global};
use std::collections::BTreeMap;

/// The room that most lines find enough.
const LINE_ROOM: usize = 512;

/// The room for the statistics of any count.
const STATS_ROOM: usize = 40;

/// The values of a file by the names of their columns.
type SortedValues<'v> = BTreeMap<&'v str, &'v Option<Text>>;

// ---- parts

fn put_value<'v>(
    sorted: &mut SortedValues<'v>,
    name: &'v str,
    value: &'v Option<Text>,
) -> Result<(), AllocError>
    ensures { OnOk result (values_members sorted.new.entries
        ≡ put name.now (text_or_null_data value.now) (values_members sorted.old.entries)) }
{
    drop(sorted.insert(name, value)?);
    Ok(())
}

/// The values in byte order of their names. Of two with one name the later stands.
fn sorted_values<'v>(
    alloc: Global,
    values: &'v [(Text, Option<Text>)],
) -> Result<SortedValues<'v>, AllocError>
    ensures { IfOk result (λ m. values_members m.entries
        ≡ members_with text_or_null_data values.now no_members) }
{
    let mut sorted = BTreeMap::new(alloc);
    for (name, value) in values {
        put_value(&mut sorted, name.as_str(), value)?;
    }
    Ok(sorted)
}

/// The statistics of a file with this many records.
fn stats_text(alloc: Global, count: u64) -> Result<String, AllocError>
    ensures text { IfOk result (λ t. string_bytes t ≡ compact_text (stats_data count)) }
    ensures reads_back { OnOk result (IsReadAgain (stats_data count)) }
    ensures small { OnOk result (count < 2 ^ 64) }
{
    let mut digits = itoa::Buffer::new();
    let mut text = String::with_capacity(alloc, STATS_ROOM)?;
    text.push_str("{\"numRecords\":")?;
    text.push_str(digits.format(count))?;
    text.push_str("}")?;
    Ok(text)
}

fn uri_of(alloc: Global, path: &Text) -> Result<Text, AllocError>
    ensures text { IfOk result (λ t. t ≡ escaped_path path.now) }
    ensures reads_back { OnOk result (IsPath path.now
        → uri_path (escaped_path path.now) ≡ inside_table path.now) }
{
    match encode_uri_path(alloc, path.as_str()) {
        Ok(uri) => Ok(uri),
        Err(_) => Err(AllocError),
    }
}

// ---- tokens

/// A member with a text.
fn write_text(out: &mut Writer, name: &str, text: &str) -> Result<(), AllocError>
    ensures before { OnOk result (out.new.before ≡ out.old.before) }
    ensures tokens { OnOk result (out.new.tokens
        ≡ out.old.tokens ++ key name.now ∷ string text.now ∷ []) }
{
    out.key(name)?;
    out.string(text)
}

/// A member with a whole number.
fn write_number(out: &mut Writer, name: &str, count: u64) -> Result<(), AllocError>
    ensures before { OnOk result (out.new.before ≡ out.old.before) }
    ensures tokens { OnOk result (out.new.tokens
        ≡ out.old.tokens ++ key name.now ∷ number (decimal count) ∷ []) }
    ensures small { OnOk result (count < 2 ^ 64) }
{
    out.key(name)?;
    out.u64(count)
}

fn write_text_or_null(out: &mut Writer, text: &Option<Text>) -> Result<(), AllocError>
    ensures before { OnOk result (out.new.before ≡ out.old.before) }
    ensures tokens { OnOk result (out.new.tokens
        ≡ out.old.tokens ++ json_tokens (outline (text_or_null_data text.now))) }
{
    match text {
        None => out.null(),
        Some(text) => out.string(text.as_str()),
    }
}

fn write_values(out: &mut Writer, values: &SortedValues<'_>) -> Result<(), AllocError>
    ensures before { OnOk result (out.new.before ≡ out.old.before) }
    ensures tokens { OnOk result (out.new.tokens ≡ out.old.tokens
        ++ json_tokens (outline (object (values_members values.now.entries)))) }
{
    out.begin_object()?;
    for (name, value) in values {
        out.key(*name)?;
        write_text_or_null(out, *value)?;
    }
    out.end_object()
}

fn write_add(
    out: &mut Writer,
    uri: &str,
    values: &SortedValues<'_>,
    size: u64,
    stats: &str,
    now_ms: u64,
) -> Result<(), AllocError>
    ensures before { OnOk result (out.new.before ≡ out.old.before) }
    ensures tokens { OnOk result (out.new.tokens ≡ out.old.tokens ++ json_tokens (outline
        (add_data now_ms uri.now (object (values_members values.now.entries)) size stats.now))) }
    ensures small { OnOk result ((now_ms < 2 ^ 64) × (size < 2 ^ 64)) }
{
    out.begin_object()?;
    out.key("add")?;
    out.begin_object()?;
    out.key("dataChange")?;
    out.boolean(true)?;
    write_number(out, "modificationTime", now_ms)?;
    out.key("partitionValues")?;
    write_values(out, values)?;
    write_text(out, "path", uri)?;
    write_number(out, "size", size)?;
    write_text(out, "stats", stats)?;
    out.end_object()?;
    out.end_object()
}

fn write_remove(out: &mut Writer, uri: &str, now_ms: u64) -> Result<(), AllocError>
    ensures before { OnOk result (out.new.before ≡ out.old.before) }
    ensures tokens { OnOk result (out.new.tokens
        ≡ out.old.tokens ++ json_tokens (outline (remove_data now_ms uri.now))) }
    ensures small { OnOk result (now_ms < 2 ^ 64) }
{
    out.begin_object()?;
    out.key("remove")?;
    out.begin_object()?;
    out.key("dataChange")?;
    out.boolean(true)?;
    write_number(out, "deletionTimestamp", now_ms)?;
    write_text(out, "path", uri)?;
    out.end_object()?;
    out.end_object()
}

fn write_file(
    alloc: Global,
    out: &mut Writer,
    file: &FileAction,
    now_ms: u64,
) -> Result<(), AllocError>
    ensures before { OnOk result (out.new.before ≡ out.old.before) }
    ensures tokens { OnOk result (out.new.tokens
        ≡ out.old.tokens ++ json_tokens (outline (file_data now_ms file.now))) }
    ensures stats { OnOk result (HasReadableStats file.now) }
    ensures uri { OnOk result (HasReadableUri file.now) }
    ensures small { OnOk result (HasSmallNumbers now_ms file.now) }
{
    match file {
        FileAction::Add {
            path,
            values,
            size,
            count,
        } => {
            let uri = uri_of(alloc, path)?;
            let values = sorted_values(alloc, values.as_slice())?;
            let stats = stats_text(alloc, *count)?;
            write_add(out, uri.as_str(), &values, *size, stats.as_str(), now_ms)
        }
        FileAction::Remove { path } => {
            let uri = uri_of(alloc, path)?;
            write_remove(out, uri.as_str(), now_ms)
        }
    }
}

/// The compact text of a file action, which is read as what was written.
pub(crate) fn file_text(
    alloc: Global,
    file: &FileAction,
    now_ms: u64,
) -> Result<Vec<u8>, AllocError>
    ensures text { IfOk result (λ v. v.items ≡ compact_text (file_data now_ms file.now)) }
    ensures reads_back { OnOk result (IsFileAgain now_ms file.now) }
{
    let mut out = Writer::new(Vec::with_capacity(alloc, LINE_ROOM)?);
    write_file(alloc, &mut out, file, now_ms)?;
    Ok(out.into_inner())
}
