//! Writing a commit.

ghost use Rattle.std.specs.Prelude.{◌≡◌, ◌≤◌, ◌∷◌, ◌++◌, [], IfOk, IfErr, codes, OnOk, IfSome, Ok, false, option_to_list, flat_map, map, FitsSigned};
ghost use Rattle.std.specs.Int.{w64};
ghost use Rattle.std.specs.List.{AllByRecursion};
ghost use Rattle.serde_json.specs.Data.{depth, member, no_members, object, put, string};
ghost use Rattle.serde_json.specs.Read.{max_depth};
ghost use Rattle.serde_json.specs.View.{view, members_view};
ghost use Rattle.serde_json.specs.Written.{compact_text, has_float};
ghost use Rattle.json_reading.specs.Json.{IsReadAgain};
ghost use Rattle.delta_log.specs.declared.commit.DeltaCommit.{DeltaCommit};
ghost use Rattle.delta_log.specs.Judging.{commit_of};
ghost use Rattle.delta_log.specs.Readable.{IsReadableCommit};
ghost use Rattle.delta_log.specs.Sound.{IsWritable};
ghost use Rattle.delta_text.specs.Writing.{only_member, put_texts, protocol_data, meta_data_data, file_data, line_text, commit_text, SameCommit};
ghost use Rattle.delta_text.specs.Again.{IsProtocolAgain, IsFileAgain, HasReadableParts};

use crate::file_text::file_text;
use delta_log::{DeltaCommit, DeltaError, FileAction, MetaData, Protocol};
use json_reading::{json_text, texts_array, texts_object, with_member, with_text};
use lake_basics::{Blob, Items, Text};
use serde_json::{Map, Value};
use std::alloc::{AllocError, Global};

// ---- the JSON of each line

fn only_member(alloc: Global, name: &str, value: Value) -> Result<Value, AllocError>
    ensures { IfOk result (λ v. view v ≡ only_member name.now (view value)) }
{
    Ok(Value::Object(with_member(alloc, Map::new(alloc), name, value)?))
}

fn put_texts(
    alloc: Global,
    map: &mut Map<String, Value>,
    name: &str,
    texts: &Option<Items<Text>>,
) -> Result<(), AllocError>
    ensures { OnOk result (members_view map.new.entries
        ≡ put_texts name.now texts.now (members_view map.old.entries)) }
{
    match texts {
        None => Ok(()),
        Some(texts) => {
            let value = texts_array(alloc, texts.as_slice())?;
            serde_json::put(map, alloc, name, value)
        }
    }
}

fn protocol_value(alloc: Global, protocol: &Protocol) -> Result<Value, AllocError>
    ensures data { IfOk result (λ v. view v ≡ protocol_data protocol.now) }
    ensures reader { OnOk result (FitsSigned w64 protocol.now.reader) }
    ensures writer { OnOk result (FitsSigned w64 protocol.now.writer) }
{
    let mut map = Map::new(alloc);
    serde_json::put(
        &mut map,
        alloc,
        "minReaderVersion",
        Value::from(protocol.reader),
    )?;
    serde_json::put(
        &mut map,
        alloc,
        "minWriterVersion",
        Value::from(protocol.writer),
    )?;
    put_texts(alloc, &mut map, "readerFeatures", &protocol.reader_features)?;
    put_texts(alloc, &mut map, "writerFeatures", &protocol.writer_features)?;
    only_member(alloc, "protocol", Value::Object(map))
}

fn format_value(alloc: Global) -> Result<Value, AllocError>
    ensures { IfOk result (λ v. view v ≡ object (member (codes "options") (object no_members)
        (member (codes "provider") (string (codes "parquet")) no_members))) }
{
    let options = Value::Object(Map::new(alloc));
    let members = with_member(alloc, Map::new(alloc), "options", options)?;
    let members = with_text(alloc, members, "provider", "parquet")?;
    Ok(Value::Object(members))
}

fn meta_data_value(alloc: Global, meta: &MetaData) -> Result<Value, AllocError>
    ensures { IfOk result (λ v. view v ≡ meta_data_data meta.now) }
{
    let configuration = texts_object(alloc, meta.configuration.as_slice())?;
    let members = with_member(alloc, Map::new(alloc), "configuration", configuration)?;
    let columns = texts_array(alloc, meta.partition.as_slice())?;
    let members = with_member(alloc, members, "partitionColumns", columns)?;
    let members = with_member(alloc, members, "format", format_value(alloc)?)?;
    let members = with_text(alloc, members, "id", meta.id.as_str())?;
    let members = with_text(alloc, members, "schemaString", meta.schema.as_str())?;
    only_member(alloc, "metaData", Value::Object(members))
}

// ---- lines

/// Writes a text and the end of its line.
fn push_text(out: &mut Vec<u8>, text: &[u8]) -> Result<(), AllocError>
    ensures { OnOk result (out.new.items ≡ out.old.items ++ (text.now ++ 10 ∷ [])) }
{
    out.extend_from_slice(text)?;
    out.push(b'\n')?;
    Ok(())
}

/// Writes a line that is read again.
fn push_line(alloc: Global, out: &mut Vec<u8>, value: &Value) -> Result<(), AllocError>
    requires no_float { has_float (view value.now) ≡ false }
    requires shallow { depth (view value.now) ≤ max_depth }
    ensures text { OnOk result (out.new.items ≡ out.old.items ++ line_text (view value.now)) }
    ensures reads_back { OnOk result (IsReadAgain (view value.now)) }
{
    let line = json_text(alloc, value)?;
    push_text(out, line.as_bytes())
}

#[tactic(auto, using(crate::proofs::ShapeLemmas::protocol_no_float, crate::proofs::ShapeLemmas::protocol_shallow))]
fn push_protocol(alloc: Global, out: &mut Vec<u8>, protocol: &Protocol) -> Result<(), AllocError>
    ensures text { OnOk result (out.new.items
        ≡ out.old.items ++ line_text (protocol_data protocol.now)) }
    ensures reads_back { OnOk result (IsProtocolAgain protocol.now) }
{
    let value = protocol_value(alloc, protocol)?;
    push_line(alloc, out, &value)
}

#[tactic(auto, using(crate::proofs::ShapeLemmas::meta_no_float, crate::proofs::ShapeLemmas::meta_shallow))]
fn push_meta_data(alloc: Global, out: &mut Vec<u8>, meta: &MetaData) -> Result<(), AllocError>
    ensures text { OnOk result (out.new.items
        ≡ out.old.items ++ line_text (meta_data_data meta.now)) }
    ensures reads_back { OnOk result (IsReadAgain (meta_data_data meta.now)) }
{
    let value = meta_data_value(alloc, meta)?;
    push_line(alloc, out, &value)
}

fn push_file(
    alloc: Global,
    out: &mut Vec<u8>,
    file: &FileAction,
    now_ms: u64,
) -> Result<(), AllocError>
    ensures text { OnOk result (out.new.items
        ≡ out.old.items ++ line_text (file_data now_ms file.now)) }
    ensures reads_back { OnOk result (IsFileAgain now_ms file.now) }
{
    let text = file_text(alloc, file, now_ms)?;
    push_text(out, &text)
}

fn push_protocol_if_any(
    alloc: Global,
    out: &mut Vec<u8>,
    protocol: &Option<Protocol>,
) -> Result<(), AllocError>
    ensures text { OnOk result (out.new.items
        ≡ out.old.items ++ flat_map line_text (map protocol_data (option_to_list protocol.now))) }
    ensures reads_back { OnOk result (IfSome protocol.now IsProtocolAgain) }
{
    match protocol {
        None => Ok(()),
        Some(protocol) => push_protocol(alloc, out, protocol),
    }
}

fn push_meta_data_if_any(
    alloc: Global,
    out: &mut Vec<u8>,
    meta: &Option<MetaData>,
) -> Result<(), AllocError>
    ensures text { OnOk result (out.new.items
        ≡ out.old.items ++ flat_map line_text (map meta_data_data (option_to_list meta.now))) }
    ensures reads_back { OnOk result (IfSome meta.now (λ m. IsReadAgain (meta_data_data m))) }
{
    match meta {
        None => Ok(()),
        Some(meta) => push_meta_data(alloc, out, meta),
    }
}

fn push_files(
    alloc: Global,
    out: &mut Vec<u8>,
    files: &[FileAction],
    now_ms: u64,
) -> Result<(), AllocError>
    ensures text { OnOk result (out.new.items
        ≡ out.old.items ++ flat_map line_text (map (file_data now_ms) files.now)) }
    ensures reads_back { OnOk result (AllByRecursion (IsFileAgain now_ms) files.now) }
{
    for file in files {
        push_file(alloc, out, file, now_ms)?;
    }
    Ok(())
}

fn commit_bytes(alloc: Global, commit: &DeltaCommit, now_ms: u64) -> Result<Vec<u8>, AllocError>
    ensures text { IfOk result (λ b. b.items ≡ commit_text now_ms commit.now) }
    ensures parts { OnOk result (HasReadableParts now_ms commit.now) }
{
    let mut out = Vec::new(alloc);
    push_protocol_if_any(alloc, &mut out, &commit.protocol)?;
    push_meta_data_if_any(alloc, &mut out, &commit.meta)?;
    push_files(alloc, &mut out, commit.files.as_slice(), now_ms)?;
    Ok(out)
}

/// The bytes of a commit, one JSON object a line: the protocol and the metadata, where they are
/// there, and then the file actions in their order, with `now_ms` (milliseconds since 1970) as their
/// time. `delta_log::read_commit` gives the commit back. Memory alone is refused.
pub fn commit_text(alloc: Global, commit: &DeltaCommit, now_ms: u64) -> Result<Blob, DeltaError>
    requires { IsWritable commit.now }
    ensures text { IfOk result (λ b. b ≡ commit_text now_ms commit.now) }
    ensures reads_back { IfOk result (λ b. (d : DeltaCommit)
        × (commit_of b ≡ Ok d) × SameCommit commit.now d) }
    // The bytes are a commit that can be read, which may be written again: the same, its pairs in any order.
    ensures readable { IfOk result (λ b. (d : DeltaCommit)
        × IsReadableCommit b d × IsWritable d × SameCommit commit.now d) }
    ensures memory { IfErr result (λ e. e ≡ DeltaError.Memory) }
{
    Ok(Blob::from_vec(commit_bytes(alloc, commit, now_ms)?))
}
