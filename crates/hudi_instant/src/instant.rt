//! Completed instants.

ghost use Rattle.std.specs.Prelude.{◌≡◌, ◌++◌, ◌∷◌, [], Ok, Some, IfOk, IsErrOf, codes, option_map, option_to_list};
ghost use Rattle.serde_json.specs.Find.{get};
ghost use Rattle.json_outline.specs.View.{view, items_view, members_view, sorted_view};
ghost use Rattle.json_reading.specs.Json.{items, pairs, present, text, json};
ghost use Rattle.lake_basics.specs.Outcome.{required};
ghost use Rattle.hudi_names.specs.Errors.{Gives, GivesBy, malformed};
ghost use Rattle.serde_json.specs.Data.{Data};
ghost use Rattle.hudi_instant.specs.InstantGrammar.{StatesInstant, mark_in};
ghost use Rattle.hudi_instant.specs.InstantText.{IsSound};
ghost use Rattle.hudi_instant.specs.declared.instant.Instant.{Instant};
ghost use Rattle.hudi_instant.specs.Instants.{size_number, text_member, data_path, within_actions, size, stat, stat_at, with_stats, with_partitions, with_ids, with_replaced, replaced, extra_text, instant, json_instant};

use hudi_names::{HudiError, MALFORMED};
use json::Scratch;
use json_outline::{
    Members, Node, SortedMembers, count_in, present_of, read_json, sorted_members, text_of,
};
use lake_basics::limits::MAX_ACTIONS;
use lake_basics::{Items, ReadError, Text};
use std::alloc::{AllocError, Global};
use table_history::{LimitKind, path_form_of_any_length};

/// A file that an instant wrote.
#[derive(Drop)]
pub struct Stat {
    pub file_id: Text,
    pub partition_path: Text,
    pub path: Text,
    pub writes: u64,
    pub size: u64,
}

/// What a completed commit or replacecommit did.
#[derive(Drop)]
pub struct Instant {
    pub stats: Items<Stat>,
    pub replaced: Items<(Text, Text)>,
    pub schema: Option<Text>,
    pub mark: Option<Text>,
}

fn str_in<'a>(value: &'a Node<'_>) -> Result<&'a str, HudiError>
    ensures { GivesBy (λ s. s.now) result (text malformed (view value.now)) }
{
    value.as_str().ok_or(MALFORMED)
}

fn text_in(alloc: Global, value: &Node<'_>) -> Result<Text, HudiError>
    ensures { Gives result (text malformed (view value.now)) }
{
    Ok(Text::from_str(alloc, str_in(value)?)?)
}

fn required_str<'a>(value: &'a Node<'_>, name: &str) -> Result<&'a str, HudiError>
    ensures { GivesBy (λ s. s.now) result (text_member name.now (view value.now)) }
{
    str_in(value.get(name).ok_or(MALFORMED)?)
}

/// The path of a data file, which may yet be too long.
fn data_path<'a>(value: &'a Node<'_>) -> Result<&'a str, HudiError>
    ensures { GivesBy (λ s. s.now) result (data_path (view value.now)) }
{
    let path = str_in(value)?;
    if path_form_of_any_length(path.as_bytes()) {
        Ok(path)
    } else {
        Err(MALFORMED)
    }
}

/// The whole number from 0 to 2^63 - 1 that the value is.
fn size_in(value: &Node<'_>) -> Option<u64>
    ensures { result ≡ size_number (view value.now) }
{
    let number = count_in(value)?;
    if number < 1 << 63 { Some(number) } else { None }
}

fn size_of_stat(value: &Node<'_>) -> Result<u64, HudiError>
    ensures { Gives result (size (get (codes "fileSizeInBytes") (view value.now))) }
{
    match value.get("fileSizeInBytes") {
        None => Ok(0),
        Some(member) => size_in(member).ok_or(MALFORMED),
    }
}

fn stat_with(
    alloc: Global,
    file_id: &str,
    partition_path: &str,
    path: &str,
    writes: u64,
    size: u64,
) -> Result<Stat, AllocError>
    ensures { IfOk result (λ s. s ≡ record {
      file_id = file_id.now;
      partition_path = partition_path.now;
      path = path.now;
      writes = writes;
      size = size;
    }) }
{
    Ok(Stat {
        file_id: Text::from_str(alloc, file_id)?,
        partition_path: Text::from_str(alloc, partition_path)?,
        path: Text::from_str(alloc, path)?,
        writes,
        size,
    })
}

/// The write stat, or None where it names no file.
#[tactic(auto, unfolding(crate::specs::Instants::stat))]
fn stat_of(alloc: Global, value: &Node<'_>) -> Result<Option<Stat>, HudiError>
    ensures { Gives result (stat (view value.now)) }
{
    if !value.is_object() {
        return Err(MALFORMED);
    }
    match present_of(value, "path") {
        None => Ok(None),
        Some(path) => stat_at(alloc, value, path),
    }
}

/// The write stat of the file at this path.
fn stat_at(alloc: Global, value: &Node<'_>, path: &Node<'_>) -> Result<Option<Stat>, HudiError>
    ensures { Gives result (stat_at (view value.now) (Some (view path.now))) }
{
    let path = data_path(path)?;
    let file_id = required_str(value, "fileId")?;
    let partition_path = required_str(value, "partitionPath")?;
    let writes = value.get("numWrites").ok_or(MALFORMED)?;
    let writes = size_in(writes).ok_or(MALFORMED)?;
    let size = size_of_stat(value)?;
    let stat = stat_with(alloc, file_id, partition_path, path, writes, size)?;
    Ok(Some(stat))
}

fn push_if_any(stats: Items<Stat>, stat: Option<Stat>) -> Result<Items<Stat>, HudiError>
    ensures { Gives result (Ok (stats ++ option_to_list stat)) }
{
    let mut stats = stats;
    if let Some(stat) = stat {
        stats.push(stat)?;
    }
    Ok(stats)
}

fn with_stats(
    alloc: Global,
    stats: Items<Stat>,
    list: &Vec<Node<'_>>,
) -> Result<Items<Stat>, HudiError>
    ensures { Gives result (with_stats stats (items (items_view list.now.items))) }
{
    let mut found = stats;
    for value in list {
        let stat = stat_of(alloc, value)?;
        found = push_if_any(found, stat)?;
    }
    Ok(found)
}

fn stats_in(alloc: Global, sorted: &SortedMembers<'_, '_>) -> Result<Items<Stat>, HudiError>
    ensures { Gives result (with_partitions [] (pairs (sorted_view sorted.now.entries))) }
{
    let mut found = Items::new(alloc);
    for (_, value) in sorted {
        let list = value.as_array().ok_or(MALFORMED)?;
        found = with_stats(alloc, found, list)?;
    }
    Ok(found)
}

fn stats_of(alloc: Global, members: &Members<'_>) -> Result<Items<Stat>, HudiError>
    ensures { Gives result (with_partitions [] (pairs (members_view members.now.items))) }
{
    stats_in(alloc, &sorted_members(alloc, members)?)
}

fn with_id(
    alloc: Global,
    replaced: Items<(Text, Text)>,
    partition: &str,
    id: Text,
) -> Result<Items<(Text, Text)>, AllocError>
    ensures { IfOk result (λ found. found ≡ replaced ++ (partition.now, id) ∷ []) }
{
    let mut found = replaced;
    let partition = Text::from_str(alloc, partition)?;
    found.push((partition, id))?;
    Ok(found)
}

fn with_ids(
    alloc: Global,
    replaced: Items<(Text, Text)>,
    partition: &str,
    list: &Vec<Node<'_>>,
) -> Result<Items<(Text, Text)>, HudiError>
    ensures { Gives result (with_ids replaced partition.now (items (items_view list.now.items))) }
{
    let mut found = replaced;
    for value in list {
        let id = text_in(alloc, value)?;
        found = with_id(alloc, found, partition, id)?;
    }
    Ok(found)
}

fn ids_in(alloc: Global, sorted: &SortedMembers<'_, '_>) -> Result<Items<(Text, Text)>, HudiError>
    ensures { Gives result (with_replaced [] (pairs (sorted_view sorted.now.entries))) }
{
    let mut found = Items::new(alloc);
    for (partition, value) in sorted {
        let list = value.as_array().ok_or(MALFORMED)?;
        found = with_ids(alloc, found, *partition, list)?;
    }
    Ok(found)
}

fn replaced_of(alloc: Global, members: &Members<'_>) -> Result<Items<(Text, Text)>, HudiError>
    ensures { Gives result (with_replaced [] (pairs (members_view members.now.items))) }
{
    ids_in(alloc, &sorted_members(alloc, members)?)
}

fn replaced_in(alloc: Global, value: &Node<'_>) -> Result<Items<(Text, Text)>, HudiError>
    ensures { Gives result (replaced (present (codes "partitionToReplaceFileIds") (view value.now))) }
{
    match present_of(value, "partitionToReplaceFileIds") {
        None => Ok(Items::new(alloc)),
        Some(member) => replaced_of(alloc, member.as_object().ok_or(MALFORMED)?),
    }
}

/// A text of the extra metadata, where that is there.
fn extra_text(
    alloc: Global,
    extra: Option<&Node<'_>>,
    name: &str,
) -> Result<Option<Text>, HudiError>
    ensures { Gives result (extra_text (option_map (λ v. view v.now) extra.entry) name.now) }
{
    let Some(extra) = extra else {
        return Ok(None);
    };
    if !extra.is_object() {
        return Err(MALFORMED);
    }
    match present_of(extra, name) {
        None => Ok(None),
        Some(member) => Ok(Some(text_in(alloc, member)?)),
    }
}

/// The mark in the extra metadata. What isn't a text there is none.
fn mark_in(alloc: Global, extra: Option<&Node<'_>>) -> Result<Option<Text>, HudiError>
    ensures { Gives result (Ok (mark_in (option_map (λ v. view v.now) extra.entry))) }
{
    let Some(extra) = extra else {
        return Ok(None);
    };
    match text_of(extra, "lakebridge.mark") {
        None => Ok(None),
        Some(mark) => Ok(Some(Text::from_str(alloc, mark)?)),
    }
}

#[tactic(auto, unfolding(crate::specs::Instants::instant))]
fn instant_in(alloc: Global, value: &Node<'_>) -> Result<Instant, HudiError>
    ensures { Gives result (instant (view value.now)) }
{
    if !value.is_object() {
        return Err(MALFORMED);
    }
    let partitions = value.get("partitionToWriteStats").ok_or(MALFORMED)?;
    let stats = stats_of(alloc, partitions.as_object().ok_or(MALFORMED)?)?;
    let replaced = replaced_in(alloc, value)?;
    let extra = present_of(value, "extraMetadata");
    let schema = extra_text(alloc, extra, "schema")?;
    let mark = mark_in(alloc, extra)?;
    Ok(Instant {
        stats,
        replaced,
        schema,
        mark,
    })
}

#[tactic(auto, using(hudi_names::proofs::ErrorLemmas::fault_given))]
fn json_of<'t>(
    alloc: Global,
    scratch: &'t mut Scratch<Global>,
    bytes: &'t [u8],
) -> Result<Node<'t>, HudiError>
    ensures { GivesBy view result (required malformed (json bytes.now)) }
{
    match read_json(alloc, scratch, bytes, MALFORMED) {
        Ok(value) => Ok(value),
        Err(ReadError::Memory) => Err(HudiError::Memory),
        Err(ReadError::Fault(fault)) => Err(fault),
    }
}

/// The instant that the bytes of a completed commit or replacecommit state. They are malformed, with
/// line 0, where they are no JSON or state none.
pub fn read_instant(alloc: Global, bytes: &[u8]) -> Result<Instant, HudiError>
    ensures reading { Gives result (json_instant bytes.now) }
    ensures grammar { IfOk result (λ i. (d : Data) × (json bytes.now ≡ Some d) × StatesInstant d i) }
    ensures sound { IfOk result IsSound }
    ensures malformed { IsErrOf result (HudiError.Malformed 0)
        → (d : Data) (i : Instant) → json bytes.now ≡ Some d → ¬ StatesInstant d i }
{
    instant_of(alloc, bytes)
}

#[tactic(auto, unfolding(crate::specs::Instants::json_instant))]
fn instant_of(alloc: Global, bytes: &[u8]) -> Result<Instant, HudiError>
    ensures { Gives result (json_instant bytes.now) }
{
    let mut scratch = Scratch::new(alloc);
    let value = json_of(alloc, &mut scratch, bytes)?;
    let instant = instant_in(alloc, &value)?;
    within_actions(instant)
}

fn within_actions(instant: Instant) -> Result<Instant, HudiError>
    ensures { Gives result (within_actions instant) }
{
    if instant.stats.len() + instant.replaced.len() <= MAX_ACTIONS as usize {
        Ok(instant)
    } else {
        Err(HudiError::Limit {
            which: LimitKind::Actions,
        })
    }
}
