//! Reading one line of a commit.

ghost use Rattle.std.specs.Prelude.{◌≡◌, codes, true, option_map, Ok, IfOk, IfSome, IsSome};
ghost use Rattle.std.specs.List.{list_all};
ghost use Rattle.serde_json.specs.Find.{get};
ghost use Rattle.json_outline.specs.View.{view, items_view, members_view, sorted_view};
ghost use Rattle.lake_basics.specs.Outcome.{Gives, each, required, ◌>>=◌ as and_then};
ghost use Rattle.json_reading.specs.Json.{count_member, items, present, text, text_member, pairs};
ghost use Rattle.delta_log.specs.declared.error.LineFault.TheVariants.{Malformed};
ghost use Rattle.delta_log.specs.Grammar.{text_or_null, setting, settings, partition_value, features, lists_features, needed_features, stated_count, record_count, is_space, line_action, object_action};
ghost use Rattle.delta_log.specs.Grammar as grammar;
ghost use Rattle.delta_log.specs.Sound.{HaveDistinctNames, IsCount, IsSoundAction};

use crate::action::LineAction;
use crate::commit::{MetaData, Protocol};
use crate::error::LineFault;
use crate::space::LineSpace;
use json::Scratch;
use json_outline::{
    Members, Node, SortedMembers, count_of, list_of, object_of, present_of, read_json,
    sorted_members, text_from, text_of, texts_from, whole_of,
};
use json_scan::stated_count;
use lake_basics::{Items, ReadError, Text};
use std::alloc::Global;

const MALFORMED: ReadError<LineFault> = ReadError::Fault(LineFault::Malformed);

fn required_str<'a>(value: &'a Node<'_>, name: &str) -> Result<&'a str, ReadError<LineFault>>
    ensures { Gives (λ s. s.now) result (required Malformed (text_member name.now (view value.now))) }
{
    text_of(value, name).ok_or(MALFORMED)
}

// ---- pairs

fn text_or_null_in(alloc: Global, value: &Node<'_>) -> Result<Option<Text>, ReadError<LineFault>>
    ensures { Gives (λ t. t) result (text_or_null (view value.now)) }
{
    match value {
        Node::Null => Ok(None),
        Node::Text(text) => Ok(Some(Text::from_str(alloc, *text)?)),
        _ => Err(MALFORMED),
    }
}

fn value_pair(
    alloc: Global,
    name: &str,
    value: &Node<'_>,
) -> Result<(Text, Option<Text>), ReadError<LineFault>>
    ensures { Gives (λ p. p) result (partition_value (name.now, view value.now)) }
{
    let text = text_or_null_in(alloc, value)?;
    Ok((Text::from_str(alloc, name)?, text))
}

fn values_in(
    alloc: Global,
    room: usize,
    sorted: &SortedMembers<'_, '_>,
) -> Result<Items<(Text, Option<Text>)>, ReadError<LineFault>>
    ensures { Gives (λ vs. vs) result
        (each partition_value (pairs (sorted_view sorted.now.entries))) }
{
    let mut values = Items::from_vec(Vec::with_capacity(alloc, room)?);
    for (name, value) in sorted {
        values.push(value_pair(alloc, *name, *value)?)?;
    }
    Ok(values)
}

fn values_of(
    alloc: Global,
    members: &Members<'_>,
) -> Result<Items<(Text, Option<Text>)>, ReadError<LineFault>>
    ensures read { Gives (λ vs. vs) result
        (each partition_value (pairs (members_view members.now.items))) }
    ensures names { IfOk result (λ vs. HaveDistinctNames vs) }
{
    let sorted = sorted_members(alloc, members)?;
    values_in(alloc, sorted.len(), &sorted)
}

fn setting_pair(
    alloc: Global,
    name: &str,
    value: &Node<'_>,
) -> Result<(Text, Text), ReadError<LineFault>>
    ensures { Gives (λ p. p) result (setting (name.now, view value.now)) }
{
    let text = text_from(alloc, value, LineFault::Malformed)?;
    Ok((Text::from_str(alloc, name)?, text))
}

fn settings_in(
    alloc: Global,
    sorted: &SortedMembers<'_, '_>,
) -> Result<Items<(Text, Text)>, ReadError<LineFault>>
    ensures { Gives (λ vs. vs) result (each setting (pairs (sorted_view sorted.now.entries))) }
{
    let mut values = Items::new(alloc);
    for (name, value) in sorted {
        values.push(setting_pair(alloc, *name, *value)?)?;
    }
    Ok(values)
}

fn settings_of(
    alloc: Global,
    members: &Members<'_>,
) -> Result<Items<(Text, Text)>, ReadError<LineFault>>
    ensures read { Gives (λ vs. vs) result
        (each setting (pairs (members_view members.now.items))) }
    ensures names { IfOk result (λ vs. HaveDistinctNames vs) }
{
    let sorted = sorted_members(alloc, members)?;
    // A map says with its length that its names are in order.
    drop(sorted.len());
    settings_in(alloc, &sorted)
}

// ---- the protocol

fn features_of(
    alloc: Global,
    value: &Node<'_>,
    name: &str,
) -> Result<Option<Items<Text>>, ReadError<LineFault>>
    ensures { Gives (λ f. f) result (features (present name.now (view value.now))) }
{
    match present_of(value, name) {
        None => Ok(None),
        Some(member) => {
            let names = member.as_array().ok_or(MALFORMED)?;
            Ok(Some(texts_from(alloc, names, LineFault::Malformed)?))
        }
    }
}

/// The features that a reader must know. Reader version 3 can't do without their list.
fn needed_features(
    version: i64,
    features: Option<Items<Text>>,
) -> Result<Option<Items<Text>>, ReadError<LineFault>>
    ensures read { Gives (λ f. f) result (needed_features version features) }
    ensures needed { IfOk result (λ f. lists_features version ≡ true → IsSome f) }
{
    if version == 3 && features.is_none() {
        return Err(MALFORMED);
    }
    Ok(features)
}

#[tactic(auto, unfolding(crate::specs::Grammar::protocol))]
fn protocol_of(alloc: Global, value: &Node<'_>) -> Result<LineAction, ReadError<LineFault>>
    ensures read { Gives (λ a. a) result (grammar.protocol (view value.now)) }
    ensures sound { IfOk result IsSoundAction }
{
    let reader = whole_of(value, "minReaderVersion").ok_or(MALFORMED)?;
    let writer = whole_of(value, "minWriterVersion").ok_or(MALFORMED)?;
    let stated = features_of(alloc, value, "readerFeatures")?;
    let reader_features = needed_features(reader, stated)?;
    let writer_features = features_of(alloc, value, "writerFeatures")?;
    Ok(LineAction::Protocol(Protocol {
        reader,
        writer,
        reader_features,
        writer_features,
    }))
}

// ---- the table

fn configuration_of(
    alloc: Global,
    value: &Node<'_>,
) -> Result<Items<(Text, Text)>, ReadError<LineFault>>
    ensures read { Gives (λ s. s) result (settings (get (codes "configuration") (view value.now))) }
    ensures names { IfOk result (λ vs. HaveDistinctNames vs) }
{
    match value.get("configuration") {
        None => Ok(Items::new(alloc)),
        Some(member) => settings_of(alloc, member.as_object().ok_or(MALFORMED)?),
    }
}

/// The metadata with this id and the text of this schema, and the value's lists.
fn meta_data_with(
    alloc: Global,
    value: &Node<'_>,
    id: &str,
    schema: &str,
    columns: &Vec<Node<'_>>,
) -> Result<MetaData, ReadError<LineFault>>
    ensures read { Gives (λ m. m) result
        (and_then (each (text Malformed) (items (items_view columns.now.items))) (λ partition.
        and_then (settings (get (codes "configuration") (view value.now))) (λ configuration.
        Ok (record {
          id = id.now;
          schema = schema.now;
          partition = partition;
          configuration = configuration;
        })))) }
    ensures names { IfOk result (λ m. HaveDistinctNames m.configuration) }
{
    let id = Text::from_str(alloc, id)?;
    let schema = Text::from_str(alloc, schema)?;
    let partition = texts_from(alloc, columns, LineFault::Malformed)?;
    let configuration = configuration_of(alloc, value)?;
    Ok(MetaData {
        id,
        schema,
        partition,
        configuration,
    })
}

#[tactic(auto, unfolding(crate::specs::Grammar::meta_data))]
fn meta_data_of(alloc: Global, value: &Node<'_>) -> Result<LineAction, ReadError<LineFault>>
    ensures read { Gives (λ a. a) result (grammar.meta_data (view value.now)) }
    ensures sound { IfOk result IsSoundAction }
{
    let id = required_str(value, "id")?;
    let format = value.get("format").ok_or(MALFORMED)?;
    let provider = required_str(format, "provider")?;
    let schema = required_str(value, "schemaString")?;
    let columns = list_of(value, "partitionColumns").ok_or(MALFORMED)?;
    let meta = meta_data_with(alloc, value, id, schema, columns)?;
    let is_parquet = provider == "parquet";
    Ok(LineAction::MetaData { meta, is_parquet })
}

// ---- files

/// The record count that the text of an object states, if it states one.
#[tactic(auto, unfolding(crate::specs::Grammar::stated_count))]
fn stated_count_of(
    scratch: &mut Scratch<Global>,
    stats: &str,
) -> Result<Option<u64>, ReadError<LineFault>>
    ensures read { Gives (λ n. n) result (stated_count stats.now) }
    ensures small { IfOk result (λ n. IfSome n IsCount) }
{
    stated_count(scratch, stats, "numRecords", LineFault::Malformed)
}

#[tactic(auto, unfolding(crate::specs::Grammar::record_count))]
fn record_count_of(
    scratch: &mut Scratch<Global>,
    value: &Node<'_>,
) -> Result<Option<u64>, ReadError<LineFault>>
    ensures read { Gives (λ n. n) result (record_count (view value.now)) }
    ensures small { IfOk result (λ n. IfSome n IsCount) }
{
    match present_of(value, "stats") {
        None => Ok(None),
        Some(member) => {
            let stats = member.as_str().ok_or(MALFORMED)?;
            if stats.is_empty() {
                return Ok(None);
            }
            stated_count_of(scratch, stats)
        }
    }
}

/// The size in bytes, and the record count.
fn counts_of(
    scratch: &mut Scratch<Global>,
    value: &Node<'_>,
) -> Result<(u64, Option<u64>), ReadError<LineFault>>
    ensures read { Gives (λ n. n) result
        (and_then (required Malformed (count_member (codes "size") (view value.now))) (λ size.
        and_then (record_count (view value.now)) (λ count. Ok (size, count)))) }
    ensures small { IfOk result (λ n. IsCount n.0 × IfSome n.1 IsCount) }
{
    let size = count_of(value, "size").ok_or(MALFORMED)?;
    Ok((size, record_count_of(scratch, value)?))
}

#[tactic(auto, unfolding(crate::specs::Grammar::add))]
fn add_of(
    alloc: Global,
    scratch: &mut Scratch<Global>,
    value: &Node<'_>,
) -> Result<LineAction, ReadError<LineFault>>
    ensures read { Gives (λ a. a) result (grammar.add (view value.now)) }
    ensures sound { IfOk result IsSoundAction }
{
    let uri = required_str(value, "path")?;
    let members = object_of(value, "partitionValues").ok_or(MALFORMED)?;
    let values = values_of(alloc, members)?;
    let (size, count) = counts_of(scratch, value)?;
    let uri = Text::from_str(alloc, uri)?;
    let has_deletion_vector = present_of(value, "deletionVector").is_some();
    Ok(LineAction::Add {
        uri,
        values,
        size,
        count,
        has_deletion_vector,
    })
}

#[tactic(auto, unfolding(crate::specs::Grammar::remove))]
fn remove_of(alloc: Global, value: &Node<'_>) -> Result<LineAction, ReadError<LineFault>>
    ensures read { Gives (λ a. a) result (grammar.remove (view value.now)) }
    ensures sound { IfOk result IsSoundAction }
{
    let uri = Text::from_str(alloc, required_str(value, "path")?)?;
    let has_deletion_vector = present_of(value, "deletionVector").is_some();
    Ok(LineAction::Remove {
        uri,
        has_deletion_vector,
    })
}

// ---- lines

#[tactic(auto, unfolding(crate::specs::Grammar::object_action))]
fn object_action_of(
    alloc: Global,
    scratch: &mut Scratch<Global>,
    value: &Node<'_>,
) -> Result<LineAction, ReadError<LineFault>>
    ensures read { Gives (λ a. a) result (object_action (view value.now)) }
    ensures sound { IfOk result IsSoundAction }
{
    if !value.is_object() {
        return Err(MALFORMED);
    }
    let protocol = present_of(value, "protocol");
    let meta_data = present_of(value, "metaData");
    let add = present_of(value, "add");
    let remove = present_of(value, "remove");
    match (protocol, meta_data, add, remove) {
        (None, None, None, None) => Ok(LineAction::NoAction),
        (Some(action), None, None, None) => protocol_of(alloc, action),
        (None, Some(action), None, None) => meta_data_of(alloc, action),
        (None, None, Some(action), None) => add_of(alloc, scratch, action),
        (None, None, None, Some(action)) => remove_of(alloc, action),
        _ => Err(MALFORMED),
    }
}

fn is_blank(line: &[u8]) -> bool
    ensures { result ≡ list_all is_space line.now }
{
    line.iter().all(|b| matches!(b, b' ' | b'\t' | b'\r'))
}

/// What a line says. It is malformed where it isn't blank and is no JSON object, where it has two
/// actions, or where its action isn't in the grammar.
#[tactic(auto, unfolding(crate::specs::Grammar::line_action))]
pub(crate) fn line_action_of(
    alloc: Global,
    space: &mut LineSpace,
    line: &[u8],
) -> Result<LineAction, ReadError<LineFault>>
    ensures read { Gives (λ a. a) result (line_action line.now) }
    ensures sound { IfOk result IsSoundAction }
{
    if is_blank(line) {
        return Ok(LineAction::NoAction);
    }
    let value = read_json(alloc, &mut space.line, line, LineFault::Malformed)?;
    object_action_of(alloc, &mut space.stats, &value)
}
