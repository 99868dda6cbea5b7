//! What becomes of a line of a commit where commits are joined.

ghost use Rattle.std.specs.Prelude.{◌≡◌, IfOk, codes, false};
ghost use Rattle.std.specs.List.{list_all};
ghost use Rattle.serde_json.specs.View.{view, members_view};
ghost use Rattle.json_reading.specs.Json.{json, pairs, text_member};
ghost use Rattle.delta_log.specs.Grammar.{is_space};
ghost use Rattle.delta_compaction.specs.Kinds.{has_stray, is_known, is_stray, json_kind, line_kind, member_kind, named_kind, object_kind, uri_kind};

use crate::key::LineKey;
use json_reading::{present_of, read_json, text_of};
use lake_basics::ReadError;
use partition_map::{PartError, decode_uri_path};
use serde_json::{Map, Value};
use std::alloc::{AllocError, Global};

/// What becomes of a line.
#[derive(Drop)]
pub(crate) enum LineKind {
    /// It is about this, and stays until a newer line is.
    Kept(LineKey),
    /// It is about nothing that stays, or isn't in the grammar of commits.
    Dropped,
    /// It can't stand in a log compaction.
    Stray,
}

impl LineKind {
    pub(crate) fn is_stray(&self) -> bool
        ensures { result ≡ is_stray self.now }
    {
        matches!(self, LineKind::Stray)
    }
}

fn is_known(name: &str) -> bool
    ensures { result ≡ is_known name.now }
{
    matches!(
        name,
        "protocol" | "metaData" | "add" | "remove" | "txn" | "domainMetadata" | "commitInfo" | "cdc"
    )
}

/// Whether there are two members other than null, or one whose name isn't known.
fn has_stray(members: &Map<String, Value>) -> bool
    ensures { result ≡ has_stray false (pairs (members_view members.now.entries)) }
{
    let mut seen = false;
    for (name, value) in members {
        if !value.is_null() {
            if seen || !is_known(name.as_str()) {
                return true;
            }
            seen = true;
        }
    }
    false
}

/// The kind of an add or a remove. A URI that isn't one of a file in the table's folder is refused
/// where the commit is read.
fn file_kind(alloc: Global, action: &Value) -> Result<LineKind, AllocError>
    ensures { IfOk result (λ k. k ≡ uri_kind (text_member (codes "path") (view action.now))) }
{
    let Some(uri) = text_of(action, "path") else {
        return Ok(LineKind::Dropped);
    };
    match decode_uri_path(alloc, uri) {
        Ok(path) => Ok(LineKind::Kept(LineKey::File(path))),
        Err(PartError::Memory) => Err(AllocError),
        Err(_) => Ok(LineKind::Dropped),
    }
}

fn transaction_kind(alloc: Global, transaction: &Value) -> Result<LineKind, AllocError>
    ensures { IfOk result (λ k. k ≡ named_kind (λ app. LineKey.Transaction app)
        (text_member (codes "appId") (view transaction.now))) }
{
    match json_reading::text_member(alloc, transaction, "appId")? {
        None => Ok(LineKind::Stray),
        Some(app) => Ok(LineKind::Kept(LineKey::Transaction(app))),
    }
}

fn domain_kind(alloc: Global, metadata: &Value) -> Result<LineKind, AllocError>
    ensures { IfOk result (λ k. k ≡ named_kind (λ name. LineKey.Domain name)
        (text_member (codes "domain") (view metadata.now))) }
{
    match json_reading::text_member(alloc, metadata, "domain")? {
        None => Ok(LineKind::Stray),
        Some(domain) => Ok(LineKind::Kept(LineKey::Domain(domain))),
    }
}

/// The kind of an object with one member other than null at most.
fn member_kind(alloc: Global, value: &Value) -> Result<LineKind, AllocError>
    ensures { IfOk result (λ k. k ≡ member_kind (view value.now)) }
{
    let protocol = present_of(value, "protocol");
    let meta_data = present_of(value, "metaData");
    let add = present_of(value, "add");
    let remove = present_of(value, "remove");
    let transaction = present_of(value, "txn");
    let domain = present_of(value, "domainMetadata");
    match (protocol, meta_data, add, remove, transaction, domain) {
        (Some(_), _, _, _, _, _) => Ok(LineKind::Kept(LineKey::Protocol)),
        (None, Some(_), _, _, _, _) => Ok(LineKind::Kept(LineKey::MetaData)),
        (None, None, Some(action), _, _, _) => file_kind(alloc, action),
        (None, None, None, Some(action), _, _) => file_kind(alloc, action),
        (None, None, None, None, Some(action), _) => transaction_kind(alloc, action),
        (None, None, None, None, None, Some(action)) => domain_kind(alloc, action),
        (None, None, None, None, None, None) => Ok(LineKind::Dropped),
    }
}

#[tactic(auto, unfolding(crate::specs::Kinds::object_kind))]
fn object_kind(alloc: Global, value: &Value) -> Result<LineKind, AllocError>
    ensures { IfOk result (λ k. k ≡ object_kind (view value.now)) }
{
    match value {
        Value::Object(members) if has_stray(members) => Ok(LineKind::Stray),
        Value::Object(_) => member_kind(alloc, value),
        _ => Ok(LineKind::Dropped),
    }
}

fn json_kind(alloc: Global, line: &[u8]) -> Result<LineKind, AllocError>
    ensures { IfOk result (λ k. k ≡ json_kind (json line.now)) }
{
    match read_json(alloc, line, ()) {
        Ok(value) => object_kind(alloc, &value),
        Err(ReadError::Memory) => Err(AllocError),
        Err(ReadError::Fault(())) => Ok(LineKind::Dropped),
    }
}

fn is_blank(line: &[u8]) -> bool
    ensures { result ≡ list_all is_space line.now }
{
    line.iter().all(|b| matches!(b, b' ' | b'\t' | b'\r'))
}

/// What becomes of a line (Delta protocol, "Log Compaction Files").
#[tactic(auto, unfolding(crate::specs::Kinds::line_kind))]
pub(crate) fn line_kind(alloc: Global, line: &[u8]) -> Result<LineKind, AllocError>
    ensures { IfOk result (λ k. k ≡ line_kind line.now) }
{
    if is_blank(line) {
        return Ok(LineKind::Dropped);
    }
    json_kind(alloc, line)
}
