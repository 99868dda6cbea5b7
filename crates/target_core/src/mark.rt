//! The mark that a target's commit carries, as compact JSON.

ghost use Rattle.std.specs.Prelude.{◌≡◌, ◌↔◌, ◌≤◌, IfOk, IsTrue, codes, false};
ghost use Rattle.serde_json.specs.Data.{depth, member, no_members, string};
ghost use Rattle.serde_json.specs.Read.{max_depth};
ghost use Rattle.serde_json.specs.View.{members_view, view};
ghost use Rattle.serde_json.specs.Written.{compact_text, has_float};
ghost use Rattle.json_reading.specs.Json.{text_member};
ghost use Rattle.table_history.specs.Words.{kind_word};
ghost use Rattle.target_core.specs.Mark.{IsMark, IsMarkData, IsMarkText, candidate, earlier_mark_data, mark_data};

use json_reading::{json_text, text_member, text_of, text_or_null, with_member, with_text};
use lake_basics::Text;
use serde_json::{Map, Value};
use std::alloc::{AllocError, Global};
use table_history::Kind;

/// Which commit of a target carries it, and up to which commit of which source the target then
/// stands.
#[derive(Debug, Drop)]
pub struct Mark {
    /// The target commit's own Delta version or Iceberg metadata version in decimal, or its Hudi
    /// instant.
    pub at: Text,
    /// The source's format.
    pub source: Kind,
    /// The position of the source's commit.
    pub to: Text,
    /// The id of the source's table, where the source states one.
    pub table: Option<Text>,
}

/// The compact text of a mark, in version 2, which `read_mark` gives back.
#[tactic(auto, using(crate::proofs::Marks::mark_no_float, crate::proofs::Marks::mark_shallow))]
pub fn mark_text(alloc: Global, mark: &Mark) -> Result<Text, AllocError>
    ensures text { IfOk result (λ t. t ≡ compact_text (mark_data mark.now)) }
    ensures reads_back { IfOk result (λ t. IsMarkText t mark.now) }
{
    let value = mark_value(alloc, mark)?;
    json_text(alloc, &value)
}

/// The mark that a text is, in version 2 or 1, or `None` exactly where it is none. In version 1 a
/// mark has no id of the source's table.
pub fn read_mark(alloc: Global, text: &str) -> Result<Option<Mark>, AllocError>
    ensures { IfOk result (λ o. IsMark text.now o) }
{
    let value = match Value::from_str(alloc, text) {
        Ok(value) => value,
        Err(error) if error.is_memory() => return Err(AllocError),
        Err(_) => return Ok(None),
    };
    let Some(mark) = candidate(alloc, &value)? else {
        return Ok(None);
    };
    if spells(alloc, &value, &mark)? {
        Ok(Some(mark))
    } else {
        Ok(None)
    }
}

// The only mark that the value may be.
fn candidate(alloc: Global, value: &Value) -> Result<Option<Mark>, AllocError>
    ensures { IfOk result (λ o. o ≡ candidate (view value.now)) }
{
    let Some(at) = text_of(value, "at") else {
        return Ok(None);
    };
    let Some(to) = text_of(value, "to") else {
        return Ok(None);
    };
    let Some(word) = text_of(value, "source") else {
        return Ok(None);
    };
    let Some(source) = Kind::from_word(word) else {
        return Ok(None);
    };
    Ok(Some(mark_of(alloc, value, at, to, source)?))
}

// The mark of these texts, with the table that the value states.
fn mark_of(
    alloc: Global,
    value: &Value,
    at: &str,
    to: &str,
    source: Kind,
) -> Result<Mark, AllocError>
    ensures { IfOk result (λ mark. mark ≡ record {
      at = at.now;
      source = source;
      to = to.now;
      table = text_member (codes "table") (view value.now);
    }) }
{
    Ok(Mark {
        at: Text::from_str(alloc, at)?,
        source,
        to: Text::from_str(alloc, to)?,
        table: text_member(alloc, value, "table")?,
    })
}

// Whether the value is this mark in one of its two versions.
#[tactic(auto, using(crate::proofs::Marks::mark_shallow, crate::proofs::Marks::mark_no_float, crate::proofs::Marks::earlier_shallow, crate::proofs::Marks::earlier_no_float))]
fn spells(alloc: Global, value: &Value, mark: &Mark) -> Result<bool, AllocError>
    requires { depth (view value.now) ≤ max_depth }
    ensures { IfOk result (λ b. IsTrue b ↔ IsMarkData (view value.now) mark.now) }
{
    if is_same(alloc, value, &mark_value(alloc, mark)?)? {
        return Ok(true);
    }
    if mark.table.is_some() {
        return Ok(false);
    }
    is_same(alloc, value, &earlier_mark_value(alloc, mark)?)
}

// Whether the two are one, by their texts.
fn is_same(alloc: Global, value: &Value, other: &Value) -> Result<bool, AllocError>
    requires value { depth (view value.now) ≤ max_depth }
    requires other { depth (view other.now) ≤ max_depth }
    requires whole { has_float (view other.now) ≡ false }
    ensures { IfOk result (λ b. IsTrue b ↔ (view value.now ≡ view other.now)) }
{
    let text = value.to_string(alloc)?;
    let other_text = other.to_string(alloc)?;
    Ok(text.as_str() == other_text.as_str())
}

// The four members of a mark that are texts in both versions.
fn text_members(alloc: Global, mark: &Mark) -> Result<Map<String, Value>, AllocError>
    ensures { IfOk result (λ m. members_view m.entries
        ≡ member (codes "at") (string mark.now.at)
        (member (codes "by") (string (codes "lakebridge"))
        (member (codes "source") (string (kind_word mark.now.source))
        (member (codes "to") (string mark.now.to) no_members)))) }
{
    let members = with_text(alloc, Map::new(alloc), "at", mark.at.as_str())?;
    let members = with_text(alloc, members, "by", "lakebridge")?;
    let members = with_text(alloc, members, "source", mark.source.word())?;
    with_text(alloc, members, "to", mark.to.as_str())
}

// The object of six members.
fn mark_value(alloc: Global, mark: &Mark) -> Result<Value, AllocError>
    ensures { IfOk result (λ v. view v ≡ mark_data mark.now) }
{
    let table = text_or_null(alloc, &mark.table)?;
    let members = with_member(alloc, text_members(alloc, mark)?, "table", table)?;
    let members = with_member(alloc, members, "version", Value::from(2u64))?;
    Ok(Value::Object(members))
}

// The object of five members, which says nothing of the table.
fn earlier_mark_value(alloc: Global, mark: &Mark) -> Result<Value, AllocError>
    ensures { IfOk result (λ v. view v ≡ earlier_mark_data mark.now) }
{
    let members = text_members(alloc, mark)?;
    let members = with_member(alloc, members, "version", Value::from(1u64))?;
    Ok(Value::Object(members))
}
