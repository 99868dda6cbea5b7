//! The pairs of a properties text.

ghost use Rattle.std.specs.Prelude.{◌≡◌, ◌==◌, ◌≤◌, ◌+◌, ℕ, List, length, false, IfOk, IfErr, Ok, option_map};
ghost use Rattle.hudi_names.specs.Errors.{Gives, GivesBy};
ghost use Rattle.hudi_properties.specs.Grammar.{AreProperties, IsRefusal};
ghost use Rattle.hudi_properties.specs.Pairs.{is_key_end, is_separator, key_len, value_of, pair_of, pair_at, pairs_of_lines, properties_of};

use crate::escape::unescaped;
use crate::line::{LogicalLine, escapes, is_white, logical_lines, trimmed};
use hudi_names::HudiError;
use lake_basics::{Items, Text};
use std::alloc::{AllocError, Global};
use std::collections::BTreeMap;

/// Keys with their values.
pub type Pairs = Items<(Text, Text)>;

fn is_separator(byte: u8) -> bool
    ensures { result ≡ is_separator byte }
{
    byte == b'=' || byte == b':'
}

fn is_key_end(byte: u8) -> bool
    ensures { result ≡ is_key_end byte }
{
    is_separator(byte) || is_white(byte)
}

/// The length of the key at the start of a line, its escapes still in it.
fn key_len(line: &[u8]) -> usize
    ensures len { result ≡ key_len false line.now }
    ensures within { result ≤ length line.now }
{
    let mut is_escaped = false;
    for (i, byte) in line.iter().enumerate() {
        if !is_escaped && is_key_end(*byte) {
            return i;
        }
        is_escaped = escapes(is_escaped, *byte);
    }
    line.len()
}

/// What stands behind a key, the separator, and the white space about it.
fn value_of(behind: &[u8]) -> &[u8]
    ensures { result.now ≡ value_of behind.now }
{
    match trimmed(behind) {
        [b'=' | b':', value @ ..] => trimmed(value),
        value => value,
    }
}

/// The pair of a line, if its escapes are whole.
#[tactic(auto, unfolding(crate::specs::Pairs::pair_of))]
fn pair_of(alloc: Global, line: &[u8]) -> Result<Option<(Text, Text)>, AllocError>
    ensures { IfOk result (λ o. o ≡ pair_of line.now) }
{
    let (key, behind) = line.split_at(key_len(line));
    let Some(key) = unescaped(alloc, key)? else {
        return Ok(None);
    };
    let Some(value) = unescaped(alloc, value_of(behind))? else {
        return Ok(None);
    };
    Ok(Some((key, value)))
}

fn pair_at(alloc: Global, line: &LogicalLine) -> Result<(Text, Text), HudiError>
    ensures { Gives result (pair_at line.now) }
{
    match pair_of(alloc, line.content.as_slice())? {
        Some(pair) => Ok(pair),
        None => Err(HudiError::Malformed { line: line.number }),
    }
}

/// The pairs of a properties text (java.util.Properties, `load`), in the byte order of their keys; of two
/// with one key the later stands. `Malformed` names the line at which the first logical line at fault begins.
pub fn read_properties(alloc: Global, bytes: &[u8]) -> Result<Pairs, HudiError>
    // What is read are the pairs that the text gives.
    ensures found { IfOk result (λ pairs. AreProperties bytes.now pairs) }
    // The pairs that the text gives are read, unless memory runs out.
    ensures only { (pairs : List (List ℕ × List ℕ)) → AreProperties bytes.now pairs
        → Gives result (Ok pairs) }
    // What is refused has a first logical line that gives no pair, which the error names.
    ensures fault { IfErr result (λ e. IsRefusal bytes.now e) }
    // The same as a function of the bytes.
    ensures exact { Gives result (properties_of bytes.now) }
{
    pairs_of_text(alloc, bytes)
}

#[tactic(auto, unfolding(crate::specs::Pairs::properties_of))]
fn pairs_of_text(alloc: Global, bytes: &[u8]) -> Result<Pairs, HudiError>
    ensures { Gives result (properties_of bytes.now) }
{
    let lines = logical_lines(alloc, bytes)?;
    let pairs = pairs_of_lines(alloc, lines.as_slice())?;
    Ok(pairs_in(alloc, pairs)?)
}

fn pairs_of_lines(alloc: Global, lines: &[LogicalLine]) -> Result<BTreeMap<Text, Text>, HudiError>
    ensures { GivesBy (λ m. m.entries) result (pairs_of_lines lines.now) }
{
    let mut pairs = BTreeMap::new(alloc);
    for line in lines {
        if !line.content.is_empty() {
            let (key, value) = pair_at(alloc, line)?;
            pairs.insert(key, value)?;
        }
    }
    Ok(pairs)
}

fn pairs_in(alloc: Global, map: BTreeMap<Text, Text>) -> Result<Pairs, AllocError>
    ensures { IfOk result (λ p. p ≡ map.entries) }
{
    let mut pairs = Items::new(alloc);
    for pair in map {
        pairs.push(pair)?;
    }
    Ok(pairs)
}
