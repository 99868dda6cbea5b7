//! A JSON text as a value over it, in one pass over the tokens.

ghost use Rattle.std.specs.Prelude.{◌≡◌, ◌<◌, length, Some, None, IfOk, OnOk, Err};
ghost use Rattle.json.specs.Json.{value, items, members};
ghost use Rattle.serde_json.specs.Data.{no_members};
ghost use Rattle.serde_json.specs.Read.{of_json, of_items, of_members, converted, read as read_text};
ghost use Rattle.lake_basics.specs.Outcome.{Gives, required};
ghost use Rattle.json_reading.specs.Json.{json};
ghost use Rattle.json_outline.specs.View.{view, items_view, members_view};

use crate::node::{Members, Node};
use crate::number::number_of;
use json::{Invalid, Reader, Scratch, Token};
use lake_basics::ReadError;
use std::alloc::{AllocError, AllocFailed, Global};

/// How deep the arrays and objects of a text may nest.
const MAX_DEPTH: usize = 127;

/// The room for members that an object begins with.
const MEMBER_ROOM: usize = 8;

/// Why no value was read.
#[derive(Clone, Copy, Drop)]
enum Refusal {
    Invalid,
    Memory,
}

impl From<Invalid> for Refusal {
    ghost use Rattle.std.specs.Prelude.{◌≡◌};
    ghost use Rattle.json_outline.specs.declared.reading.Refusal.TheVariants.{Invalid as refused};

    ghost from_gives = { λ _ e. e ≡ refused };

    fn from(_invalid: Invalid) -> Refusal {
        Refusal::Invalid
    }
}

impl From<AllocError> for Refusal {
    ghost use Rattle.std.specs.Prelude.{◌≡◌};
    ghost use Rattle.json_outline.specs.declared.reading.Refusal.TheVariants.{Memory};

    ghost from_gives = { λ _ e. e ≡ Memory };

    fn from(_error: AllocError) -> Refusal {
        Refusal::Memory
    }
}

impl<T: Drop> From<AllocFailed<T>> for Refusal {
    ghost use Rattle.std.specs.Prelude.{◌≡◌};
    ghost use Rattle.json_outline.specs.declared.reading.Refusal.TheVariants.{Memory};

    ghost from_gives = { λ _ e. e ≡ Memory };

    fn from(_error: AllocFailed<T>) -> Refusal {
        Refusal::Memory
    }
}

#[cycle(read)]
fn read<'t>(alloc: Global, reader: &mut Reader<'t>, depth: usize) -> Result<Node<'t>, Refusal>
    ensures ok { IfOk result
        (λ v. converted of_json (value depth reader.old) ≡ Some (view v, reader.new)) }
    ensures shorter { OnOk result (length reader.new < length reader.old) }
    ensures err { result ≡ Err Refusal.Invalid → converted of_json (value depth reader.old) ≡ None }
{
    let token = reader.next().ok_or(Refusal::Invalid)?;
    match token {
        Token::String(text) => Ok(Node::Text(text)),
        Token::Number(text) => match number_of(text) {
            Some(number) => Ok(Node::Number(number)),
            None => Err(Refusal::Invalid),
        },
        Token::Bool(truth) => Ok(Node::Bool(truth)),
        Token::Null => Ok(Node::Null),
        Token::EndObject | Token::EndArray | Token::Key(_) | Token::Bad => Err(Refusal::Invalid),
        Token::BeginArray => {
            if depth == 0 {
                return Err(Refusal::Invalid);
            }
            Ok(Node::Array(read_items(alloc, reader, depth - 1)?))
        }
        Token::BeginObject => {
            if depth == 0 {
                return Err(Refusal::Invalid);
            }
            Ok(Node::Object(read_members(alloc, reader, depth - 1)?))
        }
    }
}

#[cycle(read)]
fn read_items<'t>(
    alloc: Global,
    reader: &mut Reader<'t>,
    depth: usize,
) -> Result<Vec<Node<'t>>, Refusal>
    ensures ok { IfOk result
        (λ v. converted of_items (items (value depth) (length reader.old) reader.old)
        ≡ Some (items_view v.items, reader.new)) }
    ensures shorter { OnOk result (length reader.new < length reader.old) }
    ensures err { result ≡ Err Refusal.Invalid
        → converted of_items (items (value depth) (length reader.old) reader.old) ≡ None }
{
    let mut found = Vec::new(alloc);
    'items: while !reader.take_end_array() {
        let item = read(alloc, reader, depth)?;
        found.push(item)?;
    }
    Ok(found)
}

#[cycle(read)]
fn read_members<'t>(
    alloc: Global,
    reader: &mut Reader<'t>,
    depth: usize,
) -> Result<Members<'t>, Refusal>
    ensures ok { IfOk result
        (λ v. converted (λ ms. of_members ms no_members)
        (members (value depth) (length reader.old) reader.old)
        ≡ Some (members_view v.items, reader.new)) }
    ensures shorter { OnOk result (length reader.new < length reader.old) }
    ensures err { result ≡ Err Refusal.Invalid
        → converted (λ ms. of_members ms no_members)
        (members (value depth) (length reader.old) reader.old) ≡ None }
{
    let mut found = Vec::with_capacity(alloc, MEMBER_ROOM)?;
    'members: while let Some(name) = reader.next_key()? {
        let member = read(alloc, reader, depth)?;
        found.push((name, member))?;
    }
    Ok(found)
}

/// The value that the text is.
fn read_text<'t>(
    alloc: Global,
    scratch: &'t mut Scratch<Global>,
    text: &'t str,
) -> Result<Node<'t>, Refusal>
    ensures ok { IfOk result (λ v. read_text text.now ≡ Some (view v)) }
    ensures err { result ≡ Err Refusal.Invalid → read_text text.now ≡ None }
{
    let mut reader = Reader::new(text, scratch)?;
    let node = read(alloc, &mut reader, MAX_DEPTH)?;
    if reader.next().is_some() {
        return Err(Refusal::Invalid);
    }
    Ok(node)
}

fn text_json<'t, F: Drop>(
    alloc: Global,
    scratch: &'t mut Scratch<Global>,
    text: &'t str,
    fault: F,
) -> Result<Node<'t>, ReadError<F>>
    ensures { Gives view result (required fault (read_text text.now)) }
{
    match read_text(alloc, scratch, text) {
        Ok(node) => Ok(node),
        Err(Refusal::Memory) => Err(ReadError::Memory),
        Err(Refusal::Invalid) => Err(ReadError::Fault(fault)),
    }
}

/// The value that the bytes are, over them, or this fault where they aren't UTF-8 or no JSON text. The
/// scratch holds the texts that have escapes, and may serve the next bytes.
pub fn read_json<'t, F: Drop>(
    alloc: Global,
    scratch: &'t mut Scratch<Global>,
    bytes: &'t [u8],
    fault: F,
) -> Result<Node<'t>, ReadError<F>>
    ensures { Gives view result (required fault (json bytes.now)) }
{
    match simdutf8::compat::from_utf8(bytes) {
        Ok(text) => text_json(alloc, scratch, text, fault),
        Err(_) => Err(ReadError::Fault(fault)),
    }
}
