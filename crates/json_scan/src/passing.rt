//! Passing over a value that isn't kept.

ghost use Rattle.std.specs.Prelude.{◌≡◌, ◌<◌, length, Some, None, MatchResult, OnOk};
ghost use Rattle.json_reading.specs.Json.{whole};
ghost use Rattle.json_scan.specs.Passing.{passed, passed_items, passed_members, kept, behind};

use crate::number::number_whole;
use json::{Invalid, Reader, Token};

/// Passes the next value, and gives the whole number of 64 bits that it is, if it is one. Arrays and objects may nest
/// this deep.
#[cycle(pass)]
pub(crate) fn pass_value(reader: &mut Reader<'_>, depth: usize) -> Result<Option<i64>, Invalid>
    ensures value { MatchResult result
        (λ n. kept whole (passed depth reader.old) ≡ Some (n, reader.new))
        (λ _. passed depth reader.old ≡ None) }
    ensures shorter { OnOk result (length reader.new < length reader.old) }
{
    let token = reader.next().ok_or(Invalid)?;
    match token {
        Token::Number(text) => match number_whole(text) {
            Some(whole) => Ok(whole),
            None => Err(Invalid),
        },
        Token::String(_) | Token::Bool(_) | Token::Null => Ok(None),
        Token::EndObject | Token::EndArray | Token::Key(_) | Token::Bad => Err(Invalid),
        Token::BeginArray => {
            if depth == 0 {
                return Err(Invalid);
            }
            pass_items(reader, depth - 1)?;
            Ok(None)
        }
        Token::BeginObject => {
            if depth == 0 {
                return Err(Invalid);
            }
            pass_members(reader, depth - 1)?;
            Ok(None)
        }
    }
}

#[cycle(pass)]
fn pass_items(reader: &mut Reader<'_>, depth: usize) -> Result<(), Invalid>
    ensures value { MatchResult result
        (λ _. behind (passed_items depth reader.old) ≡ Some reader.new)
        (λ _. passed_items depth reader.old ≡ None) }
    ensures shorter { OnOk result (length reader.new < length reader.old) }
{
    'items: while !reader.take_end_array() {
        pass_value(reader, depth)?;
    }
    Ok(())
}

#[cycle(pass)]
fn pass_members(reader: &mut Reader<'_>, depth: usize) -> Result<(), Invalid>
    ensures value { MatchResult result
        (λ _. behind (passed_members depth reader.old) ≡ Some reader.new)
        (λ _. passed_members depth reader.old ≡ None) }
    ensures shorter { OnOk result (length reader.new < length reader.old) }
{
    'members: while let Some(_) = reader.next_key()? {
        pass_value(reader, depth)?;
    }
    Ok(())
}
