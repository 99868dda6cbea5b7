//! The count that an object states under a name.

ghost use Rattle.std.specs.Prelude.{◌≡◌, ◌≢◌, ◌<◌, ◌^◌, ◌∷◌, [], false, Some, None, MatchResult, IfOk, IfSome, option_map, if◌then◌else◌};
ghost use Rattle.std.specs.Str.{bytes_eq};
ghost use Rattle.json.specs.Token.{begin_object};
ghost use Rattle.lake_basics.specs.Outcome.{Gives};
ghost use Rattle.json_scan.specs.Passing.{passed_members, begins_object, whole_object, named_whole, kept};
ghost use Rattle.json_scan.specs.Stated.{stated_count, told};

use crate::passing::pass_value;
use json::{Invalid, Reader, Scratch, Token};
use lake_basics::ReadError;
use std::alloc::Global;

/// How deep the members of an object may nest, so that with it they nest at most 127 deep.
const MEMBER_DEPTH: usize = 126;

fn take_brace(reader: &mut Reader<'_>) -> Result<(), Invalid>
    ensures { MatchResult result
        (λ _. reader.old ≡ begin_object ∷ reader.new)
        (λ _. begins_object reader.old ≡ false) }
{
    match reader.next() {
        Some(Token::BeginObject) => Ok(()),
        _ => Err(Invalid),
    }
}

fn take_end(reader: &mut Reader<'_>) -> Result<(), Invalid>
    ensures { MatchResult result (λ _. reader.old ≡ []) (λ _. reader.old ≢ []) }
{
    match reader.next() {
        None => Ok(()),
        Some(_) => Err(Invalid),
    }
}

/// What is found with one member more. Of two with the name the later stands.
fn found_with(
    found: Option<Option<i64>>,
    name: &str,
    key: &str,
    whole: Option<i64>,
) -> Option<Option<i64>>
    ensures { result ≡ (if bytes_eq key.now name.now then Some whole else found) }
{
    if key == name { Some(whole) } else { found }
}

/// The whole number under that name among the members of an object that was opened.
fn whole_in_members(reader: &mut Reader<'_>, name: &str) -> Result<Option<Option<i64>>, Invalid>
    ensures { MatchResult result
        (λ n. kept (named_whole name.now) (passed_members 126 reader.old) ≡ Some (n, reader.new))
        (λ _. passed_members 126 reader.old ≡ None) }
{
    let mut found = None;
    'members: while let Some(key) = reader.next_key()? {
        let whole = pass_value(reader, MEMBER_DEPTH)?;
        found = found_with(found, name, key, whole);
    }
    Ok(found)
}

/// The whole number under that name in the object that is left to read.
fn whole_in_object(reader: &mut Reader<'_>, name: &str) -> Result<Option<Option<i64>>, Invalid>
    ensures { MatchResult result
        (λ n. option_map (named_whole name.now) (whole_object reader.old) ≡ Some n)
        (λ _. whole_object reader.old ≡ None) }
{
    take_brace(reader)?;
    let found = whole_in_members(reader, name)?;
    take_end(reader)?;
    Ok(found)
}

fn told<F: Drop>(
    found: Result<Option<Option<i64>>, Invalid>,
    fault: F,
) -> Result<Option<u64>, ReadError<F>>
    ensures read { Gives (λ n. n) result (told fault found) }
    ensures small { IfOk result (λ n. IfSome n (λ n. n < 2 ^ 63)) }
{
    match found {
        Ok(None) => Ok(None),
        Ok(Some(Some(whole))) if whole >= 0 => Ok(Some(whole as u64)),
        _ => Err(ReadError::Fault(fault)),
    }
}

/// The count, from 0 to 2^63 - 1, that the text of a JSON object (RFC 8259) states under this name,
/// or none where it has no such member. Where the text is no object, and where the member is no
/// count, it is this fault. The scratch grows to the length of the text, and may serve the next one.
pub fn stated_count<F: Drop>(
    scratch: &mut Scratch<Global>,
    text: &str,
    name: &str,
    fault: F,
) -> Result<Option<u64>, ReadError<F>>
    ensures read { Gives (λ n. n) result (stated_count fault name.now text.now) }
    ensures small { IfOk result (λ n. IfSome n (λ n. n < 2 ^ 63)) }
{
    let mut reader = Reader::new(text, scratch)?;
    told(whole_in_object(&mut reader, name), fault)
}
