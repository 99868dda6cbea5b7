//! Paths as relative URIs, as Delta commits have them.
ghost use Rattle.std.specs.Prelude.{◌≡◌, ◌++◌, ◌==◌, true, IsTrue, IfOk, IfErr, OnOk, length, slice_index, string_bytes, take_while};
ghost use Rattle.std.specs.List.{list_all};
ghost use Rattle.percent_encoding.specs.Percent.{percent_decode};
ghost use Rattle.table_history.specs.Path.{IsPath};
ghost use Rattle.partition_map.specs.Uri.{is_plain, escaped_byte, escaped_path, is_scheme_byte, colon, NamesPath, ExplainsRefusal};
ghost use Rattle.partition_map.specs.UriPath.{is_outside, begins_hex, is_path_byte, is_well_escaped, path_place, uri_path, inside_table, GivesPath, RefusesPath};

use crate::error::PartError;
use lake_basics::Text;
use lake_basics::limits::MAX_PATH_BYTES;
use memchr::memchr3;
use percent_encoding::{percent_decode, percent_encode_byte};
use std::alloc::{AllocError, Global};
use std::borrow::CowSlice;
use table_history::path_form_of_any_length;

/// The path as a relative URI: each byte but ASCII letters, digits and `-._~/=` is escaped, with
/// upper-case hex digits. Memory alone is refused.
pub fn encode_uri_path(alloc: Global, path: &str) -> Result<Text, PartError>
    ensures value { IfOk result (λ t. t ≡ escaped_path path.now) }
    ensures names { IfOk result (λ t. IsPath path.now → NamesPath t path.now) }
    ensures reads_back { IfOk result (λ t. IsPath path.now → uri_path t ≡ inside_table path.now) }
    ensures refused { IfErr result (λ e. e ≡ PartError.Memory) }
{
    Ok(escaped(alloc, path)?)
}

// The text with its escapes. Most paths have none, and are copied in one go.
fn escaped(alloc: Global, path: &str) -> Result<Text, AllocError>
    ensures { IfOk result (λ t. t ≡ escaped_path path.now) }
{
    if are_plain(path.as_bytes()) {
        return Text::from_str(alloc, path);
    }
    let mut uri = String::with_capacity(alloc, path.len())?;
    for byte in path.as_bytes() {
        push_escaped(&mut uri, *byte)?;
    }
    Ok(Text::from_string(uri))
}

fn are_plain(bytes: &[u8]) -> bool
    ensures { result ≡ list_all is_plain bytes.now }
{
    bytes.iter().all(|byte| is_plain(*byte))
}

fn push_escaped(uri: &mut String, byte: u8) -> Result<(), AllocError>
    ensures { OnOk result (string_bytes uri.new ≡ string_bytes uri.old ++ escaped_byte byte) }
{
    if is_plain(byte) {
        uri.push(char::from(byte))
    } else {
        uri.push_str(percent_encode_byte(byte))
    }
}

fn is_plain(byte: u8) -> bool
    ensures { result ≡ is_plain byte }
{
    byte.is_ascii_alphanumeric() || matches!(byte, b'-' | b'.' | b'_' | b'~' | b'/' | b'=')
}

/// The path that a relative URI names. What begins with `/`, or with a scheme and `:`, is
/// `OutsideTable`. What holds `?`, `#` or a `%` without two hex digits, or unescapes to no path, is
/// `BadPath`, and `TooLong` where the rule on a path's length alone is broken.
pub fn decode_uri_path(alloc: Global, uri: &str) -> Result<Text, PartError>
    ensures reading { GivesPath (uri_path uri.now) result }
    ensures ok { IfOk result (NamesPath uri.now) }
    ensures refused { IfErr result (ExplainsRefusal uri.now) }
{
    let bytes = uri.as_bytes();
    if is_outside(bytes) {
        return Err(PartError::OutsideTable);
    }
    if is_literal(bytes) {
        return literal_path(alloc, uri);
    }
    if !is_well_escaped(bytes) {
        return Err(PartError::BadPath);
    }
    place_path(unescaped(alloc, bytes)?)
}

// Whether there is no `?`, no `#` and no `%`, so that each byte stands for itself.
fn is_literal(uri: &[u8]) -> bool
    ensures escapes { IsTrue result → is_well_escaped uri.now ≡ true }
    ensures same { IsTrue result → percent_decode uri.now ≡ uri.now }
{
    memchr3(b'?', b'#', b'%', uri).is_none()
}

// The path of a text in which each byte stands for itself, where it is one.
fn literal_path(alloc: Global, text: &str) -> Result<Text, PartError>
    ensures { GivesPath (path_place text.now) result }
{
    check_path(text.as_bytes())?;
    Ok(Text::from_str(alloc, text)?)
}

// The bytes without escapes.
fn unescaped(alloc: Global, uri: &[u8]) -> Result<Vec<u8>, AllocError>
    ensures { IfOk result (λ bytes. bytes.items ≡ percent_decode uri.now) }
{
    match percent_decode(uri).into_cow(alloc)? {
        CowSlice::Borrowed(plain) => Vec::from_slice(alloc, plain),
        CowSlice::Owned(bytes) => Ok(bytes),
    }
}

// The path of unescaped bytes, where they are one.
fn place_path(bytes: Vec<u8>) -> Result<Text, PartError>
    ensures { GivesPath (path_place bytes.items) result }
{
    let Ok(path) = String::from_utf8(bytes) else {
        return Err(PartError::BadPath);
    };
    check_path(path.as_bytes())?;
    Ok(Text::from_string(path))
}

// Why unescaped bytes are no path, where they are none.
fn check_path(bytes: &[u8]) -> Result<(), PartError>
    ensures ok { IfOk result (λ _. path_place bytes.now ≡ inside_table bytes.now) }
    ensures refused { IfErr result (RefusesPath (path_place bytes.now)) }
{
    if !path_form_of_any_length(bytes) {
        return Err(PartError::BadPath);
    }
    if bytes.len() as u64 > MAX_PATH_BYTES {
        return Err(PartError::TooLong);
    }
    Ok(())
}

fn is_outside(uri: &[u8]) -> bool
    ensures { result ≡ is_outside uri.now }
{
    match uri {
        [b'/', ..] => true,
        [first, ..] => first.is_ascii_alphabetic() && ends_scheme(uri),
        [] => false,
    }
}

// Whether `:` stands behind the longest part in front that may be a scheme.
fn ends_scheme(uri: &[u8]) -> bool
    ensures { result ≡ (slice_index uri.now (length (take_while is_scheme_byte uri.now)) == colon) }
{
    let len = scheme_len(uri);
    len < uri.len() && uri[len] == b':'
}

fn scheme_len(uri: &[u8]) -> usize
    ensures { result ≡ length (take_while is_scheme_byte uri.now) }
{
    uri.iter().take_while(|b| is_scheme_byte(**b)).count()
}

fn is_scheme_byte(byte: u8) -> bool
    ensures { result ≡ is_scheme_byte byte }
{
    byte.is_ascii_alphanumeric() || matches!(byte, b'+' | b'-' | b'.')
}

// Whether there is no `?` and no `#`, and two hex digits stand behind each `%`.
fn is_well_escaped(uri: &[u8]) -> bool
    ensures { result ≡ is_well_escaped uri.now }
{
    for i in 0..uri.len() {
        if !is_path_byte(uri[i], &uri[i + 1..]) {
            return false;
        }
    }
    true
}

fn is_path_byte(byte: u8, rest: &[u8]) -> bool
    ensures { result ≡ is_path_byte byte rest.now }
{
    match byte {
        b'?' | b'#' => false,
        b'%' => begins_hex(rest),
        _ => true,
    }
}

fn begins_hex(bytes: &[u8]) -> bool
    ensures { result ≡ begins_hex bytes.now }
{
    bytes.len() > 1 && char::from(bytes[0]).is_digit(16) && char::from(bytes[1]).is_digit(16)
}
