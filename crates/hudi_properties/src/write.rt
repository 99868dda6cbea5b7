//! Writing properties.

ghost use Rattle.std.specs.Prelude.{◌≡◌, ◌<◌, ◌≤◌, ◌++◌, ◌∷◌, [], IfOk, IfErr, OnOk, None, true, Ok};
ghost use Rattle.std.specs.List.{flat_map};
ghost use Rattle.std.specs.Str.{chars, IsUtf8};
ghost use Rattle.hudi_properties.specs.Pairs.{in_order, properties_of};
ghost use Rattle.std.specs.Fmt.{digit_glyph};
ghost use Rattle.hudi_properties.specs.Written.{is_marked, name_of, escaped_unit, escaped_char, escaped_other, escaped_far, escaped, pair_text, properties_text, IsUtf8Pair};

use crate::pair::Pairs;
use hudi_names::HudiError;
use lake_basics::{Blob, Text};
use std::alloc::{AllocError, Global};

/// Whether a backslash stands before the character.
fn is_marked(c: char) -> bool
    ensures { result ≡ is_marked c }
{
    c == '\\' || c == '=' || c == ':' || c == '#' || c == '!' || c == ' '
}

/// The letter behind the backslash of a control character that has one.
fn name_of(c: char) -> Option<u8>
    ensures { result ≡ name_of c }
{
    if c == '\t' {
        Some(b't')
    } else if c == '\n' {
        Some(b'n')
    } else if c == '\r' {
        Some(b'r')
    } else if c == '\u{c}' {
        Some(b'f')
    } else {
        None
    }
}

fn hex_digit(digit: u16) -> u8
    requires { digit < 16 }
    ensures { result ≡ digit_glyph true digit }
{
    if digit < 10 {
        b'0' + digit as u8
    } else {
        55 + digit as u8
    }
}

fn push_unit(out: &mut Vec<u8>, unit: u16) -> Result<(), AllocError>
    ensures { OnOk result (out.new.items ≡ out.old.items ++ escaped_unit unit) }
{
    let escape = [
        b'\\',
        b'u',
        hex_digit(unit / 4096),
        hex_digit(unit / 256 % 16),
        hex_digit(unit / 16 % 16),
        hex_digit(unit % 16),
    ];
    out.extend_from_slice(&escape)
}

fn push_char(out: &mut Vec<u8>, c: char) -> Result<(), AllocError>
    ensures { OnOk result (out.new.items ≡ out.old.items ++ escaped_char c) }
{
    if is_marked(c) {
        return out.extend_from_slice(&[b'\\', c as u8]);
    }
    match name_of(c) {
        Some(name) => out.extend_from_slice(&[b'\\', name]),
        None => push_unnamed(out, c),
    }
}

fn push_unnamed(out: &mut Vec<u8>, c: char) -> Result<(), AllocError>
    ensures { OnOk result (out.new.items ≡ out.old.items ++ escaped_other c None) }
{
    let code = u32::from(c);
    if code >= 32 && code <= 126 {
        out.push(code as u8)?;
        return Ok(());
    }
    push_far(out, code)
}

fn push_far(out: &mut Vec<u8>, code: u32) -> Result<(), AllocError>
    requires { code < 0x110000 }
    ensures { OnOk result (out.new.items ≡ out.old.items ++ escaped_far code) }
{
    if code < 0x10000 {
        return push_unit(out, code as u16);
    }
    push_unit(out, (0xD800 + (code - 0x10000) / 1024) as u16)?;
    push_unit(out, (0xDC00 + (code - 0x10000) % 1024) as u16)?;
    Ok(())
}

fn chars_of(alloc: Global, text: &Text) -> Result<Vec<char>, AllocError>
    ensures chars { IfOk result (λ v. v.items ≡ chars text.now) }
    ensures utf8 { IsUtf8 text.now }
{
    text.as_str().chars().collect(alloc)
}

fn push_text(alloc: Global, out: &mut Vec<u8>, text: &Text) -> Result<(), AllocError>
    ensures text { OnOk result (out.new.items ≡ out.old.items ++ escaped text.now) }
    ensures utf8 { OnOk result (IsUtf8 text.now) }
{
    let chars = chars_of(alloc, text)?;
    for c in &chars {
        push_char(out, *c)?;
    }
    Ok(())
}

fn push_pair(alloc: Global, out: &mut Vec<u8>, key: &Text, value: &Text) -> Result<(), AllocError>
    ensures text { OnOk result (out.new.items ≡ out.old.items ++ pair_text (key.now, value.now)) }
    ensures utf8 { OnOk result (IsUtf8Pair (key.now, value.now)) }
{
    push_text(alloc, out, key)?;
    out.push(b'=')?;
    push_text(alloc, out, value)?;
    out.push(b'\n')?;
    Ok(())
}

/// The bytes of properties: a line for each pair. `read_properties` reads the pairs, in the order of their keys.
pub fn properties_text(alloc: Global, pairs: &Pairs) -> Result<Blob, HudiError>
    ensures text { IfOk result (λ b. b ≡ properties_text pairs.now) }
    ensures reads_back { IfOk result (λ b. properties_of b ≡ Ok (in_order pairs.now)) }
    ensures memory { IfErr result (λ e. e ≡ HudiError.Memory) }
{
    let mut out = Vec::new(alloc);
    for (key, value) in pairs.as_slice() {
        push_pair(alloc, &mut out, key, value)?;
    }
    Ok(Blob::from_vec(out))
}
