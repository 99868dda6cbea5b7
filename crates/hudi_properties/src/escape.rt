//! Escapes in the keys and values of properties.

ghost use Rattle.std.specs.Prelude.{◌≡◌, ◌<◌, ◌^◌, ◌++◌, IfOk, OnOk, IfSome, option_map, option_to_list};
ghost use Rattle.hudi_properties.specs.Escapes.{named, step, units_from, utf16_text, unescaped, IsEscape};

use lake_basics::{Items, Text};
use std::alloc::{AllocError, Global};

/// Where a byte stands: in no escape, behind a backslash, or in the hex digits of a UTF-16 unit.
#[derive(Clone, Copy)]
pub(crate) enum Escape {
    Outside,
    Backslash,
    Hex { digits: u8, value: u16 },
}

fn named_byte(byte: u8) -> u8
    ensures { result ≡ named byte }
{
    match byte {
        b't' => b'\t',
        b'n' => b'\n',
        b'r' => b'\r',
        b'f' => 12,
        _ => byte,
    }
}

/// One more byte: the place behind it, and the unit that is whole then. None where it isn't the hex digit that has to come.
fn step_of(state: Escape, byte: u8) -> Option<(Escape, Option<u16>)>
    requires { IsEscape state }
    ensures value { result ≡ step state byte }
    ensures escape { IfSome result (λ r. IsEscape r.0) }
{
    match state {
        Escape::Outside => {
            if byte == b'\\' {
                Some((Escape::Backslash, None))
            } else {
                Some((Escape::Outside, Some(u16::from(byte))))
            }
        }
        Escape::Backslash => {
            if byte == b'u' {
                Some((
                    Escape::Hex {
                        digits: 0,
                        value: 0,
                    },
                    None,
                ))
            } else {
                Some((Escape::Outside, Some(u16::from(named_byte(byte)))))
            }
        }
        Escape::Hex { digits, value } => {
            let digit = char::from(byte).to_digit(16)?;
            let value = value * 16 + digit as u16;
            if digits == 3 {
                Some((Escape::Outside, Some(value)))
            } else {
                Some((
                    Escape::Hex {
                        digits: digits + 1,
                        value,
                    },
                    None,
                ))
            }
        }
    }
}

/// The UTF-16 units that the bytes spell, if each escape of a unit is whole.
fn units_of(alloc: Global, bytes: &[u8]) -> Result<Option<Items<u16>>, AllocError>
    ensures { IfOk result (λ o. o ≡ units_from Escape.Outside bytes.now) }
{
    let mut units = Vec::new(alloc);
    let mut state = Escape::Outside;
    for byte in bytes {
        let Some((next, unit)) = step_of(state, *byte) else {
            return Ok(None);
        };
        push_if_any(&mut units, unit)?;
        state = next;
    }
    if let Escape::Hex { .. } = state {
        return Ok(None);
    }
    Ok(Some(Items::from_vec(units)))
}

fn push_if_any(units: &mut Vec<u16>, unit: Option<u16>) -> Result<(), AllocError>
    ensures { OnOk result (units.new.items ≡ units.old.items ++ option_to_list unit) }
{
    if let Some(unit) = unit {
        units.push(unit)?;
    }
    Ok(())
}

/// The text of UTF-16 units, if each surrogate is in a pair.
fn text_of_units(alloc: Global, units: &[u16]) -> Result<Option<Text>, AllocError>
    ensures { IfOk result (λ o. o ≡ utf16_text units.now) }
{
    match String::from_utf16(alloc, units)? {
        Ok(text) => Ok(Some(Text::from_string(text))),
        Err(_) => Ok(None),
    }
}

/// The text that the bytes spell, if their escapes are whole.
#[tactic(auto, unfolding(crate::specs::Escapes::unescaped))]
pub(crate) fn unescaped(alloc: Global, bytes: &[u8]) -> Result<Option<Text>, AllocError>
    ensures { IfOk result (λ o. o ≡ unescaped bytes.now) }
{
    match units_of(alloc, bytes)? {
        None => Ok(None),
        Some(units) => text_of_units(alloc, units.as_slice()),
    }
}
