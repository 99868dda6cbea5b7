//! Partition values in the folders of files.
ghost use Rattle.std.specs.Prelude.{◌≡◌, ◌↔◌, ℕ, List, length, map, option_map, true, IsTrue, IsFalse, IfOk, IfSome, vec_len};
ghost use Rattle.std.specs.Borrow.{Bor};
ghost use Rattle.std.specs.Cow.{cow_str_bytes};
ghost use Rattle.std.specs.Option.{option_copied};
ghost use Rattle.std.specs.Str.{bytes_eq};
ghost use Rattle.partition_map.specs.Folder.{texts_of, folder_components, last_components, unescaped_bytes, unescaped_text, value_part, IsValuePartOrNone, PartCarries, CarriesValue, EachCarries, CarriesValues};

use crate::texts::stands_in_folder;
use lake_basics::Text;
use memchr::memchr;
use percent_encoding::{DecodeError, percent_decode_str};
use std::alloc::{AllocError, Global};
use std::borrow::CowStr;
use table_history::PartValue;

/// How the folders of a table spell partition values.
#[derive(Clone, Copy, Debug, PartialEq, Eq)]
pub struct FolderStyle {
    /// Each component is `name=value`, and not the value alone.
    pub hive_style: bool,
    /// Names and values are percent-encoded.
    pub url_encode: bool,
}

impl FolderStyle {
    /// Hive style, with escapes.
    pub const HIVE: FolderStyle = FolderStyle {
        hive_style: true,
        url_encode: true,
    };
}

/// Whether the last components of the path's folder spell the values of the columns, in their
/// order, in hive style with escapes. True where there are no columns.
pub fn path_carries(
    alloc: Global,
    path: &str,
    columns: &[Text],
    values: &[PartValue],
) -> Result<bool, AllocError>
    ensures { IfOk result
        (λ carried. IsTrue carried ↔ CarriesValues path.now columns.now values.now) }
{
    match last_components(alloc, path, columns.len())? {
        None => Ok(false),
        Some(components) => each_carries(alloc, columns, components.as_slice(), values),
    }
}

// Whether each component spells the value of its column.
fn each_carries(
    alloc: Global,
    columns: &[Text],
    components: &[&str],
    values: &[PartValue],
) -> Result<bool, AllocError>
    requires { length components.now ≡ length columns.now }
    ensures { IfOk result (λ carried. IsTrue carried
        ↔ EachCarries columns.now (map (λ (c : Bor (List ℕ)). c.now) components.now) values.now) }
{
    if values.len() < columns.len() {
        return Ok(false);
    }
    for i in 0..columns.len() {
        if !carries_value(alloc, columns[i].as_str(), components[i], &values[i])? {
            return Ok(false);
        }
    }
    Ok(true)
}

// Whether the component spells the column's value, in hive style with escapes.
fn carries_value(
    alloc: Global,
    column: &str,
    component: &str,
    value: &PartValue,
) -> Result<bool, AllocError>
    ensures { IfOk result
        (λ carried. IsTrue carried ↔ CarriesValue column.now component.now value.now) }
{
    match value_part(alloc, FolderStyle::HIVE, column, component)? {
        None => Ok(false),
        Some(part) => part_carries(alloc, part, value),
    }
}

fn part_carries(alloc: Global, part: &str, value: &PartValue) -> Result<bool, AllocError>
    ensures { IfOk result (λ carried. IsTrue carried ↔ PartCarries part.now value.now) }
{
    match unescape(alloc, FolderStyle::HIVE, part)? {
        None => Ok(false),
        Some(text) => Ok(stands_in_folder(text.as_str(), value)),
    }
}

/// The last `count` components of the path's folder, in order. None where there are fewer.
pub fn last_components(
    alloc: Global,
    path: &str,
    count: usize,
) -> Result<Option<Vec<&str>>, AllocError>
    ensures value { IfOk result
        (λ last. option_map texts_of last ≡ last_components count path.now) }
    ensures len { IfOk result (λ last. IfSome last (λ parts. vec_len parts ≡ count)) }
{
    let mut components = folder_components(alloc, path)?;
    if components.len() < count {
        return Ok(None);
    }
    let last = components.split_off(components.len() - count)?;
    Ok(Some(last))
}

// The components of the path's folder: what stands before each `/`.
fn folder_components(alloc: Global, path: &str) -> Result<Vec<&str>, AllocError>
    ensures { IfOk result (λ parts. texts_of parts ≡ folder_components path.now) }
{
    let mut components: Vec<&str> = path.split('/').collect(alloc)?;
    let _name = components.pop();
    Ok(components)
}

/// The part of a folder's component that spells the column's value: in hive style what stands
/// behind the first `=`. None where the part before it isn't the column's name.
pub fn value_part<'a>(
    alloc: Global,
    style: FolderStyle,
    column: &str,
    component: &'a str,
) -> Result<Option<&'a str>, AllocError>
    ensures value { IfOk result
        (λ part. option_copied part ≡ value_part style column.now component.now) }
    ensures meaning { IfOk result (λ part. IsValuePartOrNone style column.now component.now part) }
{
    if !style.hive_style {
        return Ok(Some(component));
    }
    match component.split_once('=') {
        None => Ok(None),
        Some((name, part)) => {
            if is_name_of(alloc, style, column, name)? {
                Ok(Some(part))
            } else {
                Ok(None)
            }
        }
    }
}

// Whether the name part of a component is the column's.
fn is_name_of(
    alloc: Global,
    style: FolderStyle,
    column: &str,
    name: &str,
) -> Result<bool, AllocError>
    ensures { IfOk result (λ same. same ≡ bytes_eq (unescaped_bytes style name.now) column.now) }
{
    if !may_unescape(style, name) {
        return Ok(name == column);
    }
    let name = percent_decode_str(name).into_cow(alloc)?;
    Ok(name.as_slice() == column.as_bytes())
}

// Whether the part of a component holds what may be an escape. Without that it stands for itself.
fn may_unescape(style: FolderStyle, part: &str) -> bool
    ensures encoded { IsTrue result → style.url_encode ≡ true }
    ensures same { IsFalse result → unescaped_bytes style part.now ≡ part.now }
{
    style.url_encode && memchr(b'%', part.as_bytes()).is_some()
}

/// The text of a part of a component, percent-decoded where the table's folders are. None where
/// that isn't UTF-8.
pub fn unescape<'a>(
    alloc: Global,
    style: FolderStyle,
    part: &'a str,
) -> Result<Option<CowStr<'a>>, AllocError>
    ensures { IfOk result
        (λ text. option_map cow_str_bytes text ≡ unescaped_text style part.now) }
{
    if !may_unescape(style, part) {
        return Ok(Some(CowStr::Borrowed(part)));
    }
    match percent_decode_str(part).decode_utf8(alloc) {
        Ok(text) => Ok(Some(text)),
        Err(DecodeError::Utf8(_)) => Ok(None),
        Err(DecodeError::OutOfMemory) => Err(AllocError),
    }
}
