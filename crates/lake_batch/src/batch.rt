//! Batch files.
ghost use Rattle.std.specs.Prelude.{◌≡◌, ◌↔◌, ◌+◌, ◌<◌, ◌≤◌, ◌^◌, All, IfOk, IsErrOf, IsTrue, MatchOption, get_or, length, map, option_map, take, true};
ghost use Rattle.std.specs.List.{IsDistinct, list_any};
ghost use Rattle.std.specs.Str.{bytes_eq};
ghost use Rattle.table_history.specs.Path.{IsPath};
ghost use Rattle.toml.specs.View.{array_view, table_view, view};
ghost use Rattle.lake_basics.specs.Outcome.{Gives, each};
ghost use Rattle.sync_driver.specs.Forms.{location};
ghost use Rattle.lake_batch.specs.declared.batch.Why.{Why};
ghost use Rattle.lake_batch.specs.Batch.{AreApart, AreFolders, IsJudgedSo, IsNoToml, IsReadBy, IsReadSo, IsToml, LiesInOne, batch_error, folder_of};
ghost use Rattle.lake_batch.specs.Reading.{item_in, item_of_members, items_in, list_of, only_member, tables_in, text_in, texts_in, two_members};

use indexmap::IndexSet;
use lake_basics::{Items, ReadError, Text};
use std::alloc::{AllocError, Global};
use sync_driver::location_of;
use table_history::path_form;
use toml::value::Array;
use toml::{Table, Value, table_from_slice};

/// The most bytes of a batch file.
pub(crate) const MAX_BATCH_BYTES: usize = 1_048_576;

/// The most tables of a batch.
const MAX_TABLES: usize = 1_000;

/// The most bytes of a table's place.
const MAX_PLACE_BYTES: usize = 1_024;

/// Why a batch file isn't one. A cause comes only where no earlier one does.
#[derive(Clone, Copy, Debug, PartialEq, Eq)]
pub enum Why {
    /// There is no such file.
    Missing,
    /// It has more than 1,048,576 bytes.
    Long,
    /// It is no TOML document.
    Syntax,
    /// It isn't of a batch's form.
    Shape,
    /// It has more than 1,000 tables.
    Many,
    /// A folder is no path, or it and the place before it are longer than 1,024 bytes.
    Folder,
    /// A folder is another one, or lies in it.
    Overlap,
}

/// Why a batch wasn't read.
#[derive(Clone, Copy, Debug, PartialEq, Eq, thiserror::Error)]
pub enum BatchError {
    #[error("out of memory")]
    Memory,
    #[error("the file is no batch")]
    File { why: Why },
}

// The same error by its public name.
fn error_of(error: ReadError<Why>) -> BatchError
    ensures { result ≡ batch_error error }
{
    match error {
        ReadError::Memory => BatchError::Memory,
        ReadError::Fault(why) => BatchError::File { why },
    }
}

/// A table of a batch: its folder, and the words of its command behind the place.
#[derive(Debug, Drop)]
pub struct Item {
    pub folder: Text,
    pub command: Items<Text>,
}

/// The tables of a batch file, in its order.
#[derive(Debug, Drop)]
pub struct Batch {
    pub tables: Items<Item>,
}

/// The batch that the bytes of a file hold, which runs over tables at this place.
///
/// The bytes are a TOML 1.1 document with the one member `table`, an array of tables. Each of them
/// has a `folder`, which is a text, and a `command`, an array of texts, and nothing else.
pub fn read_batch(alloc: Global, bytes: &[u8], place: &str) -> Result<Batch, BatchError>
    ensures { IsReadSo (location place.now) bytes.now result }
{
    match read_tables(alloc, bytes, location_of(place)) {
        Ok(batch) => Ok(batch),
        Err(error) => Err(error_of(error)),
    }
}

/// The batch that the bytes hold, for tables at this location.
pub(crate) fn read_tables(
    alloc: Global,
    bytes: &[u8],
    location: &str,
) -> Result<Batch, ReadError<Why>>
    ensures { IsReadBy location.now bytes.now result }
{
    if bytes.len() > MAX_BATCH_BYTES {
        return Err(ReadError::Fault(Why::Long));
    }
    let document = document_of(alloc, bytes)?;
    let tables = tables_of(alloc, &document)?;
    judge(alloc, tables.as_slice(), location)?;
    Ok(Batch { tables })
}

fn document_of(alloc: Global, bytes: &[u8]) -> Result<Table, ReadError<Why>>
    ensures ok { IfOk result (λ document. IsToml bytes.now (table_view document)) }
    ensures refused { (why : Why) → IsErrOf result (ReadError.Fault why)
        → (why ≡ Why.Syntax) × IsNoToml bytes.now }
{
    match table_from_slice(alloc, bytes) {
        Ok(document) => Ok(document),
        Err(error) if error.is_memory() => Err(ReadError::Memory),
        Err(_) => Err(ReadError::Fault(Why::Syntax)),
    }
}

// ---- the form

// The member of a table that has just one.
fn only_member(table: &Table) -> Option<(&str, &Value)>
    ensures { option_map (λ m. (m.0.now, view m.1.now)) result ≡ only_member (table_view table.now) }
{
    let mut members = table.iter();
    let (key, value) = members.next()?;
    match members.next() {
        Some(_) => None,
        None => Some((key.as_str(), value)),
    }
}

// The members of a table that has just two, in byte order of their keys.
fn two_members(table: &Table) -> Option<((&str, &Value), (&str, &Value))>
    ensures { option_map (λ m. ((m.0.0.now, view m.0.1.now), (m.1.0.now, view m.1.1.now))) result
        ≡ two_members (table_view table.now) }
{
    let mut members = table.iter();
    let (first, one) = members.next()?;
    let (second, other) = members.next()?;
    match members.next() {
        Some(_) => None,
        None => Some(((first.as_str(), one), (second.as_str(), other))),
    }
}

fn text_of(alloc: Global, value: &Value) -> Result<Text, ReadError<Why>>
    ensures { Gives (λ t. t) result (text_in (view value.now)) }
{
    match value.as_str() {
        None => Err(ReadError::Fault(Why::Shape)),
        Some(text) => Ok(Text::from_str(alloc, text)?),
    }
}

fn each_text(alloc: Global, values: &Array) -> Result<Items<Text>, ReadError<Why>>
    ensures { Gives (λ ts. ts) result (each text_in (list_of (array_view values.now))) }
{
    let mut texts = Items::new(alloc);
    for value in values {
        texts.push(text_of(alloc, value)?)?;
    }
    Ok(texts)
}

fn texts_of(alloc: Global, value: &Value) -> Result<Items<Text>, ReadError<Why>>
    ensures { Gives (λ ts. ts) result (texts_in (view value.now)) }
{
    match value.as_array() {
        None => Err(ReadError::Fault(Why::Shape)),
        Some(values) => each_text(alloc, values),
    }
}

#[tactic(auto, unfolding(crate::specs::Reading::item_of_members))]
fn item_of_table(alloc: Global, table: &Table) -> Result<Item, ReadError<Why>>
    ensures { Gives (λ item. item) result (item_of_members (two_members (table_view table.now))) }
{
    let Some((command, folder)) = two_members(table) else {
        return Err(ReadError::Fault(Why::Shape));
    };
    if command.0 != "command" || folder.0 != "folder" {
        return Err(ReadError::Fault(Why::Shape));
    }
    let command = texts_of(alloc, command.1)?;
    let folder = text_of(alloc, folder.1)?;
    Ok(Item { folder, command })
}

#[tactic(auto, unfolding(crate::specs::Reading::item_in))]
fn item_of(alloc: Global, value: &Value) -> Result<Item, ReadError<Why>>
    ensures { Gives (λ item. item) result (item_in (view value.now)) }
{
    match value.as_table() {
        None => Err(ReadError::Fault(Why::Shape)),
        Some(table) => item_of_table(alloc, table),
    }
}

fn each_item(alloc: Global, values: &Array) -> Result<Items<Item>, ReadError<Why>>
    ensures { Gives (λ items. items) result (each item_in (list_of (array_view values.now))) }
{
    let mut items = Items::new(alloc);
    for value in values {
        items.push(item_of(alloc, value)?)?;
    }
    Ok(items)
}

fn items_of(alloc: Global, value: &Value) -> Result<Items<Item>, ReadError<Why>>
    ensures { Gives (λ items. items) result (items_in (view value.now)) }
{
    match value.as_array() {
        None => Err(ReadError::Fault(Why::Shape)),
        Some(values) => each_item(alloc, values),
    }
}

#[tactic(auto, unfolding(crate::specs::Reading::tables_of_member))]
fn tables_of(alloc: Global, document: &Table) -> Result<Items<Item>, ReadError<Why>>
    ensures { Gives (λ items. items) result (tables_in (table_view document.now)) }
{
    match only_member(document) {
        Some((key, tables)) if key == "table" => items_of(alloc, tables),
        _ => Err(ReadError::Fault(Why::Shape)),
    }
}

// ---- the tables

// Whether the tables may be run at this place, or why not.
fn judge(alloc: Global, tables: &[Item], location: &str) -> Result<(), ReadError<Why>>
    ensures { IsJudgedSo location.now tables.now result }
{
    if tables.len() > MAX_TABLES {
        return Err(ReadError::Fault(Why::Many));
    }
    if !are_folders(tables, location.len()) {
        return Err(ReadError::Fault(Why::Folder));
    }
    if !are_apart(alloc, tables)? {
        return Err(ReadError::Fault(Why::Overlap));
    }
    Ok(())
}

// Whether the folder is a path that fits behind a location of so many bytes.
fn is_folder(item: &Item, before: usize) -> bool
    requires { before < 2 ^ 63 }
    ensures { IsTrue result ↔ (IsPath item.now.folder
        × (before + 1 + length item.now.folder ≤ 1024)) }
{
    let folder = item.folder.as_bytes();
    path_form(folder) && before + 1 + folder.len() <= MAX_PLACE_BYTES
}

// Whether each folder is.
fn are_folders(tables: &[Item], before: usize) -> bool
    requires { before < 2 ^ 63 }
    ensures { IsTrue result ↔ AreFolders before tables.now }
{
    for item in tables {
        if !is_folder(item, before) {
            return false;
        }
    }
    true
}

// The folders, unless one of them stands twice.
fn distinct_folders(alloc: Global, tables: &[Item]) -> Result<Option<IndexSet<&[u8]>>, AllocError>
    ensures { IfOk result (λ set. MatchOption set (¬ IsDistinct bytes_eq (map folder_of tables.now))
        (λ set. IsDistinct bytes_eq (map folder_of tables.now)
        × (map (λ s. s.now) set.keys ≡ map folder_of tables.now))) }
{
    let mut seen = IndexSet::new(alloc);
    for item in tables {
        if !seen.insert(item.folder.as_bytes())? {
            return Ok(None);
        }
    }
    Ok(Some(seen))
}

// Whether a slash stands at this place, and one of the folders before it.
#[tactic(auto, using(avro_schema::proofs::Repeats::any_text))]
fn stands_before(folders: &IndexSet<&[u8]>, path: &[u8], place: usize) -> bool
    requires { place < length path.now }
    ensures { IsTrue result ↔ ((get_or path.now place 0 ≡ 47)
        × (list_any (bytes_eq (take place path.now)) (map (λ s. s.now) folders.now.keys) ≡ true)) }
{
    path[place] == b'/' && folders.contains(&path[..place])
}

// Whether the path lies in one of the folders.
fn lies_in_one(folders: &IndexSet<&[u8]>, path: &[u8]) -> bool
    ensures { IsTrue result ↔ LiesInOne (map (λ s. s.now) folders.now.keys) path.now }
{
    for i in 0..path.len() {
        if stands_before(folders, path, i) {
            return true;
        }
    }
    false
}

// Whether no table's folder lies in one of the folders.
fn lie_beside(folders: &IndexSet<&[u8]>, tables: &[Item]) -> bool
    ensures { IsTrue result ↔ All (λ item. ¬ LiesInOne (map (λ s. s.now) folders.now.keys) item.folder) tables.now }
{
    for item in tables {
        if lies_in_one(folders, item.folder.as_bytes()) {
            return false;
        }
    }
    true
}

// Whether no folder stands twice and none lies in another one. Time grows with their count and their depth alone.
fn are_apart(alloc: Global, tables: &[Item]) -> Result<bool, AllocError>
    ensures { IfOk result (λ apart. IsTrue apart ↔ AreApart (map folder_of tables.now)) }
{
    let seen = distinct_folders(alloc, tables)?;
    match seen {
        None => Ok(false),
        Some(folders) => Ok(lie_beside(&folders, tables)),
    }
}
