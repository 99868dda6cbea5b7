//! The rows that the write stats of an instant make.

ghost use Rattle.std.specs.Prelude.{◌≡◌, [], ℕ, List, length, map, option_map, true, Contains, IfOk, IfErr, IfSome, IsTrue, vec_len, Ok};
ghost use Rattle.std.specs.List.{list_any, zip};
ghost use Rattle.std.specs.Str.{is_utf8};
ghost use Rattle.std.specs.Borrow.{Bor};
ghost use Rattle.lake_basics.specs.Outcome.{each};
ghost use Rattle.partition_map.specs.Folder.{folder_components, texts_of};
ghost use Rattle.table_history.specs.declared.row.PartValue.{PartValue};
ghost use Rattle.table_history.specs.declared.row.FileRow.{FileRow};
ghost use Rattle.hudi_names.specs.Errors.{Gives};
ghost use Rattle.hudi_groups.specs.Files.{suffix_of, without_end};
ghost use Rattle.hudi_files.specs.Stats.{bare_row, is_external, has_other_id, is_other_file, name_fault};
ghost use Rattle.hudi_files.specs.FileFaults.{OnlyFeature, IsFileFault, IsFolderFault, IsRowFault, IsSomeRowFault};
ghost use Rattle.hudi_files.specs.Values.{style_of, component_parts, value_parts, is_in_folder, are_in_folders, with_values, PartStands, PartsStand, HasValues, HaveValues, ShowsNoValue, SpellsNoValues};

use hudi_groups::{Form, file_id_in, folder_of, suffix_of, without_end};
use hudi_instant::Stat;
use hudi_names::{HudiError, MALFORMED};
use hudi_properties::HudiTable;
use lake_basics::{Items, Text, TextError};
use memchr::memrchr;
use partition_map::{
    FolderStyle, PartError, PartKind, from_hive, last_components, unescape, value_part,
};
use std::alloc::{AllocError, Global};
use table_history::{Feature, FileRow, PartValue, Values, path_form_of_any_length};

const PARTITION_PATH: HudiError = HudiError::Unsupported {
    feature: Feature::PartitionPath,
};

const PARTITION_VALUE: HudiError = HudiError::Unsupported {
    feature: Feature::PartitionValue,
};

// ---- files

/// The files of the stats, before the partition values in their folders are read. A stat whose path
/// or numbers aren't those of a file is malformed.
pub fn read_files(alloc: Global, form: &Form, stats: &[Stat]) -> Result<Items<FileRow>, HudiError>
    ensures { Gives result (each (bare_row (suffix_of form.now)) stats.now) }
{
    let suffix = suffix_of(alloc, form)?;
    bare_rows(alloc, suffix.as_slice(), stats)
}

fn bare_rows(alloc: Global, suffix: &[u8], stats: &[Stat]) -> Result<Items<FileRow>, HudiError>
    ensures { Gives result (each (bare_row suffix.now) stats.now) }
{
    let mut rows = Items::new(alloc);
    for stat in stats {
        rows.push(bare_row(alloc, suffix, stat)?)?;
    }
    Ok(rows)
}

fn bare_row(alloc: Global, suffix: &[u8], stat: &Stat) -> Result<FileRow, HudiError>
    ensures { Gives result (bare_row suffix.now stat.now) }
{
    let path = without_end(suffix, stat.path.as_bytes());
    if !(stat.path.as_bytes().ends_with(suffix) && path_form_of_any_length(path)) {
        return Err(MALFORMED);
    }
    if !(stat.writes < 1 << 63 && stat.size < 1 << 63) {
        return Err(MALFORMED);
    }
    Ok(FileRow {
        path: own_path(alloc, suffix, stat)?,
        values: Items::new(alloc),
        count: stat.writes,
        size: stat.size,
    })
}

/// The path of the stat's file. A path that is the whole text is copied as it is.
fn own_path(alloc: Global, suffix: &[u8], stat: &Stat) -> Result<Text, HudiError>
    requires { is_utf8 (without_end suffix.now stat.now.path) ≡ true }
    ensures { Gives result (Ok (without_end suffix.now stat.now.path)) }
{
    if suffix.is_empty() {
        return Ok(stat.path.copy(alloc)?);
    }
    text_of(alloc, without_end(suffix, stat.path.as_bytes()))
}

fn text_of(alloc: Global, path: &[u8]) -> Result<Text, HudiError>
    requires { is_utf8 path.now ≡ true }
    ensures { Gives result (Ok path.now) }
{
    match Text::from_bytes(alloc, path) {
        Ok(text) => Ok(text),
        Err(TextError::Memory) => Err(HudiError::Memory),
        Err(TextError::BadText) => unreachable!(),
    }
}

// ---- what the names of files show

/// The first feature that the names of the files show.
fn name_fault(form: &Form, suffix: &[u8], stats: &[Stat]) -> Option<Feature>
    ensures { result ≡ name_fault form.now suffix.now stats.now }
{
    if has_external(form, stats) {
        Some(Feature::ExternalFile)
    } else if has_id_fault(form, suffix, stats) {
        Some(Feature::FileId)
    } else if has_other_file(form, stats) {
        Some(Feature::FileFormat)
    } else {
        None
    }
}

fn has_external(form: &Form, stats: &[Stat]) -> bool
    ensures { result ≡ list_any (is_external form.now) stats.now }
{
    stats.iter().any(|stat| is_external(form, stat))
}

fn has_id_fault(form: &Form, suffix: &[u8], stats: &[Stat]) -> bool
    ensures { result ≡ list_any (has_other_id form.now suffix.now) stats.now }
{
    stats.iter().any(|stat| has_other_id(form, suffix, stat))
}

fn has_other_file(form: &Form, stats: &[Stat]) -> bool
    ensures { result ≡ list_any (is_other_file form.now) stats.now }
{
    stats.iter().any(|stat| is_other_file(form, stat))
}

fn is_external(form: &Form, stat: &Stat) -> bool
    ensures { result ≡ is_external form.now stat.now }
{
    match form {
        Form::Base => stat.path.as_bytes().ends_with(b"_hudiext"),
        Form::External { .. } => false,
    }
}

fn has_other_id(form: &Form, suffix: &[u8], stat: &Stat) -> bool
    ensures { result ≡ has_other_id form.now suffix.now stat.now }
{
    let path = without_end(suffix, stat.path.as_bytes());
    !(folder_of(path) == stat.partition_path.as_bytes()
        && file_id_in(form, path) == stat.file_id.as_bytes())
}

fn is_other_file(form: &Form, stat: &Stat) -> bool
    ensures { result ≡ is_other_file form.now stat.now }
{
    match form {
        Form::Base => !stat.path.as_bytes().ends_with(b".parquet"),
        Form::External { .. } => false,
    }
}

// ---- folders

/// The part of each component that spells its column's value. None where one has another name.
fn component_parts<'a>(
    alloc: Global,
    style: FolderStyle,
    names: &[Text],
    components: &[&'a str],
) -> Result<Option<Vec<&'a str>>, AllocError>
    requires { length names.now ≡ length components.now }
    ensures { IfOk result (λ parts. option_map texts_of parts
        ≡ component_parts style names.now (map (λ (c : Bor (List ℕ)). c.now) components.now)) }
{
    let mut parts = Vec::new(alloc);
    for place in 0..names.len() {
        match value_part(alloc, style, names[place].as_str(), components[place])? {
            None => return Ok(None),
            Some(part) => parts.push(part)?,
        }
    }
    Ok(Some(parts))
}

/// The same of a path, by the last components of its folder.
fn value_parts<'a>(
    alloc: Global,
    style: FolderStyle,
    names: &[Text],
    path: &'a str,
) -> Result<Option<Vec<&'a str>>, AllocError>
    ensures { IfOk result
        (λ parts. option_map texts_of parts ≡ value_parts style names.now path.now) }
{
    match last_components(alloc, path, names.len())? {
        None => Ok(None),
        Some(components) => component_parts(alloc, style, names, components.as_slice()),
    }
}

fn is_in_folder(
    alloc: Global,
    style: FolderStyle,
    names: &[Text],
    row: &FileRow,
) -> Result<bool, AllocError>
    ensures { IfOk result (λ inside. inside ≡ is_in_folder style names.now row.now) }
{
    match value_parts(alloc, style, names, row.path.as_str())? {
        None => Ok(false),
        Some(_) => Ok(true),
    }
}

/// Whether each file is in a folder of the partition columns.
fn are_in_folders(
    alloc: Global,
    style: FolderStyle,
    names: &[Text],
    rows: &[FileRow],
) -> Result<bool, AllocError>
    ensures { IfOk result (λ inside. inside ≡ are_in_folders style names.now rows.now) }
{
    for row in rows {
        if !is_in_folder(alloc, style, names, row)? {
            return Ok(false);
        }
    }
    Ok(true)
}

// ---- a folder for several files

/// A path, and the parts of its folder that spell the columns' values. There are none where it isn't
/// in a folder of the partition columns.
#[derive(Drop)]
struct FolderParts<'a> {
    path: &'a str,
    parts: Option<Vec<&'a str>>,
}

fn folder_parts<'a>(
    alloc: Global,
    style: FolderStyle,
    names: &[Text],
    path: &'a str,
) -> Result<FolderParts<'a>, AllocError>
    ensures path { IfOk result (λ folder. folder.path.now ≡ path.now) }
    ensures parts { IfOk result
        (λ folder. option_map texts_of folder.parts ≡ value_parts style names.now path.now) }
{
    Ok(FolderParts {
        path,
        parts: value_parts(alloc, style, names, path)?,
    })
}

/// Whether the two are in one folder below the table's own.
fn is_same_folder(path: &[u8], other: &[u8]) -> bool
    ensures { IsTrue result → folder_components path.now ≡ folder_components other.now }
{
    match (memrchr(b'/', path), memrchr(b'/', other)) {
        (Some(end), Some(other_end)) => path[..end] == other[..other_end],
        _ => false,
    }
}

/// The parts of the path's folder. They are those of the path before where the two are in one folder.
fn next_parts<'a>(
    alloc: Global,
    style: FolderStyle,
    names: &[Text],
    before: FolderParts<'a>,
    path: &'a str,
) -> Result<FolderParts<'a>, AllocError>
    requires { option_map texts_of before.parts ≡ value_parts style names.now before.path.now }
    ensures path { IfOk result (λ folder. folder.path.now ≡ path.now) }
    ensures parts { IfOk result
        (λ folder. option_map texts_of folder.parts ≡ value_parts style names.now path.now) }
{
    if is_same_folder(before.path.as_bytes(), path.as_bytes()) {
        return Ok(FolderParts {
            path,
            parts: before.parts,
        });
    }
    folder_parts(alloc, style, names, path)
}

// ---- values

fn part_value(
    alloc: Global,
    style: FolderStyle,
    kind: PartKind,
    part: &str,
) -> Result<PartValue, HudiError>
    ensures ok { IfOk result (PartStands style kind part.now) }
    ensures refused { IfErr result
        (ShowsNoValue ((v : PartValue) → ¬ PartStands style kind part.now v)) }
{
    let Some(text) = unescape(alloc, style, part)? else {
        return Err(PARTITION_VALUE);
    };
    match from_hive(alloc, kind, text.as_str()) {
        Ok(value) => Ok(value),
        Err(PartError::BadValue) => Err(PARTITION_VALUE),
        Err(PartError::Memory) => Err(HudiError::Memory),
        Err(_) => unreachable!(),
    }
}

fn part_values(
    alloc: Global,
    style: FolderStyle,
    kinds: &[PartKind],
    parts: &[&str],
) -> Result<Values, HudiError>
    requires { length kinds.now ≡ length parts.now }
    ensures ok { IfOk result
        (PartsStand style kinds.now (map (λ (c : Bor (List ℕ)). c.now) parts.now)) }
    ensures refused { IfErr result (ShowsNoValue ((vs : List PartValue)
        → ¬ PartsStand style kinds.now (map (λ (c : Bor (List ℕ)). c.now) parts.now) vs)) }
{
    let mut values = Items::new(alloc);
    for place in 0..kinds.len() {
        values.push(part_value(alloc, style, kinds[place], parts[place])?)?;
    }
    Ok(values)
}

/// The values of the file whose folder has these parts.
fn values_of(
    alloc: Global,
    style: FolderStyle,
    kinds: &[PartKind],
    parts: &Option<Vec<&str>>,
    file: &FileRow,
) -> Result<Values, HudiError>
    requires counted { IfSome parts.now (λ found. length kinds.now ≡ length found.items) }
    ensures ok { (names : List (List ℕ))
        → option_map texts_of parts.now ≡ value_parts style names file.now.path
        → IfOk result (λ values. HasValues style names kinds.now file.now
        (with_values (file.now, values))) }
    ensures refused { (names : List (List ℕ))
        → option_map texts_of parts.now ≡ value_parts style names file.now.path
        → IfErr result (OnlyFeature (IsRowFault style names kinds.now file.now)) }
{
    let parts = parts.as_ref().ok_or(PARTITION_PATH)?;
    part_values(alloc, style, kinds, parts.as_slice())
}

/// The values of the files, which their folders spell. A folder is read once for all its files that
/// stand one behind another.
fn all_values(
    alloc: Global,
    style: FolderStyle,
    names: &[Text],
    kinds: &[PartKind],
    files: &[FileRow],
) -> Result<Vec<Values>, HudiError>
    requires { length kinds.now ≡ length names.now }
    ensures ok { IfOk result (λ values. HaveValues style names.now kinds.now files.now
        (map with_values (zip files.now values.items))) }
    ensures refused { IfErr result
        (OnlyFeature (IsSomeRowFault style names.now kinds.now files.now)) }
{
    let mut all = Vec::with_capacity(alloc, files.len())?;
    let mut folder = folder_parts(alloc, style, names, "")?;
    for file in files {
        folder = next_parts(alloc, style, names, folder, file.path.as_str())?;
        all.push(values_of(alloc, style, kinds, &folder.parts, file)?)?;
    }
    Ok(all)
}

/// The files with these values, each with those in its place.
fn with_values(
    alloc: Global,
    files: Items<FileRow>,
    values: Vec<Values>,
) -> Result<Items<FileRow>, AllocError>
    ensures { IfOk result (λ rows. rows ≡ map with_values (zip files values.items)) }
{
    let rows = files
        .into_vec()
        .into_iter()
        .zip(values)
        .map(|(file, values)| FileRow {
            path: file.path,
            values,
            count: file.count,
            size: file.size,
        })
        .collect(alloc)?;
    Ok(Items::from_vec(rows))
}

// ---- both

fn style_of(table: &HudiTable) -> FolderStyle
    ensures { result ≡ style_of table.now }
{
    FolderStyle {
        hive_style: table.hive_style,
        url_encode: table.url_encode,
    }
}

/// The rows of the files of the stats, with the values that their folders spell. The names of the
/// files are judged first, then their folders: what is refused is the first feature that they show
/// (Hudi technical specification, "File Layout Hierarchy").
pub fn rows_of(
    alloc: Global,
    form: &Form,
    table: &HudiTable,
    kinds: &[PartKind],
    stats: &[Stat],
    files: Items<FileRow>,
) -> Result<Items<FileRow>, HudiError>
    requires counted { length kinds.now ≡ length table.now.partition }
    ensures names { IfOk result (λ _. name_fault form.now (suffix_of form.now) stats.now ≡ None) }
    ensures inside { IfOk result
        (λ _. are_in_folders (style_of table.now) table.now.partition files ≡ true) }
    ensures values { IfOk result
        (HaveValues (style_of table.now) table.now.partition kinds.now files) }
    ensures refused { IfErr result (OnlyFeature
        (IsFileFault (name_fault form.now (suffix_of form.now) stats.now)
        (style_of table.now) table.now.partition kinds.now files)) }
{
    let suffix = suffix_of(alloc, form)?;
    if let Some(feature) = name_fault(form, suffix.as_slice(), stats) {
        return Err(HudiError::Unsupported { feature });
    }
    rows_in_folders(
        alloc,
        style_of(table),
        table.partition.as_slice(),
        kinds,
        files,
    )
}

fn rows_in_folders(
    alloc: Global,
    style: FolderStyle,
    names: &[Text],
    kinds: &[PartKind],
    files: Items<FileRow>,
) -> Result<Items<FileRow>, HudiError>
    requires counted { length kinds.now ≡ length names.now }
    ensures inside { IfOk result (λ _. are_in_folders style names.now files ≡ true) }
    ensures values { IfOk result (HaveValues style names.now kinds.now files) }
    ensures refused { IfErr result (OnlyFeature (IsFolderFault style names.now kinds.now files)) }
{
    let values = values_in_folders(alloc, style, names, kinds, files.as_slice())?;
    Ok(with_values(alloc, files, values)?)
}

/// The values of the files in these folders. That a file isn't in a folder of the partition columns
/// is told first.
fn values_in_folders(
    alloc: Global,
    style: FolderStyle,
    names: &[Text],
    kinds: &[PartKind],
    files: &[FileRow],
) -> Result<Vec<Values>, HudiError>
    requires counted { length kinds.now ≡ length names.now }
    ensures inside { IfOk result (λ _. are_in_folders style names.now files.now ≡ true) }
    ensures values { IfOk result (λ values. HaveValues style names.now kinds.now files.now
        (map with_values (zip files.now values.items))) }
    ensures refused { IfErr result
        (OnlyFeature (IsFolderFault style names.now kinds.now files.now)) }
{
    let values = all_values(alloc, style, names, kinds, files);
    if values.is_err() && !are_in_folders(alloc, style, names, files)? {
        return Err(PARTITION_PATH);
    }
    values
}
