//! Steps on the words and numbers that are printed, paths, positions and lines.
use crate::marks;
use crate::shown::readable;
use rows::{Step, bytes_given, show_answer};
use source_core::position_of;
use std::alloc::{AllocError, Global};
use table_history::{Feature, Kind, LimitKind, path_form, path_form_of_any_length};
use table_lines::line_of_text;
use target_core::metadata_folder;

/// Does a step on words, numbers, paths or lines, or else one on marks.
pub fn step(alloc: Global, step: &Step<'_>, shown: &mut String) -> Result<(), AllocError> {
    match step.words() {
        "kinds" => show_kinds(step.lines(), shown),
        "features" => show_features(shown),
        "limits" => show_limits(shown),
        "paths" => show_paths(step.lines(), shown),
        "lines" => show_lines(alloc, step.lines(), shown),
        _ => step_on_one(alloc, step, shown),
    }
}

/// Does a step on one path, position or line.
fn step_on_one(alloc: Global, step: &Step<'_>, shown: &mut String) -> Result<(), AllocError> {
    match step.each_word() {
        ["path", "of", "bytes", hex] => show_path(alloc, hex, shown),
        ["position", kind, number] => show_position(alloc, kind, number, shown),
        ["line", "of", "bytes", hex] => show_line_of(alloc, hex, shown),
        _ => marks::step(alloc, step, shown),
    }
}

/// Shows what kind each word names, with the folder of its metadata.
fn show_kinds(lines: &[&str], shown: &mut String) -> Result<(), AllocError> {
    for line in lines {
        show_kind(line, shown)?;
    }
    Ok(())
}

fn show_kind(word: &str, shown: &mut String) -> Result<(), AllocError> {
    match Kind::from_word(word) {
        Some(kind) => {
            let folder = metadata_folder(kind);
            writeln!(shown, "{word} -> {} in {folder}", kind.word())
        }
        None => show_answer(shown, word, "no kind"),
    }
}

const FEATURES: &[Feature] = &[
    Feature::NeedsCheckpoint,
    Feature::NeedsArchive,
    Feature::ReaderVersion,
    Feature::ReaderFeature,
    Feature::ColumnMapping,
    Feature::DeletionVector,
    Feature::OutsideTable,
    Feature::NoRecordCount,
    Feature::FileFormat,
    Feature::SchemaType,
    Feature::AvroName,
    Feature::PartitionType,
    Feature::PartitionChange,
    Feature::PartitionValue,
    Feature::PartitionPath,
    Feature::ValueForm,
    Feature::AvroCodec,
    Feature::CompressedMetadata,
    Feature::CatalogNames,
    Feature::FormatVersion,
    Feature::Transform,
    Feature::PartitionSpecs,
    Feature::Renamed,
    Feature::NoSchemaId,
    Feature::RowDeletes,
    Feature::SharedFile,
    Feature::TypeChange,
    Feature::HudiType,
    Feature::HudiVersion,
    Feature::KeyGenerator,
    Feature::MergeOnRead,
    Feature::Restore,
    Feature::UnknownAction,
    Feature::FileId,
    Feature::ExternalFile,
    Feature::NoSchema,
    Feature::CompactAction,
];

fn show_features(shown: &mut String) -> Result<(), AllocError> {
    for feature in FEATURES {
        writeln!(shown, "{}", feature.word())?;
    }
    Ok(())
}

const LIMITS: &[LimitKind] = &[
    LimitKind::File,
    LimitKind::Names,
    LimitKind::LiveFiles,
    LimitKind::Commits,
    LimitKind::Publish,
    LimitKind::Actions,
    LimitKind::Values,
    LimitKind::Path,
    LimitKind::PartitionColumns,
    LimitKind::Columns,
    LimitKind::Depth,
    LimitKind::Versions,
];

/// Shows each limit's word, and its number in each format.
fn show_limits(shown: &mut String) -> Result<(), AllocError> {
    for limit in LIMITS {
        let limit = *limit;
        write!(shown, "{}:", limit.word())?;
        show_number(limit, Kind::Delta, shown)?;
        show_number(limit, Kind::Iceberg, shown)?;
        show_number(limit, Kind::Hudi, shown)?;
        shown.push('\n')?;
    }
    Ok(())
}

fn show_number(limit: LimitKind, kind: Kind, shown: &mut String) -> Result<(), AllocError> {
    write!(shown, " {} {}", kind.word(), limit.number(kind))
}

/// What form the bytes have.
fn form_of(bytes: &[u8]) -> &'static str {
    match (path_form(bytes), path_form_of_any_length(bytes)) {
        (true, true) => "a path",
        (false, true) => "a path but for its length",
        (false, false) => "no path",
        (true, false) => "a path only with its length",
    }
}

fn show_paths(lines: &[&str], shown: &mut String) -> Result<(), AllocError> {
    for line in lines {
        show_answer(shown, line, form_of(line.as_bytes()))?;
    }
    Ok(())
}

fn show_path(alloc: Global, hex: &str, shown: &mut String) -> Result<(), AllocError> {
    let bytes = bytes_given(alloc, hex)?;
    writeln!(shown, "{}", form_of(&bytes))
}

fn show_position(
    alloc: Global,
    kind: &str,
    number: &str,
    shown: &mut String,
) -> Result<(), AllocError> {
    match (Kind::from_word(kind), number.parse::<i64>()) {
        (Some(kind), Ok(number)) => {
            let position = position_of(alloc, kind, number)?;
            writeln!(shown, "{}", position.as_str())
        }
        _ => writeln!(shown, "not asked: no kind or no number"),
    }
}

fn show_lines(alloc: Global, lines: &[&str], shown: &mut String) -> Result<(), AllocError> {
    for line in lines {
        show_line(alloc, line, shown)?;
    }
    Ok(())
}

fn show_line(alloc: Global, line: &str, shown: &mut String) -> Result<(), AllocError> {
    let printed = line_of_text(alloc, line)?;
    shown.push_str(readable(alloc, &printed)?.as_str())
}

fn show_line_of(alloc: Global, hex: &str, shown: &mut String) -> Result<(), AllocError> {
    let bytes = bytes_given(alloc, hex)?;
    let text = readable(alloc, &bytes)?;
    show_line(alloc, text.as_str(), shown)
}
