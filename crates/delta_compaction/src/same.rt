//! Whether two commits say the same.

ghost use Rattle.std.specs.Prelude.{◌≡◌, ◌↔◌, ◌&&◌, IsTrue, IfOk, Contains};
ghost use Rattle.std.specs.Cmp.Lexicographic.{slice_cmp};
ghost use Rattle.std.specs.List.{IsDistinct};
ghost use Rattle.std.specs.List.Sorted.{IsStrictlySortedBy};
ghost use Rattle.std.specs.Ordering.{nat_cmp};
ghost use Rattle.std.specs.Str.{bytes_eq};
ghost use Rattle.delta_log.specs.Commit.{file_paths};
ghost use Rattle.delta_log.specs.Sound.{IsSound};
ghost use Rattle.delta_log.specs.declared.commit.FileAction.{FileAction};
ghost use Rattle.delta_compaction.specs.Agreeing.{SaysSame};
ghost use Rattle.delta_compaction.specs.Same.{file_eq, files_eq, meta_eq, protocol_eq, settings_eq, versions_eq};

use delta_log::{DeltaCommit, FileAction, MetaData, Protocol};
use lake_basics::Items;
use std::alloc::AllocError;

fn are_same_versions(a: &Protocol, b: &Protocol) -> bool
    ensures { result ≡ versions_eq a.now b.now }
{
    a.reader == b.reader
        && a.writer == b.writer
        && a.reader_features == b.reader_features
        && a.writer_features == b.writer_features
}

fn is_same_protocol(a: &Option<Protocol>, b: &Option<Protocol>) -> bool
    ensures { result ≡ protocol_eq a.now b.now }
{
    match (a, b) {
        (None, None) => true,
        (Some(a), Some(b)) => are_same_versions(a, b),
        _ => false,
    }
}

fn are_same_settings(a: &MetaData, b: &MetaData) -> bool
    ensures { result ≡ settings_eq a.now b.now }
{
    a.id == b.id
        && a.schema == b.schema
        && a.partition == b.partition
        && a.configuration == b.configuration
}

fn is_same_meta(a: &Option<MetaData>, b: &Option<MetaData>) -> bool
    ensures { result ≡ meta_eq a.now b.now }
{
    match (a, b) {
        (None, None) => true,
        (Some(a), Some(b)) => are_same_settings(a, b),
        _ => false,
    }
}

fn is_same_file(a: &FileAction, b: &FileAction) -> bool
    ensures { result ≡ file_eq a.now b.now }
{
    match (a, b) {
        (
            FileAction::Add {
                path,
                values,
                size,
                count,
            },
            FileAction::Add {
                path: other_path,
                values: other_values,
                size: other_size,
                count: other_count,
            },
        ) => {
            path == other_path
                && values == other_values
                && size == other_size
                && count == other_count
        }
        (FileAction::Remove { path }, FileAction::Remove { path: other_path }) => {
            path == other_path
        }
        _ => false,
    }
}

/// Whether the two are the same, one after another.
fn are_same_files(a: &[FileAction], b: &[FileAction]) -> bool
    ensures { result ≡ files_eq a.now b.now }
{
    if a.len() != b.len() {
        return false;
    }
    for (i, file) in a.iter().enumerate() {
        if !is_same_file(file, &b[i]) {
            return false;
        }
    }
    true
}

/// The file actions in byte order of their paths.
fn sorted_files(files: Items<FileAction>) -> Result<Vec<FileAction>, AllocError>
    requires { IsDistinct bytes_eq (file_paths files) }
    ensures files { IfOk result (λ sorted. (f : FileAction)
        → Contains sorted.items f ↔ Contains files f) }
    ensures order { IfOk result (λ sorted. IsStrictlySortedBy (slice_cmp nat_cmp)
        (file_paths sorted.items)) }
{
    let mut sorted = files.into_vec();
    sorted.sort_by(|a, b| a.path().cmp(b.path()))?;
    Ok(sorted)
}

/// Whether they are the same file actions in whatever order.
fn have_same_files(a: Items<FileAction>, b: Items<FileAction>) -> Result<bool, AllocError>
    requires a { IsDistinct bytes_eq (file_paths a) }
    requires b { IsDistinct bytes_eq (file_paths b) }
    ensures { IfOk result (λ same. IsTrue same
        ↔ ((f : FileAction) → Contains a f ↔ Contains b f)) }
{
    let a = sorted_files(a)?;
    let b = sorted_files(b)?;
    Ok(are_same_files(a.as_slice(), b.as_slice()))
}

/// Whether the two have the same protocol and the same metadata.
fn is_same_table(a: &DeltaCommit, b: &DeltaCommit) -> bool
    ensures { result ≡ (protocol_eq a.now.protocol b.now.protocol
        && meta_eq a.now.meta b.now.meta) }
{
    is_same_protocol(&a.protocol, &b.protocol) && is_same_meta(&a.meta, &b.meta)
}

/// The file actions of a commit.
fn files_of(commit: DeltaCommit) -> Items<FileAction>
    ensures { result ≡ commit.files }
{
    commit.files
}

/// Whether the two have the same protocol, the same metadata, and the same file actions in whatever
/// order.
pub(crate) fn is_same_commit(a: DeltaCommit, b: DeltaCommit) -> Result<bool, AllocError>
    requires a { IsSound a }
    requires b { IsSound b }
    ensures { IfOk result (λ same. IsTrue same ↔ SaysSame a b) }
{
    let is_same_table = is_same_table(&a, &b);
    let have_same_files = have_same_files(files_of(a), files_of(b))?;
    Ok(is_same_table && have_same_files)
}
