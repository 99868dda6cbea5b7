//! The version that a commit is written as.

ghost use Rattle.std.specs.Prelude.{◌≡◌, ◌<◌, ◌≤◌, ◌∷◌, [], Contains, IfErr, IfOk, IsErrOf, List, ℕ, length};
ghost use Rattle.std.specs.List.{IsDistinct};
ghost use Rattle.std.specs.Option.{option_copied};
ghost use Rattle.std.specs.Str.{bytes_eq};
ghost use Rattle.lake_basics.specs.declared.limits.TheConstants.{MAX_DELTA_VERSION, MAX_FILE_BYTES as MOST_BYTES, MAX_LIVE_FILES};
ghost use Rattle.table_history.specs.Path.{IsPath};
ghost use Rattle.table_history.specs.Row.{Row};
ghost use Rattle.table_history.specs.Rows.{HasDistinctPaths};
ghost use Rattle.table_history.specs.declared.limit.LimitKind.TheVariants.{Versions};
ghost use Rattle.delta_log.specs.Readable.{IsReadableCommit};
ghost use Rattle.delta_log.specs.Sound.{IsWritable};
ghost use Rattle.delta_text.specs.Writing.{SameCommit, commit_text};
ghost use Rattle.delta_log.specs.declared.commit.DeltaCommit.{DeltaCommit};
ghost use Rattle.delta_table.specs.Versions.{IsVersionPath};
ghost use Rattle.target_core.specs.Conditions.{CanPublish, Fits};
ghost use Rattle.target_core.specs.declared.target.TargetError.TheVariants.{Limit};
ghost use Rattle.target_core.specs.Views.{origin_of};
ghost use Rattle.target_delta.specs.Fitting.{Unfit};
ghost use Rattle.target_delta.specs.Kept.{end_of, view_of};
ghost use Rattle.target_delta.specs.Names.{IsStagedPath};
ghost use Rattle.target_delta.specs.NewVersion.{IsGoneOn, IsNewVersion, IsTextOf, IsTextRefusal, IsVersionRefusal};
ghost use Rattle.target_delta.specs.Writing.{CanAdd, LeavesAdded, LosesRemoved, Passes};

use crate::kept::DeltaKept;
use crate::meta::mark_of;
use crate::names::staged_path;
use crate::ntz::schema_has_ntz;
use crate::written::written_of;
use delta_log::DeltaCommit;
use delta_table::version_path;
use delta_text::commit_text;
use lake_basics::limits::{MAX_DELTA_VERSION, MAX_FILE_BYTES};
use lake_basics::{Blob, Text};
use std::alloc::{AllocError, Global};
use table_history::{Change, Commit, Kind, LimitKind};
use target_core::{Mark, TargetError};

/// A version that is to be published: its bytes, its path, and the path that it is staged under.
#[derive(Drop)]
pub(crate) struct NewVersion {
    pub(crate) staged: Text,
    pub(crate) path: Text,
    pub(crate) bytes: Blob,
}

/// The text of a commit, which is read as it.
fn bytes_of(alloc: Global, written: &DeltaCommit, now_ms: u64) -> Result<Blob, AllocError>
    requires { IsWritable written.now }
    ensures text { IfOk result (λ bytes. bytes ≡ commit_text now_ms written.now) }
    ensures readable { IfOk result (λ bytes. (again : DeltaCommit)
        × IsReadableCommit bytes again × SameCommit written.now again) }
{
    match commit_text(alloc, written, now_ms) {
        Ok(bytes) => Ok(bytes),
        Err(_) => Err(AllocError),
    }
}

/// The bytes of what is written for a change with this mark, where the table of `behind` is that
/// behind the change and all else of it stands before.
fn whole_text(
    alloc: Global,
    behind: &DeltaKept,
    change: &Change,
    mark: &Mark,
    now_ms: u64,
) -> Result<Blob, AllocError>
    requires leaves { LeavesAdded change.now.added behind.now.table.rows }
    requires loses { LosesRemoved change.now behind.now.table.rows }
    requires removed { IsDistinct bytes_eq change.now.removed }
    requires added { HasDistinctPaths change.now.added }
    requires fit { (row : Row) → Contains change.now.added row
        → CanAdd behind.now.table.partition row }
    requires paths { (path : List ℕ) → Contains change.now.removed path → IsPath path }
    requires few { length change.now.removed ≤ MAX_LIVE_FILES }
    requires partition { IsDistinct bytes_eq behind.now.table.partition }
    ensures { IfOk result (IsTextOf behind.now change.now mark.now now_ms) }
{
    let written = written_of(alloc, behind, change, mark)?;
    bytes_of(alloc, &written, now_ms)
}

/// The bytes of what is written for a change with this mark. `Limit` where they are too many.
fn text_of(
    alloc: Global,
    behind: &DeltaKept,
    change: &Change,
    mark: &Mark,
    now_ms: u64,
) -> Result<Blob, TargetError>
    requires leaves { LeavesAdded change.now.added behind.now.table.rows }
    requires loses { LosesRemoved change.now behind.now.table.rows }
    requires removed { IsDistinct bytes_eq change.now.removed }
    requires added { HasDistinctPaths change.now.added }
    requires fit { (row : Row) → Contains change.now.added row
        → CanAdd behind.now.table.partition row }
    requires paths { (path : List ℕ) → Contains change.now.removed path → IsPath path }
    requires few { length change.now.removed ≤ MAX_LIVE_FILES }
    requires partition { IsDistinct bytes_eq behind.now.table.partition }
    ensures text { IfOk result (λ bytes. IsTextOf behind.now change.now mark.now now_ms bytes) }
    ensures short { IfOk result (λ bytes. length bytes ≤ MOST_BYTES) }
    ensures refusal { IfErr result (IsTextRefusal behind.now change.now mark.now now_ms) }
{
    let bytes = whole_text(alloc, behind, change, mark, now_ms)?;
    if bytes.as_slice().len() as u64 > MAX_FILE_BYTES {
        return Err(TargetError::Limit {
            which: LimitKind::File,
            number: MAX_FILE_BYTES,
        });
    }
    Ok(bytes)
}

/// Goes on by one commit, with the mark of its version, where the table has gone on already.
fn go_on(kept: &mut DeltaKept, mark: Mark)
    requires { kept.old.commits ≤ MAX_DELTA_VERSION }
    ensures { IsGoneOn kept.old mark kept.new }
{
    kept.names_ntz = kept.names_ntz || schema_has_ntz(&kept.table.schema);
    kept.mark = Some(mark);
    kept.commits += 1;
}

/// The version that a commit is written as, behind what is kept. `kept` goes on by it. `Limit` where
/// its number or its bytes pass a number.
pub(crate) fn new_version(
    alloc: Global,
    kept: &mut DeltaKept,
    commit: &Commit,
    source: Kind,
    table: Option<&Text>,
    now_ms: u64,
) -> Result<NewVersion, TargetError>
    requires can { CanPublish (view_of kept.old) commit.now }
    requires fits { Fits (Unfit (end_of kept.old)) kept.old.table.partition (commit.now ∷ []) }
    ensures staged { IfOk result (λ version. IsStagedPath version.staged kept.old.commits) }
    ensures path { IfOk result (λ version. IsVersionPath version.path kept.old.commits) }
    ensures is { IfOk result (λ version. IsNewVersion
        (origin_of source (option_copied table.entry)) now_ms kept.old commit.now
        version.bytes kept.new) }
    ensures short { IfOk result (λ version. length version.bytes ≤ MOST_BYTES) }
    ensures refusal { IfErr result (IsVersionRefusal (Passes (end_of kept.old)
        (origin_of source (option_copied table.entry)) now_ms
        (commit.now ∷ []))) }
    ensures many { MAX_DELTA_VERSION < kept.old.commits
        → IsErrOf result (Limit Versions MAX_DELTA_VERSION) }
{
    let version = kept.commits;
    if version > MAX_DELTA_VERSION {
        return Err(TargetError::Limit {
            which: LimitKind::Versions,
            number: MAX_DELTA_VERSION,
        });
    }
    kept.table.apply(alloc, &commit.change)?;
    let mark = mark_of(alloc, version, &commit.position, source, table)?;
    let bytes = text_of(alloc, kept, &commit.change, &mark, now_ms)?;
    go_on(kept, mark);
    let staged = staged_path(alloc, version)?;
    let path = version_path(alloc, version)?;
    Ok(NewVersion {
        staged,
        path,
        bytes,
    })
}
