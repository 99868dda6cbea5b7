//! Reading the log whole, and a block's commits.

ghost use Rattle.std.specs.Prelude.{◌≡◌, ◌<◌, ◌≤◌, ℕ, List, length, IfErr, IfOk, IsErrOf, MatchOption, Some};
ghost use Rattle.std.specs.Fmt.{decimal};
ghost use Rattle.lake_basics.specs.declared.limits.TheConstants.{MAX_DELTA_VERSION, MAX_FILE_BYTES};
ghost use Rattle.lake_store.specs.Runs.{FailsBy, IsUncontestedBy, OnlyReads};
ghost use Rattle.table_history.specs.declared.table.Table.{Table};
ghost use Rattle.table_history.specs.declared.limit.LimitKind.TheVariants.{File};
ghost use Rattle.delta_table.specs.Versions.{HasVersion, HoldsVersion};
ghost use Rattle.delta_compact.specs.Blocks.{HoldsBlock, IsWithin};
ghost use Rattle.delta_compact.specs.Joinable.{ended_length, ends_line, whole_length};
ghost use Rattle.delta_compact.specs.Refusals.{HasCause, IsLong, IsUnread, IsWhole};
ghost use Rattle.delta_compact.specs.declared.error.CompactFault.TheVariants.{Contested, Limit, StoreFault};

use crate::error::{CompactFault, source_fault};
use delta_table::version_path;
use lake_basics::Blob;
use lake_basics::limits::{MAX_DELTA_VERSION, MAX_FILE_BYTES};
use lake_store::{Store, StoreError};
use source_core::Source;
use source_delta::DeltaSource;
use std::alloc::Global;
use table_history::LimitKind;

/// What the whole log says: its newest version, and the number of the table's live files there.
#[derive(Clone, Copy)]
pub(crate) struct WholeLog {
    pub(crate) newest: u64,
    pub(crate) files: u64,
}

/// The version that a position spells, up to version 2^63 - 1.
fn version_at(position: &str) -> Option<u64>
    ensures known { (version : ℕ) → version ≤ MAX_DELTA_VERSION → position.now ≡ decimal version
        → result ≡ Some version }
    ensures within { MatchOption result (Unit {0}) (λ version. version ≤ MAX_DELTA_VERSION) }
{
    let Ok(version) = position.parse::<u64>() else {
        return None;
    };
    if version > MAX_DELTA_VERSION {
        return None;
    }
    Some(version)
}

/// Reads the log whole, as the Delta source does.
pub(crate) fn read_whole<S: Store>(alloc: Global, store: &mut S) -> Result<WholeLog, CompactFault>
    ensures whole { S.tells → IfOk result (λ log. (table : Table)
        × IsWhole (S.disk store.old).files log.newest table × (log.files ≡ length table.rows)) }
    ensures within { IfOk result (λ log. log.newest ≤ MAX_DELTA_VERSION) }
    ensures refused { S.tells → IfErr result (HasCause (IsUnread (S.disk store.old).files)) }
    ensures only_reads { S.tells → OnlyReads ⟦<S as Store>⟧ store.old store.new }
    ensures cause { FailsBy ⟦<S as Store>⟧ store.old store.new (IsErrOf result StoreFault) }
    ensures contest { IsUncontestedBy ⟦<S as Store>⟧ store.old store.new
        (IsErrOf result Contested) }
{
    let source = DeltaSource::new();
    let head = match source.head(alloc, store) {
        Ok(head) => head,
        Err(error) => return Err(source_fault(error)),
    };
    let Some(newest) = version_at(head.position.as_str()) else {
        return Err(CompactFault::Absent);
    };
    match source.whole(alloc, store, &head) {
        Ok(table) => Ok(WholeLog {
            newest,
            files: table.rows.len() as u64,
        }),
        Err(error) => Err(source_fault(error)),
    }
}

/// Whether the last byte is a newline.
fn ends_line(bytes: &[u8]) -> bool
    ensures { result ≡ ends_line bytes.now }
{
    !bytes.is_empty() && bytes[bytes.len() - 1] == b'\n'
}

/// The number of the bytes, where a newline ends the last line.
fn ended_length(bytes: &[u8]) -> u64
    requires { length bytes.now ≤ MAX_FILE_BYTES }
    ensures { result ≡ ended_length bytes.now }
{
    if ends_line(bytes) {
        bytes.len() as u64
    } else {
        bytes.len() as u64 + 1
    }
}

/// What is told of too many bytes in one file, or in a block's commits together.
pub(crate) fn too_long() -> CompactFault
    ensures { result ≡ Limit File MAX_FILE_BYTES }
{
    CompactFault::Limit {
        which: LimitKind::File,
        number: MAX_FILE_BYTES,
    }
}

/// The bytes of a version of a block.
fn read_bytes<S: Store>(alloc: Global, store: &mut S, version: u64) -> Result<Blob, CompactFault>
    requires version { version ≤ MAX_DELTA_VERSION }
    requires there { S.tells → HasVersion (S.disk store.old).files version }
    ensures holds { S.tells → IfOk result (HoldsVersion (S.disk store.old).files version) }
    ensures short { IfOk result (λ bytes. length bytes ≤ MAX_FILE_BYTES) }
    ensures refused { S.tells → IfErr result (HasCause (λ e. (bytes : List ℕ)
        × HoldsVersion (S.disk store.old).files version bytes
        × (MAX_FILE_BYTES < length bytes) × (e ≡ Limit File MAX_FILE_BYTES))) }
    ensures only_reads { S.tells → OnlyReads ⟦<S as Store>⟧ store.old store.new }
    ensures cause { FailsBy ⟦<S as Store>⟧ store.old store.new (IsErrOf result StoreFault) }
    ensures contest { IsUncontestedBy ⟦<S as Store>⟧ store.old store.new
        (IsErrOf result Contested) }
{
    let path = version_path(alloc, version)?;
    match store.read(alloc, path.as_str()) {
        Ok(Some(bytes)) => Ok(bytes),
        Ok(None) => Err(CompactFault::Malformed { path }),
        Err(StoreError::TooLong { .. }) => Err(too_long()),
        Err(StoreError::Failed) => Err(CompactFault::StoreFault),
        Err(StoreError::Memory | StoreError::Taken) => Err(CompactFault::Memory),
    }
}

/// The commits of a block, each read once, where together they don't have more bytes than one file
/// may have.
pub(crate) fn read_block<S: Store>(
    alloc: Global,
    store: &mut S,
    block: u64,
) -> Result<Vec<Blob>, CompactFault>
    requires within { IsWithin MAX_DELTA_VERSION block }
    requires held { S.tells → (commits : List (List ℕ))
        × HoldsBlock (S.disk store.old).files block commits }
    ensures held { S.tells → IfOk result
        (λ commits. HoldsBlock (S.disk store.old).files block commits.items) }
    ensures count { IfOk result (λ commits. length commits.items ≡ 10) }
    ensures short { IfOk result (λ commits. whole_length commits.items ≤ MAX_FILE_BYTES) }
    ensures refused { S.tells → IfErr result (HasCause (λ e. (commits : List (List ℕ))
        × HoldsBlock (S.disk store.old).files block commits × IsLong commits e)) }
    ensures only_reads { S.tells → OnlyReads ⟦<S as Store>⟧ store.old store.new }
    ensures cause { FailsBy ⟦<S as Store>⟧ store.old store.new (IsErrOf result StoreFault) }
    ensures contest { IsUncontestedBy ⟦<S as Store>⟧ store.old store.new
        (IsErrOf result Contested) }
{
    let mut commits = Vec::new(alloc);
    let mut length = 0u64;
    for version in 10 * block..10 * block + 10 {
        let bytes = read_bytes(alloc, store, version)?;
        length += ended_length(bytes.as_slice());
        if length > MAX_FILE_BYTES {
            return Err(too_long());
        }
        commits.push(bytes)?;
    }
    Ok(commits)
}
