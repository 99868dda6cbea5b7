//! One text for several commits.

ghost use Rattle.std.specs.Prelude.{◌≡◌, ◌↔◌, List, IsTrue, IfOk, IfErr, OnOk, MatchOption, false};
ghost use Rattle.delta_log.specs.Judging.{is_memory};
ghost use Rattle.delta_log.specs.Readable.{IsReadableCommit};
ghost use Rattle.delta_log.specs.Sound.{IsSound};
ghost use Rattle.delta_log.specs.declared.commit.DeltaCommit.{DeltaCommit};
ghost use Rattle.delta_compaction.specs.Agreeing.{Agrees, SaySame, SaysSame};
ghost use Rattle.delta_compaction.specs.Law.{StandsFor};
ghost use Rattle.delta_compaction.specs.Reconciled.{IsReconciled};
ghost use Rattle.delta_compaction.specs.Taken.{AreTaken, IsJoinRefusal};

use crate::error::CompactError;
use crate::newest::newest_lines;
use crate::same::is_same_commit;
use delta_log::{DeltaCommit, DeltaError, read_commit};
use lake_basics::Blob;
use std::alloc::{AllocError, Global};

/// The text of the log compaction of commits (Delta protocol, "Log Compaction Files"): their newest
/// lines, as `newest_lines` gives them, each with a newline after it.
pub fn reconcile(alloc: Global, commits: &[Blob]) -> Result<Blob, CompactError>
    ensures text { IfOk result (IsReconciled commits.now) }
    ensures taken { OnOk result ((said : List DeltaCommit) × AreTaken commits.now said) }
    ensures refused { IfErr result (IsJoinRefusal commits.now) }
    // Behind any commits and over any table it leaves what the commits leave.
    ensures law { IfOk result (λ text. (said : List DeltaCommit) (c : DeltaCommit)
        → AreTaken commits.now said → IsReadableCommit text c → StandsFor said c) }
{
    let newest = newest_lines(alloc, commits)?;
    Ok(newest.text(alloc)?)
}

/// The want of memory, if the error is that.
fn unless_memory(error: DeltaError) -> Result<(), AllocError>
    ensures { IfOk result (λ u. is_memory error ≡ false) }
{
    match error {
        DeltaError::Memory => Err(AllocError),
        DeltaError::Malformed { .. }
        | DeltaError::DoublePath { .. }
        | DeltaError::Unsupported { .. }
        | DeltaError::Limit { .. } => Ok(()),
    }
}

/// The commit that the bytes are, if they can be read as one.
fn readable_commit(alloc: Global, bytes: &[u8]) -> Result<Option<DeltaCommit>, AllocError>
    ensures found { IfOk result (λ o. MatchOption o
        ((c : DeltaCommit) → ¬ IsReadableCommit bytes.now c) (IsReadableCommit bytes.now)) }
    ensures sound { IfOk result (λ o. MatchOption o (Unit {0}) IsSound) }
{
    match read_commit(alloc, bytes) {
        Ok(commit) => Ok(Some(commit)),
        Err(error) => {
            unless_memory(error)?;
            Ok(None)
        }
    }
}

/// Whether both can be read as commits, and say the same.
fn say_same(alloc: Global, one: &[u8], other: &[u8]) -> Result<bool, AllocError>
    ensures { IfOk result (λ same. IsTrue same ↔ SaySame one.now other.now) }
{
    match readable_commit(alloc, one)? {
        Some(commit) => is_said_by(alloc, commit, other),
        None => Ok(false),
    }
}

/// Whether the bytes can be read as a commit, and say the same as this one.
fn is_said_by(alloc: Global, commit: DeltaCommit, bytes: &[u8]) -> Result<bool, AllocError>
    requires { IsSound commit }
    ensures { IfOk result (λ same. IsTrue same
        ↔ ((other : DeltaCommit) × IsReadableCommit bytes.now other × SaysSame commit other)) }
{
    match readable_commit(alloc, bytes)? {
        Some(other) => is_same_commit(commit, other),
        None => Ok(false),
    }
}

/// Whether the text of a log compaction can be read as a commit, and says what the newest lines of
/// these commits say (Delta protocol, "Log Compaction Files"): their protocol, their metadata, and
/// their file actions in whatever order. Refused are commits that can't be joined.
pub fn agrees(alloc: Global, compacted: &[u8], commits: &[Blob]) -> Result<bool, CompactError>
    ensures agrees { IfOk result (λ b. IsTrue b ↔ Agrees compacted.now commits.now) }
    ensures taken { OnOk result ((said : List DeltaCommit) × AreTaken commits.now said) }
    ensures refused { IfErr result (IsJoinRefusal commits.now) }
    // What agrees leaves what the commits leave, behind any commits and over any table.
    ensures law { IfOk result (λ b. IsTrue b → (said : List DeltaCommit) (c : DeltaCommit)
        → AreTaken commits.now said → IsReadableCommit compacted.now c → StandsFor said c) }
{
    let text = reconcile(alloc, commits)?;
    Ok(say_same(alloc, text.as_slice(), compacted)?)
}
