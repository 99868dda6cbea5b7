//! The newest line of commits about each thing.

ghost use Rattle.std.specs.Prelude.{◌≡◌, ◌≤◌, ◌<◌, ◌-◌, [], ℕ, List, length, take, IfOk, IfErr, IfSome, OnOk, MatchOption, option_map};
ghost use Rattle.std.specs.BTreeMap.{IsOrdered, insert_entry};
ghost use Rattle.std.specs.List.{count_by};
ghost use Rattle.std.specs.Map.{keys_of};
ghost use Rattle.delta_log.specs.Judging.{lines_of};
ghost use Rattle.delta_log.specs.declared.commit.DeltaCommit.{DeltaCommit};
ghost use Rattle.delta_compaction.specs.Kinds.{HasLines, IsFirstLine, StraysAt, is_file, plain, put_line, rest_of, with_lines};
ghost use Rattle.delta_compaction.specs.Lines.{key_order};
ghost use Rattle.delta_compaction.specs.Reconciled.{AreNewest, all_lines, text_of};
ghost use Rattle.delta_compaction.specs.Taken.{AreTaken, IsCommitRefusal, IsJoinRefusal, IsTaken, error_at};

use crate::error::CompactError;
use crate::key::LineKey;
use crate::kind::{LineKind, line_kind};
use delta_log::{DeltaError, read_commit};
use lake_basics::Blob;
use std::alloc::{AllocError, Global};
use std::collections::BTreeMap;
use std::marker::Model;
use table_history::Feature;

/// The newest line about each thing, in the order of what they are about.
#[derive(Drop)]
pub struct NewestLines<'a> {
    lines: BTreeMap<LineKey, &'a [u8]>,
}

impl<'a> Model for NewestLines<'a> {
    ghost use Rattle.std.specs.Prelude.{List, ℕ};
    ghost use Rattle.std.specs.BTreeMap.{IsOrdered};
    ghost use Rattle.delta_compaction.specs.declared.key.LineKey.{LineKey};
    ghost use Rattle.delta_compaction.specs.Kinds.{plain};
    ghost use Rattle.delta_compaction.specs.Lines.{key_order};

    ghost Value = { List (LineKey × List ℕ) };

    ghost view = { λ n. plain n.lines.entries };

    ghost invariant = { λ n. IsOrdered key_order n.lines };
}

/// A line that can't stand in a log compaction, with its number, and the commit up to it.
#[derive(Drop)]
struct Stray<'a> {
    line: u64,
    front: &'a [u8],
}

/// The lines with this one at a key.
fn with_entry<'a>(
    lines: BTreeMap<LineKey, &'a [u8]>,
    key: LineKey,
    line: &'a [u8],
) -> Result<BTreeMap<LineKey, &'a [u8]>, AllocError>
    ensures put { IfOk result (λ m. plain m.entries
        ≡ insert_entry key_order (plain lines.entry.entries) key line.now) }
    ensures ordered { IfOk result (λ m. IsOrdered key_order m) }
{
    let mut lines = lines;
    lines.insert(key, line)?;
    Ok(lines)
}

impl<'a> NewestLines<'a> {
    fn new(alloc: Global) -> NewestLines<'a>
        ensures { result ≡ [] }
    {
        NewestLines {
            lines: BTreeMap::new(alloc),
        }
    }

    /// The lines with a line of a newer commit, or a later one of the same.
    fn with_line(self, kind: LineKind, line: &'a [u8]) -> Result<NewestLines<'a>, AllocError>
        ensures { IfOk result (λ n. n ≡ put_line line.now kind self.entry) }
    {
        let NewestLines { lines } = self;
        match kind {
            LineKind::Kept(key) => Ok(NewestLines {
                lines: with_entry(lines, key, line)?,
            }),
            LineKind::Dropped | LineKind::Stray => Ok(NewestLines { lines }),
        }
    }

    /// How many of the lines add or remove a file.
    pub fn file_count(&self) -> usize
        ensures { result ≡ count_by is_file (keys_of self.now) }
    {
        count_files(&self.lines)
    }

    /// The text of the lines: each byte for byte, with a newline after it (Delta protocol, "Log
    /// Compaction Files").
    pub fn text(&self, alloc: Global) -> Result<Blob, AllocError>
        ensures { IfOk result (λ text. text ≡ text_of self.now) }
    {
        joined_text(alloc, &self.lines)
    }
}

fn count_files(lines: &BTreeMap<LineKey, &[u8]>) -> usize
    ensures { result ≡ count_by is_file (keys_of lines.now.entries) }
{
    lines.keys().filter(|key| is_file(key)).count()
}

fn joined_text(alloc: Global, lines: &BTreeMap<LineKey, &[u8]>) -> Result<Blob, AllocError>
    ensures { IfOk result (λ text. text ≡ text_of (plain lines.now.entries)) }
{
    let mut text = Vec::new(alloc);
    for line in lines.values() {
        text.extend_from_slice(line)?;
        text.push(b'\n')?;
    }
    Ok(Blob::from_vec(text))
}

fn is_file(key: &LineKey) -> bool
    ensures { result ≡ is_file key.now }
{
    matches!(key, LineKey::File(_))
}

/// The first line, and what stands behind its newline.
fn next_line(bytes: &[u8]) -> (&[u8], Option<&[u8]>)
    ensures first { IsFirstLine bytes.now result.0.now (option_map (λ s. s.now) result.1) }
    ensures shorter { IfSome result.1 (λ s. length s.now < length bytes.now) }
{
    match bytes.iter().position(|byte| *byte == b'\n') {
        None => (bytes, None),
        Some(at) => (&bytes[..at], Some(&bytes[at + 1..])),
    }
}

/// The stray line of this number, where this stands behind it.
fn stray_line<'a>(bytes: &'a [u8], behind: Option<&[u8]>, line: u64) -> Stray<'a>
    requires { length (rest_of (option_map (λ s. s.now) behind)) ≤ length bytes.now }
    ensures line { result.line ≡ line }
    ensures front { result.front.now
        ≡ take (length bytes.now - length (rest_of (option_map (λ s. s.now) behind.entry))) bytes.now }
{
    let behind_len = match behind {
        None => 0,
        Some(rest) => rest.len() + 1,
    };
    Stray {
        line,
        front: &bytes[..bytes.len() - behind_len],
    }
}

/// The lines with those of one commit more, up to its first stray line.
fn with_lines<'a>(
    alloc: Global,
    before: NewestLines<'a>,
    bytes: &'a [u8],
) -> Result<(NewestLines<'a>, Option<Stray<'a>>), AllocError>
    ensures { IfOk result (λ r. MatchOption r.1 (HasLines bytes.now before.entry r.0)
        (λ s. StraysAt bytes.now s.line s.front.now)) }
{
    let mut newest = before;
    let mut rest = Some(bytes);
    let mut number = 0u64;
    'lines: while let Some(front) = rest {
        let (line, behind) = next_line(front);
        number += 1;
        let kind = line_kind(alloc, line)?;
        if kind.is_stray() {
            return Ok((newest, Some(stray_line(bytes, behind, number))));
        }
        newest = newest.with_line(kind, line)?;
        rest = behind;
    }
    Ok((newest, None))
}

/// What is told of a commit with a stray line: what it is refused for up to there, or that line.
fn stray_error(alloc: Global, line: u64, front: &[u8]) -> DeltaError
    ensures { (bytes : List ℕ) → StraysAt bytes line front.now → IsCommitRefusal bytes result }
{
    match read_commit(alloc, front) {
        Ok(_) => DeltaError::Unsupported {
            feature: Feature::CompactAction,
            line,
        },
        Err(error) => error,
    }
}

/// The lines with those of one commit more.
fn with_commit<'a>(
    alloc: Global,
    newest: NewestLines<'a>,
    bytes: &'a [u8],
) -> Result<NewestLines<'a>, DeltaError>
    ensures lines { IfOk result (λ n. n ≡ with_lines (lines_of bytes.now) newest.entry) }
    ensures taken { OnOk result ((c : DeltaCommit) × IsTaken bytes.now c) }
    ensures refused { IfErr result (IsCommitRefusal bytes.now) }
{
    let (longer, stray) = with_lines(alloc, newest, bytes)?;
    if let Some(stray) = stray {
        return Err(stray_error(alloc, stray.line, stray.front));
    }
    read_commit(alloc, bytes)?;
    Ok(longer)
}

fn error_at(index: usize, error: DeltaError) -> CompactError
    ensures { result ≡ error_at index error }
{
    match error {
        DeltaError::Memory => CompactError::Memory,
        DeltaError::Malformed { line } | DeltaError::DoublePath { line } => {
            CompactError::Malformed { index, line }
        }
        DeltaError::Unsupported { feature, line } => CompactError::Unsupported {
            feature,
            index,
            line,
        },
        DeltaError::Limit { which } => CompactError::Limit { which },
    }
}

/// The lines of commits in their order, of those about one thing the newest.
fn joined_lines<'a>(alloc: Global, commits: &'a [Blob]) -> Result<NewestLines<'a>, CompactError>
    ensures lines { IfOk result (λ n. n ≡ with_lines (all_lines commits.now) []) }
    ensures taken { OnOk result ((said : List DeltaCommit) × AreTaken commits.now said) }
    ensures refused { IfErr result (IsJoinRefusal commits.now) }
{
    let mut newest = NewestLines::new(alloc);
    for (index, commit) in commits.iter().enumerate() {
        newest = match with_commit(alloc, newest, commit.as_slice()) {
            Ok(longer) => longer,
            Err(error) => return Err(error_at(index, error)),
        };
    }
    Ok(newest)
}

/// The newest lines of commits (Delta protocol, "Log Compaction Files"), byte for byte: those of the
/// newest protocol, metadata, transaction of each application, metadata of each domain, and action on
/// each file, whether add or remove. The first commit that can't be joined is refused, with its first
/// line at fault, as `read_commit` refuses it, or as `CompactAction` where the line has an action that
/// no log compaction keeps or leaves out.
pub fn newest_lines<'a>(alloc: Global, commits: &'a [Blob]) -> Result<NewestLines<'a>, CompactError>
    ensures newest { IfOk result (AreNewest commits.now) }
    ensures taken { OnOk result ((said : List DeltaCommit) × AreTaken commits.now said) }
    ensures refused { IfErr result (IsJoinRefusal commits.now) }
{
    joined_lines(alloc, commits)
}
