//! A commit that is read line by line.

ghost use Rattle.std.specs.Prelude.{◌≡◌, ◌<◌, ◌∷◌, ◌++◌, [], ℕ, List, length, is_some, nat_le, option_map, IfSome, IfOk, IfErr, Ok, OnOk, true, if◌then◌else◌};
ghost use Rattle.std.specs.HashSet.{contains_text};
ghost use Rattle.std.specs.List.{position};
ghost use Rattle.std.specs.Str.{bytes_eq};
ghost use Rattle.lake_basics.specs.Outcome.{Gives};
ghost use Rattle.lake_basics.specs.declared.limits.TheConstants.{MAX_ACTIONS};
ghost use Rattle.delta_log.specs.Adding.{with_addition};
ghost use Rattle.delta_log.specs.Commit.{file_path};
ghost use Rattle.delta_log.specs.Judging.{acts_on, no_lines, with_new_file, with_line, is_newline, lines_of, lines_in, commit_of, IsErrorAt, Answers};
ghost use Rattle.delta_log.specs.Sound.{IsWritable};
ghost use Rattle.delta_log.specs.Readable.{AreLinesInGrammar, IsReadableCommit, IsRefusal, IsGrammarError};
ghost use Rattle.delta_log.specs.declared.action.LineAction.{LineAction};
ghost use Rattle.delta_log.specs.declared.commit.DeltaCommit.{DeltaCommit};

use crate::commit::{DeltaCommit, FileAction, MetaData, Protocol};
use crate::error::{DeltaError, Fault};
use crate::judging::{Addition, judged_line};
use crate::space::LineSpace;
use lake_basics::limits::MAX_ACTIONS;
use lake_basics::{Items, ReadError};
use memchr::memchr;
use std::alloc::{AllocError, Global};
use std::collections::HashSet;
use std::marker::Model;

/// A commit so far, read line by line (Delta protocol, "Actions"). Contracts see that commit. The set
/// holds the paths of its file actions. The space is made at the first line, and serves all lines.
#[derive(Drop)]
pub struct Reading {
    commit: DeltaCommit,
    paths: HashSet<String>,
    space: Option<Box<LineSpace>>,
}

impl Model for Reading {
    ghost use Rattle.std.specs.Prelude.{◌≡◌, ℕ, List};
    ghost use Rattle.std.specs.HashSet.{contains_text};
    ghost use Rattle.delta_log.specs.Judging.{acts_on};
    ghost use Rattle.delta_log.specs.declared.commit.DeltaCommit.{DeltaCommit};

    ghost Value = { DeltaCommit };

    ghost view = { λ r. r.commit };

    ghost invariant = { λ r. (q : List ℕ) → contains_text r.paths q ≡ acts_on q r.commit.files };
}

impl Reading {
    /// A commit of no line yet. It takes no memory.
    pub fn new(alloc: Global) -> Reading
        ensures value { result ≡ no_lines }
        ensures sound { IsWritable result }
    {
        Reading {
            commit: DeltaCommit {
                protocol: None,
                meta: None,
                files: Items::new(alloc),
            },
            paths: HashSet::new(alloc),
            space: None,
        }
    }

    /// The commit that the lines say.
    pub fn into_commit(self) -> DeltaCommit
        ensures { result ≡ self }
    {
        self.commit
    }

    pub(crate) fn has_protocol(&self) -> bool
        ensures { result ≡ is_some self.now.protocol }
    {
        self.commit.protocol.is_some()
    }

    pub(crate) fn has_meta_data(&self) -> bool
        ensures { result ≡ is_some self.now.meta }
    {
        self.commit.meta.is_some()
    }

    pub(crate) fn has_path(&self, path: &str) -> bool
        ensures { result ≡ acts_on path.now self.now.files }
    {
        self.paths.contains(path)
    }

    pub(crate) fn is_full(&self) -> bool
        ensures { result ≡ nat_le MAX_ACTIONS (length self.now.files) }
    {
        self.commit.files.len() as u64 >= MAX_ACTIONS
    }

    fn with_protocol(self, protocol: Protocol) -> Reading
        ensures { result ≡ with_addition self (Addition.Protocol protocol) }
    {
        let mut reading = self;
        reading.commit.protocol = Some(protocol);
        reading
    }

    fn with_meta_data(self, meta: MetaData) -> Reading
        ensures { result ≡ with_addition self (Addition.MetaData meta) }
    {
        let mut reading = self;
        reading.commit.meta = Some(meta);
        reading
    }

    fn with_file(self, alloc: Global, file: FileAction) -> Result<Reading, AllocError>
        ensures { IfOk result (λ r. r ≡ with_new_file self file) }
    {
        let Reading {
            mut commit,
            mut paths,
            space,
        } = self;
        put_file(alloc, &mut commit.files, &mut paths, file)?;
        Ok(Reading {
            commit,
            paths,
            space,
        })
    }

    fn with_addition(self, alloc: Global, addition: Addition) -> Result<Reading, AllocError>
        ensures { IfOk result (λ r. r ≡ with_addition self addition) }
    {
        match addition {
            Addition::Nothing => Ok(self),
            Addition::Protocol(protocol) => Ok(self.with_protocol(protocol)),
            Addition::MetaData(meta) => Ok(self.with_meta_data(meta)),
            Addition::File(file) => self.with_file(alloc, file),
        }
    }

    /// The space of the lines before, or a new one.
    fn take_space(&mut self, alloc: Global) -> Result<Box<LineSpace>, AllocError>
        ensures { self.new ≡ self.old }
    {
        match self.space.take() {
            Some(space) => Ok(space),
            None => LineSpace::boxed(alloc),
        }
    }

    /// Keeps the space for the next line.
    fn keep_space(&mut self, space: Box<LineSpace>)
        ensures { self.new ≡ self.old }
    {
        self.space = Some(space);
    }

    /// The commit with what one more line says, or what is wrong with that line behind the others: by
    /// itself, a feature that it shows, a number that it passes, or a second action on a path.
    pub fn with_line(self, alloc: Global, line: &[u8]) -> Result<Reading, ReadError<Fault>>
        requires { IsWritable self }
        ensures read { Gives (λ r. r) result (with_line self line.now) }
        ensures sound { IfOk result IsWritable }
    {
        let mut reading = self;
        let mut space = reading.take_space(alloc)?;
        let addition = judged_line(alloc, &mut space, &reading, line)?;
        let mut longer = reading.with_addition(alloc, addition)?;
        longer.keep_space(space);
        Ok(longer)
    }
}

/// Puts an action on a file behind the others, and its path among theirs.
fn put_file(
    alloc: Global,
    files: &mut Items<FileAction>,
    paths: &mut HashSet<String>,
    file: FileAction,
) -> Result<(), AllocError>
    ensures files { OnOk result (files.new ≡ files.old ++ file ∷ []) }
    ensures paths { OnOk result ((q : List ℕ) → contains_text paths.new q
        ≡ (if bytes_eq (file_path file) q then true else contains_text paths.old q)) }
{
    let path = String::from_str(alloc, file.path().as_str())?;
    paths.insert(path)?;
    files.push(file)?;
    Ok(())
}

/// Why a commit isn't read whose line of this number, counted from 1, has this fault.
pub fn error_with_line(error: ReadError<Fault>, line: u64) -> DeltaError
    ensures { IsErrorAt line error result }
{
    match error {
        ReadError::Memory => DeltaError::Memory,
        ReadError::Fault(Fault::Malformed) => DeltaError::Malformed { line },
        ReadError::Fault(Fault::Unsupported(feature)) => DeltaError::Unsupported { feature, line },
        ReadError::Fault(Fault::Limit(which)) => DeltaError::Limit { which },
        ReadError::Fault(Fault::DoublePath) => DeltaError::DoublePath { line },
    }
}

/// Where the first newline stands.
pub fn newline_in(bytes: &[u8]) -> Option<usize>
    ensures { result ≡ position is_newline bytes.now }
{
    memchr(b'\n', bytes)
}

/// The first line, and what stands behind its newline.
fn next_line(bytes: &[u8]) -> (&[u8], Option<&[u8]>)
    ensures split { lines_of bytes.now
        ≡ result.0.now ∷ lines_in (option_map (λ s. s.now) result.1) }
    ensures shorter { IfSome result.1 (λ s. length s.now < length bytes.now) }
{
    match newline_in(bytes) {
        None => (bytes, None),
        Some(at) => (&bytes[..at], Some(&bytes[at + 1..])),
    }
}

#[tactic(auto, unfolding(crate::specs::Judging::commit_of))]
fn read_lines(alloc: Global, bytes: &[u8]) -> Result<DeltaCommit, DeltaError>
    ensures read { Answers result (commit_of bytes.now) }
    ensures sound { IfOk result IsWritable }
{
    let mut reading = Reading::new(alloc);
    let mut rest = Some(bytes);
    let mut number = 0u64;
    'lines: while let Some(front) = rest {
        let (line, behind) = next_line(front);
        number += 1;
        reading = match reading.with_line(alloc, line) {
            Ok(longer) => longer,
            Err(error) => return Err(error_with_line(error, number)),
        };
        rest = behind;
    }
    Ok(reading.into_commit())
}

/// The commit that the bytes are (Delta protocol, "Actions"): lines ended by a newline, each blank or
/// one JSON object. A refusal names the first line at fault; on one line `Malformed` goes before
/// `Unsupported`, that before `Limit`, and that before `DoublePath`.
pub fn read_commit(alloc: Global, bytes: &[u8]) -> Result<DeltaCommit, DeltaError>
    // What is read is a commit that can be read.
    ensures found { IfOk result (λ c. IsReadableCommit bytes.now c) }
    // What is a commit that can be read is read, unless memory runs out.
    ensures only { (c : DeltaCommit) → IsReadableCommit bytes.now c → Answers result (Ok c) }
    // What is refused has a first line at fault, which the error names.
    ensures fault { IfErr result (λ e. IsRefusal bytes.now e) }
    // Malformed and DoublePath come only where the bytes are outside the grammar.
    ensures grammar { IfErr result (λ e. IsGrammarError e
        → (actions : List LineAction) → ¬ AreLinesInGrammar (lines_of bytes.now) actions) }
    // No names stand twice, and no paths: what is read may be written again, and make a change.
    ensures sound { IfOk result IsWritable }
    // The same as a function of the bytes.
    ensures exact { Answers result (commit_of bytes.now) }
{
    read_lines(alloc, bytes)
}
