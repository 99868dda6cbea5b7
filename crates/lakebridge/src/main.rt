//! The program: reads one lake table's metadata and writes the others' beside it.
#![tactic(auto)]

use lake_batch::{BatchStatus, run_all, writes};
use lake_store::Sink;
use lake_system::{Access, FolderStore, HeldFolder, StdSink, SystemClock, lock_folder};
use std::alloc::{AllocError, Global};
use std::env::{self, Env};
use std::io::ErrorKind;
use std::process::ExitCode;
use sync_driver::{Status, refuse_words};

fn main(rt: HostRuntime) -> ExitCode {
    ExitCode::from(run_words(&rt).number())
}

fn run_words(rt: &HostRuntime) -> BatchStatus {
    let alloc = rt.alloc();
    let mut out = StdSink::new(rt);
    let words = match words_after_name(rt) {
        Ok(words) => words,
        Err(refusal) => return BatchStatus::Run(refuse(alloc, &mut out, refusal)),
    };
    let Ok(folder) = place(alloc, &words) else {
        return BatchStatus::Run(Status::Memory);
    };
    run_over(rt, &words, folder, &mut out)
}

// Runs the words over the folder, locked for as long as they take. Where it can't be had, since another run holds it,
// each call of the store fails.
fn run_over(
    rt: &HostRuntime,
    words: &[String],
    folder: String,
    out: &mut impl Sink,
) -> BatchStatus {
    let alloc = rt.alloc();
    let mut clock = SystemClock::new(rt);
    let access = access_of(words);
    match lock_folder(rt, folder.as_str(), access) {
        Ok(_lock) => {
            let store = FolderStore::new(rt, alloc, folder, access);
            let (_, status) = run_all(alloc, words, store, &mut clock, out);
            status
        }
        Err(_) => {
            let (_, status) = run_all(alloc, words, HeldFolder::new(), &mut clock, out);
            status
        }
    }
}

// How the folder is held while the words are run: alone where they may write.
fn access_of(words: &[String]) -> Access {
    if writes(words) {
        Access::Writes
    } else {
        Access::Reads
    }
}

// Why the words can't be handed on.
enum WordsError {
    Memory,
    // One of them isn't UTF-8.
    NoText,
}

// The words after the program's name.
fn words_after_name<R: Env + AllocGlobal>(rt: &R) -> Result<Vec<String>, WordsError> {
    match env::args(rt) {
        Ok(words) => words
            .skip(1)
            .collect(rt.alloc())
            .map_err(|_| WordsError::Memory),
        Err(error) if error.kind() == ErrorKind::OutOfMemory => Err(WordsError::Memory),
        Err(_) => Err(WordsError::NoText),
    }
}

fn refuse(alloc: Global, out: &mut impl Sink, refusal: WordsError) -> Status {
    match refusal {
        WordsError::Memory => Status::Memory,
        WordsError::NoText => refuse_words(alloc, out),
    }
}

// The folder that the first word names. That of the root is all slashes.
fn place(alloc: Global, words: &[String]) -> Result<String, AllocError> {
    match words.first() {
        Some(word) => match word.as_str().trim_end_matches('/') {
            "" => "/".to_string(alloc),
            folder => folder.to_string(alloc),
        },
        None => Ok(String::new(alloc)),
    }
}
