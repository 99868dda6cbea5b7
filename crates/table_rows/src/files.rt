//! Files of a store.
use lake_store::{FuseStore, MemoryStore, Script, Store};
use rows::{Step, show_no_step, unended};
use std::alloc::{AllocError, Global};

/// A store without files, where no call fails.
pub fn empty_store(alloc: Global) -> FuseStore {
    let script = Script {
        failing: Vec::new(alloc),
        stop: None,
        contested: Vec::new(alloc),
    };
    FuseStore::new(alloc, MemoryStore::new(alloc), script)
}

/// Puts a file of this text.
pub fn put_text(store: &mut FuseStore, path: &str, text: &str) -> Result<(), AllocError> {
    store.inner().put(path, text.as_bytes())
}

/// Puts a file of the lines of a step `file PATH`, or `file PATH unended`, without its last newline there.
pub fn put_file(
    store: &mut FuseStore,
    step: &Step<'_>,
    text: &str,
    shown: &mut String,
) -> Result<(), AllocError> {
    match step.word_at(2) {
        "" => put_text(store, step.word_at(1), text),
        "unended" => put_text(store, step.word_at(1), unended(text)),
        _ => show_no_step(shown, step),
    }
}

/// Adds the text that bytes are.
pub fn show_text(bytes: &[u8], shown: &mut String) -> Result<(), AllocError> {
    match str::from_utf8(bytes) {
        Ok(text) => shown.push_str(text),
        Err(_) => shown.push_str("no text\n"),
    }
}

/// Adds the text of a file.
pub fn tell_file(
    alloc: Global,
    store: &mut FuseStore,
    path: &str,
    shown: &mut String,
) -> Result<(), AllocError> {
    match store.inner().read(alloc, path) {
        Ok(Some(bytes)) => show_text(bytes.as_slice(), shown),
        Ok(None) => shown.push_str("no file\n"),
        Err(_) => Err(AllocError),
    }
}
