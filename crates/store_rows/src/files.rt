//! The files of a store in memory.
use iceberg_manifest::Infos;
use iceberg_manifest_reading::read_list;
use lake_store::{Blob, FuseStore, MemoryStore, Names, Script, Store, Text};
use std::alloc::{AllocError, Global};

/// The folders in which tables have metadata, and that of staged log compactions.
const FOLDERS: &[&str] = &[
    "_delta_log",
    ".hoodie",
    ".hoodie/.lakebridge",
    ".hoodie/archived",
    "metadata",
    ".lakebridge",
];

/// A script by which no call goes wrong.
pub fn no_trouble(alloc: Global) -> Script {
    Script {
        failing: Vec::new(alloc),
        stop: None,
        contested: Vec::new(alloc),
    }
}

fn names_in(alloc: Global, store: &mut MemoryStore, folder: &str) -> Result<Names, AllocError> {
    match store.list(alloc, folder) {
        Ok(names) => Ok(names),
        Err(_) => Err(AllocError),
    }
}

fn read(alloc: Global, store: &mut MemoryStore, path: &str) -> Result<Option<Blob>, AllocError> {
    match store.read(alloc, path) {
        Ok(bytes) => Ok(bytes),
        Err(_) => Err(AllocError),
    }
}

/// A store with the same files, all durable, whose calls go wrong as the script says.
pub fn copy_of(
    alloc: Global,
    store: &mut FuseStore,
    script: Script,
) -> Result<FuseStore, AllocError> {
    let mut copy = MemoryStore::new(alloc);
    for folder in FOLDERS {
        copy_folder(alloc, store.inner(), folder, &mut copy)?;
    }
    Ok(FuseStore::new(alloc, copy, script))
}

fn copy_folder(
    alloc: Global,
    store: &mut MemoryStore,
    folder: &str,
    copy: &mut MemoryStore,
) -> Result<(), AllocError> {
    let names = names_in(alloc, store, folder)?;
    for name in names.as_slice() {
        let path = format!(in alloc; "{folder}/{}", name.as_str())?;
        copy_between(alloc, store, path.as_str(), copy)?;
    }
    Ok(())
}

fn copy_between(
    alloc: Global,
    store: &mut MemoryStore,
    path: &str,
    copy: &mut MemoryStore,
) -> Result<(), AllocError> {
    match read(alloc, store, path)? {
        Some(bytes) => copy.put(path, bytes.as_slice()),
        None => Ok(()),
    }
}

/// The bytes as a text, if they are one.
pub fn text_of(alloc: Global, bytes: &[u8]) -> Result<String, AllocError> {
    match str::from_utf8(bytes) {
        Ok(text) => String::from_str(alloc, text),
        Err(_) => String::from_str(alloc, "no text"),
    }
}

/// The text of a file.
pub(crate) fn file_text(
    alloc: Global,
    store: &mut FuseStore,
    path: &str,
) -> Result<String, AllocError> {
    match read(alloc, store.inner(), path)? {
        Some(bytes) if bytes.as_slice().is_empty() => String::from_str(alloc, "empty file"),
        Some(bytes) => text_of(alloc, bytes.as_slice()),
        None => String::from_str(alloc, "no file"),
    }
}

/// The lines so many times, with a number from 0 on in place of `NUMBER`, if the count is one.
pub(crate) fn numbered_lines(
    alloc: Global,
    count: &str,
    lines: &[&str],
) -> Result<Option<String>, AllocError> {
    let Ok(count) = count.parse::<u32>() else {
        return Ok(None);
    };
    let mut text = String::new(alloc);
    for number in 0..count {
        push_numbered(alloc, lines, number, &mut text)?;
    }
    Ok(Some(text))
}

fn push_numbered(
    alloc: Global,
    lines: &[&str],
    number: u32,
    text: &mut String,
) -> Result<(), AllocError> {
    let number = format!(in alloc; "{number}")?;
    for line in lines {
        push_replaced(alloc, line, "NUMBER", number.as_str(), text)?;
    }
    Ok(())
}

/// Adds the line with this text in place of each such word.
pub(crate) fn push_replaced(
    alloc: Global,
    line: &str,
    word: &str,
    by: &str,
    text: &mut String,
) -> Result<(), AllocError> {
    let line = line.replace(alloc, word, by)?;
    text.push_str(line.as_str())?;
    text.push('\n')
}

/// Takes off a file's last byte.
pub(crate) fn cut_file(alloc: Global, store: &mut FuseStore, path: &str) -> Result<(), AllocError> {
    let Some(bytes) = read(alloc, store.inner(), path)? else {
        return Ok(());
    };
    match bytes.as_slice().split_last() {
        Some((_, cut)) => store.inner().put(path, cut),
        None => Ok(()),
    }
}

/// Copies a file to another path.
pub(crate) fn copy_file(
    alloc: Global,
    store: &mut FuseStore,
    from: &str,
    to: &str,
) -> Result<(), AllocError> {
    match read(alloc, store.inner(), from)? {
        Some(bytes) => store.inner().put(to, bytes.as_slice()),
        None => Ok(()),
    }
}

/// Removes a file.
pub(crate) fn remove_file(store: &mut FuseStore, path: &str) -> Result<(), AllocError> {
    match store.inner().remove(path) {
        Ok(()) => Ok(()),
        Err(_) => Err(AllocError),
    }
}

/// Shows the text of a file.
pub(crate) fn show_file(
    alloc: Global,
    store: &mut FuseStore,
    path: &str,
    shown: &mut String,
) -> Result<(), AllocError> {
    let text = file_text(alloc, store, path)?;
    shown.push_str(text.as_str())
}

/// Shows the names in these folders, a line each.
pub(crate) fn show_lists(
    alloc: Global,
    store: &mut FuseStore,
    folders: &str,
    shown: &mut String,
) -> Result<(), AllocError> {
    for folder in folders.split_whitespace() {
        let names = names_in(alloc, store.inner(), folder)?;
        shown.push_str(folder)?;
        shown.push(':')?;
        show_names(&names, shown)?;
    }
    Ok(())
}

fn show_names(names: &Names, shown: &mut String) -> Result<(), AllocError> {
    for name in names.as_slice() {
        shown.push(' ')?;
        shown.push_str(name.as_str())?;
    }
    shown.push('\n')
}

/// Shows the paths and texts of the files in these folders.
pub(crate) fn show_files(
    alloc: Global,
    store: &mut FuseStore,
    folders: &str,
    shown: &mut String,
) -> Result<(), AllocError> {
    for folder in folders.split_whitespace() {
        push_files(alloc, store, folder, shown)?;
    }
    Ok(())
}

/// The paths and texts of all files.
pub(crate) fn all_files(alloc: Global, store: &mut FuseStore) -> Result<String, AllocError> {
    let mut all = String::new(alloc);
    for folder in FOLDERS {
        push_files(alloc, store, folder, &mut all)?;
    }
    Ok(all)
}

fn push_files(
    alloc: Global,
    store: &mut FuseStore,
    folder: &str,
    all: &mut String,
) -> Result<(), AllocError> {
    let names = names_in(alloc, store.inner(), folder)?;
    for name in names.as_slice() {
        push_file(alloc, store, folder, name, all)?;
    }
    Ok(())
}

fn push_file(
    alloc: Global,
    store: &mut FuseStore,
    folder: &str,
    name: &Text,
    all: &mut String,
) -> Result<(), AllocError> {
    let path = format!(in alloc; "{folder}/{}", name.as_str())?;
    let text = file_text(alloc, store, path.as_str())?;
    writeln!(all, "{}\n{}", path.as_str(), text.as_str())
}

/// Shows the manifests in the list at this path.
pub(crate) fn show_manifests(
    alloc: Global,
    store: &mut FuseStore,
    path: &str,
    shown: &mut String,
) -> Result<(), AllocError> {
    let Some(bytes) = read(alloc, store.inner(), path)? else {
        return shown.push_str("no file");
    };
    match read_list(alloc, bytes.as_slice()) {
        Ok(infos) => show_infos(&infos, shown),
        Err(_) => shown.push_str("no list"),
    }
}

/// Shows the manifests, each with its files that were added, that were there, and that went.
fn show_infos(infos: &Infos, shown: &mut String) -> Result<(), AllocError> {
    for info in infos.as_slice() {
        let path = info.manifest_path.as_str();
        let (added, existing) = (info.added_files_count, info.existing_files_count);
        writeln!(
            shown,
            "{path} +{added} {existing} -{}",
            info.deleted_files_count
        )?;
    }
    Ok(())
}
