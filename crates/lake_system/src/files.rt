//! Reads and writes of the system's files, by the calls of std.
ghost use Rattle.std.specs.Prelude.{◌≤◌, IfOk, IfSome, length, vec_len};
ghost use Rattle.lake_system.specs.Lengths.{IsWithin};

use lake_store::{Names, Text};
use std::alloc::Global;
use std::fs;
use std::fs::{DirEntry, Metadata, OpenFile, OpenOptions};
use std::io::{self, ErrorKind, Read, Seek, SeekFrom, Write};
use std::rt::Files;
use table_history::limits::{MAX_FILE_BYTES, MAX_NAMES};

/// What stands at a path.
#[derive(Drop)]
pub enum Found<T> {
    Absent,
    TooLong { length: u64 },
    Here(T),
}

// Whether the error says that no file has this path: a part of the path is missing, is no folder, leads round in a
// loop of links, or is longer than the file system allows.
fn says_absent(error: &io::Error) -> bool {
    matches!(
        error.kind(),
        ErrorKind::NotFound
            | ErrorKind::NotADirectory
            | ErrorKind::FilesystemLoop
            | ErrorKind::InvalidFilename
    )
}

// Whether the error says that a folder can't be synced at all: `EINVAL`, `EOPNOTSUPP` or `ENOSYS`.
fn says_no_sync(error: &io::Error) -> bool {
    matches!(
        error.kind(),
        ErrorKind::Unsupported | ErrorKind::InvalidInput
    )
}

/// Whether a folder is there, or a link to one.
pub fn is_folder<R: Files>(rt: &R, path: &str) -> io::Result<bool> {
    match fs::metadata(rt, path) {
        Ok(metadata) => Ok(metadata.is_dir()),
        Err(error) if says_absent(&error) => Ok(false),
        Err(error) => Err(error),
    }
}

// What the system says of the file, where there is one. A folder, a pipe or a device is none.
fn file_at<R: Files>(rt: &R, path: &str) -> io::Result<Option<Metadata>> {
    match fs::metadata(rt, path) {
        Ok(metadata) if metadata.is_file() => Ok(Some(metadata)),
        Ok(_) => Ok(None),
        Err(error) if says_absent(&error) => Ok(None),
        Err(error) => Err(error),
    }
}

fn open_at<R: Files>(rt: &R, path: &str) -> io::Result<Option<R::File>> {
    match fs::open(rt, path) {
        Ok(file) => Ok(Some(file)),
        Err(error) if says_absent(&error) => Ok(None),
        Err(error) => Err(error),
    }
}

/// The file's bytes, unless they are more than `MAX_FILE_BYTES`.
pub fn read_whole<R: Files>(rt: &R, alloc: Global, path: &str) -> io::Result<Found<Vec<u8>>>
    ensures { IfOk result (λ found. IsWithin MAX_FILE_BYTES (λ bytes. vec_len bytes) found) }
{
    let Some(metadata) = file_at(rt, path)? else {
        return Ok(Found::Absent);
    };
    let length = metadata.len();
    if length > MAX_FILE_BYTES {
        return Ok(Found::TooLong { length });
    }
    let Some(file) = open_at(rt, path)? else {
        return Ok(Found::Absent);
    };
    let bytes = read_rest(file, alloc, length, MAX_FILE_BYTES + 1)?;
    // It may have grown in between.
    let length = bytes.len() as u64;
    if length > MAX_FILE_BYTES {
        return Ok(Found::TooLong { length });
    }
    Ok(Found::Here(bytes))
}

/// At most `len` bytes of the file from `from` on.
pub fn read_range<R: Files>(
    rt: &R,
    alloc: Global,
    path: &str,
    from: u64,
    len: u32,
) -> io::Result<Option<Vec<u8>>>
    ensures { IfOk result (λ part. IfSome part (λ bytes. vec_len bytes ≤ len)) }
{
    let Some(metadata) = file_at(rt, path)? else {
        return Ok(None);
    };
    let Some(mut file) = open_at(rt, path)? else {
        return Ok(None);
    };
    let length = metadata.len();
    if from >= length {
        return Ok(Some(Vec::new(alloc)));
    }
    file.seek(SeekFrom::Start(from))?;
    let part = read_rest(file, alloc, length - from, u64::from(len))?;
    Ok(Some(part))
}

// The bytes of the file from where it stands on, at most `limit` of them. So many more stood there when its length
// was asked for, and that may have changed since.
fn read_rest<F: Read + Drop>(
    mut file: F,
    alloc: Global,
    stood: u64,
    limit: u64,
) -> io::Result<Vec<u8>>
    ensures { IfOk result (λ bytes. vec_len bytes ≤ limit) }
{
    // One byte more than stood there, so that the end of the file is met in the same memory.
    let room = stood.saturating_add(1).min(limit);
    let mut bytes = vec![in alloc; 0; room as usize]?;
    let count = fill(&mut file, bytes.as_mut_slice())?;
    bytes.truncate(count);
    // A file that has grown goes on behind that.
    if count as u64 == room && room < limit {
        file.take(limit - room).read_to_end(&mut bytes)?;
        bytes.truncate(limit as usize);
    }
    Ok(bytes)
}

// Reads until the buffer is full or the file ends, and answers how many bytes came. A read that a signal interrupts is
// made again.
fn fill<F: Read>(file: &mut F, buffer: &mut [u8]) -> io::Result<usize>
    ensures { IfOk result (λ count. count ≤ length buffer.new) }
{
    let mut filled = 0;
    'reads: for _ in 0..u64::MAX {
        if filled == buffer.len() {
            return Ok(filled);
        }
        match file.read(&mut buffer[filled..]) {
            Ok(0) => return Ok(filled),
            Ok(count) => filled += count,
            Err(error) if error.kind() == ErrorKind::Interrupted => {}
            Err(error) => return Err(error),
        }
    }
    Err(io::Error::from(ErrorKind::TimedOut))
}

/// The names of the files directly in the folder, in byte order. One that isn't UTF-8 is left out.
pub fn names_in<R: Files + AllocGlobal + Clone + Drop>(
    rt: &R,
    alloc: Global,
    folder: &str,
) -> io::Result<Found<Names>>
    ensures { IfOk result (λ found. IsWithin MAX_NAMES (λ names. length names) found) }
{
    let entries = match fs::read_dir(rt, folder) {
        Ok(entries) => entries,
        Err(error) if says_absent(&error) => return Ok(Found::Absent),
        Err(error) => return Err(error),
    };
    let mut names = Vec::new(alloc);
    let mut count = 0u64;
    'entries: for entry in entries {
        if let Some(name) = name_of_file(rt, alloc, entry)? {
            count = count.saturating_add(1);
            push_within(&mut names, name)?;
        }
    }
    if count > MAX_NAMES {
        return Ok(Found::TooLong { length: count });
    }
    Ok(Found::Here(in_order(names)?))
}

// The names in byte order, each once.
fn in_order(mut names: Vec<Text>) -> io::Result<Names>
    ensures { IfOk result (λ sorted. length sorted ≤ vec_len names) }
{
    names.sort()?;
    names.dedup();
    Ok(Names::from_sorted(names))
}

// Adds the name where there is room for one more.
fn push_within(names: &mut Vec<Text>, name: Text) -> io::Result<()>
    requires { vec_len names.old ≤ MAX_NAMES }
    ensures { vec_len names.new ≤ MAX_NAMES }
{
    if (names.len() as u64) < MAX_NAMES {
        names.push(name)?;
    }
    Ok(())
}

// The name that an entry of a folder shows, if it is that of a file and is UTF-8.
fn name_of_file<R: Files + Drop>(
    rt: &R,
    alloc: Global,
    entry: io::Result<DirEntry<R, Global>>,
) -> io::Result<Option<Text>> {
    match entry {
        Ok(entry) => {
            if file_at(rt, entry.path().as_str())?.is_none() {
                return Ok(None);
            }
            Ok(Some(Text::from_str(alloc, entry.file_name())?))
        }
        Err(error) if error.kind() == ErrorKind::InvalidFilename => Ok(None),
        Err(error) => Err(error),
    }
}

/// The folder that a path lies in.
pub fn folder_of(path: &str) -> &str {
    match path.rsplit_once('/') {
        Some(("", _)) => "/",
        Some((folder, _)) => folder,
        None => ".",
    }
}

/// The folder that a path lies in, or the next one above it that is there.
pub fn folder_there<'a, R: Files>(rt: &R, path: &'a str) -> io::Result<&'a str> {
    let mut folder = folder_of(path);
    for _ in 0..path.len() {
        if is_folder(rt, folder)? {
            break;
        }
        folder = folder_of(folder);
    }
    Ok(folder)
}

/// Makes the folder that a path lies in, and those above it.
pub fn make_folder_of<R: Files>(rt: &R, path: &str) -> io::Result<()> {
    fs::create_dir_all(rt, folder_of(path))
}

/// Makes the file anew with these bytes, which are on the disk then. What another name of an old file reads stays,
/// since that file isn't written over; nor is what a link there leads to.
pub fn write_new<R: Files>(rt: &R, path: &str, bytes: &[u8]) -> io::Result<()> {
    let mut file = make_anew(rt, path)?;
    // A file without bytes is there as soon as its folder is on the disk.
    if !bytes.is_empty() {
        file.write_all(bytes)?;
        file.sync_all()?;
    }
    Ok(())
}

fn make_anew<R: Files>(rt: &R, path: &str) -> io::Result<R::File> {
    match create_new(rt, path) {
        Err(error) if error.kind() == ErrorKind::AlreadyExists => {
            remove_if_there(rt, path)?;
            create_new(rt, path)
        }
        made => made,
    }
}

fn create_new<R: Files>(rt: &R, path: &str) -> io::Result<R::File> {
    let mut options = OpenOptions::new();
    options.write(true).create_new(true);
    options.open(rt, path)
}

// Removes the file where there is one.
fn remove_if_there<R: Files>(rt: &R, path: &str) -> io::Result<()> {
    match fs::remove_file(rt, path) {
        Ok(()) => Ok(()),
        Err(error) if says_absent(&error) => Ok(()),
        Err(error) => Err(error),
    }
}

/// Has the folder's names on the disk. An absent folder needs nothing, nor does one of a file system that can't sync
/// a folder. What isn't a folder isn't opened: to open a pipe may take for ever.
pub fn sync_folder<R: Files>(rt: &R, folder: &str) -> io::Result<()> {
    if !is_folder(rt, folder)? {
        return Ok(());
    }
    let Some(opened) = open_at(rt, folder)? else {
        return Ok(());
    };
    match opened.sync_all() {
        Err(error) if !says_no_sync(&error) => Err(error),
        _ => Ok(()),
    }
}

/// Removes the file, durably, where there is one.
pub fn remove_durably<R: Files>(rt: &R, path: &str) -> io::Result<()> {
    remove_if_there(rt, path)?;
    sync_folder(rt, folder_of(path))
}

/// Gives the file its new name, durably, and answers whether it could: no file that stands there is replaced.
pub fn move_to_free<R: Files>(rt: &R, from: &str, to: &str) -> io::Result<bool> {
    match fs::hard_link(rt, from, to) {
        Ok(()) => remove_link(rt, from, to),
        Err(error) if error.kind() == ErrorKind::AlreadyExists => Ok(false),
        Err(error) if says_no_links(&error) => rename_to_free(rt, from, to),
        Err(error) => Err(error),
    }
}

// The system's number of "operation not permitted" (`EPERM`), which `link` answers where the file system has no hard links.
const NOT_PERMITTED: i32 = 1;

// Whether the error says that this file can't have another name by a hard link.
fn says_no_links(error: &io::Error) -> bool {
    matches!(
        error.kind(),
        ErrorKind::Unsupported | ErrorKind::TooManyLinks
    ) || error.raw_os_error() == Some(NOT_PERMITTED)
}

// In one folder both names change by one sync. Of two folders the new name is on the disk before the old one goes.
fn remove_link<R: Files>(rt: &R, from: &str, to: &str) -> io::Result<bool> {
    if folder_of(from) != folder_of(to) {
        sync_folder(rt, folder_of(to))?;
    }
    fs::remove_file(rt, from)?;
    sync_folder(rt, folder_of(from))?;
    Ok(true)
}

// For a file system without hard links. A file that comes to the name in between would be replaced.
fn rename_to_free<R: Files>(rt: &R, from: &str, to: &str) -> io::Result<bool> {
    match fs::symlink_metadata(rt, to) {
        Ok(_) => return Ok(false),
        Err(error) if error.kind() == ErrorKind::NotFound => {}
        Err(error) => return Err(error),
    }
    fs::rename(rt, from, to)?;
    sync_folder(rt, folder_of(to))?;
    if folder_of(from) != folder_of(to) {
        sync_folder(rt, folder_of(from))?;
    }
    Ok(true)
}
