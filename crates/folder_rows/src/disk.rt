//! Steps on the disk, by the system's own calls.
use crate::shown::{show_line, show_text};
use rows::Step;
use std::alloc::AllocError;
use std::fs::{self, File};
use std::io::{self, ErrorKind, PipeReader, PipeWriter};
use std::os::fd::AsRawFd;
use std::os::unix::fs::{MetadataExt, symlink};

/// Makes an empty folder of this name, where whatever stood there is gone.
pub(crate) fn make_empty(rt: &HostRuntime, folder: &str) -> io::Result<()> {
    match fs::remove_dir_all(rt, folder) {
        Err(error) if error.kind() != ErrorKind::NotFound => return Err(error),
        _ => {}
    }
    fs::create_dir(rt, folder)
}

/// That the words of a step aren't those that it has.
fn other_words() -> io::Error {
    io::Error::from(ErrorKind::InvalidInput)
}

/// What stands before and behind this word.
fn parts_at<'a>(words: &'a str, between: &str) -> io::Result<(&'a str, &'a str)> {
    match words.split_once(between) {
        Some(parts) => Ok(parts),
        None => Err(other_words()),
    }
}

/// Makes a file of the step's lines, or of so many zero bytes.
pub(crate) fn make_file(rt: &HostRuntime, words: &str, step: &Step<'_>) -> io::Result<()> {
    match words.split_once(" of ") {
        Some((path, count)) => make_long(rt, path, count),
        None => fs::write(rt, words, step.text(rt.alloc())?.as_str()),
    }
}

fn make_long(rt: &HostRuntime, path: &str, length: &str) -> io::Result<()> {
    let (count, _) = parts_at(length, " bytes")?;
    let Ok(count) = count.parse::<u64>() else {
        return Err(other_words());
    };
    File::create(rt, path)?.set_len(count)
}

/// Makes a symbolic link.
pub(crate) fn make_link(rt: &HostRuntime, words: &str) -> io::Result<()> {
    let (path, target) = parts_at(words, " to ")?;
    symlink(rt, target, path)
}

/// Gives a file another name.
pub(crate) fn make_name(rt: &HostRuntime, words: &str) -> io::Result<()> {
    let (path, other) = parts_at(words, " of ")?;
    fs::hard_link(rt, other, path)
}

/// A pipe that is open at both ends.
#[derive(Drop)]
pub(crate) struct Pipe {
    reader: PipeReader,
    _writer: PipeWriter,
}

/// Has the path lead to a pipe in which nothing is, and of which one end stays open.
pub(crate) fn make_pipe(rt: &HostRuntime, path: &str) -> io::Result<Pipe> {
    let (reader, writer) = io::pipe(rt)?;
    let pipe = Pipe {
        reader,
        _writer: writer,
    };
    let target = format!(in rt.alloc(); "/proc/self/fd/{}", pipe.reader.as_raw_fd())?;
    symlink(rt, target.as_str(), path)?;
    Ok(pipe)
}

/// Shows what is at the path.
pub(crate) fn show_at(rt: &HostRuntime, path: &str, shown: &mut String) -> io::Result<()> {
    let found = match fs::symlink_metadata(rt, path) {
        Ok(found) => found,
        Err(error) if error.kind() == ErrorKind::NotFound => {
            return Ok(show_line(shown, "nothing")?);
        }
        Err(error) => return Err(error),
    };
    let alloc = rt.alloc();
    if found.is_dir() {
        show_line(shown, "a folder")?;
    } else if found.is_symlink() {
        let target = fs::read_link(rt, path)?;
        let line = format!(in alloc; "a link to {}", target.as_str())?;
        show_line(shown, line.as_str())?;
    } else {
        let line = format!(in alloc; "a file with link count {}:", found.nlink())?;
        show_line(shown, line.as_str())?;
        show_text(shown, fs::read(rt, path)?.as_slice())?;
    }
    Ok(())
}

/// Shows the names in a folder, in byte order.
pub(crate) fn show_in(rt: &HostRuntime, folder: &str, shown: &mut String) -> io::Result<()> {
    let mut names = Vec::new(rt.alloc());
    for entry in fs::read_dir(rt, folder)? {
        names.push(entry?.file_name().to_string(rt.alloc())?)?;
    }
    if names.is_empty() {
        show_line(shown, "no names")?;
    }
    names.sort()?;
    for name in names.iter() {
        show_line(shown, name.as_str())?;
    }
    Ok(())
}
