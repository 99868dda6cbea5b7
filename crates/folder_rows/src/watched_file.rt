//! A file and a folder's list of the system's, where each call is noted and may be told to fail.
use crate::watch::{Call, Watch, after, before, read_length};
use std::cell::RefCell;
use std::fs::{File, Metadata, OpenFile};
use std::io::{self, Read, Seek, SeekFrom, Write};

/// An open file or folder.
#[derive(Drop)]
pub(crate) struct WatchedFile<'a> {
    pub file: File,
    pub path: String,
    /// Which call it is to sync it.
    pub sync: Call,
    pub watch: &'a RefCell<Watch>,
}

impl<'a> Read for WatchedFile<'a> {
    fn read(&mut self, buf: &mut [u8]) -> io::Result<usize> {
        let most = read_length(self.watch, buf.len())?;
        self.file.read(&mut buf[..most])
    }
}

impl<'a> Write for WatchedFile<'a> {
    fn write(&mut self, buf: &[u8]) -> io::Result<usize> {
        before(self.watch, Call::Write, self.path.as_str())?;
        after(self.watch, Call::Write, self.path.as_str(), Ok(()))?;
        self.file.write(buf)
    }

    fn flush(&mut self) -> io::Result<()> {
        self.file.flush()
    }
}

impl<'a> Seek for WatchedFile<'a> {
    fn seek(&mut self, to: SeekFrom) -> io::Result<u64> {
        self.file.seek(to)
    }
}

impl<'a> OpenFile for WatchedFile<'a> {
    fn metadata(&self) -> io::Result<Metadata> {
        self.file.metadata()
    }

    fn set_len(&self, size: u64) -> io::Result<()> {
        self.file.set_len(size)
    }

    fn sync_all(&self) -> io::Result<()> {
        before(self.watch, self.sync, self.path.as_str())?;
        let answer = self.file.sync_all();
        after(self.watch, self.sync, self.path.as_str(), answer)
    }

    fn sync_data(&self) -> io::Result<()> {
        self.sync_all()
    }
}

/// An open folder, which gives other names before its own.
#[derive(Drop)]
pub(crate) struct ListedDir<D> {
    pub before: Vec<u8>,
    pub dir: D,
}

impl<D: Read> Read for ListedDir<D> {
    fn read(&mut self, buf: &mut [u8]) -> io::Result<usize> {
        let count = self.before.len();
        if count == 0 || count > buf.len() {
            return self.dir.read(buf);
        }
        buf[..count].copy_from_slice(self.before.as_slice());
        self.before.clear();
        Ok(count)
    }
}
