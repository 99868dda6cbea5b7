//! The lock on a table's folder, so that one run at a time writes there.
use crate::files::is_folder;
use std::fs::{self, File, TryLockError};
use std::io::{self, ErrorKind};

/// What a run does to the files below its folder.
#[derive(Clone, Copy, PartialEq, Eq, Debug)]
pub enum Access {
    Reads,
    Writes,
}

/// Takes the lock on the folder, for as long as the handle that it gives is kept: many runs may read at once, and one
/// that writes goes alone. `None` where no folder is there, and so nothing to lock. An error where another run is in
/// the way, or where the folder can't be opened.
///
/// The lock is the system's own on the folder itself (`flock`): it makes no file, it works where the folder can only
/// be read, and it ends with the run however that ends. Where the system has no such lock for this folder, as on
/// some network mounts, the run goes on without.
pub fn lock_folder(rt: &HostRuntime, folder: &str, access: Access) -> io::Result<Option<File>> {
    if !is_folder(rt, folder)? {
        return Ok(None);
    }
    let opened = fs::open(rt, folder)?;
    let taken = match access {
        Access::Reads => opened.try_lock_shared(),
        Access::Writes => opened.try_lock(),
    };
    match taken {
        Err(TryLockError::WouldBlock) => Err(io::Error::from(ErrorKind::WouldBlock)),
        _ => Ok(Some(opened)),
    }
}
