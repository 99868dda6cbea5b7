//! Steps on the lock of a folder.
use crate::shown::show_line;
use lake_system::{Access, lock_folder};
use std::alloc::AllocError;
use std::fs::File;

/// A run that holds a folder.
#[derive(Drop)]
pub(crate) struct Run {
    name: String,
    _lock: File,
}

/// Has a run take the lock, and shows what came.
pub(crate) fn begin_run(
    rt: &HostRuntime,
    runs: &mut Vec<Run>,
    name: &str,
    folder: &str,
    access: Access,
    shown: &mut String,
) -> Result<(), AllocError> {
    match lock_folder(rt, folder, access) {
        Ok(Some(lock)) => {
            let name = name.to_string(rt.alloc())?;
            runs.push(Run { name, _lock: lock })?;
            show_line(shown, "it holds the folder")
        }
        Ok(None) => show_line(shown, "there is no folder"),
        Err(error) => {
            let line = format!(in rt.alloc(); "Err {:?}", error.kind())?;
            show_line(shown, line.as_str())
        }
    }
}

/// Has a run end, if there is one of this name.
pub(crate) fn end_run(runs: &mut Vec<Run>, name: &str) {
    runs.retain(|run| run.name.as_str() != name);
}
