//! The source's log: versions written and removed.
ghost use Rattle.std.specs.Prelude.{◌≡◌, ◌≤◌, ◌<◌, List, ℕ, OnOk};
ghost use Rattle.lake_basics.specs.declared.limits.TheConstants.{MAX_DELTA_VERSION};
ghost use Rattle.lake_store.specs.Disk.{removed, synced, written};
ghost use Rattle.lake_store.specs.Memory.{disk_of};
ghost use Rattle.delta_table.specs.Versions.{IsVersionPath};
ghost use Rattle.lake_play.specs.Playing.{Extends, Sheds, Shortens};

use delta_table::version_path;
use lake_store::{FuseStore, MemoryStore, Store};
use std::alloc::{AllocError, Global};

/// Writes a file of a store in memory, durably.
fn write_durably(store: &mut MemoryStore, path: &str, bytes: &[u8]) -> Result<(), AllocError>
    ensures { OnOk result
        (disk_of store.new ≡ synced (written (disk_of store.old) path.now bytes.now)) }
{
    if store.write(path, bytes).is_err() || store.sync().is_err() {
        return Err(AllocError);
    }
    Ok(())
}

/// Writes a version of the log, durably.
pub(crate) fn extend(
    alloc: Global,
    store: &mut FuseStore,
    version: u64,
    bytes: &[u8],
) -> Result<(), AllocError>
    requires { version ≤ MAX_DELTA_VERSION }
    ensures { OnOk result (Extends version bytes.now store.old store.new) }
{
    let path = version_path(alloc, version)?;
    write_durably(store.inner(), path.as_str(), bytes)
}

fn remove_version(alloc: Global, store: &mut MemoryStore, version: u64) -> Result<(), AllocError>
    requires { version ≤ MAX_DELTA_VERSION }
    ensures { OnOk result ((path : List ℕ) × IsVersionPath path version
        × (disk_of store.new ≡ removed (disk_of store.old) path)) }
{
    let path = version_path(alloc, version)?;
    match store.remove(path.as_str()) {
        Ok(()) => Ok(()),
        Err(_) => Err(AllocError),
    }
}

/// Removes the versions from one on and below another, rising.
fn remove_versions(
    alloc: Global,
    store: &mut MemoryStore,
    from: u64,
    to: u64,
) -> Result<(), AllocError>
    requires { to ≤ MAX_DELTA_VERSION }
    ensures { OnOk result (Sheds from to (disk_of store.old) (disk_of store.new)) }
{
    for version in from..to {
        remove_version(alloc, store, version)?;
    }
    Ok(())
}

/// Removes the versions of the log from one on and below another.
pub(crate) fn shorten(
    alloc: Global,
    store: &mut FuseStore,
    from: u64,
    to: u64,
) -> Result<(), AllocError>
    requires { to ≤ MAX_DELTA_VERSION }
    ensures { OnOk result (Shortens from to store.old store.new) }
{
    remove_versions(alloc, store.inner(), from, to)
}
