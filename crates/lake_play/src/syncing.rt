//! A target, brought to the source's head.
ghost use Rattle.std.specs.Prelude.{◌≡◌, ◌<◌, ◌^◌};
ghost use Rattle.lake_store.specs.Fuse.{CanFail, script_of};
ghost use Rattle.target_sync.specs.Targets.{target_facts};
ghost use Rattle.lake_play.specs.Playing.{Brings, IsSynced, status_of};
ghost use Rattle.lake_play.specs.Standing.{IsFresh};

use crate::scripted::Scripted;
use lake_store::{FuseStore, MemoryStore, Script};
use source_delta::DeltaSource;
use std::alloc::Global;
use std::mem;
use table_history::Kind;
use target_core::Target;
use target_hudi::HudiTarget;
use target_iceberg::IcebergTarget;
use target_sync::{Mode, Report, Status, sync_one};

/// The location of the table.
pub(crate) const LOCATION: &str = "/t";

/// A fuse that never fails by a script, round a store without files.
pub(crate) fn empty_fuse(alloc: Global) -> FuseStore
    ensures fresh { IsFresh result }
    ensures unscripted { ¬ CanFail (script_of result) }
{
    let script = Script {
        failing: Vec::new(alloc),
        stop: None,
        contested: Vec::new(alloc),
    };
    FuseStore::new(alloc, MemoryStore::new(alloc), script)
}

fn status_of(answer: Result<Report, Status>) -> Status
    ensures { result ≡ status_of answer }
{
    match answer {
        Ok(_) => Status::Done,
        Err(status) => status,
    }
}

/// Brings a target to the head of the Delta source in the same store.
fn bring<T: Target>(
    alloc: Global,
    target: &T,
    store: &mut FuseStore,
    mode: Mode,
    now_ms: u64,
) -> Status
    requires { now_ms < 2 ^ 63 }
    ensures { Brings (target_facts ⟦<T as Target>⟧ target.now) mode now_ms
        store.old store.new result }
{
    let room = store.room();
    let mut scripted = Scripted {
        fuse: mem::replace(store, empty_fuse(alloc)),
        room,
    };
    let answer = sync_one(
        alloc,
        &DeltaSource::new(),
        target,
        &mut scripted,
        mode,
        now_ms,
    );
    let Scripted { fuse, .. } = scripted;
    *store = fuse;
    status_of(answer)
}

/// Brings the target of this format to the head of the Delta source in the same store.
pub(crate) fn sync(
    alloc: Global,
    target: Kind,
    store: &mut FuseStore,
    mode: Mode,
    now_ms: u64,
) -> Status
    requires { now_ms < 2 ^ 63 }
    ensures { IsSynced target mode now_ms store.old store.new result }
{
    match target {
        Kind::Delta => Status::Usage,
        Kind::Hudi => match HudiTarget::new(alloc, LOCATION) {
            Ok(target) => bring(alloc, &target, store, mode, now_ms),
            Err(_) => Status::Memory,
        },
        Kind::Iceberg => match IcebergTarget::new(alloc, LOCATION) {
            Ok(target) => bring(alloc, &target, store, mode, now_ms),
            Err(_) => Status::Memory,
        },
    }
}
