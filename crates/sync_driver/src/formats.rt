//! The commands by the formats that the words name.
ghost use Rattle.std.specs.Prelude.{◌≡◌, ◌≢◌, ◌⊎◌, ◌<◌, ◌^◌, ◌++◌, ◌∷◌, ℕ, List, []};
ghost use Rattle.sync_driver.specs.Answers.{AreApart, Brings, BringsEach, BringsTo, BringsTwo, Compares, ComparesTo, GivesUp, Prints, SweepsTo};
ghost use Rattle.sync_driver.specs.Both.{SyncsBoth};
ghost use Rattle.sync_driver.specs.Formats.{ToTarget};
ghost use Rattle.target_sync.specs.Sources.{source_meaning};
ghost use Rattle.target_sync.specs.Targets.{target_facts};

use crate::checking::check;
use crate::command::sync_target;
use crate::pair::sync_both;
use crate::showing::show;
use crate::sweeping::sweep_target;
use lake_store::{Sink, Store};
use source_core::Source;
use source_delta::DeltaSource;
use source_hudi::HudiSource;
use source_iceberg::IcebergSource;
use std::alloc::Global;
use swept_targets::{
    delta_reads_without_loose, hudi_reads_without_loose, iceberg_reads_without_loose,
};
use table_history::Kind;
use target_core::Target;
use target_delta::DeltaTarget;
use target_hudi::HudiTarget;
use target_iceberg::IcebergTarget;
use target_sync::{Mode, Status};

/// Prints the table of this format at its head.
pub(crate) fn print<S: Store, O: Sink>(
    alloc: Global,
    source: Kind,
    store: &mut S,
    out: &mut O,
) -> Status
    ensures { Prints ⟦<S as Store>⟧ ⟦<O as Sink>⟧ (record {
      delta = ⟦<DeltaSource as Source>⟧;
      hudi = ⟦<HudiSource as Source>⟧;
      iceberg = ⟦<IcebergSource as Source>⟧;
      to_delta = ⟦<DeltaTarget as Target>⟧;
      to_hudi = ⟦<HudiTarget as Target>⟧;
      to_iceberg = ⟦<IcebergTarget as Target>⟧;
    })
        source store.old store.new out.old out.new result }
{
    match source {
        Kind::Delta => show(alloc, &DeltaSource::new(), store, out),
        Kind::Iceberg => show(alloc, &IcebergSource::new(), store, out),
        Kind::Hudi => show(alloc, &HudiSource::new(), store, out),
    }
}

/// Brings the target of this format at this location to the source's head.
fn bring_from<F: Source, S: Store, O: Sink>(
    alloc: Global,
    source: &F,
    target: Kind,
    location: &str,
    store: &mut S,
    mode: Mode,
    now_ms: u64,
    out: &mut O,
) -> Status
    requires location { (front : List ℕ) → location.now ≡ front ++ 47 ∷ [] → ⊥ }
    requires now { now_ms < 2 ^ 63 }
    ensures { BringsTo ⟦<S as Store>⟧ ⟦<O as Sink>⟧ (record {
      delta = ⟦<DeltaSource as Source>⟧;
      hudi = ⟦<HudiSource as Source>⟧;
      iceberg = ⟦<IcebergSource as Source>⟧;
      to_delta = ⟦<DeltaTarget as Target>⟧;
      to_hudi = ⟦<HudiTarget as Target>⟧;
      to_iceberg = ⟦<IcebergTarget as Target>⟧;
    })
        location.now (source_meaning ⟦<F as Source>⟧ source.now) target mode now_ms store.old store.new out.old out.new result }
{
    match target {
        Kind::Delta => match DeltaTarget::new(alloc, location) {
            Ok(target) => sync_target(alloc, source, &target, store, mode, now_ms, out),
            Err(_) => Status::Memory,
        },
        Kind::Hudi => match HudiTarget::new(alloc, location) {
            Ok(target) => sync_target(alloc, source, &target, store, mode, now_ms, out),
            Err(_) => Status::Memory,
        },
        Kind::Iceberg => match IcebergTarget::new(alloc, location) {
            Ok(target) => sync_target(alloc, source, &target, store, mode, now_ms, out),
            Err(_) => Status::Memory,
        },
    }
}

/// Brings the first target and the second of this format at this location to the source's head.
fn bring_second<F: Source, T: Target, S: Store, O: Sink>(
    alloc: Global,
    source: &F,
    first: &T,
    second: Kind,
    location: &str,
    store: &mut S,
    mode: Mode,
    now_ms: u64,
    out: &mut O,
) -> Status
    requires location { (front : List ℕ) → location.now ≡ front ++ 47 ∷ [] → ⊥ }
    requires now { now_ms < 2 ^ 63 }
    requires far { F.kind source.now ≢ T.kind first.now }
    requires far_second { F.kind source.now ≢ second }
    requires apart { T.kind first.now ≢ second }
    ensures { GivesUp store.old store.new out.old out.new result ⊎ ToTarget (record {
      delta = ⟦<DeltaSource as Source>⟧;
      hudi = ⟦<HudiSource as Source>⟧;
      iceberg = ⟦<IcebergSource as Source>⟧;
      to_delta = ⟦<DeltaTarget as Target>⟧;
      to_hudi = ⟦<HudiTarget as Target>⟧;
      to_iceberg = ⟦<IcebergTarget as Target>⟧;
    })
        location.now second (λ u. SyncsBoth ⟦<S as Store>⟧ ⟦<O as Sink>⟧ (source_meaning ⟦<F as Source>⟧ source.now) (target_facts ⟦<T as Target>⟧ first.now) u mode now_ms store.old store.new out.old out.new result) }
{
    match second {
        Kind::Delta => match DeltaTarget::new(alloc, location) {
            Ok(target) => sync_both(alloc, source, first, &target, store, mode, now_ms, out),
            Err(_) => Status::Memory,
        },
        Kind::Hudi => match HudiTarget::new(alloc, location) {
            Ok(target) => sync_both(alloc, source, first, &target, store, mode, now_ms, out),
            Err(_) => Status::Memory,
        },
        Kind::Iceberg => match IcebergTarget::new(alloc, location) {
            Ok(target) => sync_both(alloc, source, first, &target, store, mode, now_ms, out),
            Err(_) => Status::Memory,
        },
    }
}

/// Brings the two targets of these formats at this location to the source's head.
fn bring_two<F: Source, S: Store, O: Sink>(
    alloc: Global,
    source: &F,
    first: Kind,
    second: Kind,
    location: &str,
    store: &mut S,
    mode: Mode,
    now_ms: u64,
    out: &mut O,
) -> Status
    requires location { (front : List ℕ) → location.now ≡ front ++ 47 ∷ [] → ⊥ }
    requires now { now_ms < 2 ^ 63 }
    requires far { F.kind source.now ≢ first }
    requires far_second { F.kind source.now ≢ second }
    requires apart { first ≢ second }
    ensures { BringsTwo ⟦<S as Store>⟧ ⟦<O as Sink>⟧ (record {
      delta = ⟦<DeltaSource as Source>⟧;
      hudi = ⟦<HudiSource as Source>⟧;
      iceberg = ⟦<IcebergSource as Source>⟧;
      to_delta = ⟦<DeltaTarget as Target>⟧;
      to_hudi = ⟦<HudiTarget as Target>⟧;
      to_iceberg = ⟦<IcebergTarget as Target>⟧;
    })
        location.now (source_meaning ⟦<F as Source>⟧ source.now) first second mode now_ms store.old store.new out.old out.new result }
{
    match first {
        Kind::Delta => match DeltaTarget::new(alloc, location) {
            Ok(target) => bring_second(
                alloc, source, &target, second, location, store, mode, now_ms, out,
            ),
            Err(_) => Status::Memory,
        },
        Kind::Hudi => match HudiTarget::new(alloc, location) {
            Ok(target) => bring_second(
                alloc, source, &target, second, location, store, mode, now_ms, out,
            ),
            Err(_) => Status::Memory,
        },
        Kind::Iceberg => match IcebergTarget::new(alloc, location) {
            Ok(target) => bring_second(
                alloc, source, &target, second, location, store, mode, now_ms, out,
            ),
            Err(_) => Status::Memory,
        },
    }
}

/// Brings the target of this format at this location, and the other one if there is one, to the
/// source's head.
fn bring_each<F: Source, S: Store, O: Sink>(
    alloc: Global,
    source: &F,
    first: Kind,
    second: Option<Kind>,
    location: &str,
    store: &mut S,
    mode: Mode,
    now_ms: u64,
    out: &mut O,
) -> Status
    requires location { (front : List ℕ) → location.now ≡ front ++ 47 ∷ [] → ⊥ }
    requires now { now_ms < 2 ^ 63 }
    requires apart { AreApart (F.kind source.now) first second }
    ensures { BringsEach ⟦<S as Store>⟧ ⟦<O as Sink>⟧ (record {
      delta = ⟦<DeltaSource as Source>⟧;
      hudi = ⟦<HudiSource as Source>⟧;
      iceberg = ⟦<IcebergSource as Source>⟧;
      to_delta = ⟦<DeltaTarget as Target>⟧;
      to_hudi = ⟦<HudiTarget as Target>⟧;
      to_iceberg = ⟦<IcebergTarget as Target>⟧;
    })
        location.now (source_meaning ⟦<F as Source>⟧ source.now) first second mode now_ms store.old store.new out.old out.new result }
{
    match second {
        None => bring_from(alloc, source, first, location, store, mode, now_ms, out),
        Some(second) => bring_two(
            alloc, source, first, second, location, store, mode, now_ms, out,
        ),
    }
}

/// Brings the target of this format at this location, and the other one if there is one, to the head
/// of the source of that one.
pub(crate) fn bring<S: Store, O: Sink>(
    alloc: Global,
    source: Kind,
    first: Kind,
    second: Option<Kind>,
    location: &str,
    store: &mut S,
    mode: Mode,
    now_ms: u64,
    out: &mut O,
) -> Status
    requires location { (front : List ℕ) → location.now ≡ front ++ 47 ∷ [] → ⊥ }
    requires now { now_ms < 2 ^ 63 }
    requires apart { AreApart source first second }
    ensures { Brings ⟦<S as Store>⟧ ⟦<O as Sink>⟧ (record {
      delta = ⟦<DeltaSource as Source>⟧;
      hudi = ⟦<HudiSource as Source>⟧;
      iceberg = ⟦<IcebergSource as Source>⟧;
      to_delta = ⟦<DeltaTarget as Target>⟧;
      to_hudi = ⟦<HudiTarget as Target>⟧;
      to_iceberg = ⟦<IcebergTarget as Target>⟧;
    })
        location.now source first second mode now_ms store.old store.new out.old out.new result }
{
    match source {
        Kind::Delta => bring_each(
            alloc,
            &DeltaSource::new(),
            first,
            second,
            location,
            store,
            mode,
            now_ms,
            out,
        ),
        Kind::Iceberg => bring_each(
            alloc,
            &IcebergSource::new(),
            first,
            second,
            location,
            store,
            mode,
            now_ms,
            out,
        ),
        Kind::Hudi => bring_each(
            alloc,
            &HudiSource::new(),
            first,
            second,
            location,
            store,
            mode,
            now_ms,
            out,
        ),
    }
}

/// Compares the target of this format at this location with the source.
fn compare_from<F: Source, S: Store, O: Sink>(
    alloc: Global,
    source: &F,
    target: Kind,
    location: &str,
    store: &mut S,
    out: &mut O,
) -> Status
    requires location { (front : List ℕ) → location.now ≡ front ++ 47 ∷ [] → ⊥ }
    ensures { ComparesTo ⟦<S as Store>⟧ ⟦<O as Sink>⟧ (record {
      delta = ⟦<DeltaSource as Source>⟧;
      hudi = ⟦<HudiSource as Source>⟧;
      iceberg = ⟦<IcebergSource as Source>⟧;
      to_delta = ⟦<DeltaTarget as Target>⟧;
      to_hudi = ⟦<HudiTarget as Target>⟧;
      to_iceberg = ⟦<IcebergTarget as Target>⟧;
    })
        location.now (source_meaning ⟦<F as Source>⟧ source.now) target store.old store.new out.old out.new result }
{
    match target {
        Kind::Delta => match DeltaTarget::new(alloc, location) {
            Ok(target) => check(alloc, source, &target, store, out),
            Err(_) => Status::Memory,
        },
        Kind::Hudi => match HudiTarget::new(alloc, location) {
            Ok(target) => check(alloc, source, &target, store, out),
            Err(_) => Status::Memory,
        },
        Kind::Iceberg => match IcebergTarget::new(alloc, location) {
            Ok(target) => check(alloc, source, &target, store, out),
            Err(_) => Status::Memory,
        },
    }
}

/// Compares the target of this format at this location with the source of that one.
pub(crate) fn compare<S: Store, O: Sink>(
    alloc: Global,
    source: Kind,
    target: Kind,
    location: &str,
    store: &mut S,
    out: &mut O,
) -> Status
    requires location { (front : List ℕ) → location.now ≡ front ++ 47 ∷ [] → ⊥ }
    ensures { Compares ⟦<S as Store>⟧ ⟦<O as Sink>⟧ (record {
      delta = ⟦<DeltaSource as Source>⟧;
      hudi = ⟦<HudiSource as Source>⟧;
      iceberg = ⟦<IcebergSource as Source>⟧;
      to_delta = ⟦<DeltaTarget as Target>⟧;
      to_hudi = ⟦<HudiTarget as Target>⟧;
      to_iceberg = ⟦<IcebergTarget as Target>⟧;
    })
        location.now source target store.old store.new out.old out.new result }
{
    match source {
        Kind::Delta => compare_from(alloc, &DeltaSource::new(), target, location, store, out),
        Kind::Iceberg => compare_from(alloc, &IcebergSource::new(), target, location, store, out),
        Kind::Hudi => compare_from(alloc, &HudiSource::new(), target, location, store, out),
    }
}

/// Sweeps the target of this format at this location.
pub(crate) fn sweep_at<S: Store, O: Sink>(
    alloc: Global,
    target: Kind,
    location: &str,
    store: &mut S,
    out: &mut O,
) -> Status
    requires location { (front : List ℕ) → location.now ≡ front ++ 47 ∷ [] → ⊥ }
    ensures { SweepsTo ⟦<S as Store>⟧ ⟦<O as Sink>⟧ (record {
      delta = ⟦<DeltaSource as Source>⟧;
      hudi = ⟦<HudiSource as Source>⟧;
      iceberg = ⟦<IcebergSource as Source>⟧;
      to_delta = ⟦<DeltaTarget as Target>⟧;
      to_hudi = ⟦<HudiTarget as Target>⟧;
      to_iceberg = ⟦<IcebergTarget as Target>⟧;
    })
        location.now target store.old store.new out.old out.new result }
{
    match target {
        Kind::Delta => match DeltaTarget::new(alloc, location) {
            Ok(target) => {
                delta_reads_without_loose(&target);
                sweep_target(alloc, &target, store, out)
            }
            Err(_) => Status::Memory,
        },
        Kind::Hudi => match HudiTarget::new(alloc, location) {
            Ok(target) => {
                hudi_reads_without_loose(&target);
                sweep_target(alloc, &target, store, out)
            }
            Err(_) => Status::Memory,
        },
        Kind::Iceberg => match IcebergTarget::new(alloc, location) {
            Ok(target) => {
                iceberg_reads_without_loose(&target);
                sweep_target(alloc, &target, store, out)
            }
            Err(_) => Status::Memory,
        },
    }
}
