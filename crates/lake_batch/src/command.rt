//! A command over a part of a store.
ghost use Rattle.std.specs.Prelude.{◌≡◌, ◌<◌, ◌^◌, ℕ};
ghost use Rattle.lake_store.specs.Disk.{Files};
ghost use Rattle.lake_batch.specs.Fence.{IsFenced};
ghost use Rattle.lake_batch.specs.Part.{StaysBeside, part_of};
ghost use Rattle.sync_driver.specs.Answers.{Command};
ghost use Rattle.sync_driver.specs.Formats.{Formats};

use crate::fence::{Fence, Fenced};
use crate::part::Under;
use lake_store::{FixedClock, Sink, Store};
use source_core::Source;
use source_delta::DeltaSource;
use source_hudi::HudiSource;
use source_iceberg::IcebergSource;
use std::alloc::Global;
use std::marker::Brand;
use sync_driver::{Status, run};
use target_core::Target;
use target_delta::DeltaTarget;
use target_hudi::HudiTarget;
use target_iceberg::IcebergTarget;

/// What runs a command over a part of a store.
pub(crate) trait Commands {
    /// The formats that a command may name.
    ghost formats: { Formats };

    /// Runs the words over the part at this time, and hands the whole store back.
    fn run_part<S: Store, O: Sink>(
        &self,
        alloc: Global,
        words: &[String],
        under: Under<S>,
        now: u64,
        out: &mut O,
    ) -> (S, Status)
        requires now { now < 2 ^ 63 }
        ensures command { Command (part_of ⟦<S as Store>⟧ under.folder) ⟦<O as Sink>⟧ formats
            (λ time. time ≡ now) words.now under.store result.0 out.old out.new result.1 }
        ensures beside { StaysBeside ⟦<S as Store>⟧ under.folder under.store result.0 };
}

/// The commands of the bridge.
pub(crate) struct Bridge;

impl Commands for Bridge {
    ghost formats = { record {
      delta = ⟦<DeltaSource as Source>⟧;
      hudi = ⟦<HudiSource as Source>⟧;
      iceberg = ⟦<IcebergSource as Source>⟧;
      to_delta = ⟦<DeltaTarget as Target>⟧;
      to_hudi = ⟦<HudiTarget as Target>⟧;
      to_iceberg = ⟦<IcebergTarget as Target>⟧;
    } };

    fn run_part<S: Store, O: Sink>(
        &self,
        alloc: Global,
        words: &[String],
        under: Under<S>,
        now: u64,
        out: &mut O,
    ) -> (S, Status) {
        run_part(alloc, words, under, now, out)
    }
}

// Runs the words over a part whose folder the marker names.
fn run_fenced<S: Store, O: Sink, K: Fence>(
    alloc: Global,
    words: &[String],
    under: Under<S>,
    now: u64,
    out: &mut O,
) -> (S, Status)
    requires now { now < 2 ^ 63 }
    requires folder { under.folder ≡ K.folder }
    requires disk { S.disk under.store ≡ K.disk }
    requires time { S.time under.store ≡ K.time }
    requires left { (t : ℕ) (image : Files) → S.left_since under.store t image
        → K.left_since t image }
    ensures command { Command (part_of ⟦<S as Store>⟧ K.folder) ⟦<O as Sink>⟧ (record {
      delta = ⟦<DeltaSource as Source>⟧;
      hudi = ⟦<HudiSource as Source>⟧;
      iceberg = ⟦<IcebergSource as Source>⟧;
      to_delta = ⟦<DeltaTarget as Target>⟧;
      to_hudi = ⟦<HudiTarget as Target>⟧;
      to_iceberg = ⟦<IcebergTarget as Target>⟧;
    })
        (λ time. time ≡ now) words.now under.store result.0 out.old out.new result.1 }
    ensures beside { IsFenced ⟦<S as Store>⟧ K.folder K.disk K.time K.left_since result.0 }
{
    let mut fenced = Fenced::<S, K>::new(under);
    let status = run(alloc, words, &mut fenced, &mut FixedClock::new(now), out);
    (fenced.into_inner(), status)
}

// Runs the words over the part.
fn run_part<S: Store, O: Sink>(
    alloc: Global,
    words: &[String],
    under: Under<S>,
    now: u64,
    out: &mut O,
) -> (S, Status)
    requires now { now < 2 ^ 63 }
    ensures command { Command (part_of ⟦<S as Store>⟧ under.folder) ⟦<O as Sink>⟧ (record {
      delta = ⟦<DeltaSource as Source>⟧;
      hudi = ⟦<HudiSource as Source>⟧;
      iceberg = ⟦<IcebergSource as Source>⟧;
      to_delta = ⟦<DeltaTarget as Target>⟧;
      to_hudi = ⟦<HudiTarget as Target>⟧;
      to_iceberg = ⟦<IcebergTarget as Target>⟧;
    })
        (λ time. time ≡ now) words.now under.store result.0 out.old out.new result.1 }
    ensures beside { StaysBeside ⟦<S as Store>⟧ under.folder under.store result.0 }
{
    run_fenced::<S, O, Brand>(alloc, words, under, now, out)
}
