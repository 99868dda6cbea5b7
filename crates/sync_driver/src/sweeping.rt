//! Sweeping a target, and what is told of it.
ghost use Rattle.std.specs.Prelude.{◌≡◌, ◌++◌, ℕ, IsErrOf, OnErr, OnOk, map, take};
ghost use Rattle.std.specs.List.{concat};
ghost use Rattle.lake_store.specs.Cause.{HasFault};
ghost use Rattle.target_core.specs.TargetMeanings.{meaning};
ghost use Rattle.target_leftovers.specs.Loose.{ReadsWithoutLoose};
ghost use Rattle.target_sync.specs.Targets.{target_facts};
ghost use Rattle.sync_driver.specs.Lines.{removed_line, swept_lines};
ghost use Rattle.sync_driver.specs.Swept.{TellsSweep, status_of_sweep, swept_status, swept_text};
ghost use Rattle.sync_driver.specs.Tellings.{Tells};

use crate::line::{removed_line, swept_line};
use crate::tell::{refuse, status_of_put};
use lake_basics::Text;
use lake_store::{Sink, SinkError, Store};
use lake_sweep::{SweepError, Swept, sweep};
use std::alloc::Global;
use table_history::Kind;
use target_core::Target;
use target_sync::{Side, Status};

/// How a command ends whose target wasn't swept for this.
fn status_of_sweep(target: Kind, error: SweepError) -> Status
    ensures { result ≡ status_of_sweep target error }
{
    match error {
        SweepError::Memory => Status::Memory,
        SweepError::Foreign { path } => Status::Foreign { target, path },
        SweepError::Limit { which, number } => Status::Limit {
            side: Side::Target(target),
            which,
            number,
        },
        SweepError::StoreFault => Status::StoreFault,
    }
}

fn put_removed_path<O: Sink>(
    alloc: Global,
    out: &mut O,
    target: Kind,
    path: &Text,
) -> Result<(), SinkError>
    ensures ok { O.tells → OnOk result (O.output out.new
        ≡ O.output out.old ++ removed_line target path.now) }
    ensures err { O.tells → OnErr result ((n : ℕ) × (O.output out.new
        ≡ O.output out.old ++ take n (removed_line target path.now))) }
    ensures cause { HasFault O.faults O.may_fail out.old out.new (IsErrOf result SinkError.Failed) }
{
    let line = removed_line(alloc, target, path)?;
    out.put(&line)
}

fn put_removed_paths<O: Sink>(
    alloc: Global,
    out: &mut O,
    target: Kind,
    paths: &[Text],
) -> Result<(), SinkError>
    ensures ok { O.tells → OnOk result (O.output out.new
        ≡ O.output out.old ++ concat (map (λ path. removed_line target path) paths.now)) }
    ensures err { O.tells → OnErr result ((n : ℕ) × (O.output out.new
        ≡ O.output out.old
        ++ take n (concat (map (λ path. removed_line target path) paths.now)))) }
    ensures cause { HasFault O.faults O.may_fail out.old out.new (IsErrOf result SinkError.Failed) }
{
    for path in paths {
        put_removed_path(alloc, out, target, path)?;
    }
    Ok(())
}

/// Puts a line of each removed path out, and then one of their number.
fn put_swept<O: Sink>(
    alloc: Global,
    out: &mut O,
    target: Kind,
    paths: &[Text],
) -> Result<(), SinkError>
    ensures ok { O.tells → OnOk result (O.output out.new
        ≡ O.output out.old ++ swept_lines target paths.now) }
    ensures err { O.tells → OnErr result ((n : ℕ) × (O.output out.new
        ≡ O.output out.old ++ take n (swept_lines target paths.now))) }
    ensures cause { HasFault O.faults O.may_fail out.old out.new (IsErrOf result SinkError.Failed) }
{
    put_removed_paths(alloc, out, target, paths)?;
    let line = swept_line(alloc, target, paths.len())?;
    out.put(&line)
}

/// Puts the lines of a sweep out, and answers how that ended.
fn put_sweep<O: Sink>(
    alloc: Global,
    out: &mut O,
    target: Kind,
    answer: Result<Swept, SweepError>,
) -> Status
    ensures { Tells ⟦<O as Sink>⟧ out.old out.new (swept_text target answer)
        (swept_status target answer) result }
{
    match answer {
        Ok(swept) => {
            let put = put_swept(alloc, out, target, swept.removed.as_slice());
            status_of_put(put)
        }
        Err(error) => refuse(alloc, out, status_of_sweep(target, error)),
    }
}

/// Removes what interrupted commits left of a target, tells of each path once all are gone, and
/// answers how that ended.
pub(crate) fn sweep_target<T: Target, S: Store, O: Sink>(
    alloc: Global,
    target: &T,
    store: &mut S,
    out: &mut O,
) -> Status
    requires loose { ReadsWithoutLoose (meaning ⟦<T as Target>⟧ target.now) }
    ensures { TellsSweep ⟦<S as Store>⟧ ⟦<O as Sink>⟧ (target_facts ⟦<T as Target>⟧ target.now)
        store.old store.new out.old out.new result }
{
    let answer = sweep(alloc, target, store);
    put_sweep(alloc, out, target.kind(), answer)
}
