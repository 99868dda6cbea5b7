//! The leftovers of a Hudi target.

ghost use Rattle.std.specs.Prelude.{◌≡◌, ◌++◌, IfErr, IfOk, IsErrOf, OnOk};
ghost use Rattle.std.specs.Cmp.Lexicographic.{slice_cmp};
ghost use Rattle.std.specs.List.Sorted.{IsStrictlySortedBy};
ghost use Rattle.std.specs.Ordering.{nat_cmp};
ghost use Rattle.lake_store.specs.Runs.{FailsBy, IsUncontestedBy, OnlyReads};
ghost use Rattle.table_history.specs.declared.kind.Kind.TheVariants.{Hudi};
ghost use Rattle.hudi_commit.specs.Names.{claim_path, timeline_path};
ghost use Rattle.lake_sweep.specs.Picking.{AreParts, IsWithClaim, IsWithFile, IsWithPending};
ghost use Rattle.lake_sweep.specs.Plan.{IsPlan};
ghost use Rattle.lake_sweep.specs.Refusals.{HasCause, IsReadable, IsReadingRefused};
ghost use Rattle.lake_sweep.specs.declared.error.SweepError.TheVariants.{StoreFault};

use crate::error::SweepError;
use crate::names::{is_there, list_names};
use lake_basics::{Items, Text};
use lake_store::Store;
use std::alloc::{AllocError, Global};
use target_leftovers::is_claim_name;

/// The folder of the files that a commit hasn't published yet.
const CLAIMS_FOLDER: &str = ".hoodie/.lakebridge";

/// The path of the properties that a first commit hasn't published yet.
const STAGED_PROPERTIES: &str = ".hoodie/.lakebridge/properties";

/// The path of a name that begins with an instant, in the timeline's folder.
fn timeline_path(alloc: Global, instant: &str, rest: &str) -> Result<Text, AllocError>
    ensures { IfOk result (λ path. path ≡ timeline_path (instant.now ++ rest.now)) }
{
    Ok(Text::from_string(format!(in alloc; ".hoodie/{instant}{rest}")?))
}

/// The path of the claim of this name.
fn claim_path(alloc: Global, name: &str) -> Result<Text, AllocError>
    ensures { IfOk result (λ path. path ≡ claim_path name.now) }
{
    Ok(Text::from_string(format!(in alloc; ".hoodie/.lakebridge/{name}")?))
}

/// The paths with this one more, where a file is there.
fn with_path<S: Store>(
    alloc: Global,
    store: &mut S,
    paths: Items<Text>,
    path: Text,
) -> Result<Items<Text>, SweepError>
    ensures found { S.tells → IfOk result
        (IsWithFile (S.disk store.old).files path paths) }
    ensures refused { IfErr result (HasCause (λ e. ⊥)) }
    ensures only_reads { S.tells → OnlyReads ⟦<S as Store>⟧ store.old store.new }
    ensures cause { FailsBy ⟦<S as Store>⟧ store.old store.new (IsErrOf result StoreFault) }
    ensures contest { IsUncontestedBy ⟦<S as Store>⟧ store.old store.new ⊥ }
{
    if !is_there(alloc, store, path.as_str())? {
        return Ok(paths);
    }
    let mut paths = paths;
    paths.push(path)?;
    Ok(paths)
}

/// The paths with the pending names of an instant that isn't completed, as far as they are there.
fn with_pending<S: Store>(
    alloc: Global,
    store: &mut S,
    paths: Items<Text>,
    instant: &str,
) -> Result<Items<Text>, SweepError>
    ensures found { S.tells → IfOk result
        (IsWithPending (S.disk store.old).files instant.now paths) }
    ensures refused { IfErr result (HasCause (λ e. ⊥)) }
    ensures only_reads { S.tells → OnlyReads ⟦<S as Store>⟧ store.old store.new }
    ensures cause { FailsBy ⟦<S as Store>⟧ store.old store.new (IsErrOf result StoreFault) }
    ensures contest { IsUncontestedBy ⟦<S as Store>⟧ store.old store.new ⊥ }
{
    let completed = timeline_path(alloc, instant, ".replacecommit")?;
    let inflight = timeline_path(alloc, instant, ".replacecommit.inflight")?;
    let requested = timeline_path(alloc, instant, ".replacecommit.requested")?;
    let done = is_there(alloc, store, completed.as_str())?;
    if done {
        return Ok(paths);
    }
    let first = with_path(alloc, store, paths, inflight)?;
    let both = with_path(alloc, store, first, requested)?;
    Ok(both)
}

/// The paths with what a claim of this name leaves, the claim last, where it is an instant's.
fn with_claim<S: Store>(
    alloc: Global,
    store: &mut S,
    paths: Items<Text>,
    name: &str,
) -> Result<Items<Text>, SweepError>
    ensures found { S.tells → IfOk result
        (IsWithClaim (S.disk store.old).files name.now paths) }
    ensures refused { IfErr result (HasCause (λ e. ⊥)) }
    ensures only_reads { S.tells → OnlyReads ⟦<S as Store>⟧ store.old store.new }
    ensures cause { FailsBy ⟦<S as Store>⟧ store.old store.new (IsErrOf result StoreFault) }
    ensures contest { IsUncontestedBy ⟦<S as Store>⟧ store.old store.new ⊥ }
{
    if !is_claim_name(name.as_bytes()) {
        return Ok(paths);
    }
    let claim = claim_path(alloc, name)?;
    let mut pending = with_pending(alloc, store, paths, name)?;
    pending.push(claim)?;
    Ok(pending)
}

/// What the claims of these names leave.
fn claim_paths<S: Store>(
    alloc: Global,
    store: &mut S,
    claims: &[Text],
) -> Result<Items<Text>, SweepError>
    requires sorted { IsStrictlySortedBy (slice_cmp nat_cmp) claims.now }
    ensures found { S.tells → IfOk result (AreParts (S.disk store.old).files claims.now) }
    ensures refused { IfErr result (HasCause (λ e. ⊥)) }
    ensures only_reads { S.tells → OnlyReads ⟦<S as Store>⟧ store.old store.new }
    ensures cause { FailsBy ⟦<S as Store>⟧ store.old store.new (IsErrOf result StoreFault) }
    ensures contest { IsUncontestedBy ⟦<S as Store>⟧ store.old store.new ⊥ }
{
    let mut paths = Items::new(alloc);
    for claim in claims {
        paths = with_claim(alloc, store, paths, claim.as_str())?;
    }
    Ok(paths)
}

/// The claims that are there, each after the pending names of its instant, and the staged
/// properties.
pub(crate) fn hudi_leftovers<S: Store>(
    alloc: Global,
    store: &mut S,
) -> Result<Items<Text>, SweepError>
    ensures planned { S.tells → IfOk result (IsPlan Hudi (S.disk store.old).files) }
    ensures readable { S.tells → OnOk result (IsReadable Hudi (S.disk store.old).files) }
    ensures refused { S.tells → IfErr result
        (HasCause (IsReadingRefused Hudi (S.disk store.old).files)) }
    ensures only_reads { S.tells → OnlyReads ⟦<S as Store>⟧ store.old store.new }
    ensures cause { FailsBy ⟦<S as Store>⟧ store.old store.new (IsErrOf result StoreFault) }
    ensures contest { IsUncontestedBy ⟦<S as Store>⟧ store.old store.new ⊥ }
{
    let names = list_names(alloc, store, CLAIMS_FOLDER)?;
    let paths = claim_paths(alloc, store, names.as_slice())?;
    let properties = Text::from_str(alloc, STAGED_PROPERTIES)?;
    let all = with_path(alloc, store, paths, properties)?;
    Ok(all)
}
