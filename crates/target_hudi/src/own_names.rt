//! Whether the instants' names in a timeline's folder are such as this program writes.

ghost use Rattle.std.specs.Prelude.{◌≡◌, ◌↔◌, Contains, IfErr, IfOk, IfSome, IsErrOf, IsTrue, OnOk, true};
ghost use Rattle.std.specs.Cmp.Lexicographic.{slice_cmp};
ghost use Rattle.std.specs.List.Sorted.{IsStrictlySortedBy};
ghost use Rattle.std.specs.Ordering.{nat_cmp};
ghost use Rattle.lake_store.specs.Disk.{names_in};
ghost use Rattle.lake_store.specs.Runs.{FailsBy, IsUncontestedBy, OnlyReads};
ghost use Rattle.table_history.specs.declared.kind.Kind.{Kind};
ghost use Rattle.hudi_names.specs.Time.{IsSomeTime};
ghost use Rattle.hudi_table.specs.Instants.{instants_in};
ghost use Rattle.hudi_table.specs.declared.instants.InstantName.{InstantName};
ghost use Rattle.hudi_commit.specs.Names.{IsThere, claim_path, claims_folder, timeline_folder};
ghost use Rattle.target_core.specs.declared.target.TargetError.TheVariants.{StoreFault};
ghost use Rattle.target_hudi.specs.InspectSteps.{HasOwnForm, IsListStop, IsNameStop, IsOfStop, IsOwnInstant, IsStopIn};
ghost use Rattle.target_hudi.specs.Reading.{HasOwnNames, HasOwnProperties};
ghost use Rattle.target_hudi.specs.declared.stop.Stop.TheVariants.{Refused};

use crate::stop::Stop;
use hudi_names::{Action, read_time};
use hudi_table::{InstantName, timeline_path};
use lake_basics::Text;
use lake_store::{Names, Store};
use std::alloc::Global;
use target_core::TargetError;

const CLAIMS_FOLDER: &str = ".hoodie/.lakebridge";

/// Whether these are 17 digits that spell a real day and time.
fn is_time(time: &Text) -> bool
    ensures { IsTrue result ↔ IsSomeTime time.now }
{
    read_time(time.as_bytes()).is_some()
}

/// Whether it is a replacecommit at such a time.
fn has_own_form(instant: &InstantName) -> bool
    ensures { IsTrue result ↔ HasOwnForm instant.now }
{
    match instant.action {
        Action::ReplaceCommit => is_time(&instant.time),
        _ => false,
    }
}

/// Whether the name is one of these.
fn has_name(names: &[Text], name: &Text) -> bool
    requires { IsStrictlySortedBy (slice_cmp nat_cmp) names.now }
    ensures { IsTrue result ↔ Contains names.now name.now }
{
    names.binary_search(name).is_ok()
}

/// The names of the claims, where they were listed, or else as they are listed now.
fn claims_or_list<S: Store>(
    alloc: Global,
    store: &mut S,
    claims: Option<Names>,
) -> Result<Names, Stop>
    requires { S.tells → IfSome claims
        (λ names. names ≡ names_in (S.disk store.old).files claims_folder) }
    ensures names { S.tells → IfOk result
        (λ names. names ≡ names_in (S.disk store.old).files claims_folder) }
    ensures stop { S.tells → IfErr result (IsListStop (S.disk store.old).files) }
    ensures few { IfErr result IsOfStop }
    ensures only_reads { S.tells → OnlyReads ⟦<S as Store>⟧ store.old store.new }
    ensures cause { FailsBy ⟦<S as Store>⟧ store.old store.new
        (IsErrOf result (Refused StoreFault)) }
    ensures contest { IsUncontestedBy ⟦<S as Store>⟧ store.old store.new ⊥ }
{
    if let Some(names) = claims {
        return Ok(names);
    }
    match store.list(alloc, CLAIMS_FOLDER) {
        Ok(names) => Ok(names),
        Err(error) => Err(Stop::Refused(TargetError::of_list(error))),
    }
}

/// Looks at one name of an instant, and gives the claims on, where they were listed.
fn check_name<S: Store>(
    alloc: Global,
    store: &mut S,
    instant: &InstantName,
    claims: Option<Names>,
) -> Result<Option<Names>, Stop>
    requires { S.tells → IfSome claims
        (λ names. names ≡ names_in (S.disk store.old).files claims_folder) }
    ensures names { S.tells → IfOk result (λ claims. IfSome claims
        (λ names. names ≡ names_in (S.disk store.old).files claims_folder)) }
    ensures form { OnOk result (HasOwnForm instant.now) }
    ensures own { S.tells → OnOk result (IsOwnInstant (S.disk store.old).files instant.now) }
    ensures stop { S.tells
        → IfErr result (IsNameStop (S.disk store.old).files instant.now) }
    ensures few { IfErr result IsOfStop }
    ensures only_reads { S.tells → OnlyReads ⟦<S as Store>⟧ store.old store.new }
    ensures cause { FailsBy ⟦<S as Store>⟧ store.old store.new
        (IsErrOf result (Refused StoreFault)) }
    ensures contest { IsUncontestedBy ⟦<S as Store>⟧ store.old store.new ⊥ }
{
    if !has_own_form(instant) {
        return Err(Stop::Foreign(timeline_path(alloc, instant.name.as_str())?));
    }
    if !instant.is_pending {
        return Ok(claims);
    }
    let names = claims_or_list(alloc, store, claims)?;
    if !has_name(names.as_slice(), &instant.time) {
        return Err(Stop::Foreign(timeline_path(alloc, instant.name.as_str())?));
    }
    Ok(Some(names))
}

/// Looks at the names of a timeline's instants, in byte order. Each must be that of a replacecommit
/// at 17 digits that spell a real day and time, and claimed where it is pending and not completed.
/// The claims are listed once, and only where a name needs one.
pub(crate) fn check_names<S: Store>(
    alloc: Global,
    store: &mut S,
    instants: &[InstantName],
) -> Result<(), Stop>
    requires properties { S.tells → HasOwnProperties (S.disk store.old).files }
    requires listed { S.tells → instants.now
        ≡ instants_in (names_in (S.disk store.old).files timeline_folder) }
    ensures own { S.tells → OnOk result (HasOwnNames (S.disk store.old).files) }
    ensures form { OnOk result ((i : InstantName) → Contains instants.now i → HasOwnForm i) }
    ensures stop { (source : Kind) → S.tells
        → IfErr result (IsStopIn source (S.disk store.old).files) }
    ensures few { IfErr result IsOfStop }
    ensures only_reads { S.tells → OnlyReads ⟦<S as Store>⟧ store.old store.new }
    ensures cause { FailsBy ⟦<S as Store>⟧ store.old store.new
        (IsErrOf result (Refused StoreFault)) }
    ensures contest { IsUncontestedBy ⟦<S as Store>⟧ store.old store.new ⊥ }
{
    let mut claims = None;
    for instant in instants {
        claims = check_name(alloc, store, instant, claims)?;
    }
    Ok(())
}
