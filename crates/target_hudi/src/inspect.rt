//! What a Hudi target stands at.

ghost use Rattle.std.specs.Prelude.{◌≡◌, ◌≢◌, ◌≤◌, [], None, Contains, IfErr, IfOk, IfSome, IsErrOf, MatchOption, true};
ghost use Rattle.lake_basics.specs.declared.limits.TheConstants.{MAX_COMMITS};
ghost use Rattle.lake_store.specs.Disk.{names_in};
ghost use Rattle.lake_store.specs.Runs.{FailsBy, IsUncontestedBy, OnlyReads};
ghost use Rattle.table_history.specs.declared.kind.Kind.{Kind};
ghost use Rattle.hudi_names.specs.Time.{IsSomeTime};
ghost use Rattle.hudi_table.specs.Instants.{instants_in, path_of};
ghost use Rattle.hudi_table.specs.declared.instants.CompletedInstant.{CompletedInstant};
ghost use Rattle.hudi_commit.specs.Names.{IsThere, timeline_folder};
ghost use Rattle.target_core.specs.Held.{are_held};
ghost use Rattle.target_core.specs.Refusals.{IsInspectRefusal, IsOfInspect};
ghost use Rattle.target_core.specs.SeenView.{IsSeen, IsSeenSound};
ghost use Rattle.target_core.specs.declared.mark.Mark.{Mark};
ghost use Rattle.target_core.specs.declared.target.TargetError.TheVariants.{StoreFault, Contested};
ghost use Rattle.target_hudi.specs.Inspecting.{IsCrowded, IsForeign};
ghost use Rattle.target_hudi.specs.InspectSteps.{IsFound, IsInstantStop, IsKeptOf, IsMarkOf, IsNextOurs, IsOfStop, IsOthersStop, IsOurReading, IsOwnTimeline, IsProperties, IsSoundKept, IsSoundNewest, IsStop, IsStopIn, is_missing, latest_in, stop_of};
ghost use Rattle.target_hudi.specs.Kept.{StandsFor, view_of};
ghost use Rattle.target_hudi.specs.Reading.{Reads};
ghost use Rattle.target_hudi.specs.declared.stop.Stop.TheVariants.{Refused};

use crate::kept::HudiKept;
use crate::own_names::check_names;
use crate::stop::Stop;
use hudi_table::{
    CompletedInstant, InstantName, Latest, Naming, Properties, TimelineError, list_timeline,
    read_next, read_table_properties, timeline_path,
};
use lake_basics::Text;
use lake_basics::limits::MAX_COMMITS;
use lake_store::Store;
use std::alloc::{AllocError, Global};
use table_history::{Kind, LimitKind};
use target_core::{Mark, Seen, TargetError, read_mark};

/// The newest instant that was read: the table after it, and its mark.
#[derive(Drop)]
pub(crate) struct Newest {
    pub(crate) latest: Latest,
    pub(crate) mark: Mark,
}

/// Reads what a Hudi target stands at for a source of this format. It changes no file, and reads
/// each file once. Foreign are, in this order: the properties, where they are missing beside an
/// instant's name, can't be read or aren't of a table of this program; the first name of an instant
/// that isn't such as this program writes; and the first completed instant that can't be read or
/// taken over the table before it, or has no mark that names it and a source of this format.
pub(crate) fn inspect<S: Store>(
    alloc: Global,
    store: &mut S,
    source: Kind,
) -> Result<Seen<HudiKept>, TargetError>
    ensures seen { S.tells → IfOk result (IsSeen (Reads (S.disk store.old).files)
        (IsForeign source (S.disk store.old).files) view_of
        (λ kept. StandsFor kept (S.disk store.old).files) source) }
    ensures sound { IfOk result (IsSeenSound view_of source) }
    ensures refusal { S.tells
        → IfErr result (IsInspectRefusal (IsCrowded source (S.disk store.old).files)) }
    ensures few { IfErr result IsOfInspect }
    ensures only_reads { S.tells → OnlyReads ⟦<S as Store>⟧ store.old store.new }
    ensures cause { FailsBy ⟦<S as Store>⟧ store.old store.new (IsErrOf result StoreFault) }
    ensures contest { IsUncontestedBy ⟦<S as Store>⟧ store.old store.new
        (IsErrOf result Contested) }
{
    match read_target(alloc, store, source) {
        Ok(None) => Ok(Seen::Absent),
        Ok(Some(kept)) => Ok(Seen::Ours(kept)),
        Err(Stop::Foreign(path)) => Ok(Seen::Foreign(path)),
        Err(Stop::Refused(error)) => Err(error),
    }
}

/// What is kept of a target that has a commit and is ours.
fn read_target<S: Store>(
    alloc: Global,
    store: &mut S,
    source: Kind,
) -> Result<Option<HudiKept>, Stop>
    ensures found { S.tells → IfOk result (IsFound source (S.disk store.old).files) }
    ensures sound { IfOk result (λ kept. IfSome kept (IsSoundKept source)) }
    ensures stop { S.tells → IfErr result (IsStopIn source (S.disk store.old).files) }
    ensures few { IfErr result IsOfStop }
    ensures only_reads { S.tells → OnlyReads ⟦<S as Store>⟧ store.old store.new }
    ensures cause { FailsBy ⟦<S as Store>⟧ store.old store.new
        (IsErrOf result (Refused StoreFault)) }
    ensures contest { IsUncontestedBy ⟦<S as Store>⟧ store.old store.new ⊥ }
{
    let timeline = list_timeline(alloc, store)?;
    let instants = timeline.instants.as_slice();
    let Some(properties) = read_own_properties(alloc, store, instants)? else {
        return Ok(None);
    };
    check_names(alloc, store, instants)?;
    let completed = timeline.completed.as_slice();
    read_commits(alloc, store, completed, &properties, source)
}

/// The properties of a table of this program. They may be missing where no instant is there.
fn read_own_properties<S: Store>(
    alloc: Global,
    store: &mut S,
    instants: &[InstantName],
) -> Result<Option<Properties>, Stop>
    requires { S.tells → instants.now
        ≡ instants_in (names_in (S.disk store.old).files timeline_folder) }
    ensures found { S.tells
        → IfOk result (IsProperties (S.disk store.old).files instants.now) }
    ensures stop { (source : Kind) → S.tells
        → IfErr result (IsStopIn source (S.disk store.old).files) }
    ensures few { IfErr result IsOfStop }
    ensures only_reads { S.tells → OnlyReads ⟦<S as Store>⟧ store.old store.new }
    ensures cause { FailsBy ⟦<S as Store>⟧ store.old store.new
        (IsErrOf result (Refused StoreFault)) }
    ensures contest { IsUncontestedBy ⟦<S as Store>⟧ store.old store.new ⊥ }
{
    match read_table_properties(alloc, store) {
        Ok(properties) => Ok(Some(own_properties(alloc, properties)?)),
        Err(error) => no_properties(error, instants),
    }
}

/// The properties, where they are those of a table of this program.
fn own_properties(alloc: Global, properties: Properties) -> Result<Properties, Stop>
    ensures own { IfOk result (λ own. (own ≡ properties) × (own.table.ours ≡ true)) }
    ensures others { IfErr result (IsOthersStop properties.table.ours) }
{
    if properties.table.ours {
        return Ok(properties);
    }
    let path = timeline_path(alloc, "hoodie.properties")?;
    Err(Stop::Foreign(path))
}

/// What is told of properties that weren't read.
fn no_properties(error: TimelineError, instants: &[InstantName]) -> Result<Option<Properties>, Stop>
    ensures found { IfOk result (λ found. (found ≡ None) × (is_missing error ≡ true)
        × (instants.now ≡ [])) }
    ensures stop { IfErr result
        (λ stop. (stop ≡ stop_of error) × (is_missing error ≡ true → instants.now ≢ [])) }
{
    if is_missing(&error) && instants.is_empty() {
        return Ok(None);
    }
    Err(Stop::from(error))
}

fn is_missing(error: &TimelineError) -> bool
    ensures { result ≡ is_missing error.now }
{
    matches!(error, TimelineError::Missing { .. })
}

/// What is kept of these completed instants, where there is one.
fn read_commits<S: Store>(
    alloc: Global,
    store: &mut S,
    completed: &[CompletedInstant],
    properties: &Properties,
    source: Kind,
) -> Result<Option<HudiKept>, Stop>
    requires own { S.tells
        → IsOwnTimeline (S.disk store.old).files properties.now completed.now }
    requires times { (c : CompletedInstant) → Contains completed.now c → IsSomeTime c.time }
    ensures found { S.tells → IfOk result (IsFound source (S.disk store.old).files) }
    ensures sound { IfOk result (λ kept. IfSome kept (IsSoundKept source)) }
    ensures stop { S.tells → IfErr result (IsStopIn source (S.disk store.old).files) }
    ensures few { IfErr result IsOfStop }
    ensures only_reads { S.tells → OnlyReads ⟦<S as Store>⟧ store.old store.new }
    ensures cause { FailsBy ⟦<S as Store>⟧ store.old store.new
        (IsErrOf result (Refused StoreFault)) }
    ensures contest { IsUncontestedBy ⟦<S as Store>⟧ store.old store.new ⊥ }
{
    if completed.len() as u64 > MAX_COMMITS {
        return Err(Stop::limit(LimitKind::Commits));
    }
    let Some(last) = completed.last() else {
        return Ok(None);
    };
    let time = last.time.copy(alloc)?;
    match read_instants(alloc, store, completed, properties, source)? {
        None => Ok(None),
        Some(newest) => Ok(Some(kept_of(newest, completed.len() as u64, time))),
    }
}

/// What is kept of so many commits, of which the newest has this time.
fn kept_of(newest: Newest, commits: u64, time: Text) -> HudiKept
    requires few { commits ≤ MAX_COMMITS }
    requires real { IsSomeTime time }
    requires rows { are_held newest.latest.table.rows ≡ true }
    ensures { IsKeptOf newest commits time result }
{
    let Newest { latest, mark } = newest;
    HudiKept {
        table: latest.table.into_table(),
        mark: Some(mark),
        commits,
        newest: Some(time),
    }
}

/// The last of these instants, each read over those before it.
fn read_instants<S: Store>(
    alloc: Global,
    store: &mut S,
    completed: &[CompletedInstant],
    properties: &Properties,
    source: Kind,
) -> Result<Option<Newest>, Stop>
    requires { S.tells → IsOwnTimeline (S.disk store.old).files properties.now completed.now }
    ensures found { S.tells → IfOk result
        (IsOurReading source (S.disk store.old).files properties.now completed.now) }
    ensures sound { IfOk result
        (λ newest. IfSome newest (IsSoundNewest source properties.now)) }
    ensures stop { S.tells → IfErr result (IsStopIn source (S.disk store.old).files) }
    ensures few { IfErr result IsOfStop }
    ensures only_reads { S.tells → OnlyReads ⟦<S as Store>⟧ store.old store.new }
    ensures cause { FailsBy ⟦<S as Store>⟧ store.old store.new
        (IsErrOf result (Refused StoreFault)) }
    ensures contest { IsUncontestedBy ⟦<S as Store>⟧ store.old store.new ⊥ }
{
    let mut newest = None;
    for instant in completed {
        newest = Some(read_instant(alloc, store, instant, properties, newest, source)?);
    }
    Ok(newest)
}

/// The instant, read over the newest before it.
fn read_instant<S: Store>(
    alloc: Global,
    store: &mut S,
    instant: &CompletedInstant,
    properties: &Properties,
    before: Option<Newest>,
    source: Kind,
) -> Result<Newest, Stop>
    requires { S.tells → IsThere (S.disk store.old).files (path_of instant.now.name) }
    ensures found { S.tells → IfOk result
        (IsNextOurs source (S.disk store.old).files properties.now instant.now before) }
    ensures sound { IfSome before (IsSoundNewest source properties.now)
        → IfOk result (IsSoundNewest source properties.now) }
    ensures stop { S.tells → IfErr result (IsInstantStop source (S.disk store.old).files
        properties.now instant.now (latest_in before)) }
    ensures few { IfErr result IsOfStop }
    ensures only_reads { S.tells → OnlyReads ⟦<S as Store>⟧ store.old store.new }
    ensures cause { FailsBy ⟦<S as Store>⟧ store.old store.new
        (IsErrOf result (Refused StoreFault)) }
    ensures contest { IsUncontestedBy ⟦<S as Store>⟧ store.old store.new ⊥ }
{
    let before = latest_of(before);
    let latest = read_next(
        alloc,
        store,
        instant,
        Naming::External,
        &properties.table,
        before,
    )?;
    let mark = mark_in(alloc, &latest, instant, source)?;
    Ok(Newest { latest, mark })
}

fn latest_of(newest: Option<Newest>) -> Option<Latest>
    ensures { result ≡ latest_in newest }
{
    match newest {
        None => None,
        Some(newest) => Some(newest.latest),
    }
}

/// The mark of an instant that was read. The instant is at fault where it has none that names it and
/// a source of this format.
fn mark_in(
    alloc: Global,
    latest: &Latest,
    instant: &CompletedInstant,
    source: Kind,
) -> Result<Mark, Stop>
    ensures mark { IfOk result
        (λ mark. IsMarkOf latest.now instant.now mark × (mark.source ≡ source)) }
    ensures stop { IfErr result (IsStop (λ path. (path ≡ path_of instant.now.name)
        × ((mark : Mark) → IsMarkOf latest.now instant.now mark → mark.source ≢ source))
        (λ which number. ⊥)) }
    ensures few { IfErr result IsOfStop }
    ensures fault { IfErr result (λ stop. stop ≢ Refused StoreFault) }
{
    match own_mark(alloc, latest, instant, source)? {
        Some(mark) => Ok(mark),
        None => Err(Stop::Foreign(timeline_path(alloc, instant.name.as_str())?)),
    }
}

/// The mark of an instant that was read, where it names that instant and a source of this format.
fn own_mark(
    alloc: Global,
    latest: &Latest,
    instant: &CompletedInstant,
    source: Kind,
) -> Result<Option<Mark>, AllocError>
    ensures { IfOk result (λ found. MatchOption found
        ((mark : Mark) → IsMarkOf latest.now instant.now mark → mark.source ≢ source)
        (λ mark. IsMarkOf latest.now instant.now mark × (mark.source ≡ source))) }
{
    let Some(text) = &latest.mark else {
        return Ok(None);
    };
    let Some(mark) = read_mark(alloc, text.as_str())? else {
        return Ok(None);
    };
    if mark.at == instant.time && mark.source == source {
        Ok(Some(mark))
    } else {
        Ok(None)
    }
}
