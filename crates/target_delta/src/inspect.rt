//! What a Delta target stands at.

ghost use Rattle.std.specs.Prelude.{◌≡◌, ◌≢◌, ◌⊎◌, ◌↔◌, ◌<◌, ◌≤◌, ℕ, List, IfErr, IfOk, IsErrOf, IsTrue, MatchOption, find, option_map, true};
ghost use Rattle.std.specs.Char.{is_ascii_digit};
ghost use Rattle.std.specs.Fmt.{decimal};
ghost use Rattle.std.specs.List.{list_all, list_any};
ghost use Rattle.std.specs.Str.{bytes_eq};
ghost use Rattle.lake_basics.specs.declared.limits.TheConstants.{MAX_COMMITS, MAX_DELTA_VERSION};
ghost use Rattle.lake_store.specs.Runs.{FailsBy, IsUncontestedBy, OnlyReads};
ghost use Rattle.table_history.specs.declared.kind.Kind.{Kind};
ghost use Rattle.table_history.specs.declared.limit.LimitKind.TheVariants.{Commits};
ghost use Rattle.delta_change.specs.Change.{IsTableOfLog};
ghost use Rattle.delta_log.specs.VersionName.{IsVersionName};
ghost use Rattle.delta_table.specs.Refusals.{TellsOf};
ghost use Rattle.delta_table.specs.Versions.{HasVersion, IsNamed, IsVersionPath};
ghost use Rattle.target_core.specs.Refusals.{IsInspectRefusal, IsOfInspect};
ghost use Rattle.target_core.specs.SeenView.{IsSeen, IsSeenSound};
ghost use Rattle.target_core.specs.declared.mark.Mark.{Mark};
ghost use Rattle.target_core.specs.declared.target.Seen.TheVariants.{Foreign};
ghost use Rattle.target_core.specs.declared.target.TargetError.TheVariants.{Memory, StoreFault, Contested};
ghost use Rattle.target_delta.specs.Inspecting.{IsCrowded, IsForeign};
ghost use Rattle.target_delta.specs.InspectSteps.{IsGapBehind, IsKeptOf, IsMarkOf, IsNewest, IsRefusalBehind, IsRefusalOf, IsSeenIn, IsSeenOf, IsToldOf, fault_in, faulty_version, is_leftover_name, is_stray_name, limit_of};
ghost use Rattle.target_delta.specs.Kept.{StandsFor, view_of};
ghost use Rattle.target_delta.specs.Names.{path_of};
ghost use Rattle.target_delta.specs.Reading.{Reads, setting};
ghost use Rattle.target_delta.specs.Writing.{names_ntz, ntz_feature};

use crate::kept::DeltaKept;
use delta_log::{DeltaError, Protocol, version_of_name};
use delta_table::{LOG_FOLDER, Log, LogError, read_log, version_path, versions_of};
use lake_basics::Text;
use lake_basics::limits::MAX_COMMITS;
use lake_store::Store;
use std::alloc::{AllocError, Global};
use table_history::{Kind, LimitKind};
use target_core::{Mark, Seen, TargetError, read_mark};

/// Reads what a Delta target stands at for a source of this format. It changes no file, and reads
/// each version once. Foreign are, in this order: without a version the first name in byte order
/// that no commit was staged under; the first version that is missing, can't be read or can't be
/// taken over the table before it; and the newest version, where its own metadata has no mark that
/// names it and a source of this format.
pub(crate) fn inspect<S: Store>(
    alloc: Global,
    store: &mut S,
    source: Kind,
) -> Result<Seen<DeltaKept>, TargetError>
    // What is kept stands for the files with any id of a new table.
    ensures seen { (id : List ℕ) → S.tells → IfOk result (IsSeen (Reads (S.disk store.old).files)
        (IsForeign source (S.disk store.old).files) view_of
        (λ kept. StandsFor id kept (S.disk store.old).files) source) }
    ensures sound { IfOk result (IsSeenSound view_of source) }
    ensures refusal { S.tells
        → IfErr result (IsInspectRefusal (IsCrowded (S.disk store.old).files)) }
    ensures few { IfErr result IsOfInspect }
    ensures only_reads { S.tells → OnlyReads ⟦<S as Store>⟧ store.old store.new }
    ensures cause { FailsBy ⟦<S as Store>⟧ store.old store.new (IsErrOf result StoreFault) }
    ensures contest { IsUncontestedBy ⟦<S as Store>⟧ store.old store.new
        (IsErrOf result Contested) }
{
    let names = match store.list(alloc, LOG_FOLDER) {
        Ok(names) => names,
        Err(error) => return Err(TargetError::of_list(error)),
    };
    match versions_of(alloc, names.as_slice())? {
        None => Ok(unpublished(alloc, names.as_slice())?),
        Some(versions) => {
            let longer = names_version(names.as_slice(), MAX_COMMITS);
            inspect_log(alloc, store, versions.newest, longer, source)
        }
    }
}

/// Whether one of the names is this version's.
fn names_version(names: &[Text], version: u64) -> bool
    ensures { IsTrue result ↔ IsNamed names.now version }
{
    for name in names {
        if is_of_version(name.as_bytes(), version) {
            return true;
        }
    }
    false
}

fn is_of_version(name: &[u8], version: u64) -> bool
    ensures { IsTrue result ↔ IsVersionName name.now version }
{
    match version_of_name(name) {
        Some(named) => named == version,
        None => false,
    }
}

/// What a target of these names stands at, of which none is a version's.
fn unpublished(alloc: Global, names: &[Text]) -> Result<Seen<DeltaKept>, AllocError>
    ensures { IfOk result (IsSeenIn names.now) }
{
    match first_stray(names) {
        None => Ok(Seen::Absent),
        Some(name) => Ok(Seen::Foreign(path_of(alloc, name)?)),
    }
}

/// The path of a name in the log's folder.
fn path_of(alloc: Global, name: &Text) -> Result<Text, AllocError>
    ensures { IfOk result (λ path. path ≡ path_of name.now) }
{
    Ok(Text::from_string(format!(in alloc; "_delta_log/{}", name.as_str())?))
}

/// The first of the names that no commit was staged under.
fn first_stray(names: &[Text]) -> Option<&Text>
    ensures { option_map (λ t. t.now) result ≡ find is_stray_name names.now }
{
    names.iter().find(|name| !is_leftover(name.as_bytes()))
}

/// Whether a commit may have been staged under the name.
fn is_leftover(name: &[u8]) -> bool
    ensures { result ≡ is_leftover_name name.now }
{
    if name.len() != 37 {
        return false;
    }
    let (front, rest) = name.split_at(12);
    let (digits, suffix) = rest.split_at(20);
    front == b".lakebridge-".as_slice() && are_digits(digits) && suffix == b".json".as_slice()
}

fn are_digits(bytes: &[u8]) -> bool
    ensures { result ≡ list_all is_ascii_digit bytes.now }
{
    bytes.iter().all(|b| b.is_ascii_digit())
}

/// What a log up to its newest version stands at. Of a longer log the first 100,000 versions are
/// read; `longer` says whether the version behind these is there.
fn inspect_log<S: Store>(
    alloc: Global,
    store: &mut S,
    newest: u64,
    longer: bool,
    source: Kind,
) -> Result<Seen<DeltaKept>, TargetError>
    requires within { newest ≤ MAX_DELTA_VERSION }
    requires newest { S.tells → IsNewest (S.disk store.old).files newest }
    requires longer { S.tells → IsTrue longer ↔ HasVersion (S.disk store.old).files MAX_COMMITS }
    ensures seen { (id : List ℕ) → S.tells → IfOk result (IsSeen (Reads (S.disk store.old).files)
        (IsForeign source (S.disk store.old).files) view_of
        (λ kept. StandsFor id kept (S.disk store.old).files) source) }
    ensures sound { IfOk result (IsSeenSound view_of source) }
    ensures refusal { S.tells
        → IfErr result (IsInspectRefusal (IsCrowded (S.disk store.old).files)) }
    ensures few { IfErr result IsOfInspect }
    ensures only_reads { S.tells → OnlyReads ⟦<S as Store>⟧ store.old store.new }
    ensures cause { FailsBy ⟦<S as Store>⟧ store.old store.new (IsErrOf result StoreFault) }
    ensures contest { IsUncontestedBy ⟦<S as Store>⟧ store.old store.new
        (IsErrOf result Contested) }
{
    match read_log(alloc, store, newest.min(MAX_COMMITS - 1)) {
        Ok(log) => seen_in(alloc, log, newest, longer, source),
        Err(error) => foreign_at(alloc, error),
    }
}

/// What a log stands at that was read up to its newest version, or the first 100,000 versions of a
/// longer one.
fn seen_in(
    alloc: Global,
    log: Log,
    newest: u64,
    longer: bool,
    source: Kind,
) -> Result<Seen<DeltaKept>, TargetError>
    requires version { newest ≤ MAX_DELTA_VERSION }
    requires table { IsTableOfLog log.table }
    ensures whole { newest < MAX_COMMITS → IfOk result (IsSeenOf log newest source) }
    ensures gap { MAX_COMMITS ≤ newest → IfOk result (IsGapBehind longer) }
    ensures sound { IfOk result (IsSeenSound view_of source) }
    ensures refusal { IfErr result (IsRefusalBehind newest longer) }
    ensures many { MAX_COMMITS ≤ newest → IsTrue longer → IsErrOf result (limit_of Commits) }
{
    if newest < MAX_COMMITS {
        return Ok(seen_of(alloc, log, newest, source)?);
    }
    behind_last(alloc, longer)
}

/// What a log of more versions than are read stands at.
fn behind_last(alloc: Global, longer: bool) -> Result<Seen<DeltaKept>, TargetError>
    ensures gap { IfOk result (IsGapBehind longer) }
    ensures sound { (source : Kind) → IfOk result (IsSeenSound view_of source) }
    ensures refusal { IfErr result
        (λ e. (e ≡ Memory) ⊎ ((longer ≡ true) × (e ≡ limit_of Commits))) }
    ensures many { IsTrue longer → IsErrOf result (limit_of Commits) }
{
    if longer {
        return Err(limit_of(LimitKind::Commits));
    }
    Ok(Seen::Foreign(version_path(alloc, MAX_COMMITS)?))
}

/// What is told of a log that wasn't read.
fn foreign_at(alloc: Global, error: LogError) -> Result<Seen<DeltaKept>, TargetError>
    requires { TellsOf (λ v. v ≤ MAX_DELTA_VERSION) error }
    ensures told { IfOk result (IsToldOf error) }
    ensures refused { IfErr result (IsRefusalOf error) }
{
    let version = faulty_version(error)?;
    Ok(Seen::Foreign(version_path(alloc, version)?))
}

/// The version that is at fault in a log that wasn't read, or else the target's refusal.
fn faulty_version(error: LogError) -> Result<u64, TargetError>
    ensures { result ≡ faulty_version error }
{
    match error {
        LogError::Memory => Err(TargetError::Memory),
        LogError::StoreFault => Err(TargetError::StoreFault),
        LogError::ManyNames => Err(limit_of(LimitKind::Names)),
        LogError::ManyCommits => Err(limit_of(LimitKind::Commits)),
        LogError::Missing { version } => Ok(version),
        LogError::Large { .. } => Err(limit_of(LimitKind::File)),
        LogError::Refused { version, error } => fault_in(version, error),
    }
}

fn fault_in(version: u64, error: DeltaError) -> Result<u64, TargetError>
    ensures { result ≡ fault_in version error }
{
    match error {
        DeltaError::Memory => Err(TargetError::Memory),
        DeltaError::Limit { which } => Err(limit_of(which)),
        _ => Ok(version),
    }
}

fn limit_of(which: LimitKind) -> TargetError
    ensures { result ≡ limit_of which }
{
    TargetError::Limit {
        which,
        number: which.number(Kind::Delta),
    }
}

/// What a log that was read up to its newest version stands at.
fn seen_of(
    alloc: Global,
    log: Log,
    newest: u64,
    source: Kind,
) -> Result<Seen<DeltaKept>, AllocError>
    requires version { newest ≤ MAX_DELTA_VERSION }
    requires table { IsTableOfLog log.table }
    ensures seen { IfOk result (IsSeenOf log newest source) }
    ensures sound { IfOk result (IsSeenSound view_of source) }
{
    match newest_mark(alloc, &log, newest, source)? {
        Some(mark) => Ok(Seen::Ours(kept_of(log, newest, mark))),
        None => foreign_version(alloc, newest),
    }
}

/// The version isn't ours.
fn foreign_version(alloc: Global, version: u64) -> Result<Seen<DeltaKept>, AllocError>
    requires { version ≤ MAX_DELTA_VERSION }
    ensures { IfOk result
        (λ seen. (path : List ℕ) × (seen ≡ Foreign path) × IsVersionPath path version) }
{
    Ok(Seen::Foreign(version_path(alloc, version)?))
}

#[tactic(auto, using(crate::proofs::HeldLemmas::held_log))]
fn kept_of(log: Log, newest: u64, mark: Mark) -> DeltaKept
    requires version { newest ≤ MAX_DELTA_VERSION }
    requires table { IsTableOfLog log.table }
    ensures { IsKeptOf log newest mark result }
{
    let names_ntz = names_ntz(&log.protocol);
    DeltaKept {
        table: log.table,
        mark: Some(mark),
        commits: newest + 1,
        id: log.meta.id,
        names_ntz,
    }
}

/// The mark in the newest version's own metadata, where it names that version and a source of this
/// format.
fn newest_mark(
    alloc: Global,
    log: &Log,
    newest: u64,
    source: Kind,
) -> Result<Option<Mark>, AllocError>
    ensures { IfOk result (λ found. MatchOption found
        ((mark : Mark) → IsMarkOf log.now newest mark → mark.source ≢ source)
        (λ mark. IsMarkOf log.now newest mark × (mark.source ≡ source))) }
{
    if log.meta_version != newest {
        return Ok(None);
    }
    let Some(text) = setting(log.meta.configuration.as_slice(), "lakebridge.mark") else {
        return Ok(None);
    };
    let Some(mark) = read_mark(alloc, text.as_str())? else {
        return Ok(None);
    };
    if names_commit(alloc, &mark, newest, source)? {
        Ok(Some(mark))
    } else {
        Ok(None)
    }
}

/// Whether the mark names this version and a source of this format.
fn names_commit(alloc: Global, mark: &Mark, version: u64, source: Kind) -> Result<bool, AllocError>
    ensures { IfOk result (λ names. IsTrue names
        ↔ ((mark.now.at ≡ decimal version) × (mark.now.source ≡ source))) }
{
    let text = version.to_string(alloc)?;
    Ok(mark.at.as_str() == text.as_str() && mark.source == source)
}

/// The value of the first setting of this name.
fn setting<'a>(settings: &'a [(Text, Text)], name: &str) -> Option<&'a Text>
    ensures { option_map (λ t. t.now) result ≡ setting name.now settings.now }
{
    let (_, value) = settings.iter().find(|setting| setting.0.as_str() == name)?;
    Some(value)
}

/// Whether the protocol lists the feature of timestamps without a time zone for readers.
fn names_ntz(protocol: &Protocol) -> bool
    ensures { result ≡ names_ntz protocol.now }
{
    match &protocol.reader_features {
        None => false,
        Some(names) => list_ntz(names.as_slice()),
    }
}

fn list_ntz(names: &[Text]) -> bool
    ensures { result ≡ list_any (bytes_eq ntz_feature) names.now }
{
    names.iter().any(|name| is_ntz(name.as_str()))
}

fn is_ntz(name: &str) -> bool
    ensures { result ≡ bytes_eq ntz_feature name.now }
{
    "timestampNtz" == name
}
