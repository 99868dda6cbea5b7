//! How a fault of a log is told.

ghost use Rattle.std.specs.Prelude.{◌≡◌, ◌≢◌, ◌≤◌, ℕ, List, MatchOption};
ghost use Rattle.lake_basics.specs.declared.limits.TheConstants.{MAX_DELTA_VERSION, MAX_NAMES};
ghost use Rattle.table_history.specs.Words.{limit_number};
ghost use Rattle.table_history.specs.declared.kind.Kind.TheVariants.{Delta};
ghost use Rattle.table_history.specs.declared.limit.LimitKind.TheVariants.{Names};
ghost use Rattle.delta_table.specs.Refusals.{TellsOf};
ghost use Rattle.delta_table.specs.Versions.{IsVersionPath};
ghost use Rattle.delta_table.specs.declared.error.LogError.TheVariants as log;
ghost use Rattle.source_core.specs.Answers.{IsReadRefusal};
ghost use Rattle.source_core.specs.declared.error.SourceError.TheVariants.{Limit, Malformed, StoreFault, Unsupported};
ghost use Rattle.source_delta.specs.Reading.{Tells, TellsCommit, plain, plain_of_commit};

use delta_log::DeltaError;
use delta_table::{LogError, version_path};
use source_core::SourceError;
use std::alloc::Global;
use table_history::{Feature, Kind, LimitKind};

pub(crate) fn limit(which: LimitKind) -> SourceError
    ensures { result ≡ Limit which (limit_number Delta which) }
{
    SourceError::Limit {
        which,
        number: which.number(Kind::Delta),
    }
}

/// The version's file isn't in its grammar.
fn malformed(alloc: Global, version: u64) -> SourceError
    requires { version ≤ MAX_DELTA_VERSION }
    ensures told { IsReadRefusal
        (λ e. (path : List ℕ) × IsVersionPath path version × (e ≡ Malformed path)) result }
    ensures fault { result ≢ StoreFault }
{
    match version_path(alloc, version) {
        Ok(path) => SourceError::Malformed { path },
        Err(_) => SourceError::Memory,
    }
}

/// The version's file shows a feature that isn't supported.
pub(crate) fn unsupported(alloc: Global, feature: Feature, version: u64) -> SourceError
    requires { version ≤ MAX_DELTA_VERSION }
    ensures told { IsReadRefusal (λ e. (path : List ℕ) × IsVersionPath path version
        × (e ≡ Unsupported feature path)) result }
    ensures fault { result ≢ StoreFault }
{
    match version_path(alloc, version) {
        Ok(path) => SourceError::Unsupported { feature, path },
        Err(_) => SourceError::Memory,
    }
}

/// What is told of a version's commit that is refused.
pub(crate) fn commit_error(alloc: Global, version: u64, error: DeltaError) -> SourceError
    requires { version ≤ MAX_DELTA_VERSION }
    ensures told { IsReadRefusal (TellsCommit version error) result }
    ensures exact { MatchOption (plain_of_commit error) (Unit {0}) (λ e. result ≡ e) }
    ensures fault { result ≢ StoreFault }
{
    match error {
        DeltaError::Memory => SourceError::Memory,
        DeltaError::Malformed { .. } | DeltaError::DoublePath { .. } => malformed(alloc, version),
        DeltaError::Unsupported { feature, .. } => unsupported(alloc, feature, version),
        DeltaError::Limit { which } => limit(which),
    }
}

/// What is told of a log that is refused.
pub(crate) fn source_error(alloc: Global, error: LogError) -> SourceError
    requires { TellsOf (λ version. version ≤ MAX_DELTA_VERSION) error }
    ensures told { IsReadRefusal (Tells error) result }
    ensures exact { MatchOption (plain error) (Unit {0}) (λ e. result ≡ e) }
    ensures fault { result ≡ StoreFault → error ≡ log.StoreFault }
{
    match error {
        LogError::Memory => SourceError::Memory,
        LogError::StoreFault => SourceError::StoreFault,
        LogError::ManyNames => limit(LimitKind::Names),
        LogError::ManyCommits => limit(LimitKind::Commits),
        LogError::Missing { version } => malformed(alloc, version),
        LogError::Large { .. } => limit(LimitKind::File),
        LogError::Refused { version, error } => commit_error(alloc, version, error),
    }
}

/// What is told of a log whose versions couldn't be listed, which comes of the store or of the
/// number of names alone.
pub(crate) fn list_error(error: LogError) -> SourceError
    ensures told { IsReadRefusal (Tells error) result }
    ensures names { error ≡ log.ManyNames → result ≡ Limit Names MAX_NAMES }
    ensures store { error ≡ log.StoreFault → result ≡ StoreFault }
    ensures fault { result ≡ StoreFault → error ≡ log.StoreFault }
{
    match error {
        LogError::StoreFault => SourceError::StoreFault,
        LogError::ManyNames => limit(LimitKind::Names),
        _ => SourceError::Memory,
    }
}
