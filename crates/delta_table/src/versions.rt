//! Which versions of a log are there.

ghost use Rattle.std.specs.Prelude.{◌≡◌, ◌<◌, ◌≤◌, ◌+◌, ◌^◌, ◌⊎◌, ℕ, All, Contains, IfErr, IfOk, IsErrOf, MatchOption, OnOk, codes, length};
ghost use Rattle.std.specs.List.Sorted.{IsSorted};
ghost use Rattle.std.specs.Ordering.{nat_cmp};
ghost use Rattle.lake_basics.specs.declared.limits.TheConstants.{MAX_DELTA_VERSION, MAX_NAMES};
ghost use Rattle.lake_store.specs.Disk.{names_in};
ghost use Rattle.lake_store.specs.Runs.{FailsBy, IsUncontestedBy, OnlyReads};
ghost use Rattle.delta_log.specs.VersionName.{IsVersionName};
ghost use Rattle.delta_table.specs.Versions.{AreVersions, HasVersion, IsNamed, IsVersionPath, log_folder};
ghost use Rattle.delta_table.specs.Refusals.{IsListRefusal};
ghost use Rattle.delta_table.specs.declared.error.LogError.TheVariants.{StoreFault};

use crate::error::{LogError, error_of_list};
use delta_log::{name_of_version, version_of_name};
use lake_basics::Text;
use lake_basics::limits::MAX_DELTA_VERSION;
use lake_store::Store;
use std::alloc::{AllocError, Global};

/// The folder of a table's log (Delta protocol, "Delta Log Entries").
pub const LOG_FOLDER: &str = "_delta_log";

/// The versions of a log that are there: the newest, and the first one from which on none is
/// missing.
#[derive(Clone, Copy, Debug, PartialEq, Eq)]
pub struct Versions {
    pub newest: u64,
    pub first: u64,
}

/// The path of a version's commit, up to version 2^63 - 1.
pub fn version_path(alloc: Global, version: u64) -> Result<Text, AllocError>
    requires { version ≤ MAX_DELTA_VERSION }
    ensures { IfOk result (λ path. IsVersionPath path version) }
{
    let name = name_of_version(alloc, version)?;
    Ok(Text::from_string(format!(in alloc; "_delta_log/{}", name.as_str())?))
}

/// The versions that these names name.
fn named_versions(alloc: Global, names: &[Text]) -> Result<Vec<u64>, AllocError>
    ensures named { IfOk result (λ v. (w : ℕ) → Contains v.items w → IsNamed names.now w) }
    ensures all { IfOk result (λ v. (w : ℕ) → IsNamed names.now w → Contains v.items w) }
    ensures within { IfOk result (λ v. All (λ w. w ≤ MAX_DELTA_VERSION) v.items) }
{
    let mut versions = Vec::new(alloc);
    for name in names {
        match version_of_name(name.as_bytes()) {
            Some(version) => versions.push(version)?,
            None => {}
        }
    }
    Ok(versions)
}

/// The last of these rising versions, and the first one from which on none is missing.
fn last_run(versions: &[u64]) -> Option<Versions>
    requires sorted { IsSorted nat_cmp versions.now }
    requires within { All (λ w. w ≤ MAX_DELTA_VERSION) versions.now }
    ensures { MatchOption result ((w : ℕ) → ¬ Contains versions.now w)
        (AreVersions (Contains versions.now)) }
{
    if versions.is_empty() {
        return None;
    }
    let mut newest = versions[0];
    let mut first = newest;
    for version in versions {
        if *version > newest + 1 {
            first = *version;
        }
        newest = *version;
    }
    Some(Versions { newest, first })
}

/// The versions that the names in a log's folder name. None where no name is one of a version.
pub fn versions_of(alloc: Global, names: &[Text]) -> Result<Option<Versions>, AllocError>
    ensures { IfOk result (λ found. MatchOption found ((w : ℕ) → ¬ IsNamed names.now w)
        (AreVersions (IsNamed names.now))) }
{
    let mut versions = named_versions(alloc, names)?;
    versions.sort_unstable();
    Ok(last_run(versions.as_slice()))
}

/// The versions that are in a table's log. None where there is no version.
pub fn list_versions<S: Store>(alloc: Global, store: &mut S) -> Result<Option<Versions>, LogError>
    ensures found { S.tells → IfOk result (λ found. MatchOption found
        ((w : ℕ) → ¬ HasVersion (S.disk store.old).files w)
        (AreVersions (HasVersion (S.disk store.old).files))) }
    ensures within { IfOk result (λ found. MatchOption found (Unit {0})
        (λ v. (v.newest ≤ MAX_DELTA_VERSION) × (v.first ≤ v.newest))) }
    ensures few { S.tells → OnOk result
        (length (names_in (S.disk store.old).files log_folder) ≤ MAX_NAMES) }
    ensures refused { S.tells → IfErr result (IsListRefusal (S.disk store.old).files) }
    ensures only_reads { S.tells → OnlyReads ⟦<S as Store>⟧ store.old store.new }
    ensures cause { FailsBy ⟦<S as Store>⟧ store.old store.new (IsErrOf result StoreFault) }
    ensures contest { IsUncontestedBy ⟦<S as Store>⟧ store.old store.new ⊥ }
{
    let names = match store.list(alloc, LOG_FOLDER) {
        Ok(names) => names,
        Err(error) => return Err(error_of_list(error)),
    };
    Ok(versions_of(alloc, names.as_slice())?)
}
