//! The paths of an instant's files.
ghost use Rattle.std.specs.Prelude.{◌≡◌, List, ℕ, string_bytes, IfOk};
ghost use Rattle.std.specs.Coded.{coded_ℕ, coded_list};
ghost use Rattle.hudi_commit.specs.Names.{claim_path, completed_path, pending_path, Requested, Inflight};
ghost use Rattle.hudi_commit.specs.Paths.{ArePaths};

use std::alloc::{AllocError, Global};
use std::marker::Model;

/// The paths of an instant's files. A contract sees the instant.
#[derive(Debug, Drop)]
pub struct InstantPaths {
    instant: String,
    claim: String,
    requested: String,
    inflight: String,
    completed: String,
}

impl Model for InstantPaths {
    ghost use Rattle.std.specs.Prelude.{List, ℕ, string_bytes};
    ghost use Rattle.std.specs.Coded.{coded_ℕ, coded_list};
    ghost use Rattle.hudi_commit.specs.Paths.{ArePaths};

    ghost Value = { List ℕ };

    ghost coded = { coded_list coded_ℕ };

    ghost view = { λ a. string_bytes a.instant };

    ghost invariant = { λ a. ArePaths (string_bytes a.instant) (string_bytes a.claim)
        (string_bytes a.requested) (string_bytes a.inflight) (string_bytes a.completed) };
}

impl InstantPaths {
    /// The paths of an instant's files, by its time.
    pub fn new(alloc: Global, instant: &str) -> Result<InstantPaths, AllocError>
        ensures { IfOk result (λ paths. paths ≡ instant.now) }
    {
        Ok(InstantPaths {
            instant: String::from_str(alloc, instant)?,
            claim: format!(in alloc; ".hoodie/.lakebridge/{instant}")?,
            requested: format!(in alloc; ".hoodie/{instant}.replacecommit.requested")?,
            inflight: format!(in alloc; ".hoodie/{instant}.replacecommit.inflight")?,
            completed: format!(in alloc; ".hoodie/{instant}.replacecommit")?,
        })
    }

    /// The instant's file before it is published.
    pub fn claim(&self) -> &str
        ensures { result.now ≡ claim_path self.now }
    {
        self.claim.as_str()
    }

    /// The file that announces the instant.
    pub fn requested(&self) -> &str
        ensures { result.now ≡ pending_path Requested self.now }
    {
        self.requested.as_str()
    }

    /// The file that says it is at work.
    pub fn inflight(&self) -> &str
        ensures { result.now ≡ pending_path Inflight self.now }
    {
        self.inflight.as_str()
    }

    /// The file that completes it.
    pub fn completed(&self) -> &str
        ensures { result.now ≡ completed_path self.now }
    {
        self.completed.as_str()
    }
}
