//! The Hudi target.

ghost use Rattle.std.specs.Prelude.{◌≡◌, ◌<◌, ◌==◌, ◌∷◌, ◌++◌, ℕ, List, [], IfErr, IfOk, IfSome, MatchOption, length};
ghost use Rattle.std.specs.Str.{IsUtf8};
ghost use Rattle.std.specs.List.{after_first, position_or_len};
ghost use Rattle.target_core.specs.declared.target.TargetError.TheVariants.{Memory};
ghost use Rattle.target_hudi.specs.TableName.{IsTableName};

use crate::commit::publish;
use crate::fitting::fits;
use crate::fresh::fresh_kept;
use crate::inspect::inspect;
use crate::kept::HudiKept;
use lake_basics::Text;
use lake_store::Store;
use std::alloc::Global;
use table_history::{Commit, Kind, Table};
use target_core::{Mark, Seen, Target, TargetError};

/// A Hudi table as the target of a sync. A table that is there already keeps its own properties.
#[derive(Drop)]
pub struct HudiTarget {
    /// The table's name that a first commit writes.
    pub(crate) name: Text,
}

/// What stands behind the first `/`, if there is one.
fn behind_slash(text: &str) -> Option<&str>
    ensures text { IfSome result (λ behind. IsUtf8 behind.now) }
    ensures split { MatchOption result (position_or_len (λ b. b == 47) text.now ≡ length text.now)
        (λ behind. (position_or_len (λ b. b == 47) text.now < length text.now)
        × (behind.now ≡ after_first (λ b. b == 47) text.now)) }
{
    match text.split_once('/') {
        Some((_, behind)) => Some(behind),
        None => None,
    }
}

/// What stands behind the location's last `/`, or all of it.
fn table_name(location: &str) -> &str
    ensures { IsTableName location.now result.now }
{
    let mut name = location;
    for _ in 0..location.len() + 1 {
        let Some(behind) = behind_slash(name) else {
            return name;
        };
        name = behind;
    }
    name
}

impl HudiTarget {
    /// The Hudi target of the table at this location, which doesn't end with `/`. Memory alone is
    /// refused.
    pub fn new(alloc: Global, location: &str) -> Result<HudiTarget, TargetError>
        requires { (front : List ℕ) → location.now ≡ front ++ 47 ∷ [] → ⊥ }
        ensures name { IfOk result (λ target. IsTableName location.now target.name) }
        ensures memory { IfErr result (λ e. e ≡ Memory) }
    {
        Ok(HudiTarget {
            name: Text::from_str(alloc, table_name(location))?,
        })
    }
}

impl Target for HudiTarget {
    ghost use Rattle.table_history.specs.declared.kind.Kind.TheVariants.{Hudi};
    ghost use Rattle.target_hudi.specs.Fitting.{Unfit};
    ghost use Rattle.target_hudi.specs.HudiMeaning.{image};
    ghost use Rattle.target_hudi.specs.Inspecting.{IsCrowded, IsForeign};
    ghost use Rattle.target_hudi.specs.Kept.{IsCounted, StandsFor, end_of, held_of, view_of};
    ghost use Rattle.target_hudi.specs.Reading.{IsCarried, IsReached, IsSettledTarget, Reads, commits_in};
    ghost use Rattle.target_hudi.specs.Writes.{Writes};
    ghost use Rattle.target_hudi.specs.Writing.{Passes};
    ghost use Rattle.target_hudi.specs.AlikeLemmas.{fits_partition, passes_alike, unfit_alike};
    ghost use Rattle.target_hudi.specs.FitLemmas.{fits_first, fits_none};
    ghost use Rattle.target_hudi.specs.InspectLemmas.{not_foreign, one_path};
    ghost use Rattle.target_hudi.specs.KeptLemmas.{counted_own, kept_counted, kept_own, kept_view};
    ghost use Rattle.target_hudi.specs.OwnLemmas.{crowded_own, foreign_own, passes_own};
    ghost use Rattle.target_hudi.specs.ReachedLemmas.{reached_alone, reached_clean, reached_in, reached_stays};
    ghost use Rattle.target_hudi.specs.SettledLemmas.{carries_own, commits_own, crash_carries, crash_reads, crash_settled, reads_own, settled_absent, settled_own};
    ghost use Rattle.target_hudi.specs.ViewLemmas.{absent_any, carries_within, commits_read, newest, one_change, one_view, published};
    ghost use Rattle.target_hudi.specs.WideLemmas.{image_kinds, image_publishable};

    type Kept = HudiKept;

    ghost kind = { λ t. Hudi };

    ghost image = { λ t schema. image schema };

    ghost reads = { λ t files view. Reads files view };

    ghost commits_in = { λ t files. commits_in files };

    ghost is_foreign = { λ t source files path. IsForeign source files path };

    ghost is_crowded = { λ t source files which number. IsCrowded source files which number };

    ghost unfit = { λ t kept partition commits e. Unfit (held_of kept) partition commits e };

    ghost passes = { λ t kept files origin now commits which number.
        Passes files (end_of t.name kept) origin now commits which number };

    ghost carries = { λ t files number change standing. IsCarried files number change standing };

    ghost writes = { λ t kept before origin now commit after.
        Writes t.name kept before origin now commit after };

    ghost reached = { λ t files path. IsReached files path };

    ghost settled = { λ t disk. IsSettledTarget disk };

    ghost counted = { λ t kept files. IsCounted kept files };

    ghost stands_for = { λ t kept files. StandsFor kept files };

    ghost view = { λ t kept. view_of kept };

    fn kind(&self) -> Kind {
        Kind::Hudi
    }

    fn table<'a>(&self, kept: &'a HudiKept) -> &'a Table {
        &kept.table
    }

    fn mark<'a>(&self, kept: &'a HudiKept) -> Option<&'a Mark> {
        kept.mark.as_ref()
    }

    fn commits(&self, kept: &HudiKept) -> u64 {
        kept.commits
    }

    fn inspect<S: Store>(
        &self,
        alloc: Global,
        store: &mut S,
        source: Kind,
    ) -> Result<Seen<HudiKept>, TargetError> {
        inspect(alloc, store, source)
    }

    fn fresh(&self, alloc: Global, partition: &[Text]) -> Result<HudiKept, TargetError> {
        Ok(fresh_kept(alloc, partition)?)
    }

    fn fits(
        &self,
        alloc: Global,
        kept: &HudiKept,
        partition: &[Text],
        commits: &[Commit],
    ) -> Result<(), TargetError> {
        fits(alloc, kept, partition, commits)
    }

    fn commit<S: Store>(
        &self,
        alloc: Global,
        store: &mut S,
        kept: &mut HudiKept,
        commit: &Commit,
        source: Kind,
        table: Option<&Text>,
        now_ms: u64,
    ) -> Result<(), TargetError> {
        publish(
            alloc, store, &self.name, kept, commit, source, table, now_ms,
        )
    }

    ghost one_view = { λ t files v w a b. one_view files v w a b };

    ghost commits_read = { λ t files v reads. commits_read files v reads };

    ghost absent_any = { λ t files p q reads. absent_any files p q reads };

    ghost image_publishable = { λ t table held is may. image_publishable table held is may };

    ghost image_kinds = { λ t schema held is name value. image_kinds schema held is name value };

    ghost published = { λ t files v reads. published files v reads };

    ghost not_foreign = { λ t source files path v foreign reads.
        not_foreign source files path v foreign reads };

    ghost one_path = { λ t source files p q a b. one_path source files p q a b };

    ghost fits_first = { λ t kept partition commit commits fits.
        fits_first (held_of kept) partition commit commits fits };

    ghost fits_none = { λ t kept partition. fits_none (held_of kept) partition };

    ghost fits_partition = { λ t kept partition commits some fits published.
        fits_partition kept partition commits some fits published };

    ghost unfit_alike = { λ t kept other files partition commits e a b same unfit.
        unfit_alike kept other files a b same partition commits e unfit };

    ghost passes_alike = { λ t kept other files origin now commits which number a b same passes.
        passes_alike kept other files a b same t.name origin now commits which number passes };

    ghost one_change = { λ t files c a b m n h k. one_change files c a b m n h k };

    ghost carries_within = { λ t files v c change m reads h.
        carries_within files v c change m reads h };

    ghost newest = { λ t files v change m reads h. newest files v change m reads h };

    ghost kept_view = { λ t kept files stands. kept_view kept files stands };

    ghost kept_counted = { λ t kept files stands. kept_counted kept files stands };

    ghost reached_in = { λ t files path h. reached_in files path h };

    ghost reached_stays = { λ t a b same path h. reached_stays a b same path h };

    ghost reached_clean = { λ t disk path settled h. reached_clean disk path settled h };

    ghost reads_own = { λ t a b v same h. reads_own a b v same h };

    ghost commits_own = { λ t a b same. commits_own a b same };

    ghost foreign_own = { λ t source a b path same h. foreign_own a b same source path h };

    ghost crowded_own = { λ t source a b which number same h.
        crowded_own a b same source which number h };

    ghost carries_own = { λ t a b c change m same h. carries_own a b c change m same h };

    ghost passes_own = { λ t kept a b origin now commits which number same h.
        passes_own a b (end_of t.name kept) origin now commits which number same h };

    ghost kept_own = { λ t kept a b same h. kept_own kept a b same h };

    ghost counted_own = { λ t kept a b same h. counted_own kept a b same h };

    ghost reached_alone = { λ t a b v same none reads. reached_alone a b v same none reads };

    ghost settled_absent = { λ t disk reads clean. settled_absent disk reads clean };

    ghost settled_own = { λ t a b same fewer settled. settled_own a b same fewer settled };

    ghost crash_reads = { λ t disk image v settled left reads.
        crash_reads disk image settled left v reads };

    ghost crash_carries = { λ t disk image v c change m settled left reads le h.
        crash_carries disk image settled left c change m h };

    ghost crash_settled = { λ t disk image settled left. crash_settled disk image settled left };
}
