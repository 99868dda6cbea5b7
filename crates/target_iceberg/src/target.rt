//! The Iceberg target.

ghost use Rattle.std.specs.Prelude.{◌≡◌, ◌∷◌, ◌++◌, ℕ, List, [], IfErr, IfOk};
ghost use Rattle.target_core.specs.declared.target.TargetError.TheVariants.{Memory};
ghost use Rattle.target_iceberg.specs.TableId.{id_name, table_id};

use crate::fitting::fits;
use crate::inspect::inspect;
use crate::publish::publish_version;
use iceberg_commit::next_version;
use iceberg_version::{IcebergKept, fresh_kept};
use lake_basics::Text;
use lake_store::Store;
use std::alloc::{AllocError, Global};
use table_history::{Commit, Kind, Table};
use target_core::{Mark, Seen, Target, TargetError};
use uuid::Uuid;

/// An Iceberg table as the target of a sync. A table that is there already keeps its own id and its
/// own location.
#[derive(Drop)]
pub struct IcebergTarget {
    /// The table id that a first commit writes.
    pub(crate) id: Text,
    /// The location that a first commit writes.
    pub(crate) location: Text,
    ghost plain: { (front : List ℕ) → location ≡ front ++ 47 ∷ [] → ⊥ },
}

/// The id of a new table at this location: the UUID of version 5 of the URL namespace over
/// `lakebridge:iceberg:` and the location, in lower case with hyphens (RFC 9562, "UUID Version 5").
fn table_id(alloc: Global, location: &str) -> Result<Text, AllocError>
    ensures { IfOk result (λ id. id ≡ table_id location.now) }
{
    let name = format!(in alloc; "lakebridge:iceberg:{location}")?;
    let uuid = Uuid::new_v5(&Uuid::NAMESPACE_URL, name.as_bytes());
    let mut buffer = Uuid::encode_buffer();
    Text::from_str(alloc, uuid.hyphenated().encode_lower(&mut buffer))
}

impl IcebergTarget {
    /// The Iceberg target of the table at this location, which doesn't end with `/`. Memory alone is
    /// refused.
    pub fn new(alloc: Global, location: &str) -> Result<IcebergTarget, TargetError>
        requires { (front : List ℕ) → location.now ≡ front ++ 47 ∷ [] → ⊥ }
        ensures id { IfOk result (λ target. target.id ≡ table_id location.now) }
        ensures location { IfOk result (λ target. target.location ≡ location.now) }
        ensures memory { IfErr result (λ e. e ≡ Memory) }
    {
        Ok(IcebergTarget {
            id: table_id(alloc, location)?,
            location: Text::from_str(alloc, location)?,
        })
    }
}

impl Target for IcebergTarget {
    ghost use Rattle.table_history.specs.declared.kind.Kind.TheVariants.{Iceberg};
    ghost use Rattle.iceberg_version.specs.KeptEnd.{end_of, view_of};
    ghost use Rattle.iceberg_version.specs.Writing.{Passes};
    ghost use Rattle.iceberg_commit.specs.NextVersion.{image};
    ghost use Rattle.target_iceberg.specs.Fitting.{Unfit, state_of};
    ghost use Rattle.target_iceberg.specs.Inspecting.{IsCrowded, IsForeign};
    ghost use Rattle.target_iceberg.specs.Kept.{IsCounted, StandsFor};
    ghost use Rattle.target_iceberg.specs.Reached.{IsReached, IsSettled};
    ghost use Rattle.target_iceberg.specs.Reading.{IsCarried, Reads, commits_in};
    ghost use Rattle.target_iceberg.specs.Writes.{Writes};
    ghost use Rattle.target_iceberg.specs.AlikeLemmas.{passes_alike, unfit_alike};
    ghost use Rattle.target_iceberg.specs.CountLemmas.{commits_read};
    ghost use Rattle.target_iceberg.specs.FitLemmas.{fits_first, fits_none, fits_partition};
    ghost use Rattle.target_iceberg.specs.InspectLemmas.{not_foreign, one_path};
    ghost use Rattle.target_iceberg.specs.KeptLemmas.{counted_own, kept_counted, kept_own, kept_view};
    ghost use Rattle.target_iceberg.specs.OwnLemmas.{commits_own, crowded_own, foreign_own, passes_own};
    ghost use Rattle.target_iceberg.specs.SameLemmas.{reached_in, reached_stays};
    ghost use Rattle.target_iceberg.specs.SettledLemmas.{carries_own, crash_carries, crash_reads, crash_settled, reached_alone, reached_clean, reads_own, settled_absent, settled_own};
    ghost use Rattle.target_iceberg.specs.ViewLemmas.{absent_any, carries_within, newest, one_change, one_view, published};
    ghost use Rattle.target_iceberg.specs.WideLemmas.{image_kinds, image_publishable};

    type Kept = IcebergKept;

    ghost kind = { λ t. Iceberg };

    ghost image = { λ t schema. image schema };

    ghost reads = { λ t files view. Reads files view };

    ghost commits_in = { λ t files. commits_in files };

    ghost is_foreign = { λ t source files path. IsForeign source files path };

    ghost is_crowded = { λ t source files which number. IsCrowded source files which number };

    ghost unfit = { λ t kept partition commits e. Unfit (state_of kept) partition commits e };

    ghost passes = { λ t kept files origin now commits which number.
        Passes (end_of kept) origin now commits which number };

    ghost carries = { λ t files number change standing.
        IsCarried t.id files number change standing };

    ghost writes = { λ t kept before origin now commit after.
        Writes (end_of kept) before origin now commit after };

    ghost reached = { λ t files path. IsReached files path };

    ghost settled = { λ t disk. IsSettled disk };

    ghost counted = { λ t kept files. IsCounted kept.version files };

    ghost stands_for = { λ t kept files. StandsFor t.id t.location kept files };

    ghost view = { λ t kept. view_of kept };

    fn kind(&self) -> Kind {
        Kind::Iceberg
    }

    fn table<'a>(&self, kept: &'a IcebergKept) -> &'a Table {
        &kept.table
    }

    fn mark<'a>(&self, kept: &'a IcebergKept) -> Option<&'a Mark> {
        kept.mark.as_ref()
    }

    fn commits(&self, kept: &IcebergKept) -> u64 {
        kept.version as u64
    }

    fn inspect<S: Store>(
        &self,
        alloc: Global,
        store: &mut S,
        source: Kind,
    ) -> Result<Seen<IcebergKept>, TargetError> {
        inspect(alloc, store, source)
    }

    fn fresh(&self, alloc: Global, partition: &[Text]) -> Result<IcebergKept, TargetError> {
        Ok(fresh_kept(alloc, &self.id, &self.location, partition)?)
    }

    fn fits(
        &self,
        alloc: Global,
        kept: &IcebergKept,
        partition: &[Text],
        commits: &[Commit],
    ) -> Result<(), TargetError> {
        fits(alloc, kept, partition, commits)
    }

    /// Publishes a commit as the next version (Iceberg specification, "File System Tables"): its
    /// manifests, its list and its staged metadata are made durable, and the metadata is renamed in
    /// one step. All texts are made before the first write.
    fn commit<S: Store>(
        &self,
        alloc: Global,
        store: &mut S,
        kept: &mut IcebergKept,
        commit: &Commit,
        source: Kind,
        table: Option<&Text>,
        now_ms: u64,
    ) -> Result<(), TargetError> {
        let new = next_version(alloc, kept, commit, source, table, now_ms)?;
        let manifests = new.manifests.as_slice();
        publish_version(
            alloc,
            store,
            new.version,
            manifests,
            &new.list,
            &new.metadata,
        )
    }

    ghost one_view = { λ t files v w a b. one_view files v w a b };

    ghost commits_read = { λ t files v reads. commits_read files v reads };

    ghost absent_any = { λ t files p q reads. absent_any files p q reads };

    ghost image_publishable = { λ t table held is may. image_publishable table held is may };

    ghost image_kinds = { λ t schema held is name value. image_kinds schema held is name value };

    ghost published = { λ t files v reads. published files v reads };

    ghost not_foreign = { λ t source files path v foreign reads.
        not_foreign source files path v foreign reads };

    ghost one_path = { λ t source files p q a b. one_path source files p q a b };

    ghost fits_first = { λ t kept partition commit commits fits.
        fits_first (state_of kept) partition commit commits fits };

    ghost fits_none = { λ t kept partition. fits_none (state_of kept) partition };

    ghost fits_partition = { λ t kept partition commits some fits published.
        fits_partition (state_of kept) partition commits some fits published };

    ghost unfit_alike = { λ t kept other files partition commits e a b same unfit.
        unfit_alike t.id t.location kept other files partition commits e a b same unfit };

    ghost passes_alike = { λ t kept other files origin now commits which number a b same passes.
        passes_alike t.id t.location kept other files origin now commits which number a b same
        passes };

    ghost one_change = { λ t files c a b m n h k. one_change t.id files c a b m n h k };

    ghost carries_within = { λ t files v c change m reads h.
        carries_within t.id files v c change m reads h };

    ghost newest = { λ t files v change m reads h. newest t.id files v change m reads h };

    ghost kept_view = { λ t kept files stands. kept_view t.id t.location kept files stands };

    ghost kept_counted = { λ t kept files stands. kept_counted t.id t.location kept files stands };

    ghost reached_in = { λ t files path h. reached_in files path h };

    ghost reached_stays = { λ t a b same path h. reached_stays a b same path h };

    ghost reached_clean = { λ t disk path settled h. reached_clean disk path settled h };

    ghost reads_own = { λ t a b v same h. reads_own a b v same h };

    ghost commits_own = { λ t a b same. commits_own a b same };

    ghost foreign_own = { λ t source a b path same h. foreign_own source a b path same h };

    ghost crowded_own = { λ t source a b which number same h.
        crowded_own source a b which number same h };

    ghost carries_own = { λ t a b c change m same h. carries_own t.id a b c change m same h };

    ghost passes_own = { λ t kept a b origin now commits which number same h.
        passes_own kept a b origin now commits which number same h };

    ghost kept_own = { λ t kept a b same h. kept_own t.id t.location kept a b same h };

    ghost counted_own = { λ t kept a b same h. counted_own kept.version a b same h };

    ghost reached_alone = { λ t a b v same none reads. reached_alone t.id a b v same none reads };

    ghost settled_absent = { λ t disk reads clean. settled_absent disk reads clean };

    ghost settled_own = { λ t a b same fewer settled. settled_own a b same fewer settled };

    ghost crash_reads = { λ t disk image v settled left reads.
        crash_reads disk image settled left v reads };

    ghost crash_carries = { λ t disk image v c change m settled left reads le h.
        crash_carries disk image settled left t.id c change m h };

    ghost crash_settled = { λ t disk image settled left. crash_settled disk image settled left };
}
