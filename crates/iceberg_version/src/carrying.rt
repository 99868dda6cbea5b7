//! What becomes of the kept manifests at a commit.

ghost use Rattle.std.specs.Prelude.{◌≡◌, [], Contains, IfOk, IsSome, List, MatchOption, map, ℕ};
ghost use Rattle.file_links.specs.Rows.{rows_of as owned_rows};
ghost use Rattle.iceberg_version.specs.Carrying.{AreCarriedOn, IsCarriedOn, IsNextList};
ghost use Rattle.iceberg_version.specs.declared.kept.KeptManifest.{KeptManifest};
ghost use Rattle.iceberg_version.specs.KeptEnd.{live_manifest};
ghost use Rattle.iceberg_version.specs.Touched.{AreTouched};

use crate::kept::KeptManifest;
use crate::touched::touched_owners;
use file_links::Links;
use indexmap::IndexSet;
use lake_basics::Text;
use std::alloc::{AllocError, Global};

/// What a manifest of the list of a new version is made of.
#[derive(Clone, Copy)]
pub enum Next {
    /// The one at this place of the list before, as it is.
    Stays(usize),
    /// The one at this place of the list before, without the rows that are removed.
    Anew(usize),
    /// The part of the added rows at this place.
    Added(usize),
}

/// What the manifest at this place of the list becomes, or None where it has no live row.
fn carry(
    links: &Links,
    place: usize,
    manifest: &KeptManifest,
    touched: &IndexSet<u32>,
) -> Option<Next>
    requires { IsSome (owned_rows links.now manifest.now.owner) }
    ensures { (paths : List (List ℕ)) → AreTouched links.now paths touched.now
        → MatchOption result ((live_manifest links.now manifest.now).rows ≡ [])
        (IsCarriedOn paths place (live_manifest links.now manifest.now)) }
{
    let owner = manifest.owner;
    if touched.contains(&owner) {
        return Some(Next::Anew(place));
    }
    if links.first(owner).is_none() {
        return None;
    }
    Some(Next::Stays(place))
}

/// What the manifests of the list become, in their order: those without live rows are left out.
fn carry_all(
    alloc: Global,
    links: &Links,
    manifests: &[KeptManifest],
    touched: &IndexSet<u32>,
) -> Result<Vec<Next>, AllocError>
    requires { (m : KeptManifest) → Contains manifests.now m
        → IsSome (owned_rows links.now m.owner) }
    ensures { IfOk result (λ next. (paths : List (List ℕ)) → AreTouched links.now paths touched.now
        → AreCarriedOn paths 0 (map (live_manifest links.now) manifests.now) next.items) }
{
    let mut next = Vec::new(alloc);
    for (place, manifest) in manifests.iter().enumerate() {
        if let Some(one) = carry(links, place, manifest, touched) {
            next.push(one)?;
        }
    }
    Ok(next)
}

/// The manifests of the list behind a commit that removes these paths, and adds rows in so many
/// parts.
pub fn next_manifests(
    alloc: Global,
    links: &Links,
    manifests: &[KeptManifest],
    removed: &[Text],
    count: usize,
) -> Result<Vec<Next>, AllocError>
    requires { (m : KeptManifest) → Contains manifests.now m
        → IsSome (owned_rows links.now m.owner) }
    ensures { IfOk result (λ next. IsNextList removed.now
        (map (live_manifest links.now) manifests.now) count next.items) }
{
    let touched = touched_owners(alloc, links, removed)?;
    let mut next = carry_all(alloc, links, manifests, &touched)?;
    for place in 0..count {
        next.push(Next::Added(place))?;
    }
    Ok(next)
}
