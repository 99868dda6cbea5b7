//! What is kept of an Iceberg target between two commits.

ghost use Rattle.std.specs.Prelude.{◌≡◌, length, map, nat_eq, true};
ghost use Rattle.std.specs.List.{IsDistinct, list_all};
ghost use Rattle.table_history.specs.History.{IsSoundTable};
ghost use Rattle.target_core.specs.Held.{are_held};
ghost use Rattle.iceberg_version.specs.Sound.{AreRowsOf, OwnEachPath, are_of, has_content, have_first_ids, is_own_image, is_sound_metadata, is_sound_owner};

use file_links::Links;
use iceberg_manifest::ManifestInfo;
use iceberg_metadata::Metadata;
use lake_basics::Items;
use table_history::Table;
use target_core::Mark;

/// A manifest of the current list: its row there, and the owner of its live rows.
#[derive(Drop)]
pub struct KeptManifest {
    pub info: ManifestInfo,
    pub owner: u32,
}

/// What is kept of an Iceberg target between two commits.
#[derive(Drop)]
pub struct IcebergKept {
    pub table: Table,
    pub mark: Option<Mark>,
    /// The newest version, and 0 before the first one.
    pub version: u32,
    /// The metadata of the newest version, and before the first one that of a table without schemas
    /// and snapshots.
    pub metadata: Metadata,
    /// The manifests of the current list, in their order.
    pub manifests: Items<KeptManifest>,
    /// The live rows of the manifests, each with the version that added it.
    pub links: Links,
    ghost rows_held: { are_held table.rows ≡ true },
    ghost schema_ids: { have_first_ids metadata.schemas ≡ true },
    ghost own_image: { is_own_image table.schema ≡ true },
    ghost owners: { list_all (λ m. is_sound_owner links m.owner) manifests ≡ true },
    ghost linked: { are_of table.rows links ≡ true },
    // The metadata can be written, and a version behind it goes on from it.
    ghost metadata_sound: { is_sound_metadata version metadata ≡ true },
    // Before the first version there is no manifest.
    ghost begun: { version ≡ 0 → length manifests ≡ 0 },
    ghost contents: { list_all (λ m. has_content m.info) manifests ≡ true },
    ghost table_sound: { ∥ IsSoundTable table ∥₁ },
    ghost rows_linked: { ∥ AreRowsOf table.rows links ∥₁ },
    ghost own_paths: { OwnEachPath links },
    ghost own_owners: { ∥ IsDistinct nat_eq (map (λ m. m.owner) manifests) ∥₁ },
}
