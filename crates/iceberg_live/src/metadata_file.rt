//! The paths of manifest lists and manifests in the table.

ghost use Rattle.std.specs.Prelude.{◌≡◌, ℕ, List, ◌⊎◌, Err, IfOk, IfErr, MatchResult};
ghost use Rattle.lake_basics.specs.Outcome.{GivesUnlessMemory};
ghost use Rattle.iceberg_manifest.specs.Errors.{is_memory};
ghost use Rattle.iceberg_metadata.specs.Location.{behind};
ghost use Rattle.iceberg_live.specs.MetadataPaths.{IsMetadataPath, HasPathFault, in_metadata as in_metadata_of, in_table as in_table_of, metadata_path_of};

use crate::text::text_of;
use iceberg_manifest::ManifestError;
use iceberg_metadata::{after_front, location_front};
use lake_basics::Text;
use std::alloc::Global;
use table_history::path_form;

fn in_metadata(alloc: Global, path: &[u8]) -> Result<Text, ManifestError>
    ensures { GivesUnlessMemory is_memory (λ p. p) result (in_metadata_of path.now) }
{
    if !path_form(path) {
        return Err(ManifestError::Malformed);
    }
    if after_front(b"metadata/", path).is_none() {
        return Err(ManifestError::OutsideTable);
    }
    Ok(text_of(alloc, path)?)
}

fn in_table(alloc: Global, front: &[u8], file: &Text) -> Result<Text, ManifestError>
    ensures { GivesUnlessMemory is_memory (λ p. p) result
        (in_table_of (behind front.now file.now)) }
{
    match after_front(front, file.as_bytes()) {
        None => Err(ManifestError::OutsideTable),
        Some(path) => in_metadata(alloc, path),
    }
}

fn answer(alloc: Global, location: &str, file: &Text) -> Result<Text, ManifestError>
    ensures { GivesUnlessMemory is_memory (λ p. p) result (metadata_path_of location.now file.now) }
{
    let front = location_front(alloc, location)?;
    in_table(alloc, front.as_slice(), file)
}

/// The path in the table of a manifest list, as a snapshot names it, or of a manifest, as a list names
/// it (Iceberg specification, "Snapshots", `manifest-list`, and "Manifest Lists", `manifest_path`). The
/// name is the table's location without the slash at its end, `/` and the path.
/// `Malformed` where the rest behind location and `/` is no path, and so is the file that names it;
/// `OutsideTable` where the name doesn't begin with the location and `/metadata/`.
pub fn metadata_path(alloc: Global, location: &str, file: &Text) -> Result<Text, ManifestError>
    // What is found is the file's path.
    ensures found { IfOk result (λ path. IsMetadataPath location.now file.now path) }
    // Where the file has a path, it is found, unless memory runs out.
    ensures only { (path : List ℕ) → IsMetadataPath location.now file.now path
        → MatchResult result (λ found. found ≡ path) (λ e. e ≡ ManifestError.Memory) }
    // What is refused has that fault.
    ensures refused { IfErr result (λ e. (e ≡ ManifestError.Memory)
        ⊎ HasPathFault location.now file.now e) }
    // What has a fault is refused so, unless memory runs out.
    ensures first { (e : ManifestError) → HasPathFault location.now file.now e
        → (result ≡ Err e) ⊎ (result ≡ Err ManifestError.Memory) }
{
    answer(alloc, location, file)
}
