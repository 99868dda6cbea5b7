//! The list of a new version, as it is made.

ghost use Rattle.std.specs.Prelude.{◌≤◌, length};

use iceberg_manifest::ManifestInfo;
use lake_basics::Blob;

/// The rows of a new list so far, and the bytes of its new manifests.
#[derive(Drop)]
pub(crate) struct NewList {
    pub(crate) infos: Vec<ManifestInfo>,
    pub(crate) manifests: Vec<Blob>,
    ghost fewer: { length manifests.items ≤ length infos.items },
}
