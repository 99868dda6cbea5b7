//! The folders that the formats keep their metadata in.

ghost use Rattle.std.specs.Prelude.{◌≡◌};
ghost use Rattle.target_core.specs.Folders.{AreApart, folder_of};
ghost use Rattle.table_history.specs.declared.kind.Kind.{Kind};

use table_history::Kind;

/// The folder that holds all metadata of a format, in the table's folder: `_delta_log`, `metadata`
/// or `.hoodie`. The folders of two formats share no path.
pub fn metadata_folder(kind: Kind) -> &'static str
    ensures name { result.now ≡ folder_of kind }
    ensures apart { (other : Kind) → (other ≡ kind → ⊥)
        → AreApart (folder_of kind) (folder_of other) }
{
    match kind {
        Kind::Delta => "_delta_log",
        Kind::Iceberg => "metadata",
        Kind::Hudi => ".hoodie",
    }
}
