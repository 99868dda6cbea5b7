//! What is met in the JSON of a held schema.

ghost use Rattle.std.specs.Prelude.{◌≡◌, IfOk};
ghost use Rattle.iceberg_metadata.specs.Outlines.{with_column, with_other};

use lake_basics::Items;
use schema_map::ColumnPath;
use std::alloc::AllocError;

/// The column paths that were met with their field ids, depth first, and whether a type was met that
/// has no row in the table of types.
#[derive(Drop)]
pub struct Outline {
    pub paths: Items<(ColumnPath, i32)>,
    pub has_other: bool,
}

impl Outline {
    /// With a column at this path, met last.
    pub fn with_column(self, path: ColumnPath, id: i32) -> Result<Outline, AllocError>
        ensures { IfOk result (λ o. o ≡ with_column self path id) }
    {
        let mut outline = self;
        outline.paths.push((path, id))?;
        Ok(outline)
    }

    /// With a type that has no row in the table of types.
    pub fn with_other(self) -> Outline
        ensures { result ≡ with_other self }
    {
        let mut outline = self;
        outline.has_other = true;
        outline
    }
}
