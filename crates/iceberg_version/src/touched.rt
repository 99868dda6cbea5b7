//! The manifests from which a commit removes rows.

ghost use Rattle.std.specs.Prelude.{IfOk};
ghost use Rattle.iceberg_version.specs.Touched.{AreTouched};

use file_links::Links;
use indexmap::IndexSet;
use lake_basics::Text;
use std::alloc::{AllocError, Global};

/// The owners that have rows of these paths.
pub(crate) fn touched_owners(
    alloc: Global,
    links: &Links,
    removed: &[Text],
) -> Result<IndexSet<u32>, AllocError>
    ensures { IfOk result (AreTouched links.now removed.now) }
{
    let mut owners = IndexSet::new(alloc);
    for path in removed {
        if let Some(slot) = links.find(path.as_bytes()) {
            owners.insert(links.owner_of(slot))?;
        }
    }
    Ok(owners)
}
