//! Where a table lies, and what is left of the paths in it.

ghost use Rattle.std.specs.Prelude.{◌≡◌, option_map, IfOk};
ghost use Rattle.iceberg_metadata.specs.Location.{behind, front_of, without_slash};

use std::alloc::{AllocError, Global};

fn without_slash(location: &[u8]) -> &[u8]
    ensures { result.now ≡ without_slash location.now }
{
    location.strip_suffix(b"/").unwrap_or(location)
}

/// What the paths of a table's files begin with: the location without the slash at its end, and `/`
/// (Iceberg specification, "Table Metadata Fields", `location`).
pub fn location_front(alloc: Global, location: &str) -> Result<Vec<u8>, AllocError>
    ensures { IfOk result (λ front. front.items ≡ front_of location.now) }
{
    let mut front = Vec::from_slice(alloc, without_slash(location.as_bytes()))?;
    front.push(b'/')?;
    Ok(front)
}

/// What is left of a path after a front that it begins with. None where it doesn't begin with it.
pub fn after_front<'a>(front: &[u8], path: &'a [u8]) -> Option<&'a [u8]>
    ensures { option_map (λ rest. rest.now) result ≡ behind front.now path.now }
{
    path.strip_prefix(front)
}
