//! The names of the files that a commit writes.

ghost use Rattle.std.specs.Prelude.{◌≡◌, IfOk};
ghost use Rattle.iceberg_metadata.specs.Location.{front_of as front_at};
ghost use Rattle.iceberg_version.specs.Manifests.{file_at as name_of_file};
ghost use Rattle.iceberg_table.specs.Folder.{path_of};
ghost use Rattle.iceberg_version.specs.Names.{list_name, manifest_name, staged_name};

use iceberg_metadata::location_front;
use lake_basics::Text;
use std::alloc::{AllocError, Global};

/// The path that a version's metadata is staged under.
pub fn staged_path(alloc: Global, version: u32) -> Result<Text, AllocError>
    ensures { IfOk result (λ path. path ≡ path_of (staged_name version)) }
{
    Ok(Text::from_string(format!(in alloc; "metadata/lb-v-{version}.json")?))
}

/// The path of the manifest list of a version.
pub fn list_path(alloc: Global, version: u32) -> Result<Text, AllocError>
    ensures { IfOk result (λ path. path ≡ path_of (list_name version)) }
{
    Ok(Text::from_string(format!(in alloc; "metadata/lb-s-{version}.avro")?))
}

/// The path of a version's manifest of this number.
pub fn manifest_path(alloc: Global, version: u32, number: u32) -> Result<Text, AllocError>
    ensures { IfOk result (λ path. path ≡ path_of (manifest_name version number)) }
{
    Ok(Text::from_string(format!(in alloc; "metadata/lb-m-{version}-{number}.avro")?))
}

/// What the names of the files of a table at this location begin with.
pub(crate) fn front_of(alloc: Global, location: &Text) -> Result<Text, AllocError>
    ensures { IfOk result (λ front. front ≡ front_at location.now) }
{
    let front = location_front(alloc, location.as_str())?;
    match Text::from_bytes(alloc, front.as_slice()) {
        Ok(front) => Ok(front),
        Err(_) => Err(AllocError),
    }
}

/// The name of the file of a path, behind what all of them begin with.
pub(crate) fn file_at(alloc: Global, front: &Text, path: &str) -> Result<Text, AllocError>
    ensures { IfOk result (λ file. file ≡ name_of_file front.now path.now) }
{
    let front = front.as_str();
    let mut file = String::with_capacity(alloc, front.len() + path.len())?;
    file.push_str(front)?;
    file.push_str(path)?;
    Ok(Text::from_string(file))
}
