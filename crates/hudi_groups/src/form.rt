//! How the data files of a table are named.

ghost use Rattle.std.specs.Prelude.{◌≡◌, ◌++◌, codes, IfOk};
ghost use Rattle.hudi_groups.specs.Files.{suffix_of, without_end, file_id_in, group_name};

use crate::group::{file_id_of, file_name_of, path_to_file_id, path_to_name};
use lake_basics::Text;
use std::alloc::{AllocError, Global};

/// How the files of a table are named in its write stats: each by its path, or, for files that Hudi
/// didn't write, by the path, `_`, the instant's time and `_hudiext`.
#[derive(Debug, Drop)]
pub enum Form {
    Base,
    External { time: Text },
}

/// What stands behind a file's own path in a write stat: nothing, or `_`, the instant's time and
/// `_hudiext`. It fails for want of memory alone.
pub fn suffix_of(alloc: Global, form: &Form) -> Result<Vec<u8>, AllocError>
    ensures { IfOk result (λ v. v.items ≡ suffix_of form.now) }
{
    match form {
        Form::Base => Ok(Vec::new(alloc)),
        Form::External { time } => external_suffix(alloc, time),
    }
}

fn external_suffix(alloc: Global, time: &Text) -> Result<Vec<u8>, AllocError>
    ensures { IfOk result (λ v. v.items ≡ codes "_" ++ time.now ++ codes "_hudiext") }
{
    let mut suffix = Vec::from_slice(alloc, b"_")?;
    suffix.extend_from_slice(time.as_bytes())?;
    suffix.extend_from_slice(b"_hudiext")?;
    Ok(suffix)
}

/// The path without what stands behind it, which the caller has found there.
pub fn without_end<'a>(suffix: &[u8], path: &'a [u8]) -> &'a [u8]
    ensures { result.now ≡ without_end suffix.now path.now }
{
    &path[..path.len().saturating_sub(suffix.len())]
}

/// The file id in a path: of a file that Hudi didn't write its whole name (Hudi technical
/// specification, "File Layout Hierarchy").
pub fn file_id_in<'a>(form: &Form, path: &'a [u8]) -> &'a [u8]
    ensures { result.now ≡ file_id_in form.now path.now }
{
    match form {
        Form::Base => file_id_of(path),
        Form::External { .. } => file_name_of(path),
    }
}

/// The name of the path's file group: its folder and its file id, joined.
pub(crate) fn group_name<'a>(form: &Form, path: &'a [u8]) -> &'a [u8]
    ensures { result.now ≡ group_name form.now path.now }
{
    match form {
        Form::Base => path_to_file_id(path),
        Form::External { .. } => path_to_name(path),
    }
}
