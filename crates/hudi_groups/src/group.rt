//! The file group of a path.

ghost use Rattle.std.specs.Prelude.{◌≡◌, ◌==◌, ◌-◌, ◌<◌, ◌≤◌, length, not, slice_index};
ghost use Rattle.std.specs.List.{suffix_len, position_or_len};
ghost use Rattle.hudi_groups.specs.Group.{folder_of, file_name_of, file_id_of, joined};

use memchr::{memchr, memrchr};

/// The length of the path's folder, and the length of the file id in its name.
pub fn group_of(path: &[u8]) -> (usize, usize)
    ensures { result ≡ (length (folder_of path.now), length (file_id_of path.now)) }
{
    let start = name_start(path);
    (start.saturating_sub(1), id_len(&path[start..]))
}

/// The path up to the end of its file id: the folder and the file id, joined.
pub(crate) fn path_to_file_id(path: &[u8]) -> &[u8]
    ensures { result.now ≡ joined (folder_of path.now) (file_id_of path.now) }
{
    let start = name_start(path);
    let end = start + id_len(&path[start..]);
    if start > 1 {
        &path[..end]
    } else {
        &path[start..end]
    }
}

/// The folder and the file's name, joined. That is the path itself.
pub(crate) fn path_to_name(path: &[u8]) -> &[u8]
    ensures { result.now ≡ joined (folder_of path.now) (file_name_of path.now) }
{
    let start = name_start(path);
    if start > 1 { path } else { &path[start..] }
}

/// The path's folder: what stands before its last `/`, or nothing.
pub fn folder_of(path: &[u8]) -> &[u8]
    ensures { result.now ≡ folder_of path.now }
{
    &path[..name_start(path).saturating_sub(1)]
}

/// The file id in the path's name.
pub(crate) fn file_id_of(path: &[u8]) -> &[u8]
    ensures { result.now ≡ file_id_of path.now }
{
    let name = file_name_of(path);
    &name[..id_len(name)]
}

/// The name behind the path's folder.
pub(crate) fn file_name_of(path: &[u8]) -> &[u8]
    ensures { result.now ≡ file_name_of path.now }
{
    &path[name_start(path)..]
}

/// Where the name begins.
fn name_start(path: &[u8]) -> usize
    ensures start { result ≡ length path.now - suffix_len (λ b. not (b == 47)) path.now }
    ensures within { result ≤ length path.now }
    ensures slash { 0 < result → slice_index path.now (result - 1) ≡ 47 }
{
    match memrchr(b'/', path) {
        None => 0,
        Some(slash) => slash + 1,
    }
}

fn id_len(name: &[u8]) -> usize
    ensures id { result ≡ position_or_len (λ b. b == 95) name.now }
    ensures within { result ≤ length name.now }
{
    memchr(b'_', name).unwrap_or(name.len())
}
