//! The form of a path within a table's folder.
ghost use Rattle.std.specs.Prelude.{◌≡◌, ◌↔◌, ◌&&◌, nat_le, IsTrue};
ghost use Rattle.std.specs.List.{list_all, slice_split};
ghost use Rattle.table_history.specs.Path.{IsPathOfAnyLength, IsPath, is_slash, is_segment, is_path, is_path_of_any_length};

use lake_basics::limits::MAX_PATH_BYTES;

/// Whether the bytes are a path: 1 to 512 bytes of UTF-8 with no byte under 32, in segments that are
/// parted by `/`, none of them empty, `.` or `..`.
pub fn path_form(bytes: &[u8]) -> bool
    ensures form { IsTrue result ↔ IsPath bytes.now }
    ensures test { result ≡ is_path bytes.now }
{
    bytes.len() as u64 <= MAX_PATH_BYTES && path_form_of_any_length(bytes)
}

/// Whether the bytes are a path, but perhaps for their length.
pub fn path_form_of_any_length(bytes: &[u8]) -> bool
    ensures form { IsTrue result ↔ IsPathOfAnyLength bytes.now }
    ensures test { result ≡ is_path_of_any_length bytes.now }
{
    has_plain_segments(bytes) && simdutf8::is_utf8(bytes)
}

// Whether no byte is under 32, and each segment may stand in a path.
fn has_plain_segments(bytes: &[u8]) -> bool
    ensures { result
        ≡ (list_all (λ b. nat_le 32 b) bytes.now && list_all is_segment (slice_split is_slash bytes.now)) }
{
    has_no_control(bytes) && has_segments(bytes)
}

// Whether no byte is under 32.
fn has_no_control(bytes: &[u8]) -> bool
    ensures { result ≡ list_all (λ b. nat_le 32 b) bytes.now }
{
    bytes.iter().all(|byte| *byte >= 32)
}

// Whether each segment may stand in a path.
fn has_segments(bytes: &[u8]) -> bool
    ensures { result ≡ list_all is_segment (slice_split is_slash bytes.now) }
{
    bytes.split(|byte| *byte == b'/').all(is_segment)
}

fn is_segment(segment: &[u8]) -> bool
    ensures { result ≡ is_segment segment.now }
{
    !matches!(segment, [] | b"." | b"..")
}
