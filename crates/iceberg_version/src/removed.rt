//! The rows that a commit removes, by their slots.

ghost use Rattle.std.specs.Prelude.{◌≡◌, ◌<◌, ◌^◌, ◌||◌, IfOk, OnOk, length, nat_eq, ℕ};
ghost use Rattle.iceberg_version.specs.Removed.{MarksLost, is_marked as has_mark};

use file_links::Links;
use lake_basics::Text;
use std::alloc::{AllocError, Global};

/// Makes the marks reach to this place.
fn reach(marks: &mut Vec<bool>, place: usize) -> Result<(), AllocError>
    requires { place < 2 ^ 32 }
    ensures reached { OnOk result (place < length marks.new.items) }
    ensures same { OnOk result ((slot : ℕ)
        → has_mark marks.new.items slot ≡ has_mark marks.old.items slot) }
{
    if marks.len() <= place {
        marks.resize(place + 1, false)?;
    }
    Ok(())
}

/// Marks a slot.
fn mark(marks: &mut Vec<bool>, slot: u32) -> Result<(), AllocError>
    ensures { OnOk result ((s : ℕ)
        → has_mark marks.new.items s ≡ (nat_eq s slot || has_mark marks.old.items s)) }
{
    let place = slot as usize;
    reach(marks, place)?;
    marks[place] = true;
    Ok(())
}

/// Whether a slot is marked.
pub(crate) fn is_marked(marks: &[bool], slot: u32) -> bool
    ensures { result ≡ has_mark marks.now slot }
{
    match marks.get(slot as usize) {
        Some(mark) => *mark,
        None => false,
    }
}

/// Marks by slot, for the rows of these paths. Each path is looked up once.
pub(crate) fn lost_marks(
    alloc: Global,
    links: &Links,
    removed: &[Text],
) -> Result<Vec<bool>, AllocError>
    ensures { IfOk result (λ marks. MarksLost links.now removed.now marks.items) }
{
    let mut marks = Vec::new(alloc);
    for path in removed {
        if let Some(slot) = links.find(path.as_bytes()) {
            mark(&mut marks, slot)?;
        }
    }
    Ok(marks)
}
