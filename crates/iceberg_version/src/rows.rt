//! The live rows of a manifest that is written anew.

ghost use Rattle.std.specs.Prelude.{◌≡◌, IfOk, IsSome, map};
ghost use Rattle.file_links.specs.Rows.{rows_of as owned_rows};
ghost use Rattle.iceberg_version.specs.KeptEnd.{held_rows};
ghost use Rattle.iceberg_version.specs.Manifests.{left as left_of, lost as lost_of};

use crate::before::Before;
use crate::removed::is_marked;
use file_links::Held;
use std::alloc::{AllocError, Global};

/// The rows of a manifest that stay, and those that a commit removes.
#[derive(Drop)]
pub(crate) struct PartedRows<'a> {
    pub(crate) left: Vec<&'a Held>,
    pub(crate) lost: Vec<&'a Held>,
}

/// The rows of an owner that stay and those that are removed, each in their order.
pub(crate) fn parted_rows<'a>(
    alloc: Global,
    before: &Before<'a>,
    owner: u32,
) -> Result<PartedRows<'a>, AllocError>
    requires { IsSome (owned_rows before.now.links.now owner) }
    ensures left { IfOk result (λ rows. map (λ row. row.now) rows.left.items
        ≡ left_of before.now.removed.now (held_rows before.now.links.now owner)) }
    ensures lost { IfOk result (λ rows. map (λ row. row.now) rows.lost.items
        ≡ lost_of before.now.removed.now (held_rows before.now.links.now owner)) }
{
    let links = before.links;
    let mut left = Vec::new(alloc);
    let mut lost = Vec::new(alloc);
    let mut place = links.first(owner);
    while let Some(slot) = place {
        let row = links.get(slot);
        if is_marked(&before.marks, slot) {
            lost.push(row)?;
        } else {
            left.push(row)?;
        }
        place = links.next(slot);
    }
    Ok(PartedRows { left, lost })
}
