//! The members of an object in the order of their names.

ghost use Rattle.std.specs.Prelude.{◌≡◌, IfOk, OnOk};
ghost use Rattle.serde_json.specs.Data.{put};
ghost use Rattle.json_outline.specs.View.{view, members_view, sorted_view};

use crate::node::{Members, Node};
use std::alloc::{AllocError, Global};
use std::collections::BTreeMap;

/// The members of an object by their names.
pub type SortedMembers<'n, 't> = BTreeMap<&'t str, &'n Node<'t>>;

fn put_member<'n, 't>(
    sorted: &mut SortedMembers<'n, 't>,
    name: &'t str,
    value: &'n Node<'t>,
) -> Result<(), AllocError>
    ensures { OnOk result (sorted_view sorted.new.entries
        ≡ put name.now (view value.now) (sorted_view sorted.old.entries)) }
{
    drop(sorted.insert(name, value)?);
    Ok(())
}

/// The members in byte order of their names. Of two with one name the later stands.
pub fn sorted_members<'n, 't>(
    alloc: Global,
    members: &'n Members<'t>,
) -> Result<SortedMembers<'n, 't>, AllocError>
    ensures { IfOk result (λ m. sorted_view m.entries ≡ members_view members.now.items) }
{
    let mut sorted = BTreeMap::new(alloc);
    for member in members {
        put_member(&mut sorted, member.0, &member.1)?;
    }
    Ok(sorted)
}
