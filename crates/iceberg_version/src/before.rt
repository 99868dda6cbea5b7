//! The manifests of the list before, and what a commit removes and adds.

ghost use Rattle.std.specs.Prelude.{◌≡◌, IfOk};
ghost use Rattle.iceberg_version.specs.Removed.{MarksLost};

use crate::kept::KeptManifest;
use crate::removed::lost_marks;
use file_links::Links;
use lake_basics::Text;
use std::alloc::{AllocError, Global};
use table_history::FileRow;

/// The manifests of the list before with their live rows, and what a commit removes and adds.
#[derive(Drop)]
pub struct Before<'a> {
    pub links: &'a Links,
    pub manifests: &'a [KeptManifest],
    pub removed: &'a [Text],
    /// The slots of the rows that are removed.
    pub marks: Vec<bool>,
    /// The rows that the commit adds, in the parts that the new manifests are of.
    pub parts: &'a [&'a [&'a FileRow]],
    ghost marked: { MarksLost links.now removed.now marks.items },
}

/// These manifests with their live rows, the rows that are removed, and the parts that are added.
pub fn before_of<'a>(
    alloc: Global,
    links: &'a Links,
    manifests: &'a [KeptManifest],
    removed: &'a [Text],
    parts: &'a [&'a [&'a FileRow]],
) -> Result<Before<'a>, AllocError>
    ensures links { IfOk result (λ before. before.links.now ≡ links.now) }
    ensures manifests { IfOk result (λ before. before.manifests.now ≡ manifests.now) }
    ensures removed { IfOk result (λ before. before.removed.now ≡ removed.now) }
    ensures parts { IfOk result (λ before. before.parts.now ≡ parts.now) }
{
    let marks = lost_marks(alloc, links, removed)?;
    Ok(Before {
        links,
        manifests,
        removed,
        marks,
        parts,
    })
}
