//! Rows that a set finds by their paths.
ghost use Rattle.std.specs.Prelude.{◌≡◌};
ghost use Rattle.std.proofs.Common.{ap};
ghost use Rattle.std.proofs.lemmas.Cmp.{nat_list_eq_equiv};
ghost use Rattle.std.specs.Cmp as cmp;
ghost use Rattle.std.specs.Cmp.{on_equiv};
ghost use Rattle.std.specs.Cmp.Lexicographic.{bytes_decides};
ghost use Rattle.std.specs.Str.{bytes_eq};
ghost use Rattle.table_history.specs.RowSet.{same_path, path_writes};

use crate::row::FileRow;
use indexmap::Equivalent;
use std::hash::{Hash, Hasher};
use std::marker::Model;

/// A row that stands for its path: two are equal, and are hashed alike, where their paths are one.
#[derive(Drop)]
pub(crate) struct RowByPath {
    pub(crate) row: FileRow,
}

impl Model for RowByPath {
    ghost use Rattle.table_history.specs.declared.row.FileRow.{FileRow};

    ghost Value = { FileRow };

    ghost view = { λ r. r.row };
}

impl PartialEq for RowByPath {
    ghost eq = { same_path };

    ghost laws = { cmp.partial_equiv_from_equiv (on_equiv (λ r. r.path) nat_list_eq_equiv) };

    fn eq(&self, other: &RowByPath) -> bool {
        self.row.path == other.row.path
    }
}

impl Eq for RowByPath {
    ghost laws = { on_equiv (λ r. r.path) nat_list_eq_equiv };
}

impl Hash for RowByPath {
    ghost hash_input = { λ r. path_writes r.path };

    ghost respects_eq = { λ x y same. ap path_writes ((bytes_decides x.path y.path).0 same) };

    fn hash<H: Hasher>(&self, state: &mut H) {
        state.write(self.row.path.as_bytes());
    }
}

/// A path, to find its row by. It is hashed as the row is, in one write: a slice's own hash takes the
/// bytes one by one.
#[derive(Clone, Copy, PartialEq, Eq)]
pub(crate) struct PathQuery<'a> {
    pub(crate) path: &'a [u8],
}

impl Hash for PathQuery<'_> {
    ghost hash_input = { λ q. path_writes q.path.now };

    ghost respects_eq = { λ x y same. ap path_writes ((bytes_decides x.path.now y.path.now).0 same) };

    fn hash<H: Hasher>(&self, state: &mut H) {
        state.write(self.path);
    }
}

impl Equivalent<RowByPath> for PathQuery<'_> {
    ghost equivalent = { λ q r. bytes_eq q.path.now r.path };

    ghost respects_hash = { λ q r same. ap path_writes ((bytes_decides q.path.now r.path).0 same) };

    ghost respects_eq = { λ q x y. nat_list_eq_equiv.congr q.path.now x.path y.path };

    fn equivalent(&self, held: &RowByPath) -> bool {
        self.path == held.row.path.as_bytes()
    }
}
