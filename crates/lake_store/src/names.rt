//! The names of a folder's files.
ghost use Rattle.std.specs.Prelude.{◌≡◌, ◌↔◌, [], List, ℕ, length, slice_get, Contains, IsTrue, Some, refl};
ghost use Rattle.std.specs.Str.{bytes_eq};
ghost use Rattle.std.specs.Cmp as cmp;
ghost use Rattle.std.specs.Hash as fed;
ghost use Rattle.std.proofs.lemmas.Slice.Eq.{bytes_eq-Decides};
ghost use Rattle.std.proofs.lemmas.Cmp.{lists_total, nat_list_cmp_total, nat_list_eq_equiv};
ghost use Rattle.std.specs.Ordering.{nat_cmp};
ghost use Rattle.std.specs.Option.{option_copied};
ghost use Rattle.std.specs.Cmp.Lexicographic.{lists_agrees, lists_equiv, lists_per, lists_po, lists_ties, pointwise, slice_cmp, slice_partial_cmp, texts_po, texts_ties};
ghost use Rattle.std.specs.List.Sorted.{IsStrictlySortedBy};

use lake_basics::Text;
use std::alloc::Global;
use std::cmp::Ordering;
use std::hash::{Hash, Hasher};
use std::marker::Model;

/// A list of names in byte order, each once.
#[derive(Debug, Drop)]
pub struct Names {
    content: Vec<Text>,
}

impl Model for Names {
    ghost use Rattle.std.specs.Prelude.{List, ℕ};
    ghost use Rattle.std.specs.Coded.{coded_list, coded_ℕ};
    ghost use Rattle.std.specs.Ordering.{nat_cmp};
    ghost use Rattle.std.specs.Cmp.Lexicographic.{slice_cmp};
    ghost use Rattle.std.specs.List.Sorted.{IsStrictlySortedBy};

    ghost Value = { List (List ℕ) };

    ghost coded = { coded_list (coded_list coded_ℕ) };

    ghost view = { λ a. a.content.items };

    ghost invariant = { λ a. IsStrictlySortedBy (slice_cmp nat_cmp) a.content.items };
}

impl Names {
    /// No names.
    pub fn new(alloc: Global) -> Names
        ensures { result ≡ [] }
    {
        Names {
            content: Vec::new(alloc),
        }
    }

    /// Names that are in byte order already, each once.
    pub fn from_sorted(content: Vec<Text>) -> Names
        requires { IsStrictlySortedBy (slice_cmp nat_cmp) content.items }
        ensures { result ≡ content.items }
    {
        Names { content }
    }

    /// These names, in byte order and each once.
    pub fn sort(content: Vec<Text>) -> Names
        ensures { (name : List ℕ) → Contains result name ↔ Contains content.items name }
    {
        let mut content = content;
        content.sort_unstable();
        content.dedup();
        Names { content }
    }

    /// The names, in byte order and each once.
    pub fn as_slice(&self) -> &[Text]
        ensures value { result.now ≡ self.now }
        ensures sorted { IsStrictlySortedBy (slice_cmp nat_cmp) self.now }
    {
        self.content.as_slice()
    }

    /// How many names there are.
    pub fn len(&self) -> usize
        ensures value { result ≡ length self.now }
        ensures sorted { IsStrictlySortedBy (slice_cmp nat_cmp) self.now }
    {
        self.content.len()
    }

    /// Whether there are no names.
    pub fn is_empty(&self) -> bool
        ensures value { IsTrue result ↔ (length self.now ≡ 0) }
        ensures sorted { IsStrictlySortedBy (slice_cmp nat_cmp) self.now }
    {
        self.content.is_empty()
    }

    /// The name at a place, counted from 0.
    pub fn get(&self, place: usize) -> Option<&Text>
        ensures value { option_copied result ≡ slice_get self.now place }
        ensures sorted { IsStrictlySortedBy (slice_cmp nat_cmp) self.now }
    {
        self.content.get(place)
    }
}

impl PartialEq for Names {
    ghost eq = { pointwise bytes_eq };

    ghost laws = { lists_per (cmp.partial_equiv_from_equiv nat_list_eq_equiv) };

    fn eq(&self, other: &Names) -> bool {
        self.as_slice() == other.as_slice()
    }
}

impl Eq for Names {
    ghost laws = { lists_equiv nat_list_eq_equiv };
}

impl PartialOrd for Names {
    ghost partial_cmp = { slice_partial_cmp (λ x y. Some (slice_cmp nat_cmp x y)) };

    ghost laws = { lists_po texts_po };

    fn partial_cmp(&self, other: &Names) -> Option<Ordering> {
        self.as_slice().partial_cmp(other.as_slice())
    }
}

impl Ord for Names {
    ghost cmp = { slice_cmp (slice_cmp nat_cmp) };

    ghost total = { lists_total nat_list_cmp_total };

    ghost matches_partial_cmp = { lists_agrees (λ x y. refl) };

    ghost matches_eq = { lists_ties (slice_cmp nat_cmp) texts_ties };

    fn cmp(&self, other: &Names) -> Ordering {
        self.as_slice().cmp(other.as_slice())
    }
}

impl Hash for Names {
    ghost hash_input = { fed.slice fed.str };

    ghost respects_eq = { (fed.items_Alike (fed.same_Alike fed.str bytes_eq-Decides)).fed };

    fn hash<H: Hasher>(&self, state: &mut H) {
        self.as_slice().hash(state);
    }
}
