//! A list that a contract sees as the list of its items.
ghost use Rattle.std.specs.Prelude.{◌≡◌, ◌+◌, ◌<◌, ◌↔◌, ◌++◌, ◌∷◌, [], length, IsTrue, IfOk, OnOk, OnErr, slice_get};
ghost use Rattle.std.specs.Option.{option_copied};
ghost use Rattle.std.specs.Cmp.Lexicographic.{pointwise, lists_per, lists_equiv};

use std::alloc::{AllocError, Global};
use std::marker::Model;

/// A list of items. Its room and its place in memory are no part of its value.
#[derive(Debug, Drop)]
pub struct Items<T> {
    content: Vec<T>,
}

impl<T> Model for Items<T> {
    ghost use Rattle.std.specs.Prelude.{List};

    ghost Value = { List T };

    ghost view = { λ a. a.content.items };
}

impl<T> Items<T> {
    /// No items.
    pub fn new(alloc: Global) -> Self
        ensures { result ≡ [] }
    {
        Items {
            content: Vec::new(alloc),
        }
    }

    /// The same items, without a copy.
    pub fn from_vec(content: Vec<T>) -> Self
        ensures { result ≡ content.items }
    {
        Items { content }
    }

    /// The same items as a vector, without a copy.
    pub fn into_vec(self) -> Vec<T>
        ensures { result.items ≡ self }
    {
        let Items { content } = self;
        content
    }

    /// How many items there are.
    pub fn len(&self) -> usize
        ensures { result ≡ length self.now }
    {
        self.content.len()
    }

    /// Whether there are no items.
    pub fn is_empty(&self) -> bool
        ensures { IsTrue result ↔ (length self.now ≡ 0) }
    {
        self.content.is_empty()
    }

    /// The items, to be read.
    pub fn as_slice(&self) -> &[T]
        ensures { result.now ≡ self.now }
    {
        self.content.as_slice()
    }

    /// The item at a place, counted from 0. None from the end on.
    pub fn get(&self, place: usize) -> Option<&T>
        ensures { option_copied result ≡ slice_get self.now place }
    {
        self.content.get(place)
    }

    /// Adds an item at the end. Where memory is short, the items stay as they were.
    pub fn push(&mut self, item: T) -> Result<(), AllocError>
    where
        T: Drop,
        ensures ok { OnOk result (self.new ≡ self.old ++ item ∷ []) }
        ensures err { OnErr result (self.new ≡ self.old) }
    {
        self.content.push(item)?;
        Ok(())
    }
}

impl<T: PartialEq> PartialEq for Items<T> {
    ghost eq = { pointwise T.eq };

    ghost laws = { lists_per T.laws };

    fn eq(&self, other: &Self) -> bool {
        self.as_slice() == other.as_slice()
    }
}

impl<T: Eq> Eq for Items<T> {
    ghost laws = { lists_equiv T.Eq.laws };
}
