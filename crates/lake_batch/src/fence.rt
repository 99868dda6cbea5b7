//! A part of a store, whose folder contracts know from its type.
ghost use Rattle.std.specs.Prelude.{◌≡◌, ℕ, List, []};
ghost use Rattle.lake_store.specs.Disk.{Disk, Files, empty_disk};
ghost use Rattle.lake_batch.specs.Fence.{IsFenced};

use crate::calls;
use crate::part::Under;
use lake_store::{Blob, Names, Store, StoreError};
use std::alloc::Global;
use std::marker::{Brand, Model, PhantomData};

/// The folder of a part, and what the store told as the part was made. It is fixed for one run.
pub(crate) trait Fence {
    ghost folder: { List ℕ };

    ghost disk: { Disk };

    ghost time: { ℕ };

    ghost left_since: { ℕ → Files → Type 0 };
}

impl Fence for Brand {
    ghost folder = { [] };

    ghost disk = { empty_disk };

    ghost time = { 0 };

    ghost left_since = { λ _ _. ⊥ };
}

/// A part of a store beside which nothing has changed since it was made.
///
/// A contract over any store says nothing of the folder of a part, nor of what lies beside it. Here
/// the folder is one of the type, and the rest is a fact of each value.
#[derive(Drop)]
pub(crate) struct Fenced<S: Store, K: Fence> {
    under: Under<S>,
    of: PhantomData<K>,
}

impl<S: Store, K: Fence> Model for Fenced<S, K> {
    ghost use Rattle.std.specs.Prelude.{◌≡◌};
    ghost use Rattle.lake_batch.specs.Fence.{IsFenced};

    ghost Value = { S };

    ghost view = { λ f. f.under.store };

    ghost invariant = { λ f. (f.under.folder ≡ K.folder)
        × IsFenced ⟦<S as Store>⟧ K.folder K.disk K.time K.left_since f.under.store };
}

impl<S: Store, K: Fence> Fenced<S, K> {
    pub(crate) fn new(under: Under<S>) -> Fenced<S, K>
        requires folder { under.folder ≡ K.folder }
        requires disk { S.disk under.store ≡ K.disk }
        requires time { S.time under.store ≡ K.time }
        requires left { (t : ℕ) (image : Files) → S.left_since under.store t image → K.left_since t image }
        ensures { result ≡ under.store }
    {
        Fenced {
            under,
            of: PhantomData,
        }
    }

    pub(crate) fn into_inner(self) -> S
        ensures store { result ≡ self }
        ensures beside { IsFenced ⟦<S as Store>⟧ K.folder K.disk K.time K.left_since result }
    {
        let Fenced { under, of: _ } = self;
        under.into_inner()
    }
}

impl<S: Store, K: Fence> Store for Fenced<S, K> {
    ghost use Rattle.lake_batch.specs.Part.{part_disk, part_left_since};
    ghost use Rattle.lake_batch.specs.PartImages.{part_now, part_only_now};

    ghost tells = { S.tells };

    ghost disk = { λ s. part_disk K.folder (S.disk s) };

    ghost time = { S.time };

    ghost left_since = { part_left_since S.left_since K.folder };

    ghost faults = { S.faults };

    ghost may_fail = { S.may_fail };

    ghost contests = { S.contests };

    ghost may_contest = { S.may_contest };

    ghost counts_end = { S.counts_end };

    ghost earlier = { λ s t u image told le left.
        (left.0, S.earlier s t u left.0 told le left.1, left.2) };

    ghost counts_now = { λ s t image told le may.
        part_now K.folder S.tells S.disk S.time S.left_since told s t
        (λ whole now. S.counts_now s t whole told le now) image may };

    ghost only_now = { λ s image told left.
        part_only_now K.folder S.tells S.disk S.time S.left_since s
        (λ whole here. S.only_now s whole told here) image left };

    fn list(&mut self, alloc: Global, folder: &str) -> Result<Names, StoreError> {
        calls::list(
            &mut self.under.store,
            alloc,
            self.under.folder.as_str(),
            folder,
        )
    }

    fn read(&mut self, alloc: Global, path: &str) -> Result<Option<Blob>, StoreError> {
        calls::read(
            &mut self.under.store,
            alloc,
            self.under.folder.as_str(),
            path,
        )
    }

    fn read_part(
        &mut self,
        alloc: Global,
        path: &str,
        from: u64,
        len: u32,
    ) -> Result<Option<Blob>, StoreError> {
        let folder = self.under.folder.as_str();
        calls::read_part(&mut self.under.store, alloc, folder, path, from, len)
    }

    fn write(&mut self, path: &str, bytes: &[u8]) -> Result<(), StoreError> {
        let folder = self.under.folder.as_str();
        calls::write(&mut self.under.store, self.under.alloc, folder, path, bytes)
    }

    fn sync(&mut self) -> Result<(), StoreError> {
        calls::sync(&mut self.under.store, self.under.folder.as_str())
    }

    fn publish(&mut self, from: &str, to: &str) -> Result<(), StoreError> {
        let folder = self.under.folder.as_str();
        calls::publish(&mut self.under.store, self.under.alloc, folder, from, to)
    }

    fn remove(&mut self, path: &str) -> Result<(), StoreError> {
        let folder = self.under.folder.as_str();
        calls::remove(&mut self.under.store, self.under.alloc, folder, path)
    }
}
