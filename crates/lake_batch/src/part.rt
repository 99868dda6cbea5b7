//! A store that sees the files in one folder of another store alone.
ghost use Rattle.std.specs.Prelude.{◌≡◌};

use crate::calls;
use lake_store::{Blob, Names, Store, StoreError, Text};
use std::alloc::Global;

/// The part of a store in a folder. Its files are those in the folder, under the rest of their
/// path, and its counts are those of the whole. In the empty folder lie all files.
///
/// Each call is that call of the whole on the folder, a slash and the path. It answers `Memory` too
/// where there is none for that path.
#[derive(Drop)]
pub struct Under<S> {
    pub(crate) alloc: Global,
    pub(crate) store: S,
    pub(crate) folder: Text,
}

impl<S: Store> Under<S> {
    /// The part of the store in this folder.
    pub fn new(alloc: Global, store: S, folder: Text) -> Under<S>
        ensures store { result.store ≡ store }
        ensures folder { result.folder ≡ folder }
    {
        Under {
            alloc,
            store,
            folder,
        }
    }

    /// The whole store.
    pub fn into_inner(self) -> S
        ensures { result ≡ self.store }
    {
        let Under { store, .. } = self;
        store
    }
}

impl<S: Store> Store for Under<S> {
    ghost use Rattle.lake_batch.specs.Part.{part_disk, part_left_since};
    ghost use Rattle.lake_batch.specs.PartImages.{part_now, part_only_now};

    ghost tells = { S.tells };

    ghost disk = { λ u. part_disk u.folder (S.disk u.store) };

    ghost time = { λ u. S.time u.store };

    ghost left_since = { λ u t image. part_left_since S.left_since u.folder u.store t image };

    ghost faults = { λ u. S.faults u.store };

    ghost may_fail = { λ u. S.may_fail u.store };

    ghost contests = { λ u. S.contests u.store };

    ghost may_contest = { λ u. S.may_contest u.store };

    ghost counts_end = { λ u. S.counts_end u.store };

    ghost earlier = { λ u t v image told le left.
        (left.0, S.earlier u.store t v left.0 told le left.1, left.2) };

    ghost counts_now = { λ u t image told le may.
        part_now u.folder S.tells S.disk S.time S.left_since told u.store t
        (λ whole now. S.counts_now u.store t whole told le now) image may };

    ghost only_now = { λ u image told left.
        part_only_now u.folder S.tells S.disk S.time S.left_since u.store
        (λ whole here. S.only_now u.store whole told here) image left };

    fn list(&mut self, alloc: Global, folder: &str) -> Result<Names, StoreError> {
        calls::list(&mut self.store, alloc, self.folder.as_str(), folder)
    }

    fn read(&mut self, alloc: Global, path: &str) -> Result<Option<Blob>, StoreError> {
        calls::read(&mut self.store, alloc, self.folder.as_str(), path)
    }

    fn read_part(
        &mut self,
        alloc: Global,
        path: &str,
        from: u64,
        len: u32,
    ) -> Result<Option<Blob>, StoreError> {
        calls::read_part(
            &mut self.store,
            alloc,
            self.folder.as_str(),
            path,
            from,
            len,
        )
    }

    fn write(&mut self, path: &str, bytes: &[u8]) -> Result<(), StoreError> {
        calls::write(
            &mut self.store,
            self.alloc,
            self.folder.as_str(),
            path,
            bytes,
        )
    }

    fn sync(&mut self) -> Result<(), StoreError> {
        calls::sync(&mut self.store, self.folder.as_str())
    }

    fn publish(&mut self, from: &str, to: &str) -> Result<(), StoreError> {
        calls::publish(&mut self.store, self.alloc, self.folder.as_str(), from, to)
    }

    fn remove(&mut self, path: &str) -> Result<(), StoreError> {
        calls::remove(&mut self.store, self.alloc, self.folder.as_str(), path)
    }
}
