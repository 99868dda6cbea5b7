//! Bytes that a contract sees as a list.
ghost use Rattle.std.specs.Prelude.{◌≡◌, ◌<◌, ◌^◌, ◌↔◌, [], ◌∷◌, length, replicate, IfOk, IsTrue, Some, refl};
ghost use Rattle.std.specs.Str.{bytes_eq};
ghost use Rattle.std.specs.Ordering.{nat_cmp};
ghost use Rattle.std.specs.Cmp.Lexicographic.{bytes_decides, slice_cmp, texts_po, texts_ties};
ghost use Rattle.std.proofs.lemmas.Cmp.{nat_list_eq_equiv, nat_list_cmp_total};
ghost use Rattle.std.specs.Cmp as cmp;
ghost use Rattle.std.proofs.Common.{ap};

use std::alloc::{AllocError, Global};
use std::cmp::Ordering;
use std::hash::{Hash, Hasher};
use std::marker::Model;

/// Bytes.
#[derive(Debug, Drop)]
pub struct Blob {
    content: Vec<u8>,
}

impl Model for Blob {
    ghost use Rattle.std.specs.Prelude.{List, ℕ};
    ghost use Rattle.std.specs.Coded.{coded_ℕ, coded_list};

    ghost Value = { List ℕ };

    ghost coded = { coded_list coded_ℕ };

    ghost view = { λ a. a.content.items };
}

impl Blob {
    /// No bytes.
    pub fn new(alloc: Global) -> Blob
        ensures { result ≡ [] }
    {
        Blob {
            content: Vec::new(alloc),
        }
    }

    /// A copy of the bytes. Its one error is want of memory.
    pub fn from_slice(alloc: Global, bytes: &[u8]) -> Result<Blob, AllocError>
        ensures { IfOk result (λ blob. blob ≡ bytes.now) }
    {
        Ok(Blob {
            content: Vec::from_slice(alloc, bytes)?,
        })
    }

    /// The same bytes, without a copy.
    pub fn from_vec(content: Vec<u8>) -> Blob
        ensures { result ≡ content.items }
    {
        Blob { content }
    }

    /// As many bytes as told, all of one value.
    pub fn repeated(alloc: Global, byte: u8, count: usize) -> Result<Blob, AllocError>
        ensures { IfOk result (λ blob. blob ≡ replicate count byte) }
    {
        Ok(Blob {
            content: vec![in alloc; byte; count]?,
        })
    }

    /// Equal bytes in memory of their own.
    pub fn copy(&self, alloc: Global) -> Result<Blob, AllocError>
        ensures { IfOk result (λ blob. blob ≡ self.now) }
    {
        Blob::from_slice(alloc, self.as_slice())
    }

    /// The bytes, to be read.
    pub fn as_slice(&self) -> &[u8]
        ensures value { result.now ≡ self.now }
        ensures short { length self.now < 2 ^ 63 }
    {
        self.content.as_slice()
    }

    /// The same bytes as a vector, without a copy.
    pub fn into_vec(self) -> Vec<u8>
        ensures { result.items ≡ self }
    {
        let Blob { content } = self;
        content
    }
}

impl Clone for Blob {
    ghost is_clone = { λ old new. new ≡ old };

    fn clone(&self) -> Result<Blob, AllocError> {
        Ok(Blob {
            content: self.content.clone()?,
        })
    }
}

impl PartialEq for Blob {
    ghost eq = { bytes_eq };

    ghost laws = { cmp.partial_equiv_from_equiv nat_list_eq_equiv };

    fn eq(&self, other: &Blob) -> bool {
        self.as_slice() == other.as_slice()
    }
}

impl Eq for Blob {
    ghost laws = { nat_list_eq_equiv };
}

impl PartialOrd for Blob {
    ghost partial_cmp = { λ x y. Some (slice_cmp nat_cmp x y) };

    ghost laws = { texts_po };

    fn partial_cmp(&self, other: &Blob) -> Option<Ordering> {
        Some(self.cmp(other))
    }
}

impl Ord for Blob {
    ghost cmp = { slice_cmp nat_cmp };

    ghost total = { nat_list_cmp_total };

    ghost matches_partial_cmp = { λ x y. refl };

    ghost matches_eq = { texts_ties };

    fn cmp(&self, other: &Blob) -> Ordering {
        self.as_slice().cmp(other.as_slice())
    }
}

/// The bytes are hashed in one write. A slice's own hash takes them one by one.
impl Hash for Blob {
    ghost hash_input = { λ b. b ∷ [] };

    ghost respects_eq = { λ x y same. ap (λ b. b ∷ []) ((bytes_decides x y).0 same) };

    fn hash<H: Hasher>(&self, state: &mut H) {
        state.write(self.as_slice());
    }
}
