//! A text that a contract sees as the list of its bytes.
ghost use Rattle.std.specs.Prelude.{◌≡◌, ◌<◌, ◌^◌, ◌↔◌, length, IfOk, IsErrOf, string_bytes};
ghost use Rattle.std.specs.Str.{bytes_eq, IsUtf8};
ghost use Rattle.std.specs.Ordering.{nat_cmp};
ghost use Rattle.std.specs.Cmp.Lexicographic.{slice_cmp, texts_po, texts_ties};
ghost use Rattle.std.proofs.lemmas.Cmp.{nat_list_eq_equiv, nat_list_cmp_total};
ghost use Rattle.std.specs.Hash as fed;
ghost use Rattle.std.specs.Cmp as cmp;
ghost use Rattle.std.specs.Prelude.{Some, refl};
ghost use Rattle.std.specs.Cmp.Rules.{hashing};
ghost use Rattle.std.proofs.Common.{rules};

use std::alloc::{AllocError, Global};
use std::cmp::Ordering;
use std::hash::{Hash, Hasher};
use std::marker::Model;

/// A text, which is always UTF-8.
#[derive(Debug, Drop)]
pub struct Text {
    content: String,
}

impl Model for Text {
    ghost use Rattle.std.specs.Prelude.{List, ℕ, string_bytes};
    ghost use Rattle.std.specs.Coded.{coded_ℕ, coded_list};

    ghost Value = { List ℕ };

    ghost coded = { coded_list coded_ℕ };

    ghost view = { λ t. string_bytes t.content };
}

/// Why bytes are no `Text`.
#[derive(Clone, Copy, Debug, PartialEq, Eq, thiserror::Error)]
pub enum TextError {
    #[error("out of memory")]
    Memory,
    #[error("the bytes aren't UTF-8")]
    BadText,
}

impl From<AllocError> for TextError {
    ghost use Rattle.lake_basics.specs.declared.text.TextError.TheVariants.{Memory};

    ghost from_gives = { λ _ e. e ≡ Memory };

    fn from(_error: AllocError) -> TextError {
        TextError::Memory
    }
}

impl Text {
    /// The text of these bytes. It is refused exactly where they are not UTF-8, or for want of memory.
    pub fn from_bytes(alloc: Global, bytes: &[u8]) -> Result<Text, TextError>
        ensures ok { IfOk result (λ t. t ≡ bytes.now) }
        ensures utf8 { IfOk result (λ _. IsUtf8 bytes.now) }
        ensures bad { IsErrOf result TextError.BadText ↔ ¬ IsUtf8 bytes.now }
    {
        match str::from_utf8(bytes) {
            Ok(text) => Ok(Text::from_str(alloc, text)?),
            Err(_) => Err(TextError::BadText),
        }
    }

    /// A copy of a text.
    pub fn from_str(alloc: Global, text: &str) -> Result<Text, AllocError>
        ensures { IfOk result (λ t. t ≡ text.now) }
    {
        let content = String::from_str(alloc, text)?;
        Ok(Text { content })
    }

    /// The same text, without a copy.
    pub fn from_string(content: String) -> Text
        ensures { result ≡ string_bytes content }
    {
        Text { content }
    }

    /// An equal text.
    pub fn copy(&self, alloc: Global) -> Result<Text, AllocError>
        ensures { IfOk result (λ t. t ≡ self.now) }
    {
        Text::from_str(alloc, self.as_str())
    }

    /// The text, to be read.
    pub fn as_str(&self) -> &str
        ensures value { result.now ≡ self.now }
        ensures utf8 { IsUtf8 self.now }
        ensures short { length self.now < 2 ^ 63 }
    {
        self.content.as_str()
    }

    /// The bytes of the text in UTF-8 (RFC 3629).
    pub fn as_bytes(&self) -> &[u8]
        ensures value { result.now ≡ self.now }
        ensures utf8 { IsUtf8 self.now }
        ensures short { length self.now < 2 ^ 63 }
    {
        self.as_str().as_bytes()
    }
}

impl PartialEq for Text {
    ghost eq = { bytes_eq };

    ghost laws = { cmp.partial_equiv_from_equiv nat_list_eq_equiv };

    fn eq(&self, other: &Text) -> bool {
        self.as_str() == other.as_str()
    }
}

impl Eq for Text {
    ghost laws = { nat_list_eq_equiv };
}

impl PartialOrd for Text {
    ghost partial_cmp = { λ x y. Some (slice_cmp nat_cmp x y) };

    ghost laws = { texts_po };

    fn partial_cmp(&self, other: &Text) -> Option<Ordering> {
        Some(self.cmp(other))
    }
}

impl Ord for Text {
    ghost cmp = { slice_cmp nat_cmp };

    ghost total = { nat_list_cmp_total };

    ghost matches_partial_cmp = { λ x y. refl };

    ghost matches_eq = { texts_ties };

    fn cmp(&self, other: &Text) -> Ordering {
        self.as_str().cmp(other.as_str())
    }
}

impl Hash for Text {
    ghost hash_input = { fed.str };

    ghost respects_eq = { Prim.search (hashing, rules) };

    fn hash<H: Hasher>(&self, state: &mut H) {
        self.as_str().hash(state);
    }
}
