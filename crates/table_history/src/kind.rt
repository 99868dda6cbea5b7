//! The formats of lake tables.

ghost use Rattle.std.specs.Prelude.{◌≡◌, Some};
ghost use Rattle.table_history.specs.Words.{kind_word, kind_named};

/// A format of lake tables: Delta Lake, Apache Iceberg or Apache Hudi.
#[derive(Clone, Copy, Debug, PartialEq, Eq)]
pub enum Kind {
    Delta,
    Iceberg,
    Hudi,
}

impl Kind {
    /// The word that names it: `delta`, `iceberg` or `hudi`.
    pub fn word(self) -> &'static str
        ensures word { result.now ≡ kind_word self }
        ensures reads_back { kind_named result.now ≡ Some self }
    {
        match self {
            Kind::Delta => "delta",
            Kind::Iceberg => "iceberg",
            Kind::Hudi => "hudi",
        }
    }

    /// The kind that a word names.
    pub fn from_word(word: &str) -> Option<Kind>
        ensures { result ≡ kind_named word.now }
    {
        match word {
            "delta" => Some(Kind::Delta),
            "iceberg" => Some(Kind::Iceberg),
            "hudi" => Some(Kind::Hudi),
            _ => None,
        }
    }
}
