//! Laws of a target's files.
ghost use Rattle.target_hudi.specs.Laws.{ReadingLemma};

/// States when the files of a Hudi target are read alike. It does nothing.
pub fn timeline_laws()
    ensures reading_lemma { ReadingLemma }
{}
