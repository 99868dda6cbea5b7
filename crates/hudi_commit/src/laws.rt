//! Laws of a timeline's files.
ghost use Rattle.hudi_commit.specs.Laws.{AlikeIsSame, CrashIsSafe, ReadingLemma};

/// States when the files of a timeline are read alike, and that a crash of a settled one leaves it so.
/// It does nothing.
pub fn timeline_laws()
    ensures reading_lemma { ReadingLemma }
    ensures alike_is_same { AlikeIsSame }
    ensures crash_is_safe { CrashIsSafe }
{}
