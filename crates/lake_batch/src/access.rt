//! Whether words may write to the store.
ghost use Rattle.std.specs.Prelude.{◌≡◌, ℕ, List, Option, IsTrue};
ghost use Rattle.std.specs.Option.{option_map};
ghost use Rattle.sync_driver.specs.Answers.{form_of};
ghost use Rattle.sync_driver.specs.Forms.{IsCommand, word};
ghost use Rattle.table_history.specs.declared.kind.Kind.{Kind};
ghost use Rattle.target_sync.specs.declared.plan.Mode.{Mode};
ghost use Rattle.lake_batch.specs.Access.{may_write, verb_writes};
ghost use Rattle.lake_batch.specs.Whole.{IsBatchCommand};

// The word behind the place.
fn verb_in(words: &[String]) -> Option<&str>
    ensures { option_map (λ verb. verb.now) result ≡ word words.now 1 }
{
    match words.get(1) {
        Some(verb) => Some(verb.as_str()),
        None => None,
    }
}

fn verb_writes(verb: &str) -> bool
    ensures { result ≡ verb_writes verb.now }
{
    matches!(verb, "sync" | "full" | "sweep" | "compact" | "batch")
}

fn may_write(verb: Option<&str>) -> bool
    ensures { result ≡ may_write (option_map (λ v. v.now) verb.entry) }
{
    match verb {
        Some(verb) => verb_writes(verb),
        None => false,
    }
}

/// Whether the words may write to the store, which their verb says.
pub fn writes(words: &[String]) -> bool
    ensures verb { result ≡ may_write (word words.now 1) }
    ensures batch { (place : List ℕ) (file : List ℕ) → IsBatchCommand words.now place file
        → IsTrue result }
    ensures brought { (place : List ℕ) (mode : Mode) (source : Kind) (first : Kind)
        (second : Option Kind) → IsCommand words.now place (form_of mode source first second)
        → IsTrue result }
{
    may_write(verb_in(words))
}
