//! The words of a command: the table's place, and one form.
ghost use Rattle.std.specs.Prelude.{◌≡◌, ◌++◌, ◌∷◌, ◌<◌, ◌^◌, ℕ, List, [], IfSome, MatchOption, Some};
ghost use Rattle.std.specs.Fmt.{decimal};
ghost use Rattle.std.specs.Str.{IsUtf8};
ghost use Rattle.std.specs.Option.{option_map};
ghost use Rattle.table_history.specs.declared.kind.Kind.{Kind};
ghost use Rattle.sync_driver.specs.declared.words.Verb.{Verb};
ghost use Rattle.sync_driver.specs.declared.words.Form.{Form};
ghost use Rattle.sync_driver.specs.Forms.{word, kind_at, verb_word, Spells, plain_by, single_by, pair_by, triple_by, location, NamesPlace, IsCommand, IsNoCommand};

use table_history::Kind;

/// The most bytes of a location.
const MAX_LOCATION: usize = 1024;

/// What a form begins with.
#[derive(Clone, Copy)]
pub(crate) enum Verb {
    Sync,
    Full,
    Show,
    Check,
    Sweep,
    Compact,
    Drill,
}

/// What a command asks for, and of which formats: of a source and of targets, of one of the two, of a
/// Delta log, or of a drill of this number.
#[derive(Clone, Copy)]
pub(crate) enum Form {
    Sync(Kind, Kind, Option<Kind>),
    Full(Kind, Kind, Option<Kind>),
    Show(Kind),
    Check(Kind, Kind),
    Sweep(Kind),
    Compact,
    Drill(u64),
}

fn word_at(words: &[String], place: usize) -> Option<&str>
    ensures { option_map (λ w. w.now) result ≡ word words.now place }
{
    match words.get(place) {
        Some(word) => Some(word.as_str()),
        None => None,
    }
}

fn kind_at(words: &[String], place: usize) -> Option<Kind>
    ensures { result ≡ kind_at words.now place }
{
    Kind::from_word(word_at(words, place)?)
}

fn verb_at(words: &[String], place: usize) -> Option<Verb>
    ensures { MatchOption result ((verb : Verb) → word words.now place ≡ Some (verb_word verb) → ⊥)
        (λ verb. word words.now place ≡ Some (verb_word verb)) }
{
    match word_at(words, place)? {
        "sync" => Some(Verb::Sync),
        "full" => Some(Verb::Full),
        "show" => Some(Verb::Show),
        "check" => Some(Verb::Check),
        "sweep" => Some(Verb::Sweep),
        "compact" => Some(Verb::Compact),
        "drill" => Some(Verb::Drill),
        _ => None,
    }
}

/// The number under 2^64 that a text spells in decimal without leading zeros.
fn number_of(text: &str) -> Option<u64>
    ensures { MatchOption result ((n : ℕ) → n < 2 ^ 64 → text.now ≡ decimal n → ⊥)
        (λ n. (n < 2 ^ 64) × (text.now ≡ decimal n)) }
{
    let digits = text.as_bytes();
    if digits.is_empty() {
        return None;
    }
    if digits[0] == b'+' {
        return None;
    }
    if digits[0] == b'0' && digits.len() != 1 {
        return None;
    }
    text.parse::<u64>().ok()
}

fn number_at(words: &[String], place: usize) -> Option<u64>
    ensures { MatchOption result ((n : ℕ) → n < 2 ^ 64 → word words.now place ≡ Some (decimal n) → ⊥)
        (λ n. (n < 2 ^ 64) × (word words.now place ≡ Some (decimal n))) }
{
    number_of(word_at(words, place)?)
}

fn plain_form(verb: Verb) -> Option<Form>
    ensures { result ≡ plain_by verb }
{
    match verb {
        Verb::Compact => Some(Form::Compact),
        _ => None,
    }
}

fn single_form(verb: Verb, kind: Option<Kind>, number: Option<u64>) -> Option<Form>
    ensures { result ≡ single_by verb kind number }
{
    match verb {
        Verb::Show => Some(Form::Show(kind?)),
        Verb::Sweep => Some(Form::Sweep(kind?)),
        Verb::Drill => Some(Form::Drill(number?)),
        _ => None,
    }
}

fn pair_form(verb: Verb, source: Kind, target: Kind) -> Option<Form>
    ensures { result ≡ pair_by verb source target }
{
    match verb {
        Verb::Sync => Some(Form::Sync(source, target, None)),
        Verb::Full => Some(Form::Full(source, target, None)),
        Verb::Check => Some(Form::Check(source, target)),
        _ => None,
    }
}

fn triple_form(verb: Verb, source: Kind, first: Kind, second: Kind) -> Option<Form>
    ensures { result ≡ triple_by verb source first second }
{
    match verb {
        Verb::Sync => Some(Form::Sync(source, first, Some(second))),
        Verb::Full => Some(Form::Full(source, first, Some(second))),
        _ => None,
    }
}

/// The form that the words behind the place spell.
pub(crate) fn form_of(words: &[String]) -> Option<Form>
    ensures { MatchOption result ((form : Form) → Spells words.now form → ⊥) (λ form. Spells words.now form) }
{
    let verb = verb_at(words, 1)?;
    match words.len() {
        2 => plain_form(verb),
        3 => single_form(verb, kind_at(words, 2), number_at(words, 2)),
        4 => {
            let source = kind_at(words, 2)?;
            let target = kind_at(words, 3)?;
            if source == target {
                return None;
            }
            pair_form(verb, source, target)
        }
        5 => {
            let source = kind_at(words, 2)?;
            let first = kind_at(words, 3)?;
            let second = kind_at(words, 4)?;
            if source == first || source == second || first == second {
                return None;
            }
            triple_form(verb, source, first, second)
        }
        _ => None,
    }
}

/// What is left of a text without the slash at its end, if it has one.
fn without_slash(text: &str) -> Option<&str>
    ensures text { IfSome result (λ left. IsUtf8 left.now) }
    ensures split { MatchOption result ((front : List ℕ) → text.now ≡ front ++ 47 ∷ [] → ⊥)
        (λ left. text.now ≡ left.now ++ 47 ∷ []) }
{
    text.strip_suffix('/')
}

/// The place without the slashes at its end.
pub fn location_of(place: &str) -> &str
    ensures { result.now ≡ location place.now }
{
    let mut left = place;
    for _ in 0..place.len() {
        let Some(shorter) = without_slash(left) else {
            return left;
        };
        left = shorter;
    }
    left
}

/// What the words ask for, and of which table.
#[derive(Clone, Copy)]
pub(crate) struct Command<'a> {
    pub(crate) location: &'a str,
    pub(crate) form: Form,
}

/// The location that the first word names: a place of 1 to 1,024 bytes without the slashes at its end.
pub fn location_in(words: &[String]) -> Option<&str>
    ensures { MatchOption result ((place : List ℕ) → NamesPlace words.now place → ⊥) (λ place. NamesPlace words.now place.now) }
{
    let location = location_of(word_at(words, 0)?);
    if location.is_empty() || location.len() > MAX_LOCATION {
        return None;
    }
    Some(location)
}

/// The command that the words are, if they are one.
pub(crate) fn command_of(words: &[String]) -> Option<Command<'_>>
    ensures { MatchOption result (IsNoCommand words.now) (λ command. IsCommand words.now command.location.now command.form) }
{
    match location_in(words) {
        Some(location) => match form_of(words) {
            Some(form) => Some(Command { location, form }),
            None => None,
        },
        None => None,
    }
}
