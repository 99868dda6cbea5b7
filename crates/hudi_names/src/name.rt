//! The names of the files of a timeline.

ghost use Rattle.std.specs.Prelude.{◌≡◌, ◌≢◌, ◌↔◌, ℕ, List, None, Some, ◌<◌, option_map, length, IsTrue, IfSome};
ghost use Rattle.hudi_names.specs.Name.{has_time, time_len, front_before, action_of, inflight_action_of, rest_says, instant_of, is_ignored, is_merge_on_read, IsSplit, IsInstantName};
ghost use Rattle.hudi_names.specs.declared.name.Action.{Action};
ghost use Rattle.hudi_names.specs.declared.name.Action.TheVariants.{Unknown};
ghost use Rattle.hudi_names.specs.declared.name.State.{State};
ghost use Rattle.std.specs.Char.{is_ascii_digit};
ghost use Rattle.std.specs.List.{list_all};
ghost use Rattle.std.specs.Str.{bytes_eq};

/// What an instant does to the table.
#[derive(Clone, Copy, Debug, PartialEq, Eq)]
pub enum Action {
    Commit,
    ReplaceCommit,
    /// Cleans, savepoints, rollbacks and indexing change no row.
    Ignored,
    MergeOnRead,
    Restore,
    Unknown,
}

/// How far an instant has come.
#[derive(Clone, Copy, Debug, PartialEq, Eq)]
pub enum State {
    Requested,
    Inflight,
    Completed,
}

/// The number of digits of an instant's time, its action and its state, from the name of its file.
pub fn instant_of_name(name: &[u8]) -> Option<(usize, Action, State)>
    ensures value { result ≡ instant_of name.now }
    ensures named { (digits : ℕ) (action : Action) (state : State) → action ≢ Unknown
        → (result ≡ Some (digits, action, state)) ↔ IsInstantName name.now digits action state }
    ensures none { (result ≡ None) ↔ ((time rest : List ℕ) → ¬ IsSplit name.now time rest) }
{
    parts_of_name(name)
}

fn parts_of_name(name: &[u8]) -> Option<(usize, Action, State)>
    ensures { result ≡ instant_of name.now }
{
    let digits = time_len_of(name)?;
    let (action, state) = read_rest(&name[digits + 1..]);
    Some((digits, action, state))
}

fn time_len_of(name: &[u8]) -> Option<usize>
    ensures value { result ≡ time_len name.now }
    ensures within { IfSome result (λ n. n < length name.now) }
{
    if begins_with_time(name, 14) {
        Some(14)
    } else if begins_with_time(name, 17) {
        Some(17)
    } else {
        None
    }
}

fn begins_with_time(name: &[u8], digits: usize) -> bool
    ensures value { result ≡ has_time digits name.now }
    ensures within { IsTrue result → digits < length name.now }
{
    if name.len() <= digits || name[digits] != b'.' {
        return false;
    }
    are_digits(&name[..digits])
}

fn are_digits(bytes: &[u8]) -> bool
    ensures { result ≡ list_all is_ascii_digit bytes.now }
{
    bytes.iter().all(|b| b.is_ascii_digit())
}

fn front_of<'a>(rest: &'a [u8], suffix: &[u8]) -> Option<&'a [u8]>
    ensures { option_map (λ s. s.now) result ≡ front_before suffix.now rest.now }
{
    rest.strip_suffix(suffix)
}

fn read_rest(rest: &[u8]) -> (Action, State)
    ensures { result ≡ rest_says rest.now }
{
    if is_word(rest, b"inflight") {
        return (Action::Commit, State::Inflight);
    }
    if let Some(word) = front_of(rest, b".requested") {
        return (read_action(word), State::Requested);
    }
    if let Some(word) = front_of(rest, b".inflight") {
        return (read_inflight_action(word), State::Inflight);
    }
    (read_action(rest), State::Completed)
}

fn read_inflight_action(word: &[u8]) -> Action
    ensures { result ≡ inflight_action_of word.now }
{
    if is_word(word, b"commit") {
        Action::Unknown
    } else {
        read_action(word)
    }
}

fn read_action(word: &[u8]) -> Action
    ensures { result ≡ action_of word.now }
{
    if is_word(word, b"commit") {
        Action::Commit
    } else if is_word(word, b"replacecommit") {
        Action::ReplaceCommit
    } else if is_ignored(word) {
        Action::Ignored
    } else if is_merge_on_read(word) {
        Action::MergeOnRead
    } else if is_word(word, b"restore") {
        Action::Restore
    } else {
        Action::Unknown
    }
}

fn is_ignored(word: &[u8]) -> bool
    ensures { result ≡ is_ignored word.now }
{
    is_word(word, b"clean")
        || is_word(word, b"savepoint")
        || is_word(word, b"rollback")
        || is_word(word, b"indexing")
}

fn is_merge_on_read(word: &[u8]) -> bool
    ensures { result ≡ is_merge_on_read word.now }
{
    is_word(word, b"deltacommit") || is_word(word, b"compaction") || is_word(word, b"logcompaction")
}

fn is_word(word: &[u8], expected: &[u8]) -> bool
    ensures { result ≡ bytes_eq word.now expected.now }
{
    word == expected
}
