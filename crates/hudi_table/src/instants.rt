//! Which instants are in a timeline's folder.

ghost use Rattle.std.specs.Prelude.{◌≡◌, ◌++◌, ◌&&◌, List, ℕ, codes, length, not, IfOk, option_map, option_to_list, is_err};
ghost use Rattle.std.specs.List.{filter_map, list_any, prefix_len};
ghost use Rattle.std.specs.List.Sorted.{IsStrictlySortedBy};
ghost use Rattle.std.specs.Ordering.{nat_cmp};
ghost use Rattle.std.specs.Cmp.Lexicographic.{slice_cmp};
ghost use Rattle.hudi_table.specs.Instants.{completed_in, completed_name, completed_of, first_pending, has_name, instant_named, instant_with, instants_in, is_before, is_commit, is_done, is_missing, is_replacecommit, is_second, time_of};

use hudi_names::{Action, State, instant_of_name};
use lake_basics::{Items, Text};
use std::alloc::{AllocError, Global};

/// The name of an instant's file, and what it says.
#[derive(Debug, Drop)]
pub struct InstantName {
    pub name: Text,
    pub time: Text,
    pub action: Action,
    pub state: State,
    /// It is of a commit or replacecommit whose own completed file isn't there.
    pub is_pending: bool,
}

/// The name of the file of a completed commit or replacecommit, and its time.
#[derive(Debug, Drop)]
pub struct CompletedInstant {
    pub name: Text,
    pub time: Text,
    /// It is a replacecommit, and a commit of the same time is completed too.
    pub is_second: bool,
}

/// What stands before the first dot.
fn time_of(name: &str) -> &str
    ensures { result.now ≡ time_of name.now }
{
    match name.split_once('.') {
        Some((time, _)) => time,
        None => name,
    }
}

/// Whether one of these names, which are in byte order, is this one.
fn has_name(names: &[Text], name: &Text) -> bool
    requires { IsStrictlySortedBy (slice_cmp nat_cmp) names.now }
    ensures { result ≡ has_name names.now name.now }
{
    names.binary_search(name).is_ok()
}

fn file_name(alloc: Global, time: &Text, word: &str) -> Result<Text, AllocError>
    ensures { IfOk result (λ name. name ≡ time.now ++ (codes "." ++ word.now)) }
{
    Ok(Text::from_string(format!(in alloc; "{}.{}", time.as_str(), word)?))
}

/// The name of the file of a commit or replacecommit of this time once it is completed.
fn completed_name(alloc: Global, action: Action, time: &Text) -> Result<Option<Text>, AllocError>
    ensures { IfOk result (λ name. name ≡ completed_name action time.now) }
{
    match action {
        Action::Commit => Ok(Some(file_name(alloc, time, "commit")?)),
        Action::ReplaceCommit => Ok(Some(file_name(alloc, time, "replacecommit")?)),
        _ => Ok(None),
    }
}

fn is_missing(names: &[Text], name: &Option<Text>) -> bool
    requires { IsStrictlySortedBy (slice_cmp nat_cmp) names.now }
    ensures { result ≡ is_missing names.now name.now }
{
    match name {
        None => false,
        Some(name) => !has_name(names, name),
    }
}

fn instant_with(
    alloc: Global,
    names: &[Text],
    name: &Text,
    action: Action,
    state: State,
) -> Result<InstantName, AllocError>
    requires { IsStrictlySortedBy (slice_cmp nat_cmp) names.now }
    ensures { IfOk result (λ i. i ≡ instant_with names.now name.now action state) }
{
    let time = Text::from_str(alloc, time_of(name.as_str()))?;
    let completed = completed_name(alloc, action, &time)?;
    Ok(InstantName {
        name: name.copy(alloc)?,
        time,
        action,
        state,
        is_pending: is_missing(names, &completed),
    })
}

/// The instant that a name names, if it names one.
fn instant_named(
    alloc: Global,
    names: &[Text],
    name: &Text,
) -> Result<Option<InstantName>, AllocError>
    requires { IsStrictlySortedBy (slice_cmp nat_cmp) names.now }
    ensures { IfOk result (λ i. i ≡ instant_named names.now name.now) }
{
    match instant_of_name(name.as_bytes()) {
        Some((_, action, state)) => Ok(Some(instant_with(alloc, names, name, action, state)?)),
        None => Ok(None),
    }
}

fn with_instant(
    alloc: Global,
    instants: Items<InstantName>,
    names: &[Text],
    name: &Text,
) -> Result<Items<InstantName>, AllocError>
    requires { IsStrictlySortedBy (slice_cmp nat_cmp) names.now }
    ensures { IfOk result
        (λ found. found ≡ instants ++ option_to_list (instant_named names.now name.now)) }
{
    let mut found = instants;
    if let Some(instant) = instant_named(alloc, names, name)? {
        found.push(instant)?;
    }
    Ok(found)
}

/// The instants that these names name, which are in byte order.
pub(crate) fn instants_in(alloc: Global, names: &[Text]) -> Result<Items<InstantName>, AllocError>
    requires { IsStrictlySortedBy (slice_cmp nat_cmp) names.now }
    ensures { IfOk result (λ found. found ≡ instants_in names.now) }
{
    let mut found = Items::new(alloc);
    for name in names {
        found = with_instant(alloc, found, names, name)?;
    }
    Ok(found)
}

fn is_commit(action: Action) -> bool
    ensures { result ≡ is_commit action }
{
    matches!(action, Action::Commit | Action::ReplaceCommit)
}

fn is_second(alloc: Global, names: &[Text], instant: &InstantName) -> Result<bool, AllocError>
    requires { IsStrictlySortedBy (slice_cmp nat_cmp) names.now }
    ensures { IfOk result (λ b. b ≡ is_second names.now instant.now) }
{
    match instant.action {
        Action::ReplaceCommit => {
            let commit = file_name(alloc, &instant.time, "commit")?;
            Ok(has_name(names, &commit))
        }
        _ => Ok(false),
    }
}

/// The completed commit or replacecommit that a name is of, if it is of one.
fn completed_of(
    alloc: Global,
    names: &[Text],
    instant: &InstantName,
) -> Result<Option<CompletedInstant>, AllocError>
    requires { IsStrictlySortedBy (slice_cmp nat_cmp) names.now }
    ensures { IfOk result (λ c. c ≡ completed_of names.now instant.now) }
{
    if !is_commit(instant.action) || !is_done(instant.state) {
        return Ok(None);
    }
    let is_second = is_second(alloc, names, instant)?;
    Ok(Some(CompletedInstant {
        name: instant.name.copy(alloc)?,
        time: instant.time.copy(alloc)?,
        is_second,
    }))
}

fn is_done(state: State) -> bool
    ensures { result ≡ is_done state }
{
    matches!(state, State::Completed)
}

fn with_completed(
    alloc: Global,
    completed: Items<CompletedInstant>,
    names: &[Text],
    instant: &InstantName,
) -> Result<Items<CompletedInstant>, AllocError>
    requires { IsStrictlySortedBy (slice_cmp nat_cmp) names.now }
    ensures { IfOk result
        (λ found. found ≡ completed ++ option_to_list (completed_of names.now instant.now)) }
{
    let mut found = completed;
    if let Some(instant) = completed_of(alloc, names, instant)? {
        found.push(instant)?;
    }
    Ok(found)
}

/// The completed commits and replacecommits among these instants.
pub(crate) fn completed_in(
    alloc: Global,
    names: &[Text],
    instants: &[InstantName],
) -> Result<Items<CompletedInstant>, AllocError>
    requires { IsStrictlySortedBy (slice_cmp nat_cmp) names.now }
    ensures { IfOk result (λ found. found ≡ completed_in names.now instants.now) }
{
    let mut found = Items::new(alloc);
    for instant in instants {
        found = with_completed(alloc, found, names, instant)?;
    }
    Ok(found)
}

/// The time of the first instant that is pending.
pub(crate) fn first_pending(
    alloc: Global,
    instants: &[InstantName],
) -> Result<Option<Text>, AllocError>
    ensures { IfOk result (λ time. time ≡ first_pending instants.now) }
{
    match instants.iter().find(|instant| instant.is_pending) {
        Some(instant) => Ok(Some(instant.time.copy(alloc)?)),
        None => Ok(None),
    }
}

fn is_before(pending: &Option<Text>, instant: &CompletedInstant) -> bool
    ensures { result ≡ is_before pending.now instant.now }
{
    match pending {
        None => true,
        Some(pending) => instant.time < *pending,
    }
}

/// How many of the completed instants come before the first pending one.
pub(crate) fn count_before(pending: &Option<Text>, completed: &[CompletedInstant]) -> usize
    ensures { result ≡ prefix_len (is_before pending.now) completed.now }
{
    completed
        .iter()
        .take_while(|instant| is_before(pending, instant))
        .count()
}
