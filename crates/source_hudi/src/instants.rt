//! Which instants a table is read from.

ghost use Rattle.std.specs.Prelude.{◌≡◌, ◌≢◌, ◌⊎◌, ◌≤◌, find, length, take};
ghost use Rattle.std.specs.List.{prefix_len};
ghost use Rattle.std.specs.Option.{option_copied};
ghost use Rattle.hudi_table.specs.Instants.{path_of};
ghost use Rattle.source_core.specs.declared.error.SourceError.TheVariants.{Memory, StoreFault, Unsupported};
ghost use Rattle.source_hudi.specs.Instants.{feature_of, is_read, is_unread, is_up_to};
ghost use Rattle.source_hudi.specs.Since.{is_unread_after};

use hudi_names::Action;
use hudi_table::{CompletedInstant, InstantName, timeline_path};
use lake_basics::Text;
use source_core::SourceError;
use std::alloc::Global;
use table_history::Feature;

fn is_read(action: Action) -> bool
    ensures { result ≡ is_read action }
{
    matches!(
        action,
        Action::Commit | Action::ReplaceCommit | Action::Ignored
    )
}

/// What an instant of an action that isn't read shows.
fn feature_of(action: Action) -> Feature
    ensures { result ≡ feature_of action }
{
    match action {
        Action::MergeOnRead => Feature::MergeOnRead,
        Action::Restore => Feature::Restore,
        _ => Feature::UnknownAction,
    }
}

fn is_unread(head: &Text, instant: &InstantName) -> bool
    ensures { result ≡ is_unread head.now instant.now }
{
    instant.time <= *head && !is_read(instant.action)
}

/// The first of the instants up to the head whose action isn't read.
pub(crate) fn first_unread<'a>(instants: &'a [InstantName], head: &Text) -> Option<&'a InstantName>
    ensures { option_copied result ≡ find (is_unread head.now) instants.now }
{
    instants.iter().find(|instant| is_unread(head, instant))
}

fn is_unread_after(head: &Text, position: &Text, instant: &InstantName) -> bool
    ensures { result ≡ is_unread_after head.now position.now instant.now }
{
    *position < instant.time && is_unread(head, instant)
}

/// The first of the instants after the position up to the head whose action isn't read.
pub(crate) fn first_unread_after<'a>(
    instants: &'a [InstantName],
    head: &Text,
    position: &Text,
) -> Option<&'a InstantName>
    ensures { option_copied result ≡ find (is_unread_after head.now position.now) instants.now }
{
    instants
        .iter()
        .find(|instant| is_unread_after(head, position, instant))
}

/// What is told of it.
pub(crate) fn unread(alloc: Global, instant: &InstantName) -> SourceError
    ensures told { (result ≡ Memory)
        ⊎ (result ≡ Unsupported (feature_of instant.now.action) (path_of instant.now.name)) }
    ensures fault { result ≢ StoreFault }
{
    match timeline_path(alloc, instant.name.as_str()) {
        Ok(path) => SourceError::Unsupported {
            feature: feature_of(instant.action),
            path,
        },
        Err(_) => SourceError::Memory,
    }
}

fn is_up_to(head: &Text, instant: &CompletedInstant) -> bool
    ensures { result ≡ is_up_to head.now instant.now.time }
{
    instant.time <= *head
}

/// How many of the completed instants, of which the oldest comes first, aren't later than this time.
pub(crate) fn count_up_to(completed: &[CompletedInstant], time: &Text) -> usize
    ensures count { result ≡ prefix_len (λ c. is_up_to time.now c.time) completed.now }
    ensures within { result ≤ length completed.now }
{
    completed
        .iter()
        .take_while(|instant| is_up_to(time, instant))
        .count()
}

/// The completed instants up to the head, of which the oldest comes first.
pub(crate) fn up_to<'a>(completed: &'a [CompletedInstant], head: &Text) -> &'a [CompletedInstant]
    ensures { result.now
        ≡ take (prefix_len (λ c. is_up_to head.now c.time) completed.now) completed.now }
{
    &completed[..count_up_to(completed, head)]
}
