//! What a line adds to a commit.

ghost use Rattle.std.specs.Prelude.{◌≡◌, IfOk, IfSome};
ghost use Rattle.lake_basics.specs.Outcome.{Gives, with_fault};
ghost use Rattle.delta_log.specs.Adding.{IsSoundAddition, with_addition};
ghost use Rattle.delta_log.specs.Grammar.{line_action};
ghost use Rattle.delta_log.specs.Judging.{path_within, with_file, with_add, with_remove, with_action, judged, with_line, IsSoundPlace};
ghost use Rattle.delta_log.specs.Sound.{HaveDistinctNames, HasNeededFeatures, IsCount, IsSoundFile, IsSoundAction};
ghost use Rattle.table_history.specs.Path.{IsPath};

use crate::action::LineAction;
use crate::commit::{FileAction, MetaData, Protocol};
use crate::error::{Fault, LineFault, MALFORMED};
use crate::line::line_action_of;
use crate::place::{Place, place_of};
use crate::reading::Reading;
use crate::space::LineSpace;
use lake_basics::{Items, ReadError, Text};
use std::alloc::Global;
use table_history::{Feature, LimitKind};

/// What a line adds to the commit before it.
#[derive(Drop)]
pub(crate) enum Addition {
    Nothing,
    Protocol(Protocol),
    MetaData(MetaData),
    File(FileAction),
}

fn unsupported(feature: Feature) -> ReadError<Fault>
    ensures { result ≡ ReadError.Fault (Fault.Unsupported feature) }
{
    ReadError::Fault(Fault::Unsupported(feature))
}

fn limit(which: LimitKind) -> ReadError<Fault>
    ensures { result ≡ ReadError.Fault (Fault.Limit which) }
{
    ReadError::Fault(Fault::Limit(which))
}

fn path_within(place: Place) -> Result<Text, ReadError<Fault>>
    requires { IsSoundPlace place }
    ensures path { Gives (λ p. p) result (path_within place) }
    ensures sound { IfOk result IsPath }
{
    match place {
        Place::Inside(path) => Ok(path),
        Place::TooLong => Err(limit(LimitKind::Path)),
        Place::Outside => Err(unsupported(Feature::OutsideTable)),
    }
}

fn judged_protocol(commit: &Reading, protocol: Protocol) -> Result<Addition, ReadError<Fault>>
    requires { HasNeededFeatures protocol }
    ensures read { Gives (with_addition commit.now) result
        (with_action commit.now (LineAction.Protocol protocol)) }
    ensures sound { IfOk result (IsSoundAddition commit.now) }
{
    if commit.has_protocol() {
        return Err(MALFORMED);
    }
    Ok(Addition::Protocol(protocol))
}

fn judged_meta_data(
    commit: &Reading,
    meta: MetaData,
    is_parquet: bool,
) -> Result<Addition, ReadError<Fault>>
    requires { HaveDistinctNames meta.configuration }
    ensures read { Gives (with_addition commit.now) result
        (with_action commit.now (LineAction.MetaData meta is_parquet)) }
    ensures sound { IfOk result (IsSoundAddition commit.now) }
{
    if commit.has_meta_data() {
        return Err(MALFORMED);
    }
    if !is_parquet {
        return Err(unsupported(Feature::FileFormat));
    }
    Ok(Addition::MetaData(meta))
}

fn judged_file(commit: &Reading, file: FileAction) -> Result<Addition, ReadError<Fault>>
    requires { IsSoundFile file }
    ensures read { Gives (with_addition commit.now) result (with_file commit.now file) }
    ensures sound { IfOk result (IsSoundAddition commit.now) }
{
    if commit.is_full() {
        return Err(limit(LimitKind::Actions));
    }
    if commit.has_path(file.path().as_str()) {
        return Err(ReadError::Fault(Fault::DoublePath));
    }
    Ok(Addition::File(file))
}

fn judged_add(
    commit: &Reading,
    place: Place,
    values: Items<(Text, Option<Text>)>,
    size: u64,
    count: Option<u64>,
    has_deletion_vector: bool,
) -> Result<Addition, ReadError<Fault>>
    requires place { IsSoundPlace place }
    requires names { HaveDistinctNames values }
    requires size { IsCount size }
    requires count { IfSome count IsCount }
    ensures read { Gives (with_addition commit.now) result
        (with_add commit.now place values size count has_deletion_vector) }
    ensures sound { IfOk result (IsSoundAddition commit.now) }
{
    if has_deletion_vector {
        return Err(unsupported(Feature::DeletionVector));
    }
    if matches!(place, Place::Outside) {
        return Err(unsupported(Feature::OutsideTable));
    }
    let Some(count) = count else {
        return Err(unsupported(Feature::NoRecordCount));
    };
    let path = path_within(place)?;
    let file = FileAction::Add {
        path,
        values,
        size,
        count,
    };
    judged_file(commit, file)
}

fn judged_remove(
    commit: &Reading,
    place: Place,
    has_deletion_vector: bool,
) -> Result<Addition, ReadError<Fault>>
    requires { IsSoundPlace place }
    ensures read { Gives (with_addition commit.now) result
        (with_remove commit.now place has_deletion_vector) }
    ensures sound { IfOk result (IsSoundAddition commit.now) }
{
    if has_deletion_vector {
        return Err(unsupported(Feature::DeletionVector));
    }
    let path = path_within(place)?;
    judged_file(commit, FileAction::Remove { path })
}

fn judged_action(
    alloc: Global,
    commit: &Reading,
    action: LineAction,
) -> Result<Addition, ReadError<Fault>>
    requires { IsSoundAction action }
    ensures read { Gives (with_addition commit.now) result (with_action commit.now action) }
    ensures sound { IfOk result (IsSoundAddition commit.now) }
{
    match action {
        LineAction::NoAction => Ok(Addition::Nothing),
        LineAction::Protocol(protocol) => judged_protocol(commit, protocol),
        LineAction::MetaData { meta, is_parquet } => judged_meta_data(commit, meta, is_parquet),
        LineAction::Add {
            uri,
            values,
            size,
            count,
            has_deletion_vector,
        } => {
            let place = place_of(alloc, uri.as_str())?;
            judged_add(commit, place, values, size, count, has_deletion_vector)
        }
        LineAction::Remove {
            uri,
            has_deletion_vector,
        } => {
            let place = place_of(alloc, uri.as_str())?;
            judged_remove(commit, place, has_deletion_vector)
        }
    }
}

/// The action of a line, by the fault that it is told of among other lines.
fn action_of(
    alloc: Global,
    space: &mut LineSpace,
    line: &[u8],
) -> Result<LineAction, ReadError<Fault>>
    ensures read { Gives (λ a. a) result (with_fault judged (line_action line.now)) }
    ensures sound { IfOk result IsSoundAction }
{
    match line_action_of(alloc, space, line) {
        Ok(action) => Ok(action),
        Err(ReadError::Memory) => Err(ReadError::Memory),
        Err(ReadError::Fault(LineFault::Malformed)) => Err(MALFORMED),
    }
}

/// What one more line adds to the commit, or what is wrong with it behind the others.
#[tactic(auto, unfolding(crate::specs::Judging::with_line))]
pub(crate) fn judged_line(
    alloc: Global,
    space: &mut LineSpace,
    commit: &Reading,
    line: &[u8],
) -> Result<Addition, ReadError<Fault>>
    ensures read { Gives (with_addition commit.now) result (with_line commit.now line.now) }
    ensures sound { IfOk result (IsSoundAddition commit.now) }
{
    let action = action_of(alloc, space, line)?;
    judged_action(alloc, commit, action)
}
