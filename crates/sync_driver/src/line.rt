//! The lines that commands print.
ghost use Rattle.std.specs.Prelude.{◌≡◌, ◌++◌, IfOk, Some, codes, string_bytes};
ghost use Rattle.std.specs.Fmt.{decimal};
ghost use Rattle.table_history.specs.Words.{kind_word, feature_word, limit_word};
ghost use Rattle.table_lines.specs.Lines.{line};
ghost use Rattle.sync_driver.specs.Lines.{side_word, position_word, path_part, compacted_line, pending_line, refusal_line, removed_line, report_line, same_line, swept_line, way_word};

use crate::checking::Same;
use delta_compact::Compacted;
use lake_store::Text;
use std::alloc::{AllocError, Global};
use table_history::{Feature, Kind, LimitKind};
use table_lines::line_of_text;
use target_sync::{Report, Side, Status};

fn word_of_side(side: Side) -> &'static str
    ensures { result.now ≡ side_word side }
{
    match side {
        Side::Source => "source",
        Side::Target(kind) => kind.word(),
    }
}

fn word_of_position(at: &Option<Text>) -> &str
    ensures { result.now ≡ position_word at.now }
{
    match at {
        Some(at) => at.as_str(),
        None => "none",
    }
}

fn part_of_path(alloc: Global, path: &Text) -> Result<String, AllocError>
    ensures { IfOk result (λ part. string_bytes part ≡ path_part path.now) }
{
    let path = path.as_str();
    if path.is_empty() {
        return Ok(String::new(alloc));
    }
    format!(in alloc; " {path}")
}

fn unsupported_line(
    alloc: Global,
    side: Side,
    feature: Feature,
    path: &Text,
) -> Result<Vec<u8>, AllocError>
    ensures { IfOk result (λ bytes. bytes.items ≡ line (side_word side ++ (codes ": status 5: Unsupported " ++ (feature_word feature ++ path_part path.now)))) }
{
    let side = word_of_side(side);
    let feature = feature.word();
    let path = part_of_path(alloc, path)?;
    let text = format!(in alloc; "{side}: status 5: Unsupported {feature}{path}")?;
    line_of_text(alloc, text.as_str())
}

fn limit_line(
    alloc: Global,
    side: Side,
    which: LimitKind,
    number: u64,
) -> Result<Vec<u8>, AllocError>
    ensures { IfOk result (λ bytes. bytes.items ≡ line (side_word side ++ (codes ": status 6: Limit " ++ (limit_word which ++ (codes " " ++ decimal number))))) }
{
    let side = word_of_side(side);
    let which = which.word();
    let text = format!(in alloc; "{side}: status 6: Limit {which} {number}")?;
    line_of_text(alloc, text.as_str())
}

fn malformed_line(alloc: Global, path: &Text) -> Result<Vec<u8>, AllocError>
    ensures { IfOk result (λ bytes. bytes.items ≡ line (codes "source: status 4: Malformed " ++ path.now)) }
{
    let path = path.as_str();
    let text = format!(in alloc; "source: status 4: Malformed {path}")?;
    line_of_text(alloc, text.as_str())
}

fn foreign_line(alloc: Global, target: Kind, path: &Text) -> Result<Vec<u8>, AllocError>
    ensures { IfOk result (λ bytes. bytes.items ≡ line (kind_word target ++ (codes ": status 7: Foreign " ++ path.now))) }
{
    let target = target.word();
    let path = path.as_str();
    let text = format!(in alloc; "{target}: status 7: Foreign {path}")?;
    line_of_text(alloc, text.as_str())
}

fn contested_line(alloc: Global, target: Kind) -> Result<Vec<u8>, AllocError>
    ensures { IfOk result (λ bytes. bytes.items ≡ line (kind_word target ++ codes ": status 8: Contested")) }
{
    let target = target.word();
    let text = format!(in alloc; "{target}: status 8: Contested")?;
    line_of_text(alloc, text.as_str())
}

fn behind_line(
    alloc: Global,
    target: Kind,
    at: &Option<Text>,
    head: &Text,
) -> Result<Vec<u8>, AllocError>
    ensures { IfOk result (λ bytes. bytes.items ≡ line (kind_word target ++ (codes ": status 11: Behind " ++ (position_word at.now ++ (codes " of " ++ head.now))))) }
{
    let target = target.word();
    let at = word_of_position(at);
    let head = head.as_str();
    let text = format!(in alloc; "{target}: status 11: Behind {at} of {head}")?;
    line_of_text(alloc, text.as_str())
}

fn differs_line(alloc: Global, target: Kind, path: &Text) -> Result<Vec<u8>, AllocError>
    ensures { IfOk result (λ bytes. bytes.items ≡ line (kind_word target ++ (codes ": status 12: Differs " ++ path.now))) }
{
    let target = target.word();
    let path = path.as_str();
    let text = format!(in alloc; "{target}: status 12: Differs {path}")?;
    line_of_text(alloc, text.as_str())
}

fn stale_line(alloc: Global, path: &Text) -> Result<Vec<u8>, AllocError>
    ensures { IfOk result (λ bytes. bytes.items ≡ line (codes "delta: status 14: Stale " ++ path.now)) }
{
    let path = path.as_str();
    let text = format!(in alloc; "delta: status 14: Stale {path}")?;
    line_of_text(alloc, text.as_str())
}

/// The line of a command that ends so, where it isn't done. Want of memory and a fault of the output have none.
pub(crate) fn line_of_refusal(alloc: Global, status: &Status) -> Result<Vec<u8>, AllocError>
    ensures { IfOk result (λ bytes. bytes.items ≡ refusal_line status.now) }
{
    match status {
        Status::Done => Ok(Vec::new(alloc)),
        Status::Memory => Ok(Vec::new(alloc)),
        Status::SinkFault => Ok(Vec::new(alloc)),
        Status::Usage => line_of_text(alloc, "status 2: Usage"),
        Status::Absent => line_of_text(alloc, "source: status 3: Absent"),
        Status::Malformed { path } => malformed_line(alloc, path),
        Status::Unsupported {
            side,
            feature,
            path,
        } => unsupported_line(alloc, *side, *feature, path),
        Status::Limit {
            side,
            which,
            number,
        } => limit_line(alloc, *side, *which, *number),
        Status::Foreign { target, path } => foreign_line(alloc, *target, path),
        Status::Contested { target } => contested_line(alloc, *target),
        Status::StoreFault => line_of_text(alloc, "status 9: StoreFault"),
        Status::Behind { target, at, head } => behind_line(alloc, *target, at, head),
        Status::Differs { target, path } => differs_line(alloc, *target, path),
        Status::Stale { path } => stale_line(alloc, path),
    }
}

/// The line of a commit that is pending behind the source's head.
pub(crate) fn pending_line(alloc: Global, instant: &Text) -> Result<Vec<u8>, AllocError>
    ensures { IfOk result (λ bytes. bytes.items ≡ pending_line (Some instant.now)) }
{
    let instant = instant.as_str();
    let text = format!(in alloc; "source pending {instant}")?;
    line_of_text(alloc, text.as_str())
}

fn word_of_way(full: bool) -> &'static str
    ensures { result.now ≡ way_word full }
{
    if full { "full" } else { "incremental" }
}

/// The line of a target that is done.
pub(crate) fn report_line(
    alloc: Global,
    target: Kind,
    report: &Report,
) -> Result<Vec<u8>, AllocError>
    ensures { IfOk result (λ bytes. bytes.items ≡ report_line target report.now) }
{
    let target = target.word();
    let way = word_of_way(report.full);
    let published = report.published;
    let files = report.files;
    let at = report.at.as_str();
    let text = format!(in alloc; "{target}: {way}, published {published}, files {files}, at {at}")?;
    line_of_text(alloc, text.as_str())
}

/// The line of a target that has the source's rows.
pub(crate) fn same_line(alloc: Global, target: Kind, same: &Same) -> Result<Vec<u8>, AllocError>
    ensures { IfOk result (λ bytes. bytes.items ≡ same_line target same.now) }
{
    let target = target.word();
    let files = same.files;
    let at = same.at.as_str();
    let text = format!(in alloc; "{target}: same, files {files}, at {at}")?;
    line_of_text(alloc, text.as_str())
}

/// The line of a leftover that is removed.
pub(crate) fn removed_line(alloc: Global, target: Kind, path: &Text) -> Result<Vec<u8>, AllocError>
    ensures { IfOk result (λ bytes. bytes.items ≡ removed_line target path.now) }
{
    let target = target.word();
    let path = path.as_str();
    let text = format!(in alloc; "{target}: removed {path}")?;
    line_of_text(alloc, text.as_str())
}

/// The line of a target that is swept, of which so many leftovers are removed.
pub(crate) fn swept_line(alloc: Global, target: Kind, count: usize) -> Result<Vec<u8>, AllocError>
    ensures { IfOk result (λ bytes. bytes.items ≡ swept_line target count) }
{
    let target = target.word();
    let text = format!(in alloc; "{target}: swept {count}")?;
    line_of_text(alloc, text.as_str())
}

/// The line of a Delta log that is compacted.
pub(crate) fn compacted_line(alloc: Global, compacted: Compacted) -> Result<Vec<u8>, AllocError>
    ensures { IfOk result (λ bytes. bytes.items ≡ compacted_line compacted) }
{
    let written = compacted.written;
    let kept = compacted.kept;
    let files = compacted.files;
    let head = compacted.head;
    let text = format!(in alloc;
        "delta: compacted {written}, kept {kept}, files {files}, at {head}"
    )?;
    line_of_text(alloc, text.as_str())
}
