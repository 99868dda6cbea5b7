//! The lines of a properties text, and those that they continue.

ghost use Rattle.std.specs.Prelude.{◌≡◌, ◌==◌, ◌||◌, ◌+◌, ◌<◌, ◌≤◌, ◌%◌, ◌∷◌, ◌++◌, length, take_while, take, drop, not, slice_index, false, option_map, IfOk, OnOk, IfSome, option_to_list};
ghost use Rattle.hudi_properties.specs.Lines.{is_white, is_line_end, is_ordinary, natural_lines, lines_in, trimmed, is_comment, is_continued, escapes, ends_escaped, lines_after, extended, stepped, logical_from, logical_lines};

use lake_basics::Items;
use std::alloc::{AllocError, Global};

/// A line with those that continue it, without the backslashes between. It has the number of its first line.
#[derive(Drop)]
pub(crate) struct LogicalLine {
    pub(crate) number: u64,
    pub(crate) content: Items<u8>,
}

/// What one more line makes: a whole logical line, or one that goes on, or neither.
#[derive(Drop)]
struct LineStep {
    whole: Option<LogicalLine>,
    front: Option<LogicalLine>,
}

pub(crate) fn is_white(byte: u8) -> bool
    ensures { result ≡ is_white byte }
{
    byte == b' ' || byte == b'\t' || byte == 12
}

fn is_line_end(byte: u8) -> bool
    ensures { result ≡ is_line_end byte }
{
    byte == b'\n' || byte == b'\r'
}

/// The bytes behind the white space at the start.
pub(crate) fn trimmed(bytes: &[u8]) -> &[u8]
    ensures { result.now ≡ trimmed bytes.now }
{
    bytes.split_at(white_len(bytes)).1
}

fn white_len(bytes: &[u8]) -> usize
    ensures len { result ≡ length (take_while is_white bytes.now) }
    ensures within { result ≤ length bytes.now }
{
    bytes.iter().take_while(|b| is_white(**b)).count()
}

fn line_len(bytes: &[u8]) -> usize
    ensures len { result ≡ length (take_while is_ordinary bytes.now) }
    ensures within { result ≤ length bytes.now }
{
    bytes.iter().take_while(|b| !is_line_end(**b)).count()
}

/// The first line, and what stands behind its end.
#[tactic(auto, unfolding(crate::specs::Lines::natural_lines))]
fn next_line(bytes: &[u8]) -> (&[u8], Option<&[u8]>)
    ensures split { natural_lines bytes.now ≡ result.0.now ∷ lines_in (option_map (λ s. s.now) result.1) }
    ensures shorter { IfSome result.1 (λ s. length s.now < length bytes.now) }
{
    let (line, ending) = bytes.split_at(line_len(bytes));
    if ending.is_empty() {
        return (bytes, None);
    }
    let (_, behind) = ending.split_at(ending_len(ending));
    (line, Some(behind))
}

/// The length of the line end at the start.
#[tactic(auto, unfolding(crate::specs::Lines::natural_lines))]
fn ending_len(ending: &[u8]) -> usize
    requires { 0 < length ending.now }
    ensures lines { lines_after (slice_index ending.now 0 == 13) (drop 1 ending.now) ≡ natural_lines (drop result ending.now) }
    ensures some { 0 < result }
    ensures within { result ≤ length ending.now }
{
    if ending.len() > 1 && ending[0] == b'\r' && ending[1] == b'\n' {
        2
    } else {
        1
    }
}

fn is_comment(line: &[u8]) -> bool
    ensures { result ≡ is_comment line.now }
{
    matches!(line, [b'#' | b'!', ..])
}

/// Whether a byte escapes the next one.
pub(crate) fn escapes(is_escaped: bool, byte: u8) -> bool
    ensures { result ≡ escapes is_escaped byte }
{
    !is_escaped && byte == b'\\'
}

fn is_continued(line: &[u8]) -> bool
    ensures { result ≡ is_continued line.now }
{
    let mut is_escaped = false;
    for byte in line {
        is_escaped = escapes(is_escaped, *byte);
    }
    is_escaped
}

/// The line with this one behind it, or nothing where it is a comment.
fn with_line(
    alloc: Global,
    front: Option<LogicalLine>,
    number: u64,
    line: &[u8],
) -> Result<LineStep, AllocError>
    ensures { IfOk result (λ s. s ≡ stepped number front line.now) }
{
    let line = trimmed(line);
    match front {
        Some(front) => extended(front, line),
        None => {
            if is_comment(line) {
                return Ok(LineStep {
                    whole: None,
                    front: None,
                });
            }
            let front = LogicalLine {
                number,
                content: Items::new(alloc),
            };
            extended(front, line)
        }
    }
}

fn extended(front: LogicalLine, line: &[u8]) -> Result<LineStep, AllocError>
    ensures { IfOk result (λ s. s ≡ extended front line.now) }
{
    let LogicalLine { number, content } = front;
    let mut content = content.into_vec();
    if is_continued(line) {
        content.extend_from_slice(&line[..line.len() - 1])?;
        return Ok(LineStep {
            whole: None,
            front: Some(LogicalLine {
                number,
                content: Items::from_vec(content),
            }),
        });
    }
    content.extend_from_slice(line)?;
    Ok(LineStep {
        whole: Some(LogicalLine {
            number,
            content: Items::from_vec(content),
        }),
        front: None,
    })
}

/// The logical lines of the bytes.
#[tactic(auto, unfolding(crate::specs::Lines::logical_lines))]
pub(crate) fn logical_lines(alloc: Global, bytes: &[u8]) -> Result<Vec<LogicalLine>, AllocError>
    ensures { IfOk result (λ v. v.items ≡ logical_lines bytes.now) }
{
    let mut lines = Vec::new(alloc);
    let mut front = None;
    let mut rest = Some(bytes);
    let mut number = 0u64;
    'lines: while let Some(bytes) = rest {
        let (line, behind) = next_line(bytes);
        number += 1;
        let step = with_line(alloc, front, number, line)?;
        push_if_any(&mut lines, step.whole)?;
        front = step.front;
        rest = behind;
    }
    push_if_any(&mut lines, front)?;
    Ok(lines)
}

fn push_if_any(lines: &mut Vec<LogicalLine>, line: Option<LogicalLine>) -> Result<(), AllocError>
    ensures { OnOk result (lines.new.items ≡ lines.old.items ++ option_to_list line) }
{
    if let Some(line) = line {
        lines.push(line)?;
    }
    Ok(())
}
