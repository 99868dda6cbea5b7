//! Going on with the metadata of a header that isn't whole, a map of bytes.

ghost use Rattle.std.specs.Prelude.{◌≡◌, IfSome};
ghost use Rattle.avro_value.specs.Reading.{GivesAlways, bytes_at, item_at, with_count};
ghost use Rattle.avro_feeding.specs.Resuming.{AtBlock, AtName, AtValue, IsResume, IsCutHeader, IsStep, fits as size_fits, pairs_of as pairs_from, stop_of};

use avro_value::fault::{Fault, FaultAt};
use avro_value::input::{BlockHead, Input};
use avro_value::{MAX_VALUES, item};

/// The bytes in front of a header's metadata.
const MAGIC_LEN: usize = 4;

/// The bytes of a marker.
const MARKER_LEN: usize = 16;

/// Where reading goes on: behind so many bytes, in front of that item. So many more values may be
/// made.
#[derive(Clone, Copy)]
pub(crate) struct Resume {
    pub(crate) place: usize,
    pub(crate) budget: usize,
    pub(crate) next: Next,
}

/// The item of the metadata that comes next.
#[derive(Clone, Copy)]
pub(crate) enum Next {
    /// What stands before a block's pairs, or the metadata's end.
    Block,
    /// A pair's name, or where there is none the block's end.
    Name(PairsLeft),
    /// A pair's value.
    Value(PairsLeft),
}

/// What is left of a block's pairs: so many names. The block may have a size.
#[derive(Clone, Copy)]
pub(crate) struct PairsLeft {
    pub(crate) names: u64,
    pub(crate) size: Option<Size>,
}

/// The byte size of a block's pairs, as it is spelled, and how many bytes stand before them.
#[derive(Clone, Copy)]
pub(crate) struct Size {
    pub(crate) spelled: u64,
    pub(crate) front: usize,
}

/// Why reading doesn't go on.
#[derive(Clone, Copy)]
pub(crate) enum Stop {
    /// The bytes end inside the next item, or in the marker.
    Cut,
    /// The header is whole, or it is at fault.
    Judged,
}

/// The pairs of a block that begin behind so many bytes.
fn pairs_of(place: usize, head: BlockHead) -> PairsLeft
    ensures { result ≡ pairs_from place head }
{
    let size = match head.size {
        None => None,
        Some(size) => Some(Size {
            spelled: size.spelled,
            front: place,
        }),
    };
    PairsLeft {
        names: head.count,
        size,
    }
}

/// Whether a block may end behind so many bytes.
fn fits(size: Option<Size>, end: usize) -> bool
    ensures { result ≡ size_fits size end }
{
    let Some(size) = size else {
        return true;
    };
    let taken = end.saturating_sub(size.front) as u64;
    size.spelled % 2 == 0 && size.spelled / 2 == taken
}

/// Why reading stops at an item that isn't there.
fn stop_at(fault: FaultAt) -> Stop
    ensures { result ≡ stop_of fault.fault }
{
    match fault.fault {
        Fault::Short => Stop::Cut,
        _ => Stop::Judged,
    }
}

/// Goes on behind the magic. None where the bytes don't begin with it.
fn begin(bytes: &[u8]) -> Option<Resume>
    ensures { IfSome result (IsResume bytes.now) }
{
    let Ok((front, _)) = item::run(MAGIC_LEN, bytes) else {
        return None;
    };
    if front != b"Obj\x01".as_slice() {
        return None;
    }
    Some(Resume {
        place: MAGIC_LEN,
        budget: MAX_VALUES - 1,
        next: Next::Block,
    })
}

/// Goes on behind what stands before a block's pairs.
fn block(bytes: &[u8], place: usize, budget: usize) -> Result<Resume, Stop>
    requires { AtBlock bytes.now place budget }
    ensures { IsStep bytes.now result }
{
    let mut input = Input {
        rest: &bytes[place..],
        budget,
    };
    match input.begin_block() {
        Ok(Some(head)) => {
            let place = bytes.len().saturating_sub(input.rest.len());
            Ok(Resume {
                place,
                budget: input.budget,
                next: Next::Name(pairs_of(place, head)),
            })
        }
        Ok(None) if input.rest.len() < MARKER_LEN => Err(Stop::Cut),
        Ok(None) => Err(Stop::Judged),
        Err(fault) => Err(stop_at(fault)),
    }
}

/// Goes on behind a pair's name, or in front of the next block, where no pair is left.
fn name(bytes: &[u8], place: usize, budget: usize, left: PairsLeft) -> Result<Resume, Stop>
    requires { AtName bytes.now place budget left }
    ensures { IsStep bytes.now result }
{
    if left.names == 0 {
        return block_end(bytes, place, budget, left);
    }
    let mut input = Input {
        rest: &bytes[place..],
        budget,
    };
    let item = item::text(input.rest);
    match input.take_text(item) {
        Ok(_) => Ok(Resume {
            place: bytes.len().saturating_sub(input.rest.len()),
            budget: input.budget,
            next: Next::Value(PairsLeft {
                names: left.names - 1,
                size: left.size,
            }),
        }),
        Err(fault) => Err(stop_at(fault)),
    }
}

/// Goes on in front of the next block.
fn block_end(bytes: &[u8], place: usize, budget: usize, left: PairsLeft) -> Result<Resume, Stop>
    requires at { AtName bytes.now place budget left }
    requires done { left.names ≡ 0 }
    ensures { IsStep bytes.now result }
{
    if !fits(left.size, place) {
        return Err(Stop::Judged);
    }
    Ok(Resume {
        place,
        budget,
        next: Next::Block,
    })
}

/// Takes a pair's value.
#[tactic(auto, unfolding(avro_value::specs::Reading::with_count))]
fn blob<'a>(input: &mut Input<'a>) -> Result<&'a [u8], FaultAt>
    ensures { GivesAlways (λ b. (b.now, input.new.rest.now, input.new.budget)) result
        (with_count (item_at bytes_at) input.old.rest.now input.old.budget) }
{
    if input.budget == 0 {
        return Err(input.fault(Fault::Limit));
    }
    input.budget -= 1;
    let item = item::bytes(input.rest);
    input.take_bytes(item)
}

/// Goes on behind a pair's value.
fn value(bytes: &[u8], place: usize, budget: usize, left: PairsLeft) -> Result<Resume, Stop>
    requires { AtValue bytes.now place budget left }
    ensures { IsStep bytes.now result }
{
    let mut input = Input {
        rest: &bytes[place..],
        budget,
    };
    match blob(&mut input) {
        Ok(_) => Ok(Resume {
            place: bytes.len().saturating_sub(input.rest.len()),
            budget: input.budget,
            next: Next::Name(left),
        }),
        Err(fault) => Err(stop_at(fault)),
    }
}

/// Goes on behind the next item.
fn step(bytes: &[u8], at: Resume) -> Result<Resume, Stop>
    requires { IsResume bytes.now at }
    ensures { IsStep bytes.now result }
{
    match at.next {
        Next::Block => block(bytes, at.place, at.budget),
        Next::Name(left) => name(bytes, at.place, at.budget, left),
        Next::Value(left) => value(bytes, at.place, at.budget, left),
    }
}

/// Goes on behind the items that are whole, where the bytes end inside the header. None where the
/// header is to be judged.
pub(crate) fn resumed(bytes: &[u8], from: Option<Resume>) -> Option<Resume>
    requires { IfSome from (IsResume bytes.now) }
    ensures { IfSome result (λ at. IsResume bytes.now at × IsCutHeader bytes.now) }
{
    let mut at = match from {
        Some(at) => at,
        None => begin(bytes)?,
    };
    for _ in 0..u64::MAX {
        match step(bytes, at) {
            Ok(next) => at = next,
            Err(Stop::Cut) => return Some(at),
            Err(Stop::Judged) => return None,
        }
    }
    None
}
