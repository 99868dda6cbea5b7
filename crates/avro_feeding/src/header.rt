//! Reading the header.

ghost use Rattle.std.specs.Prelude.{◌≡◌, Ok, []};
ghost use Rattle.lake_basics.specs.Outcome.{Gives};
ghost use Rattle.avro_schema.specs.Tree.{tree_of};
ghost use Rattle.avro_feeding.specs.Feeding.{in_header};
ghost use Rattle.avro_feeding.specs.Views.{IsFedBy, IsJudged, IsOpened, IsReadHeader, IsReadOn, behind_opened, named_at, summed};

use crate::blocks::{BlocksSoFar, refusal};
use crate::metadata::{Resume, resumed};
use crate::place::{Fed, Place, Refused, out_of_memory};
use avro_container::ContainerError;
use avro_container::fault::ContainerFault;
use avro_container::header::{Header, codec, read_header, schema};
use avro_value::{MAX_VALUES, Schema};
use lake_basics::{Blob, ReadError};
use std::alloc::Global;
use std::marker::Model;

/// All bytes so far, which don't end the header, and where reading goes on in them, where it is known.
#[derive(Drop)]
pub(crate) struct HeaderSoFar {
    kept: Blob,
    resume: Option<Resume>,
}

impl Model for HeaderSoFar {
    ghost use Rattle.std.specs.Prelude.{ℕ, List, IfSome};
    ghost use Rattle.avro_feeding.specs.Resuming.{IsResume};

    ghost Value = { List ℕ };

    ghost view = { λ h. h.kept };

    ghost invariant = { λ h. IfSome h.resume (IsResume h.kept) };
}

/// A whole header, and the schema that it names.
#[derive(Drop)]
struct Named<'a> {
    header: Header<'a>,
    schema: Schema,
}

/// What is taken of a header: its schema, its marker, and how many bytes stand behind it.
#[derive(Drop)]
struct Opened {
    schema: Schema,
    marker: Blob,
    left: usize,
}

#[tactic(auto, unfolding(crate::specs::Views::named_at))]
fn read_named(alloc: Global, bytes: &[u8]) -> Result<Named<'_>, ReadError<ContainerFault>>
    ensures { Gives (λ n. (
      (n.header.meta.items, n.header.marker.now, n.header.blocks.now),
      tree_of n.schema,
    )) result (named_at bytes.now) }
{
    let header = read_header(alloc, bytes)?;
    let schema = schema(alloc, bytes.len(), &header.meta)?;
    Ok(Named { header, schema })
}

/// Judges the codec of a header.
fn judged(alloc: Global, named: Named<'_>) -> Result<Opened, Refused>
    ensures { IsJudged named.entry result }
{
    let Named { header, schema } = named;
    if codec(&header.meta).is_err() {
        return Err(Refused {
            error: ContainerError::Codec,
            schema: Some(schema),
        });
    }
    match Blob::from_slice(alloc, header.marker) {
        Ok(marker) => Ok(Opened {
            schema,
            marker,
            left: header.blocks.len(),
        }),
        Err(_) => Err(Refused {
            error: ContainerError::Memory,
            schema: Some(schema),
        }),
    }
}

/// Reads the header of these bytes. There is none yet where they end too early.
fn open(alloc: Global, bytes: &[u8]) -> Result<Option<Opened>, Refused>
    ensures { IsOpened bytes.now result }
{
    match read_named(alloc, bytes) {
        Ok(named) => match judged(alloc, named) {
            Ok(opened) => Ok(Some(opened)),
            Err(refused) => Err(refused),
        },
        Err(ReadError::Memory) => Err(Refused {
            error: ContainerError::Memory,
            schema: None,
        }),
        Err(ReadError::Fault(fault)) => match refusal(0, bytes.len(), fault) {
            None => Ok(None),
            Some(error) => Err(Refused {
                error,
                schema: None,
            }),
        },
    }
}

/// Reads the whole blocks behind a header, and drops it with them.
fn read_behind(alloc: Global, bytes: Vec<u8>, opened: Opened) -> Fed
    ensures { IsReadOn (behind_opened bytes.items opened) (summed result) }
{
    let Opened {
        schema,
        marker,
        left,
    } = opened;
    let front = bytes.len().saturating_sub(left);
    BlocksSoFar {
        schema,
        marker,
        offset: 0,
        rest: Blob::from_vec(bytes),
        budget: MAX_VALUES,
    }
    .read_behind(alloc, front)
}

/// Reads the header and the whole blocks behind it.
fn read(alloc: Global, bytes: Vec<u8>) -> Fed
    ensures { IsReadHeader bytes.items (summed result) }
{
    match open(alloc, bytes.as_slice()) {
        Ok(None) => Fed {
            state: Ok(Place::Header(HeaderSoFar {
                kept: Blob::from_vec(bytes),
                resume: None,
            })),
            found: None,
        },
        Ok(Some(opened)) => read_behind(alloc, bytes, opened),
        Err(refused) => Fed {
            state: Err(refused),
            found: None,
        },
    }
}

impl HeaderSoFar {
    pub(crate) fn new(alloc: Global) -> HeaderSoFar
        ensures { result ≡ [] }
    {
        HeaderSoFar {
            kept: Blob::new(alloc),
            resume: None,
        }
    }

    /// What a piece more makes of it. Items of the metadata that are whole aren't read again until
    /// the header is whole or at fault.
    pub(crate) fn fed(self, alloc: Global, piece: &[u8]) -> Fed
        ensures { IsFedBy (Ok (in_header self)) piece.now (summed result) }
    {
        let HeaderSoFar { kept, resume } = self;
        let mut bytes = kept.into_vec();
        if bytes.extend_from_slice(piece).is_err() {
            return out_of_memory(None);
        }
        match resumed(bytes.as_slice(), resume) {
            None => read(alloc, bytes),
            Some(at) => Fed {
                state: Ok(Place::Header(HeaderSoFar {
                    kept: Blob::from_vec(bytes),
                    resume: Some(at),
                })),
                found: None,
            },
        }
    }
}
