//! Where the URI of a file leads.

ghost use Rattle.std.specs.Prelude.{IfOk};
ghost use Rattle.lake_basics.specs.Outcome.{Gives};
ghost use Rattle.partition_map.specs.UriPath.{uri_path};
ghost use Rattle.delta_log.specs.Judging.{place, IsSoundPlace};

use crate::error::{Fault, MALFORMED};
use lake_basics::{ReadError, Text};
use partition_map::{PartError, decode_uri_path};
use std::alloc::Global;

/// A path in the table's folder, one that is too long alone, or a place outside of the folder.
#[derive(Drop)]
pub(crate) enum Place {
    Inside(Text),
    TooLong,
    Outside,
}

/// The place that a URI leads to. A URI that leads nowhere is malformed.
pub(crate) fn place_of(alloc: Global, uri: &str) -> Result<Place, ReadError<Fault>>
    ensures place { Gives (λ p. p) result (place (uri_path uri.now)) }
    ensures sound { IfOk result IsSoundPlace }
{
    match decode_uri_path(alloc, uri) {
        Ok(path) => Ok(Place::Inside(path)),
        Err(PartError::TooLong) => Ok(Place::TooLong),
        Err(PartError::OutsideTable) => Ok(Place::Outside),
        Err(PartError::BadPath) => Err(MALFORMED),
        Err(PartError::Memory) => Err(ReadError::Memory),
        Err(PartError::BadValue | PartError::ValueForm) => unreachable!(),
    }
}
