//! A container that is read as its bytes come.

ghost use Rattle.std.specs.Prelude.{◌≡◌, ℕ, ◌-◌, ◌^◌, ◌<◌, List, length, Err, IfErr, IfOk, option_map};
ghost use Rattle.std.specs.List.{concat};
ghost use Rattle.avro_schema.specs.Tree.{tree_of};
ghost use Rattle.avro_feeding.specs.Feeding.{answer_by, ended, fed_all, nothing_read, schema_of_state};
ghost use Rattle.avro_feeding.specs.Laws.{AnyCut, IsWholeReading, Keeps, RefusesNext};
ghost use Rattle.avro_feeding.specs.Calls.{IsFed, has_read, state_of, trees_told};
ghost use Rattle.avro_feeding.specs.Views.{IsFedBy, summed, trees_found};

use crate::header::HeaderSoFar;
use crate::place::{Fed, Place, Refused};
use avro_container::{ContainerError, Values};
use avro_value::{Schema, Value};
use lake_basics::Items;
use std::alloc::Global;
use std::mem;

/// A container (Apache Avro specification, "Object Container Files") whose bytes come in pieces, cut
/// anywhere. Contracts see by `has_read` what it has read, or the refusal that it answered. Until the
/// header is whole it keeps all bytes, and then those behind the last whole block alone.
#[derive(Drop)]
pub struct Feeder {
    alloc: Global,
    state: Result<Place, Refused>,
}

fn fed_by(state: Result<Place, Refused>, alloc: Global, piece: &[u8]) -> Fed
    ensures fed { IsFedBy (state_of state) piece.now (summed result) }
    ensures refused { IfErr state (λ e. result.state ≡ Err e) }
{
    match state {
        Ok(Place::Header(header)) => header.fed(alloc, piece),
        Ok(Place::Blocks(blocks)) => blocks.fed(alloc, piece),
        Err(refused) => Fed {
            state: Err(refused),
            found: None,
        },
    }
}

/// What a call answers that leaves this.
fn told(
    alloc: Global,
    state: &Result<Place, Refused>,
    found: Option<Vec<Value>>,
) -> Result<Values, ContainerError>
    ensures { trees_told result ≡ answer_by (state_of state.now) (trees_found found) }
{
    match found {
        Some(values) => Ok(Items::from_vec(values)),
        None => match state {
            Ok(_) => Ok(Items::new(alloc)),
            Err(refused) => Err(refused.error),
        },
    }
}

fn ended_by(state: Result<Place, Refused>) -> Result<(), ContainerError>
    ensures { result ≡ ended (state_of state) }
{
    match state {
        Ok(Place::Header(_)) => Err(ContainerError::Short { at: 0 }),
        Ok(Place::Blocks(blocks)) => blocks.ended(),
        Err(refused) => Err(refused.error),
    }
}

impl Feeder {
    /// A feeder that has read nothing. It takes no memory yet.
    pub fn new(alloc: Global) -> Feeder
        ensures { has_read result ≡ nothing_read }
    {
        Feeder {
            alloc,
            state: Ok(Place::Header(HeaderSoFar::new(alloc))),
        }
    }

    /// Reads the next piece of the container, and gives the values of the blocks that became whole
    /// in it. It refuses the first fault, with the errors of `read_container` but Short. Where a block
    /// became whole before the fault, its values are given, and the next call refuses. After a
    /// refusal, also for want of memory, it answers the same again.
    pub fn feed(&mut self, piece: &[u8]) -> Result<Values, ContainerError>
        // What has been read and what is answered are what the piece makes of it, unless memory runs
        // out.
        ensures fed { IsFed (has_read self.old) piece.now (has_read self.new) (trees_told result) }
        // However bytes are cut into pieces, feeding these leaves and gives what feeding all of them
        // as one piece does.
        ensures any_cut { AnyCut }
        // Where these pieces have been read, just their bytes behind the last whole block are kept, or
        // behind the header. Where it isn't whole, they all are.
        ensures kept { (pieces : List (List ℕ)) → has_read self.new ≡ (fed_all pieces).0
            → length (concat pieces) < 2 ^ 64 - 1
            → IfOk (has_read self.new) (Keeps (concat pieces) (fed_all pieces).1) }
        // Where these pieces are refused, it is for the header, or for the block behind just those
        // whose values were given.
        ensures next { (pieces : List (List ℕ)) → has_read self.new ≡ (fed_all pieces).0
            → length (concat pieces) < 2 ^ 64 - 1
            → IfErr (has_read self.new) (RefusesNext (concat pieces) (fed_all pieces).1) }
        // A refusal stays as it is, and is answered again.
        ensures refused { IfErr (has_read self.old) (λ e. has_read self.new ≡ Err e) }
        ensures again { IfErr (has_read self.old) (λ e. result ≡ Err e.error) }
    {
        let start = Refused {
            error: ContainerError::Memory,
            schema: None,
        };
        let state = mem::replace(&mut self.state, Err(start));
        let Fed { state, found } = fed_by(state, self.alloc, piece);
        self.state = state;
        told(self.alloc, &self.state, found)
    }

    /// The schema, once the header is whole and names one, also where what follows is refused or
    /// memory ran out later. Where memory runs out in the call that ends the header, it may be there.
    /// It takes no memory.
    pub fn schema(&self) -> Option<&Schema>
        ensures { option_map (λ s. tree_of s.now) result ≡ schema_of_state (has_read self.now) }
    {
        match &self.state {
            Ok(Place::Header(_)) => None,
            Ok(Place::Blocks(blocks)) => Some(blocks.schema()),
            Err(refused) => refused.schema.as_ref(),
        }
    }

    /// Says that the bytes end here. They are refused where they end inside the header or a block,
    /// and where a call refused them. It takes no memory.
    pub fn finish(self) -> Result<(), ContainerError>
        // What is answered is what the end makes of what has been read.
        ensures ended { result ≡ ended (has_read self) }
        // Where these pieces have been read, one after the other, the values that were given and this
        // answer are what `read_container` gives for all of their bytes.
        ensures whole { (pieces : List (List ℕ)) → has_read self ≡ (fed_all pieces).0
            → length (concat pieces) < 2 ^ 64 - 1
            → IsWholeReading (concat pieces) (fed_all pieces) result }
    {
        let Feeder { state, .. } = self;
        ended_by(state)
    }
}
