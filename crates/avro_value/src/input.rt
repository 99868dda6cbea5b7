//! What is left of an input while values are read.

ghost use Rattle.std.specs.Prelude.{◌≡◌};
ghost use Rattle.avro_value.specs.Reading.{GivesAlways, Item, fault_at, item_reading, item_at, varint_at, block_at, block_ends};

use crate::fault::{Fault, FaultAt};
use crate::item;

/// The bytes that are left, and how many more values may be made of them.
#[derive(Debug, Drop)]
pub struct Input<'a> {
    pub rest: &'a [u8],
    pub budget: usize,
}

/// What stands before a block's items.
#[derive(Clone, Copy, Debug)]
pub struct BlockHead {
    pub count: u64,
    pub size: Option<BlockSize>,
}

/// The byte size of a block.
#[derive(Clone, Copy, Debug)]
pub struct BlockSize {
    /// The number as it is spelled.
    pub spelled: u64,
    /// How many bytes there are from the size on.
    pub left: usize,
    /// How many bytes there are from the items on.
    pub items: usize,
}

impl<'a> Input<'a> {
    ghost use Rattle.std.specs.Prelude.{ℕ, List};

    /// The fault of the item that comes next.
    pub fn fault(&self, fault: Fault) -> FaultAt
        ensures { result ≡ fault_at self.now.rest.now fault }
    {
        FaultAt {
            fault,
            left: self.rest.len(),
        }
    }

    /// Goes on behind an item that was read at the front.
    pub fn take<T>(&mut self, item: Result<(T, &'a [u8]), Fault>) -> Result<T, FaultAt>
        ensures { (read : Item T) → GivesAlways (λ x. (x.0, x.1.now)) item.entry read
            → GivesAlways (λ v. (v, self.new.rest.now, self.new.budget)) result
            (item_reading self.old.rest.now self.old.budget read) }
    {
        match item {
            Ok((value, rest)) => {
                self.rest = rest;
                Ok(value)
            }
            Err(fault) => Err(self.fault(fault)),
        }
    }

    /// The same for a run of bytes.
    pub fn take_bytes(
        &mut self,
        item: Result<(&'a [u8], &'a [u8]), Fault>,
    ) -> Result<&'a [u8], FaultAt>
        ensures { (read : Item (List ℕ)) → GivesAlways (λ x. (x.0.now, x.1.now)) item.entry read
            → GivesAlways (λ v. (v.now, self.new.rest.now, self.new.budget)) result
            (item_reading self.old.rest.now self.old.budget read) }
    {
        match item {
            Ok((value, rest)) => {
                self.rest = rest;
                Ok(value)
            }
            Err(fault) => Err(self.fault(fault)),
        }
    }

    /// The same for a text.
    pub fn take_text(
        &mut self,
        item: Result<(&'a str, &'a [u8]), Fault>,
    ) -> Result<&'a str, FaultAt>
        ensures { (read : Item (List ℕ)) → GivesAlways (λ x. (x.0.now, x.1.now)) item.entry read
            → GivesAlways (λ v. (v.now, self.new.rest.now, self.new.budget)) result
            (item_reading self.old.rest.now self.old.budget read) }
    {
        match item {
            Ok((value, rest)) => {
                self.rest = rest;
                Ok(value)
            }
            Err(fault) => Err(self.fault(fault)),
        }
    }

    fn number(&mut self) -> Result<u64, FaultAt>
        ensures { GivesAlways (λ v. (v, self.new.rest.now, self.new.budget)) result
            (item_at varint_at self.old.rest.now self.old.budget) }
    {
        let item = item::number(self.rest);
        self.take(item)
    }

    /// Goes on to the items of the next block, or behind the last block.
    #[tactic(auto, unfolding(crate::specs::Reading::block_at, crate::specs::Reading::sized_at))]
    pub fn begin_block(&mut self) -> Result<Option<BlockHead>, FaultAt>
        ensures { GivesAlways (λ v. (v, self.new.rest.now, self.new.budget)) result
            (block_at self.old.rest.now self.old.budget) }
    {
        let first = self.fault(Fault::BadLength);
        let z = self.number()?;
        if z == 0 {
            return Ok(None);
        }
        if z % 2 == 0 {
            return Ok(Some(BlockHead {
                count: z / 2,
                size: None,
            }));
        }
        if z == u64::MAX {
            return Err(first);
        }
        let left = self.rest.len();
        let spelled = self.number()?;
        let items = self.rest.len();
        Ok(Some(BlockHead {
            count: z / 2 + 1,
            size: Some(BlockSize {
                spelled,
                left,
                items,
            }),
        }))
    }

    /// Whether the block's items took as many bytes as its size says.
    #[tactic(auto, unfolding(crate::specs::Reading::block_ends))]
    pub fn end_block(&self, block: BlockHead) -> Result<(), FaultAt>
        ensures { GivesAlways (λ _. tt) result (block_ends block self.now.rest.now) }
    {
        let Some(size) = block.size else {
            return Ok(());
        };
        let taken = size.items.saturating_sub(self.rest.len()) as u64;
        if size.spelled % 2 != 0 || size.spelled / 2 != taken {
            return Err(FaultAt {
                fault: Fault::BadLength,
                left: size.left,
            });
        }
        Ok(())
    }
}
