//! Slots in two-way chains. Each slot is in one chain.
ghost use Rattle.std.specs.Prelude.{◌≡◌, ◌≢◌, ◌+◌, ◌<◌, ◌≤◌, ◌++◌, ◌∷◌, [], ℕ, length, IfOk, OnOk, vec_len, slice_index, slice_get, slice_set, replicate, cond, nat_eq, None, Some};
ghost use Rattle.file_links.specs.Linked.{after, without, follow, END as the_end};
ghost use Rattle.file_links.specs.Chains.{chain_count, slot_count, chain_of, slots_in, AreSound, AreSoundBut, Detaches, Appends, Moves, IsSame, AddsChain, AddsSlot};

use std::alloc::{AllocError, Global};

/// What stands in place of a slot where a chain begins or ends.
pub const END: u32 = u32::MAX;

/// Slots in two-way chains. Each slot is in one chain.
#[derive(Drop)]
pub struct Chains {
    // By chain: its first slot and its last one, or `END`, and how many slots it has.
    first: Vec<u32>,
    last: Vec<u32>,
    count: Vec<u32>,
    // By slot: the next slot and the previous one in its chain, or `END`, and the chain.
    next: Vec<u32>,
    previous: Vec<u32>,
    chain: Vec<u32>,
}

fn at(numbers: &[u32], place: u32) -> u32
    requires { place < length numbers.now }
    ensures { result ≡ slice_index numbers.now place }
{
    numbers[place as usize]
}

fn write(numbers: &mut Vec<u32>, place: u32, number: u32)
    requires { place < length numbers.old.items }
    ensures numbers { numbers.new.items ≡ slice_set numbers.old.items place number }
    ensures length { length numbers.new.items ≡ length numbers.old.items }
{
    numbers[place as usize] = number;
}

// Makes the link of a place lead to `to`. The place is a slot, or `END` for the end of the chain.
fn put(ends: &mut Vec<u32>, links: &mut Vec<u32>, chain: u32, place: u32, to: u32)
    requires chain { chain < length ends.old.items }
    requires place { place ≢ the_end → place < length links.old.items }
    ensures ends { length ends.new.items ≡ length ends.old.items }
    ensures links { length links.new.items ≡ length links.old.items }
    ensures here { follow ends.new.items links.new.items chain place ≡ to }
    ensures same { (c x : ℕ) → x ≢ place → follow ends.new.items links.new.items c x ≡ follow ends.old.items links.old.items c x }
    ensures apart { (c : ℕ) → c ≢ chain → place ≡ the_end → follow ends.new.items links.new.items c the_end ≡ follow ends.old.items links.old.items c the_end }
{
    if place == END {
        write(ends, chain, to);
    } else {
        write(links, place, to);
    }
}

// Links the neighbours of a slot to one another.
fn detach(chains: &mut Chains, slot: u32)
    requires sound { AreSound chains.old }
    requires slot { slot < slot_count chains.old }
    ensures { Detaches chains.old chains.new slot }
{
    let chain = at(&chains.chain, slot);
    let next = at(&chains.next, slot);
    let previous = at(&chains.previous, slot);
    let count = at(&chains.count, chain);
    put(&mut chains.first, &mut chains.next, chain, previous, next);
    put(
        &mut chains.last,
        &mut chains.previous,
        chain,
        next,
        previous,
    );
    write(&mut chains.count, chain, count - 1);
}

// Links a slot that is in no chain behind the last one of a chain.
fn append(chains: &mut Chains, slot: u32, chain: u32)
    requires sound { AreSoundBut chains.old slot }
    requires slot { slot < slot_count chains.old }
    requires chain { chain < chain_count chains.old }
    ensures { Appends chains.old chains.new slot chain }
{
    let last = at(&chains.last, chain);
    let count = at(&chains.count, chain);
    write(&mut chains.next, slot, END);
    write(&mut chains.previous, slot, last);
    put(&mut chains.first, &mut chains.next, chain, last, slot);
    write(&mut chains.last, chain, slot);
    write(&mut chains.chain, slot, chain);
    write(&mut chains.count, chain, count + 1);
}

fn slot_at(place: u32) -> Option<u32>
    ensures { result ≡ cond (nat_eq place the_end) None (Some place) }
{
    if place == END { None } else { Some(place) }
}

impl Chains {
    /// No chain and no slot.
    pub fn new(alloc: Global) -> Chains
        ensures sound { AreSound result }
        ensures chains { chain_count result ≡ 0 }
        ensures slots { slot_count result ≡ 0 }
    {
        Chains {
            first: Vec::new(alloc),
            last: Vec::new(alloc),
            count: Vec::new(alloc),
            next: Vec::new(alloc),
            previous: Vec::new(alloc),
            chain: Vec::new(alloc),
        }
    }

    /// The same chains anew.
    pub fn copy(&self, alloc: Global) -> Result<Chains, AllocError>
        requires sound { AreSound self.now }
        ensures sound { IfOk result AreSound }
        ensures same { IfOk result (IsSame self.now) }
    {
        Ok(Chains {
            first: Vec::from_slice(alloc, &self.first)?,
            last: Vec::from_slice(alloc, &self.last)?,
            count: Vec::from_slice(alloc, &self.count)?,
            next: Vec::from_slice(alloc, &self.next)?,
            previous: Vec::from_slice(alloc, &self.previous)?,
            chain: Vec::from_slice(alloc, &self.chain)?,
        })
    }

    /// Adds an empty chain.
    pub fn add_chain(&mut self) -> Result<(), AllocError>
        requires sound { AreSound self.old }
        ensures sound { OnOk result (AreSound self.new) }
        ensures added { OnOk result (AddsChain self.old self.new) }
    {
        self.first.push(END)?;
        self.last.push(END)?;
        self.count.push(0)?;
        Ok(())
    }

    /// Adds a slot, which becomes the last one of chain 0.
    pub fn add_slot(&mut self) -> Result<(), AllocError>
        requires sound { AreSound self.old }
        requires chain { 0 < chain_count self.old }
        requires room { slot_count self.old < the_end }
        ensures sound { OnOk result (AreSound self.new) }
        ensures added { OnOk result (AddsSlot self.old self.new) }
    {
        let slot = self.next.len() as u32;
        self.next.push(END)?;
        self.previous.push(END)?;
        self.chain.push(0)?;
        append(self, slot, 0);
        Ok(())
    }

    /// Takes a slot out of its chain and puts it behind the last one of a chain.
    pub fn move_to(&mut self, slot: u32, chain: u32)
        requires sound { AreSound self.old }
        requires slot { slot < slot_count self.old }
        requires chain { chain < chain_count self.old }
        ensures sound { AreSound self.new }
        ensures moves { Moves self.old self.new slot chain }
    {
        detach(self, slot);
        append(self, slot, chain);
    }

    /// The first slot of a chain, if it has one.
    pub fn first(&self, chain: u32) -> Option<u32>
        requires sound { AreSound self.now }
        requires chain { chain < chain_count self.now }
        ensures { result ≡ slice_get (slots_in self.now chain) 0 }
    {
        slot_at(at(&self.first, chain))
    }

    /// The slot behind one in its chain.
    pub fn next(&self, slot: u32) -> Option<u32>
        requires sound { AreSound self.now }
        requires slot { slot < slot_count self.now }
        ensures { result ≡ after slot (slots_in self.now (chain_of self.now slot)) }
    {
        slot_at(at(&self.next, slot))
    }

    /// The chain of a slot.
    pub fn chain(&self, slot: u32) -> u32
        requires sound { AreSound self.now }
        requires slot { slot < slot_count self.now }
        ensures value { result ≡ chain_of self.now slot }
        ensures range { result < chain_count self.now }
    {
        at(&self.chain, slot)
    }

    /// How many chains there are.
    pub fn chain_count(&self) -> usize
        ensures { result ≡ chain_count self.now }
    {
        self.first.len()
    }

    /// How many slots there are.
    pub fn slot_count(&self) -> usize
        requires sound { AreSound self.now }
        ensures value { result ≡ slot_count self.now }
        ensures fits { result ≤ the_end }
    {
        self.next.len()
    }

    /// How many slots a chain has.
    pub fn count(&self, chain: u32) -> u32
        requires sound { AreSound self.now }
        requires chain { chain < chain_count self.now }
        ensures { result ≡ length (slots_in self.now chain) }
    {
        at(&self.count, chain)
    }
}
