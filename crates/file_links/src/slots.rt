//! Rows in slots, in chains by owner.
ghost use Rattle.std.specs.Prelude.{◌≡◌, ◌≢◌, ◌+◌, ◌-◌, ◌*◌, ◌%◌, ◌^◌, ◌<◌, ◌≤◌, ◌++◌, ℕ, List, [], Option, None, Some, length, fold, bit_xor, slice_get, slice_set, option_map, IfOk, OnOk, OnErr, MatchOption, IsSome, IsTrue, replicate};
ghost use Rattle.std.specs.Option.{option_copied};
ghost use Rattle.file_links.specs.declared.slots.Held.{Held};
ghost use Rattle.file_links.specs.Rows.{rows_of, IsHeld, HoldsPath, HoldsJust, IsOwnerOf};
ghost use Rattle.file_links.specs.Rows.{Finds, FindsEach, IsFirstOf, IsBehind};
ghost use Rattle.file_links.specs.Rows.{Reserves, AddsOwner, Inserts, Unlinks, DropsOwner};
ghost use Rattle.file_links.specs.Chains.{chain_count, slot_count, chain_of, slots_in, AreSound, Grows};
ghost use Rattle.file_links.specs.Buckets.{AreBuckets};
ghost use Rattle.std.specs.Vec.{vec_len, vec_capacity};
ghost use Rattle.file_links.specs.Hash.{hash_of as fnv, bucket_of as path_chain};

use crate::chains::{Chains, END};
use std::alloc::{AllocError, Global};
use std::marker::Model;
use table_history::FileRow;

/// A row, and the number of the version that added it.
#[derive(Debug, PartialEq, Eq, Drop)]
pub struct Held {
    pub row: FileRow,
    pub born: u64,
}

impl Held {
    // The bytes of the row's path.
    fn path(&self) -> &[u8]
        ensures { result.now ≡ self.now.row.path }
    {
        self.row.path.as_bytes()
    }
}

/// Rows in slots, each with an owner. A row keeps its slot while it is held.
#[derive(Drop)]
pub struct Links {
    alloc: Global,
    // By slot: its row, or none where the slot is free.
    held: Vec<Option<Held>>,
    // The free slots in chain 0, and the slots of owner `o` in chain `o + 1`.
    rows: Chains,
    // The free slots in chain 0, and each other one in the chain of its path.
    buckets: Chains,
    // The owners' numbers as slots: the free ones in chain 0, and those in use in chain 1.
    owners: Chains,
}

// So many owners' numbers are added at once at least, since all chains are built anew for one more.
const LEAST_OWNERS: u32 = 16;

const FREE: u32 = 0;

const IN_USE: u32 = 1;

const FNV_OFFSET_BASIS: u64 = 14_695_981_039_346_656_037;

const FNV_PRIME: u64 = 1_099_511_628_211;

impl Model for Links {
    ghost use Rattle.file_links.specs.Rows.{OwnedRows};

    ghost Value = { OwnedRows };

    ghost use Rattle.file_links.specs.Slots.{view_of, AreLinks};

    ghost view = { view_of };

    ghost invariant = { AreLinks };
}

// The FNV-1a hash of 64 bits.
fn hash_of(bytes: &[u8]) -> u64
    ensures { result ≡ fnv bytes.now }
{
    bytes.iter().fold(FNV_OFFSET_BASIS, |hash, byte| {
        (hash ^ u64::from(*byte)).wrapping_mul(FNV_PRIME)
    })
}

fn row_at(held: &[Option<Held>], slot: u32) -> Option<&Held>
    requires { slot < length held.now }
    ensures { slice_get held.now slot ≡ Some (option_copied result) }
{
    held[slot as usize].as_ref()
}

// Whether a slot's row has this path.
fn has_path(held: &[Option<Held>], slot: u32, path: &[u8]) -> bool
    requires { slot < length held.now }
    ensures yes { IsTrue result → (h : Held) × (slice_get held.now slot ≡ Some (Some h)) × (h.row.path ≡ path.now) }
    ensures not { (h : Held) → slice_get held.now slot ≡ Some (Some h) → h.row.path ≡ path.now → IsTrue result }
{
    match row_at(held, slot) {
        Some(held) => held.path() == path,
        None => false,
    }
}

// Writes a slot, and gives what stood there.
fn set_row(held: &mut Vec<Option<Held>>, slot: u32, row: Option<Held>) -> Option<Held>
    requires { slot < length held.old.items }
    ensures before { slice_get held.old.items slot ≡ Some result }
    ensures after { held.new.items ≡ slice_set held.old.items slot row }
{
    std::mem::replace(&mut held[slot as usize], row)
}

// How many free slots there are.
fn free_count(chains: &Chains) -> u32
    requires { AreSound chains.now }
    ensures { result ≡ length (slots_in chains.now 0) }
{
    if chains.chain_count() == 0 {
        0
    } else {
        chains.count(FREE)
    }
}

// How many slots to add for so many free ones: none where they are there already, and else so many at
// least, and half as many as there are, so that many small reservations cost no more than a few large
// ones.
fn growth(chains: &Chains, wanted: u32, least: u32) -> u32
    requires { AreSound chains.now }
    ensures enough { wanted ≤ length (slots_in chains.now 0) → result ≡ 0 }
    ensures room { wanted ≤ result + length (slots_in chains.now 0) }
{
    let missing = wanted.saturating_sub(free_count(chains));
    if missing == 0 {
        return 0;
    }
    let slots = chains.slot_count() as u32;
    missing.max((slots / 2).max(least).min(END - slots))
}

// A copy with this many chains at least, and with more free slots.
fn grown(
    chains: &Chains,
    alloc: Global,
    chain_count: usize,
    more: u32,
) -> Result<Chains, AllocError>
    requires sound { AreSound chains.now }
    requires chains { 0 < chain_count }
    ensures sound { IfOk result AreSound }
    ensures grown { IfOk result (λ w. Grows chains.now w chain_count more) }
{
    let mut copy = chains.copy(alloc)?;
    for _chain in copy.chain_count()..chain_count {
        copy.add_chain()?;
    }
    for _slot in 0..more {
        if copy.slot_count() == END as usize {
            return Err(AllocError);
        }
        copy.add_slot()?;
    }
    Ok(copy)
}

// Puts the slot of a row into the chain of its path.
fn place(buckets: &mut Chains, slot: u32, row: &Option<Held>)
    requires sound { AreSound buckets.old }
    requires slot { slot < slot_count buckets.old }
    requires chains { 1 < chain_count buckets.old }
    requires fit { chain_count buckets.old ≤ 2 ^ 32 }
    ensures sound { AreSound buckets.new }
    ensures chains { chain_count buckets.new ≡ chain_count buckets.old }
    ensures slots { slot_count buckets.new ≡ slot_count buckets.old }
    ensures others { (t : ℕ) → t ≢ slot → chain_of buckets.new t ≡ chain_of buckets.old t }
    ensures row { (h : Held) → row.now ≡ Some h → chain_of buckets.new slot ≡ path_chain (chain_count buckets.old) h.row.path }
    ensures free { row.now ≡ None → chain_of buckets.new slot ≡ chain_of buckets.old slot }
{
    if let Some(held) = row {
        let bucket = bucket_of(buckets, held.path());
        buckets.move_to(slot, bucket);
    }
}

// The slots in the chains of their rows' paths, with a chain at least for each slot.
fn buckets_of(held: &[Option<Held>], alloc: Global, slots: usize) -> Result<Chains, AllocError>
    requires held { length held.now ≤ slots }
    requires fit { slots < 2 ^ 32 }
    ensures sound { IfOk result AreSound }
    ensures slots { IfOk result (λ w. slot_count w ≡ slots) }
    ensures buckets { IfOk result (λ w. AreBuckets held.now w) }
{
    let mut buckets = Chains::new(alloc);
    for _chain in 0..slots + 1 {
        buckets.add_chain()?;
    }
    for _slot in 0..slots {
        buckets.add_slot()?;
    }
    for (slot, row) in held.iter().enumerate() {
        place(&mut buckets, slot as u32, row);
    }
    Ok(buckets)
}

// Adds free slots, for which there is room.
fn add_free(held: &mut Vec<Option<Held>>, more: u32)
    requires { vec_len held.old + more ≤ vec_capacity held.old }
    ensures { held.new.items ≡ held.old.items ++ replicate more None }
{
    for _slot in 0..more {
        held.push(None).unwrap();
    }
}

impl Links {
    /// No owner, no row, and no room.
    pub fn new(alloc: Global) -> Links
        ensures owners { result.owners ≡ [] }
        ensures owner_room { result.owner_room ≡ 0 }
        ensures room { result.room ≡ 0 }
    {
        Links {
            alloc,
            held: Vec::new(alloc),
            rows: Chains::new(alloc),
            buckets: Chains::new(alloc),
            owners: Chains::new(alloc),
        }
    }

    /// Makes room for so many more owners and rows at least. The calls that fill it take no memory
    /// then. It is refused for want of memory, or where the owners or the slots would number more
    /// than 4,294,967,295; nothing has changed then.
    pub fn reserve(&mut self, owners: u32, rows: u32) -> Result<(), AllocError>
        ensures ok { OnOk result (Reserves self.old self.new owners rows) }
        ensures err { OnErr result (self.new ≡ self.old) }
    {
        let more_owners = growth(&self.owners, owners, LEAST_OWNERS);
        let more_rows = growth(&self.rows, rows, 0);
        if more_owners == 0 && more_rows == 0 {
            return Ok(());
        }
        let alloc = self.alloc;
        let owners = grown(&self.owners, alloc, 2, more_owners)?;
        let rows = grown(&self.rows, alloc, owners.slot_count() + 1, more_rows)?;
        let buckets = buckets_of(&self.held, alloc, rows.slot_count())?;
        self.held.reserve(more_rows as usize)?;
        add_free(&mut self.held, more_rows);
        self.owners = owners;
        self.rows = rows;
        self.buckets = buckets;
        Ok(())
    }

    /// Begins an owner with no row, and gives its number.
    pub fn add_owner(&mut self) -> u32
        requires { 0 < self.old.owner_room }
        ensures { AddsOwner self.old self.new result }
    {
        let owner = self.owners.first(FREE).unwrap();
        self.owners.move_to(owner, IN_USE);
        owner
    }

    /// Puts a row behind the owner's rows, and gives the slot that it is in from now on.
    pub fn insert(&mut self, owner: u32, held: Held) -> u32
        requires room { 0 < self.old.room }
        requires owner { IsSome (rows_of self.old owner) }
        requires path { ¬ HoldsPath self.old held.row.path }
        ensures { Inserts self.old self.new owner result held }
    {
        let slot = self.rows.first(FREE).unwrap();
        let bucket = bucket_of(&self.buckets, held.path());
        self.rows.move_to(slot, owner + 1);
        self.buckets.move_to(slot, bucket);
        drop(set_row(&mut self.held, slot, Some(held)));
        slot
    }

    /// Gives a slot's row up. The slot is free then.
    pub fn unlink(&mut self, slot: u32) -> Held
        requires { IsHeld self.old slot }
        ensures row { HoldsJust self.old slot result }
        ensures rest { Unlinks self.old self.new slot }
    {
        self.rows.move_to(slot, FREE);
        self.buckets.move_to(slot, FREE);
        set_row(&mut self.held, slot, None).unwrap()
    }

    /// Ends an owner. The slots of its rows are free then, and its number may be given again.
    pub fn drop_owner(&mut self, owner: u32)
        requires { IsSome (rows_of self.old owner) }
        ensures { DropsOwner self.old self.new owner }
    {
        while let Some(slot) = self.first(owner) {
            drop(self.unlink(slot));
        }
        self.owners.move_to(owner, FREE);
    }

    /// The slot of the row of a path.
    pub fn find(&self, path: &[u8]) -> Option<u32>
        ensures found { Finds self.now path.now result }
        ensures each { FindsEach self.now path.now result }
    {
        if self.held.is_empty() {
            return None;
        }
        let bucket = bucket_of(&self.buckets, path);
        let mut place = self.buckets.first(bucket);
        for _step in 0..self.buckets.count(bucket) {
            let Some(slot) = place else {
                return None;
            };
            if has_path(&self.held, slot, path) {
                return Some(slot);
            }
            place = self.buckets.next(slot);
        }
        None
    }

    /// The slot of the first of an owner's rows.
    pub fn first(&self, owner: u32) -> Option<u32>
        requires { IsSome (rows_of self.now owner) }
        ensures { IsFirstOf self.now owner result }
    {
        self.rows.first(owner + 1)
    }

    /// The slot of the row behind that of a slot, of the same owner.
    pub fn next(&self, slot: u32) -> Option<u32>
        requires { IsHeld self.now slot }
        ensures { IsBehind self.now slot result }
    {
        self.rows.next(slot)
    }

    /// The owner of a slot's row.
    pub fn owner_of(&self, slot: u32) -> u32
        requires { IsHeld self.now slot }
        ensures { IsOwnerOf self.now slot result }
    {
        self.rows.chain(slot) - 1
    }

    /// A slot's row.
    pub fn get(&self, slot: u32) -> &Held
        requires { IsHeld self.now slot }
        ensures { HoldsJust self.now slot result.now }
    {
        row_at(&self.held, slot).unwrap()
    }
}

// The chain of a path among these.
fn bucket_of(buckets: &Chains, path: &[u8]) -> u32
    requires sound { AreSound buckets.now }
    requires chains { 1 < chain_count buckets.now }
    requires fit { chain_count buckets.now ≤ 2 ^ 32 }
    ensures value { result ≡ path_chain (chain_count buckets.now) path.now }
    ensures range { result < chain_count buckets.now }
{
    let others = buckets.chain_count() as u64 - 1;
    1 + (hash_of(path) % others) as u32
}
