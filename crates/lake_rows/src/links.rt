//! Steps on rows held by their owners. That a row is held is found out before each call that requires it.
ghost use Rattle.std.specs.Prelude.{◌<◌, IfSome, IsSome};
ghost use Rattle.file_links.specs.Rows.{rows_of, IsHeld};

use file_links::{Held, Links};
use lake_basics::{Items, Text};
use std::alloc::{AllocError, Global};
use std::collections::BTreeMap;
use table_history::FileRow;

/// The held rows of a row of the script.
#[derive(Drop)]
pub struct Owners {
    alloc: Global,
    links: Links,
}

/// Where a row stands: its slot, its owner, and the slots of the owner's first row and of the next one.
#[derive(Clone, Copy)]
struct Place {
    slot: u32,
    owner: u32,
    first: Option<u32>,
    next: Option<u32>,
}

/// Where the row of a path stands, which is held.
fn place_of(links: &Links, path: &str) -> Option<Place>
    ensures slot { IfSome result (λ p. IsHeld links.now p.slot) }
    ensures owner { IfSome result (λ p. IsSome (rows_of links.now p.owner)) }
{
    let Some(slot) = links.find(path.as_bytes()) else {
        return None;
    };
    let owner = links.owner_of(slot);
    Some(Place {
        slot,
        owner,
        first: links.first(owner),
        next: links.next(slot),
    })
}

/// A row of this path, of 1 record and 2 bytes, born as number 3.
fn held(alloc: Global, path: &str) -> Result<Held, AllocError> {
    Ok(Held {
        row: FileRow {
            path: Text::from_str(alloc, path)?,
            values: Items::new(alloc),
            count: 1,
            size: 2,
        },
        born: 3,
    })
}

/// Adds a row behind those of an owner, where no row has its path, and tells what came.
fn insert(links: &mut Links, owner: u32, row: Held) -> &'static str
    requires room { 0 < links.old.room }
    requires owner { IsSome (rows_of links.old owner) }
{
    if links.find(row.row.path.as_bytes()).is_some() {
        return "not asked: the path is held";
    }
    links.insert(owner, row);
    "inserted"
}

impl Owners {
    /// No owner.
    pub fn new(alloc: Global) -> Owners {
        Owners {
            alloc,
            links: Links::new(alloc),
        }
    }

    /// Does what the words say, and tells what came, if they are words on held rows.
    pub fn act(&mut self, words: &[&str]) -> Result<Option<&'static str>, AllocError> {
        match words {
            ["reserve", owners, rows] => Ok(Some(self.reserve(owners, rows))),
            ["drop", "owner", "of", path] => Ok(Some(self.drop_owner(path))),
            ["rows", paths @ ..] => Ok(Some(self.are_in_order(paths))),
            _ => self.act_on_row(words),
        }
    }

    fn act_on_row(&mut self, words: &[&str]) -> Result<Option<&'static str>, AllocError> {
        let outcome = match words {
            ["insert", path] => self.insert_alone(path)?,
            ["insert", path, "behind", sibling] => self.insert_behind(path, sibling)?,
            ["unlink", path] => self.unlink(path)?,
            _ => return Ok(None),
        };
        Ok(Some(outcome))
    }

    fn reserve(&mut self, owners: &str, rows: &str) -> &'static str {
        let owners = owners.parse::<u32>().unwrap_or(0);
        let rows = rows.parse::<u32>().unwrap_or(0);
        match self.links.reserve(owners, rows) {
            Ok(()) => "reserved",
            Err(_) => "no memory",
        }
    }

    /// Adds a row of a new owner.
    fn insert_alone(&mut self, path: &str) -> Result<&'static str, AllocError> {
        let row = held(self.alloc, path)?;
        self.links.reserve(1, 1)?;
        let owner = self.links.add_owner();
        Ok(insert(&mut self.links, owner, row))
    }

    /// Adds a row behind those of the owner of another row.
    fn insert_behind(&mut self, path: &str, sibling: &str) -> Result<&'static str, AllocError> {
        let row = held(self.alloc, path)?;
        self.links.reserve(0, 1)?;
        match place_of(&self.links, sibling) {
            Some(place) => Ok(insert(&mut self.links, place.owner, row)),
            None => Ok("not asked: the other row isn't held"),
        }
    }

    /// Ends a row, and its owner where it was the last one, and tells whether it is as it came.
    fn unlink(&mut self, path: &str) -> Result<&'static str, AllocError> {
        let Some(place) = place_of(&self.links, path) else {
            return Ok("not asked: the row isn't held");
        };
        let row = self.links.unlink(place.slot);
        let is_gone = self.links.find(path.as_bytes()).is_none();
        let is_last = self.links.first(place.owner).is_none();
        if is_last {
            self.links.drop_owner(place.owner);
        }
        let is_same = row == held(self.alloc, path)?;
        Ok(outcome_of(is_same, is_gone, is_last))
    }

    fn drop_owner(&mut self, path: &str) -> &'static str {
        match place_of(&self.links, path) {
            Some(place) => {
                self.links.drop_owner(place.owner);
                "dropped"
            }
            None => "not asked: the row isn't held",
        }
    }

    /// Whether these are all the rows of one owner, in their order.
    fn are_in_order(&self, paths: &[&str]) -> &'static str {
        let mut last: Option<Place> = None;
        for path in paths {
            match place_of(&self.links, path) {
                None => return "not held",
                Some(place) if !is_behind(place, last) => return "in another order",
                place => last = place,
            }
        }
        match last {
            Some(place) if place.next.is_none() => "all in this order",
            _ => "not all of them",
        }
    }

    /// Shows where the row of a path stands.
    pub fn show_place(&self, path: &str, shown: &mut String) -> Result<(), AllocError> {
        match place_of(&self.links, path) {
            Some(Place { slot, owner, .. }) => {
                let born = self.links.get(slot).born;
                writeln!(shown, "slot {slot} of owner {owner}, born {born}")
            }
            None => writeln!(shown, "not held"),
        }
    }

    /// Does what each line says, and shows how often each answer came.
    pub fn run(&mut self, lines: &[&str], shown: &mut String) -> Result<(), AllocError> {
        let mut counts: BTreeMap<&'static str, u32> = BTreeMap::new(self.alloc);
        for line in lines {
            let outcome = self.act_on_line(line)?;
            add(&mut counts, outcome)?;
        }
        show_counts(&counts, shown)
    }

    fn act_on_line(&mut self, line: &str) -> Result<&'static str, AllocError> {
        let words: Vec<&str> = line.split(' ').collect(self.alloc)?;
        Ok(self.act(words.as_slice())?.unwrap_or("no step"))
    }
}

/// Whether a row is the first of its owner, or the next one behind the last that was looked at.
fn is_behind(place: Place, last: Option<Place>) -> bool {
    let wanted = match last {
        None => place.first,
        Some(before) => before.next,
    };
    wanted == Some(place.slot)
}

/// What came of a row that was unlinked.
fn outcome_of(is_same: bool, is_gone: bool, is_last: bool) -> &'static str {
    match (is_same, is_gone, is_last) {
        (true, true, true) => "unlinked as it came, and its owner is gone",
        (true, true, false) => "unlinked as it came",
        (false, _, _) => "unlinked as another row",
        (_, false, _) => "unlinked and still held",
    }
}

/// Counts an outcome once more.
fn add(counts: &mut BTreeMap<&'static str, u32>, outcome: &'static str) -> Result<(), AllocError> {
    let count = counts.entry(outcome)?.or_insert(0);
    *count = count.saturating_add(1);
    Ok(())
}

fn show_counts(counts: &BTreeMap<&'static str, u32>, shown: &mut String) -> Result<(), AllocError> {
    for (outcome, count) in counts {
        writeln!(shown, "{count} times: {outcome}")?;
    }
    Ok(())
}
