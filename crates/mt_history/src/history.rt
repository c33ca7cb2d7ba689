//! A list of entries that grows within limits.
ghost use Rattle.std.specs.Prelude.{◌≡◌, ◌≤◌, ◌-◌, ◌++◌, ◌∷◌, [], IsTrue, OnOk, OnErr, length, option_copied};
ghost use Rattle.mt_history.specs.Weight.{weight};
ghost use Rattle.mt_history.specs.Kept.{IsKept, has_room, entry_at};

use crate::blocks::Blocks;
use crate::entry::Entry;
use mt_model::NoMemory;
use std::alloc::Global;
use std::marker::Model;

/// Entries in order, at most as many as its limit says, whose weights are at most 2^30 together. They
/// stand in blocks, so that adding one moves none of the others.
#[derive(Drop)]
pub struct History {
    entries: Blocks,
    limit: u64,
    weight: u64,
}

impl Model for History {
    ghost use Rattle.std.specs.Coded.{codes};
    ghost use Rattle.mt_filter.specs.contracts.filter.Filter as filter;
    ghost use Rattle.mt_history.specs.Kept.{Kept};

    ghost Value = { Kept };

    ghost coded = { Prim.hlevel (codes, filter.the_row.coded) };

    ghost use Rattle.std.specs.Prelude.{◌≡◌, ◌≤◌, ◌^◌, length};
    ghost use Rattle.mt_history.specs.Weight.{total_weight};

    ghost view = { λ h. record { first = 0; entries = h.entries.entries; limit = h.limit; spare = h.entries.spare } };

    ghost invariant = { λ h. (h.weight ≡ total_weight h.entries.entries) × (h.weight ≤ 2 ^ 30)
        × (length h.entries.entries ≤ h.limit) × (1 ≤ h.limit) × (h.limit ≤ 1048576) };
}

/// The weights of all entries of a history, at most.
const MAX_WEIGHT: u64 = 1 << 30;

impl History {
    /// An empty history that may have so many entries, 1 to 1,048,576. It takes no memory.
    pub fn new(alloc: Global, entries: u64) -> History
        requires some { 1 ≤ entries }
        requires bounded { entries ≤ 1048576 }
        ensures first { result.first ≡ 0 }
        ensures entries { result.entries ≡ [] }
        ensures limit { result.limit ≡ entries }
    {
        History {
            entries: Blocks::new(alloc),
            limit: entries,
            weight: 0,
        }
    }

    /// Whether one more entry and this weight stay within both limits.
    pub fn room_for(&self, weight: u64) -> bool
        ensures { result ≡ has_room self.now weight }
    {
        (self.entries.len() as u64) < self.limit
            && weight <= MAX_WEIGHT
            && self.weight + weight <= MAX_WEIGHT
    }

    /// Takes the memory for one more entry, if there is none in hand: that of one block of 1,024
    /// entries, and of its place in a list of blocks. The one error is want of memory, and then nothing
    /// changes.
    pub fn reserve(&mut self) -> Result<(), NoMemory>
        ensures same { self.new ≡ record self.old { spare = self.new.spare } }
        ensures ok { OnOk result (1 ≤ self.new.spare) }
        ensures more { self.old.spare ≤ self.new.spare }
        ensures err { OnErr result (self.new ≡ self.old) }
    {
        self.entries.reserve()
    }

    /// Adds the entry behind the others, in the memory that is in hand. It cannot be refused, and moves
    /// no other entry.
    pub fn push(&mut self, entry: Entry)
        requires spare { 1 ≤ self.old.spare }
        requires room { IsTrue (has_room self.old (weight entry.what)) }
        ensures { self.new ≡ record self.old { entries = self.old.entries ++ entry ∷ []; spare = self.old.spare - 1 } }
    {
        self.weight += entry.what.weight();
        self.entries.push(entry);
    }

    /// How many entries are kept.
    pub fn len(&self) -> u64
        ensures value { result ≡ length self.now.entries }
        ensures valid { IsKept self.now }
    {
        self.entries.len() as u64
    }

    /// The entry at a place, if it is kept. The first entry has the place 0.
    pub fn get(&self, at: u64) -> Option<&Entry>
        ensures { option_copied result ≡ entry_at self.now at }
    {
        self.entries.get(at as usize)
    }
}
