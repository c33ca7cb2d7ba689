//! Entries in blocks, so that one more moves none of the others.
ghost use Rattle.std.specs.Prelude.{◌≡◌, ◌≤◌, ◌<◌, ◌-◌, ◌^◌, ◌++◌, ◌∷◌, [], OnOk, OnErr, length, option_copied, vec_capacity};
ghost use Rattle.std.specs.List.{slice_get};

use crate::entry::Entry;
use mt_model::NoMemory;
use std::alloc::Global;
use std::marker::Model;
use std::mem;

/// How many entries a block takes.
const BLOCK: usize = 1024;

/// Entries in order. Those that stand in a block never move again.
#[derive(Drop)]
pub(crate) struct Blocks {
    alloc: Global,

    /// The blocks that took all they can.
    full: Vec<Vec<Entry>>,

    /// The entries behind those, at most a block.
    last: Vec<Entry>,
}

impl Model for Blocks {
    ghost use Rattle.std.specs.Prelude.{◌++◌, ◌≤◌, ◌-◌, All, ◌≡◌, length, min};
    ghost use Rattle.std.specs.Vec.{vec_len, vec_capacity};
    ghost use Rattle.std.specs.Coded.{codes};
    ghost use Rattle.mt_filter.specs.contracts.filter.Filter as filter;
    ghost use Rattle.mt_history.specs.Stacks.{Stack, joined, AreFull};

    ghost Value = { Stack };

    ghost coded = { Prim.hlevel (codes, filter.the_row.coded) };

    ghost view = { λ b. record { entries = joined b.full.items ++ b.last.items; spare = min 1024 (vec_capacity b.last) - vec_len b.last } };

    ghost invariant = { λ b. AreFull b.full.items × (length b.last.items ≤ 1024) };
}

/// Puts the last block behind the full ones, with a new one in its place, for which it takes memory.
fn begin_block(
    alloc: Global,
    full: &mut Vec<Vec<Entry>>,
    last: &mut Vec<Entry>,
) -> Result<(), NoMemory>
    ensures full { OnOk result (full.new.items ≡ full.old.items ++ last.old ∷ []) }
    ensures empty { OnOk result (last.new.items ≡ []) }
    ensures room { OnOk result (1024 ≤ vec_capacity last.new) }
    ensures same { OnErr result (full.new.items ≡ full.old.items) }
    ensures same_last { OnErr result (last.new ≡ last.old) }
{
    full.reserve(1)?;
    let next = Vec::with_capacity(alloc, BLOCK)?;
    full.push_reserved(mem::replace(last, next));
    Ok(())
}

fn block_at(blocks: &[Vec<Entry>], at: usize) -> Option<&Vec<Entry>>
    ensures { option_copied result ≡ slice_get blocks.now at }
{
    blocks.get(at)
}

fn entry_at(entries: &[Entry], at: usize) -> Option<&Entry>
    ensures { option_copied result ≡ slice_get entries.now at }
{
    entries.get(at)
}

impl Blocks {
    /// No entries. It takes no memory.
    pub fn new(alloc: Global) -> Blocks
        ensures { result.entries ≡ [] }
    {
        Blocks {
            alloc,
            full: Vec::new(alloc),
            last: Vec::new(alloc),
        }
    }

    /// How many entries there are.
    pub fn len(&self) -> usize
        requires { length self.now.entries < 2 ^ 63 }
        ensures { result ≡ length self.now.entries }
    {
        self.full.as_slice().len() * BLOCK + self.last.as_slice().len()
    }

    /// Takes the memory for one more entry, if there is none in hand: for one block, and one place in
    /// the list of blocks. The one error is want of memory, and then nothing changes.
    pub fn reserve(&mut self) -> Result<(), NoMemory>
        ensures entries { self.new.entries ≡ self.old.entries }
        ensures ok { OnOk result (1 ≤ self.new.spare) }
        ensures more { self.old.spare ≤ self.new.spare }
        ensures err { OnErr result (self.new ≡ self.old) }
    {
        if self.last.len() == BLOCK {
            begin_block(self.alloc, &mut self.full, &mut self.last)
        } else {
            self.last.reserve(BLOCK - self.last.len())?;
            Ok(())
        }
    }

    /// Adds the entry behind the others, in the memory that is in hand.
    pub fn push(&mut self, entry: Entry)
        requires { 1 ≤ self.old.spare }
        ensures { self.new ≡ record { entries = self.old.entries ++ entry ∷ []; spare = self.old.spare - 1 } }
    {
        self.last.push_reserved(entry);
    }

    /// The entry at a place, if there is one.
    pub fn get(&self, at: usize) -> Option<&Entry>
        ensures { option_copied result ≡ slice_get self.now.entries at }
    {
        let block = at / BLOCK;
        let place = at % BLOCK;
        match block_at(&self.full, block) {
            Some(entries) => entry_at(entries, place),
            None if block == self.full.as_slice().len() => entry_at(&self.last, place),
            None => None,
        }
    }
}
