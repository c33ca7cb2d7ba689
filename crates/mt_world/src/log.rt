//! A history with the number of each caller's next entry.
ghost use Rattle.std.specs.Prelude.{◌≡◌, ◌≤◌, ◌-◌, ◌++◌, ◌∷◌, [], ℕ, IsTrue, IsSome, IfSome, OnOk, length, option_copied};
ghost use Rattle.std.specs.Map.{count_at};
ghost use Rattle.mt_history.specs.Weight.{weight};
ghost use Rattle.mt_history.specs.Kept.{has_room, entry_at};
ghost use Rattle.mt_world.specs.Worlds.{number_in, next_number, entry_of};
ghost use Rattle.mt_world.specs.Logs.{IsLog, IsTagged, IsReady, Reserves, number_of_next, faults_with};

use mt_history::{Entry, History, What};
use mt_model::NoMemory;
use std::alloc::Global;
use std::collections::BTreeMap;
use std::marker::Model;

/// Entries in order, and for each caller that has some the number of its next one.
#[derive(Drop)]
pub struct Log {
    history: History,
    numbers: BTreeMap<u32, u64, Global>,

    /// How many entries of failed store calls were ever made. The count stands still at its end.
    fault_entries: u64,
}

impl Model for Log {
    ghost use Rattle.std.specs.Coded.{codes};
    ghost use Rattle.mt_history.specs.contracts.history.History as entries_of;
    ghost use Rattle.mt_world.specs.Logs.{Log as State, IsLog};

    ghost Value = { State };

    ghost coded = { Prim.hlevel (codes, entries_of.the_row.coded) };

    ghost view = { λ l. record { history = l.history; numbers = l.numbers.entries; fault_entries = l.fault_entries } };

    ghost invariant = { λ l. IsLog (record { history = l.history; numbers = l.numbers.entries; fault_entries = l.fault_entries }) };
}

/// Holds the number of a caller's next entry in hand: that of a caller without entries is 0.
fn hold_number(numbers: &mut BTreeMap<u32, u64, Global>, caller: u32) -> Result<(), NoMemory>
    ensures same { (c : ℕ) → count_at (number_in numbers.new.entries) c ≡ count_at (number_in numbers.old.entries) c }
    ensures ok { OnOk result (IsSome (number_in numbers.new.entries caller)) }
{
    if numbers.contains_key(&caller) {
        return Ok(());
    }
    match numbers.insert(caller, 0) {
        Ok(_) => Ok(()),
        Err(_) => Err(NoMemory),
    }
}

/// How many entries of failed store calls were made, with one that says this.
fn count_with(what: &What, count: u64) -> u64
    ensures { result ≡ faults_with what.now count }
{
    match what {
        What::Fault => count.saturating_add(1),
        What::Batch { .. }
        | What::Refused { .. }
        | What::Query { .. }
        | What::Scan { .. }
        | What::Gap { .. } => count,
    }
}

impl Log {
    /// An empty log that may have so many entries, 1 to 1,048,576. It takes no memory.
    pub fn new(alloc: Global, entries: u64) -> Log
        requires some { 1 ≤ entries }
        requires bounded { entries ≤ 1048576 }
        ensures first { result.history.first ≡ 0 }
        ensures entries { result.history.entries ≡ [] }
        ensures limit { result.history.limit ≡ entries }
        ensures numbers { result.numbers ≡ [] }
        ensures faults { result.fault_entries ≡ 0 }
    {
        Log {
            history: History::new(alloc, entries),
            numbers: BTreeMap::new(alloc),
            fault_entries: 0,
        }
    }

    pub fn history(&self) -> &History
        ensures { result.now ≡ self.now.history }
    {
        &self.history
    }

    /// How many entries there are.
    pub fn len(&self) -> u64
        ensures value { result ≡ length self.now.history.entries }
        ensures valid { IsLog self.now }
    {
        self.history.len()
    }

    /// The entry at a place. One that tells of an applied batch has a tag for each operation.
    pub fn get(&self, at: u64) -> Option<&Entry>
        ensures value { option_copied result ≡ entry_at self.now.history at }
        ensures tagged { IfSome (option_copied result) (λ e. IsTagged e.what) }
    {
        self.history.get(at)
    }

    /// Takes the memory for one more entry of a caller. The one error is want of memory.
    pub fn reserve(&mut self, caller: u32) -> Result<(), NoMemory>
        ensures same { Reserves self.old self.new }
        ensures ok { OnOk result (IsReady self.new caller) }
    {
        hold_number(&mut self.numbers, caller)?;
        self.history.reserve()
    }

    /// Adds the caller's next entry, in the memory that is in hand. It cannot be refused.
    pub fn push(&mut self, caller: u32, what: What)
        requires ready { IsReady self.old caller }
        requires room { IsTrue (has_room self.old.history (weight what)) }
        requires tagged { IsTagged what }
        ensures history { self.new.history ≡ record self.old.history { entries = self.old.history.entries ++ entry_of self.old.numbers caller what ∷ []; spare = self.old.history.spare - 1 } }
        ensures numbers { (other : ℕ) → next_number self.new.numbers other ≡ number_of_next self.old.numbers caller other }
        ensures faults { self.new.fault_entries ≡ faults_with what self.old.fault_entries }
    {
        self.fault_entries = count_with(&what, self.fault_entries);
        let Some(next) = self.numbers.get_mut(&caller) else {
            unreachable!();
        };
        let number = *next;
        *next += 1;
        self.history.push(Entry {
            caller,
            number,
            what,
        });
    }
}
