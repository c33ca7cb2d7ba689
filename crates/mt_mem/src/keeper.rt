//! A store in memory.
ghost use Rattle.std.specs.Prelude.{◌≡◌, ◌≢◌, ◌≤◌, ◌^◌, [], false, Err, length, if◌then◌else◌};
ghost use Rattle.mt_chain.specs.Puts.{CanApply};
ghost use Rattle.mt_chain.specs.StoreCall.{CanQuery};
ghost use Rattle.mt_chain.specs.Store.{Applies, Queries, Nexts, Seals};
ghost use Rattle.mt_mem.specs.Entries.{entries};
ghost use Rattle.mt_mem.specs.Memory.{Memory, IsMemory, AreRows, store_of, risen, is_failing, is_at_end, is_apply_failing, counted, failed, Leaves, Judges, done_in, sealed_in, without_faults};

use crate::answer::{find, next_key};
use crate::change::{make_all, prepare};
use crate::judge::unmet;
use crate::lookup::{Row, has_partition};
use crate::rewrite::Rewrite;
use mt_chain::{Found, KeepFault, Keeper, Next, PkFrom, Puts, RangeQuery, StoredRow, Tags};
use mt_model::{NoMemory, Text};
use std::alloc::Global;
use std::collections::VecDeque;
use std::marker::Model;
use std::mem;

/// A store in memory, which fails at the listed calls.
///
/// Store calls are counted from 1. A call that is listed fails, and each from call 2^62 on. So does
/// a call of `apply` whose puts could bring the counter of tags past 2^62. No other call fails.
#[derive(Drop)]
pub struct MemKeeper {
    store: u32,
    rows: Vec<Row>,
    sealed: bool,
    counter: u64,
    calls: u64,
    faults: u64,
    failing: Vec<u64>,
}

impl Model for MemKeeper {
    ghost use Rattle.mt_mem.specs.Entries.{entries};
    ghost use Rattle.mt_mem.specs.Memory.{Memory, IsMemory};

    ghost Value = { Memory };

    ghost view = { λ m. record { store = m.store; rows = entries m.rows.items; sealed = m.sealed; counter = m.counter; calls = m.calls; faults = m.faults; failing = m.failing.items } };

    ghost invariant = { λ m. IsMemory (record { store = m.store; rows = entries m.rows.items; sealed = m.sealed; counter = m.counter; calls = m.calls; faults = m.faults; failing = m.failing.items }) };
}

/// The greatest number of a tag, and the number of the call from which all fail.
const END: u64 = 1 << 62;

impl MemKeeper {
    /// An empty store of this number, not sealed, which fails at the listed calls. Takes no memory.
    pub fn new(alloc: Global, store: u32, failing: Vec<u64>) -> MemKeeper
        ensures { result ≡ record { store = store; rows = []; sealed = false; counter = 0; calls = 0; faults = 0; failing = failing.items } }
    {
        MemKeeper {
            store,
            rows: Vec::new(alloc),
            sealed: false,
            counter: 0,
            calls: 0,
            faults: 0,
            failing,
        }
    }

    /// A store of this number that has these rows, with their partition keys, and gave so many tags; it
    /// fails at the listed calls. Takes no memory.
    ///
    /// The keys of the rows rise, by partition key and then by row key. Their tags are of this store and
    /// at most the counter, and no two are the same. From a counter of 2^62 on each call of `apply`
    /// fails.
    pub fn with_rows(
        store: u32,
        rows: Vec<(Text, StoredRow)>,
        counter: u64,
        sealed: bool,
        failing: Vec<u64>,
    ) -> MemKeeper
        requires rows { AreRows store counter (entries rows.items) }
        ensures { result ≡ record { store = store; rows = entries rows.items; sealed = sealed; counter = counter; calls = 0; faults = 0; failing = failing.items } }
    {
        MemKeeper {
            store,
            rows,
            sealed,
            counter,
            calls: 0,
            faults: 0,
            failing,
        }
    }

    /// Whether the next call fails, whatever it is.
    fn is_failing(&self) -> bool
        ensures { result ≡ is_failing self.now }
    {
        let call = self.calls.saturating_add(1);
        self.failing.contains(&call) || call >= END
    }

    /// Whether puts could bring the counter past its end.
    fn is_at_end(&self, puts: &Puts) -> bool
        requires { CanApply puts.now }
        ensures { result ≡ is_at_end self.now puts.now }
    {
        self.counter.saturating_add(puts.as_slice().len() as u64) > END
    }

    /// Counts a call that fails or does not.
    fn count_call(&mut self, fails: bool)
        ensures after { self.new ≡ (if fails then failed self.old else counted self.old) }
        ensures grew { (self.old.calls ≤ risen self.old.calls) × (self.old.faults ≤ risen self.old.faults) }
        ensures memory { IsMemory self.old }
    {
        self.calls = self.calls.saturating_add(1);
        if fails {
            self.faults = self.faults.saturating_add(1);
        }
    }

    /// Takes all memory that puts need, then judges them, and does them if they hold.
    fn judge(&mut self, alloc: Global, pk: &Text, puts: &Puts) -> Result<Tags, KeepFault>
        requires can { CanApply puts.now }
        requires room { is_at_end self.old puts.now ≡ false }
        ensures { Judges self.old pk.now puts.now result self.new }
    {
        let puts = puts.as_slice();
        let Ok(plan) = prepare(alloc, self.store, self.counter, pk, puts) else {
            return Err(KeepFault::NoMemory);
        };
        let Ok(waiting) = VecDeque::with_capacity(alloc, plan.changes.len()) else {
            return Err(KeepFault::NoMemory);
        };
        if self.rows.try_reserve(plan.changes.len()).is_err() {
            return Err(KeepFault::NoMemory);
        }
        if self.sealed && !has_partition(&self.rows, pk) {
            return Err(KeepFault::Sealed);
        }
        if let Some(index) = unmet(&self.rows, pk, puts) {
            return Err(KeepFault::Unmet { index });
        }
        let rows = mem::replace(&mut self.rows, Vec::new(alloc));
        self.rows = make_all(Rewrite::new(rows, waiting), pk, plan.changes);
        self.counter = plan.counter;
        Ok(Tags::of(plan.tags))
    }

    /// Sets the count of faults to 0, and answers what it was: a depot does that which takes the store
    /// back.
    pub fn take_faults(&mut self) -> u64
        ensures faults { result ≡ self.old.faults }
        ensures rest { self.new ≡ without_faults self.old }
        ensures memory { IsMemory self.old }
    {
        let faults = self.faults;
        self.faults = 0;
        faults
    }
}

impl Keeper for MemKeeper {
    ghost state = { store_of };

    fn number(&self) -> u32 {
        self.store
    }

    fn counter(&self) -> u64 {
        self.counter
    }

    fn apply(&mut self, alloc: Global, pk: &Text, puts: &Puts) -> Result<Tags, KeepFault>
        requires { CanApply puts.now }
        ensures keeper { Applies (store_of self.old) pk.now puts.now result (store_of self.new) }
        ensures leaves { Leaves (is_apply_failing self.old puts.now) self.old (done_in (counted self.old) pk.now puts.now) result self.new }
    {
        let fails = self.is_failing() || self.is_at_end(puts);
        self.count_call(fails);
        if fails {
            return Err(KeepFault::Failed);
        }
        self.judge(alloc, pk, puts)
    }

    fn query(&mut self, alloc: Global, query: &RangeQuery) -> Result<Found, KeepFault>
        requires { CanQuery query.now }
        ensures keeper { Queries (store_of self.old) query.now result (store_of self.new) }
        ensures leaves { Leaves (is_failing self.old) self.old (counted self.old) result self.new }
    {
        let fails = self.is_failing();
        self.count_call(fails);
        if fails {
            return Err(KeepFault::Failed);
        }
        let Ok(found) = find(alloc, &self.rows, self.sealed, query) else {
            return Err(KeepFault::NoMemory);
        };
        Ok(found)
    }

    fn next_partition(&mut self, alloc: Global, at: &PkFrom) -> Result<Next, KeepFault>
        ensures keeper { Nexts (store_of self.old) at.now result (store_of self.new) }
        ensures leaves { Leaves (is_failing self.old) self.old (counted self.old) result self.new }
    {
        let fails = self.is_failing();
        self.count_call(fails);
        if fails {
            return Err(KeepFault::Failed);
        }
        match next_key(alloc, &self.rows, at) {
            Ok(pk) => Ok(Next {
                pk,
                sealed: self.sealed,
            }),
            Err(NoMemory) => Err(KeepFault::NoMemory),
        }
    }

    fn seal(&mut self, _alloc: Global) -> Result<(), KeepFault>
        ensures keeper { Seals (store_of self.old) result (store_of self.new) }
        ensures leaves { Leaves (is_failing self.old) self.old (sealed_in (counted self.old)) result self.new }
        ensures no_memory { result ≢ Err KeepFault.NoMemory }
    {
        let fails = self.is_failing();
        self.count_call(fails);
        if fails {
            return Err(KeepFault::Failed);
        }
        self.sealed = true;
        Ok(())
    }
}
