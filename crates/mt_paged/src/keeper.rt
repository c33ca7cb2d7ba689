//! A store in memory, in pages.
ghost use Rattle.std.specs.Prelude.{◌≡◌, ◌≢◌, ◌≤◌, ◌^◌, [], false, Err, IfOk, length, if◌then◌else◌};
ghost use Rattle.mt_chain.specs.Puts.{CanApply};
ghost use Rattle.mt_chain.specs.StoreCall.{CanQuery};
ghost use Rattle.mt_chain.specs.Store.{Applies, Queries, Nexts, Seals};
ghost use Rattle.mt_mem.specs.Entries.{entries};
ghost use Rattle.mt_mem.specs.Memory.{Memory, IsMemory, AreRows, store_of, risen, is_failing, is_at_end, is_apply_failing, counted, failed, Leaves, Judges, done_in, sealed_in};
ghost use Rattle.mt_paged.specs.Paged.{cleared, greatest, AreSizes};

use crate::answer::{find, next_key};
use crate::change::make_all;
use crate::judge::unmet;
use crate::lookup::has_partition;
use crate::pages::Pages;
use mt_chain::{Found, KeepFault, Keeper, Next, PkFrom, Puts, RangeQuery, StoredRow, Tags};
use mt_mem::prepare;
use mt_model::{NoMemory, Text};
use std::alloc::Global;
use std::marker::Model;

/// A store in memory whose rows stand in pages, which fails at the listed calls.
///
/// It answers as `mt_mem`'s store does, and fails where that one would. A search takes the logarithm of
/// the number of rows. An insert or a delete moves rows of one page of at most 128, whatever their number
/// is, and now and then the places of the pages behind it.
#[derive(Drop)]
pub struct PagedKeeper {
    store: u32,
    pages: Pages,
    sealed: bool,
    counter: u64,
    calls: u64,
    faults: u64,
    failing: Vec<u64>,
}

impl Model for PagedKeeper {
    ghost use Rattle.std.specs.Prelude.{map, length};
    ghost use Rattle.mt_mem.specs.Memory.{IsMemory};
    ghost use Rattle.mt_paged.specs.Pages.{rows_in};
    ghost use Rattle.mt_paged.specs.Paged.{Paged};

    ghost Value = { Paged };

    ghost view = { λ k. record { memory = record { store = k.store; rows = rows_in k.pages; sealed = k.sealed; counter = k.counter; calls = k.calls; faults = k.faults; failing = k.failing.items }; sizes = map length k.pages.pages } };

    ghost invariant = { λ k. IsMemory (record { store = k.store; rows = rows_in k.pages; sealed = k.sealed; counter = k.counter; calls = k.calls; faults = k.faults; failing = k.failing.items }) };
}

/// The greatest number of a tag, and the number of the call from which all fail.
const END: u64 = 1 << 62;

impl PagedKeeper {
    /// An empty store of this number, not sealed, which fails at the listed calls. The one error is want
    /// of memory.
    pub fn new(alloc: Global, store: u32, failing: Vec<u64>) -> Result<PagedKeeper, NoMemory>
        ensures { IfOk result (λ k. k.memory ≡ record { store = store; rows = []; sealed = false; counter = 0; calls = 0; faults = 0; failing = failing.items }) }
    {
        PagedKeeper::with_rows(alloc, store, Vec::new(alloc), 0, false, failing)
    }

    /// A store of this number that has these rows, with their partition keys, and gave so many tags; it
    /// fails at the listed calls. The one error is want of memory.
    ///
    /// The keys of the rows rise, by partition key and then by row key. Their tags are of this store and
    /// at most the counter, and no two are the same. From a counter of 2^62 on each call of `apply`
    /// fails.
    pub fn with_rows(
        alloc: Global,
        store: u32,
        rows: Vec<(Text, StoredRow)>,
        counter: u64,
        sealed: bool,
        failing: Vec<u64>,
    ) -> Result<PagedKeeper, NoMemory>
        requires rows { AreRows store counter (entries rows.items) }
        ensures { IfOk result (λ k. k.memory ≡ record { store = store; rows = entries rows.items; sealed = sealed; counter = counter; calls = 0; faults = 0; failing = failing.items }) }
    {
        Ok(PagedKeeper {
            store,
            pages: Pages::of(alloc, rows)?,
            sealed,
            counter,
            calls: 0,
            faults: 0,
            failing,
        })
    }

    /// Whether the next call fails, whatever it is.
    fn is_failing(&self) -> bool
        ensures { result ≡ is_failing self.now.memory }
    {
        let call = self.calls.saturating_add(1);
        self.failing.contains(&call) || call >= END
    }

    /// Whether puts could bring the counter past its end.
    fn is_at_end(&self, puts: &Puts) -> bool
        requires { CanApply puts.now }
        ensures { result ≡ is_at_end self.now.memory puts.now }
    {
        self.counter.saturating_add(puts.as_slice().len() as u64) > END
    }

    /// Counts a call that fails or does not.
    fn count_call(&mut self, fails: bool)
        ensures after { self.new.memory ≡ (if fails then failed self.old.memory else counted self.old.memory) }
        ensures grew { (self.old.memory.calls ≤ risen self.old.memory.calls) × (self.old.memory.faults ≤ risen self.old.memory.faults) }
        ensures memory { IsMemory self.old.memory }
    {
        self.calls = self.calls.saturating_add(1);
        if fails {
            self.faults = self.faults.saturating_add(1);
        }
    }

    /// Takes all memory that puts need, then judges them, and does them if they hold.
    fn judge(&mut self, alloc: Global, pk: &Text, puts: &Puts) -> Result<Tags, KeepFault>
        requires can { CanApply puts.now }
        requires room { is_at_end self.old.memory puts.now ≡ false }
        ensures { Judges self.old.memory pk.now puts.now result self.new.memory }
    {
        let puts = puts.as_slice();
        let Ok(plan) = prepare(alloc, self.store, self.counter, pk, puts) else {
            return Err(KeepFault::NoMemory);
        };
        if self.pages.reserve(alloc, plan.changes.len()).is_err() {
            return Err(KeepFault::NoMemory);
        }
        if self.sealed && !has_partition(&self.pages, pk) {
            return Err(KeepFault::Sealed);
        }
        if let Some(index) = unmet(&self.pages, pk, puts) {
            return Err(KeepFault::Unmet { index });
        }
        make_all(&mut self.pages, pk, plan.changes);
        self.counter = plan.counter;
        Ok(Tags::of(plan.tags))
    }

    /// Sets the count of faults to 0, and answers what it was: a depot does that which takes the store
    /// back.
    pub fn take_faults(&mut self) -> u64
        ensures faults { result ≡ self.old.memory.faults }
        ensures rest { self.new ≡ cleared self.old }
        ensures memory { IsMemory self.old.memory }
    {
        let faults = self.faults;
        self.faults = 0;
        faults
    }

    /// The number of rows of the largest page, at most 128, and 0 where there are no rows.
    pub fn largest_page(&self) -> u64
        ensures largest { result ≡ greatest self.now.sizes }
        ensures sizes { AreSizes self.now.sizes (length self.now.memory.rows) }
    {
        self.pages.largest() as u64
    }
}

impl Keeper for PagedKeeper {
    ghost state = { λ k. store_of k.memory };

    fn number(&self) -> u32 {
        self.store
    }

    fn counter(&self) -> u64 {
        self.counter
    }

    fn apply(&mut self, alloc: Global, pk: &Text, puts: &Puts) -> Result<Tags, KeepFault>
        requires { CanApply puts.now }
        ensures keeper { Applies (store_of self.old.memory) pk.now puts.now result (store_of self.new.memory) }
        ensures leaves { Leaves (is_apply_failing self.old.memory puts.now) self.old.memory (done_in (counted self.old.memory) pk.now puts.now) result self.new.memory }
    {
        let fails = self.is_failing() || self.is_at_end(puts);
        self.count_call(fails);
        if fails {
            return Err(KeepFault::Failed);
        }
        self.judge(alloc, pk, puts)
    }

    fn query(&mut self, alloc: Global, query: &RangeQuery) -> Result<Found, KeepFault>
        requires { CanQuery query.now }
        ensures keeper { Queries (store_of self.old.memory) query.now result (store_of self.new.memory) }
        ensures leaves { Leaves (is_failing self.old.memory) self.old.memory (counted self.old.memory) result self.new.memory }
    {
        let fails = self.is_failing();
        self.count_call(fails);
        if fails {
            return Err(KeepFault::Failed);
        }
        let Ok(found) = find(alloc, &self.pages, self.sealed, query) else {
            return Err(KeepFault::NoMemory);
        };
        Ok(found)
    }

    fn next_partition(&mut self, alloc: Global, at: &PkFrom) -> Result<Next, KeepFault>
        ensures keeper { Nexts (store_of self.old.memory) at.now result (store_of self.new.memory) }
        ensures leaves { Leaves (is_failing self.old.memory) self.old.memory (counted self.old.memory) result self.new.memory }
    {
        let fails = self.is_failing();
        self.count_call(fails);
        if fails {
            return Err(KeepFault::Failed);
        }
        match next_key(alloc, &self.pages, at) {
            Ok(pk) => Ok(Next {
                pk,
                sealed: self.sealed,
            }),
            Err(NoMemory) => Err(KeepFault::NoMemory),
        }
    }

    fn seal(&mut self, _alloc: Global) -> Result<(), KeepFault>
        ensures keeper { Seals (store_of self.old.memory) result (store_of self.new.memory) }
        ensures leaves { Leaves (is_failing self.old.memory) self.old.memory (sealed_in (counted self.old.memory)) result self.new.memory }
        ensures no_memory { result ≢ Err KeepFault.NoMemory }
    {
        let fails = self.is_failing();
        self.count_call(fails);
        if fails {
            return Err(KeepFault::Failed);
        }
        self.sealed = true;
        Ok(())
    }
}
