//! A store in memory of either kind.
ghost use Rattle.std.specs.Prelude.{◌≡◌, [], false, IfOk};
ghost use Rattle.mt_chain.specs.Puts.{CanApply};
ghost use Rattle.mt_chain.specs.StoreCall.{CanQuery};
ghost use Rattle.mt_chain.specs.Store.{Applies, Queries, Nexts, Seals};
ghost use Rattle.mt_mem.specs.Memory.{IsMemory, is_failing, is_apply_failing, counted, Leaves, done_in, sealed_in};
ghost use Rattle.mt_top.specs.Keepers.{memory_of, keeper_of, kind_of, forgiven};

use mt_chain::{Found, KeepFault, Keeper, Next, PkFrom, Puts, RangeQuery, Tags};
use mt_mem::MemKeeper;
use mt_model::{NoMemory, Text};
use mt_paged::PagedKeeper;
use mt_words::StoreChoice;
use std::alloc::Global;

/// A store in memory of either kind, which answers as the one inside.
#[derive(Drop)]
pub enum AnyKeeper {
    /// Its rows stand in one list.
    Plain(MemKeeper),
    /// Its rows stand in pages.
    Paged(PagedKeeper),
}

impl AnyKeeper {
    /// An empty store of this kind and number, not sealed, which does not fail before call 2^62. The one
    /// error is want of memory, and not for a plain one.
    pub fn new(alloc: Global, choice: StoreChoice, store: u32) -> Result<AnyKeeper, NoMemory>
        ensures kind { IfOk result (λ k. kind_of k ≡ choice) }
        ensures empty { IfOk result (λ k. memory_of k ≡ record { store = store; rows = []; sealed = false; counter = 0; calls = 0; faults = 0; failing = [] }) }
    {
        let failing = Vec::new(alloc);
        match choice {
            StoreChoice::Plain => Ok(AnyKeeper::Plain(MemKeeper::new(alloc, store, failing))),
            StoreChoice::Paged => Ok(AnyKeeper::Paged(PagedKeeper::new(alloc, store, failing)?)),
        }
    }

    /// Sets the count of faults to 0, and answers what it was.
    pub(crate) fn take_faults(&mut self) -> u64
        ensures faults { result ≡ (memory_of self.old).faults }
        ensures rest { self.new ≡ forgiven self.old }
        ensures memory { IsMemory (memory_of self.old) }
    {
        match self {
            AnyKeeper::Plain(keeper) => keeper.take_faults(),
            AnyKeeper::Paged(keeper) => keeper.take_faults(),
        }
    }
}

impl Keeper for AnyKeeper {
    ghost state = { keeper_of };

    fn number(&self) -> u32 {
        match self {
            AnyKeeper::Plain(keeper) => keeper.number(),
            AnyKeeper::Paged(keeper) => keeper.number(),
        }
    }

    fn counter(&self) -> u64 {
        match self {
            AnyKeeper::Plain(keeper) => keeper.counter(),
            AnyKeeper::Paged(keeper) => keeper.counter(),
        }
    }

    fn apply(&mut self, alloc: Global, pk: &Text, puts: &Puts) -> Result<Tags, KeepFault>
        requires { CanApply puts.now }
        ensures keeper { Applies (keeper_of self.old) pk.now puts.now result (keeper_of self.new) }
        ensures leaves { Leaves (is_apply_failing (memory_of self.old) puts.now) (memory_of self.old) (done_in (counted (memory_of self.old)) pk.now puts.now) result (memory_of self.new) }
        ensures kind { kind_of self.new ≡ kind_of self.old }
    {
        match self {
            AnyKeeper::Plain(keeper) => keeper.apply(alloc, pk, puts),
            AnyKeeper::Paged(keeper) => keeper.apply(alloc, pk, puts),
        }
    }

    fn query(&mut self, alloc: Global, query: &RangeQuery) -> Result<Found, KeepFault>
        requires { CanQuery query.now }
        ensures keeper { Queries (keeper_of self.old) query.now result (keeper_of self.new) }
        ensures leaves { Leaves (is_failing (memory_of self.old)) (memory_of self.old) (counted (memory_of self.old)) result (memory_of self.new) }
        ensures kind { kind_of self.new ≡ kind_of self.old }
    {
        match self {
            AnyKeeper::Plain(keeper) => keeper.query(alloc, query),
            AnyKeeper::Paged(keeper) => keeper.query(alloc, query),
        }
    }

    fn next_partition(&mut self, alloc: Global, at: &PkFrom) -> Result<Next, KeepFault>
        ensures keeper { Nexts (keeper_of self.old) at.now result (keeper_of self.new) }
        ensures leaves { Leaves (is_failing (memory_of self.old)) (memory_of self.old) (counted (memory_of self.old)) result (memory_of self.new) }
        ensures kind { kind_of self.new ≡ kind_of self.old }
    {
        match self {
            AnyKeeper::Plain(keeper) => keeper.next_partition(alloc, at),
            AnyKeeper::Paged(keeper) => keeper.next_partition(alloc, at),
        }
    }

    fn seal(&mut self, alloc: Global) -> Result<(), KeepFault>
        ensures keeper { Seals (keeper_of self.old) result (keeper_of self.new) }
        ensures leaves { Leaves (is_failing (memory_of self.old)) (memory_of self.old) (sealed_in (counted (memory_of self.old))) result (memory_of self.new) }
        ensures kind { kind_of self.new ≡ kind_of self.old }
    {
        match self {
            AnyKeeper::Plain(keeper) => keeper.seal(alloc),
            AnyKeeper::Paged(keeper) => keeper.seal(alloc),
        }
    }
}
