ghost use Rattle.std.specs.Prelude.{◌≡◌, IfSome};
ghost use Rattle.mt_chain.specs.Puts.{CanApply};
ghost use Rattle.mt_chain.specs.StoreCall.{CanQuery};
ghost use Rattle.mt_chain.specs.Store.{Store, Applies, Queries, Nexts, Seals};

use crate::query::{Found, Next, PkFrom, RangeQuery};
use crate::row::{Puts, Tags};
use mt_model::Text;
use std::alloc::Global;

/// Why a store call changed nothing.
#[derive(Clone, Copy, Debug, PartialEq, Eq)]
pub enum KeepFault {
    /// The least change, counted from 0, whose condition does not hold. Of `apply` alone.
    Unmet { index: u32 },
    /// The store is sealed, and the partition has no row. Of `apply` alone.
    Sealed,
    /// The store failed; its count of faults rose.
    Failed,
    /// The allocator had no memory.
    NoMemory,
}

/// A store of rows by key.
///
/// It counts its calls and its faults; both counts stand still at their end. The count of faults rises
/// in a call that is `Failed`, and in no other, also not for want of memory. A call that does not
/// answer Ok leaves rows, seal and counter as they were. From call 2^62 on each call is `Failed`, and
/// so is a call that asks for more changes than the counter has tags left below 2^62.
pub trait Keeper: Drop {
    ghost state: { Self → Store };

    /// The store's number. Not a store call: nothing changes or is counted.
    fn number(&self) -> u32
        ensures { result ≡ (state self.now).number };

    /// How many tags the store gave, where it tells its contents. Not a store call.
    fn counter(&self) -> u64
        ensures { IfSome (state self.now).told (λ c. result ≡ c.counter) };

    /// Makes all changes of a partition at once, or none.
    ///
    /// 1 to 101 changes of distinct rows, all judged on the rows before the call. Answers one tag for
    /// each: the next one of the store for a row that is written, else the one named. `Failed` where
    /// the counter plus the number of changes passes 2^62.
    fn apply(&mut self, alloc: Global, pk: &Text, puts: &Puts) -> Result<Tags, KeepFault>
        requires { CanApply puts.now }
        ensures { Applies (state self.old) pk.now puts.now result (state self.new) };

    /// Rows of one partition, by their keys and in a range.
    fn query(&mut self, alloc: Global, query: &RangeQuery) -> Result<Found, KeepFault>
        requires { CanQuery query.now }
        ensures { Queries (state self.old) query.now result (state self.new) };

    /// The least partition key with a row, at or after a place.
    fn next_partition(&mut self, alloc: Global, at: &PkFrom) -> Result<Next, KeepFault>
        ensures { Nexts (state self.old) at.now result (state self.new) };

    /// Seals the store: from now on no partition is born in it.
    fn seal(&mut self, alloc: Global) -> Result<(), KeepFault>
        ensures { Seals (state self.old) result (state self.new) };
}
