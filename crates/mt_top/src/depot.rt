//! A depot of two stores in memory of either kind.
ghost use Rattle.std.specs.Prelude.{◌≡◌, true, false, [], Some, IfOk};
ghost use Rattle.mt_chain.specs.Shelf.{Opens, TakesBack};
ghost use Rattle.mt_mem.specs.MemoryShelf.{is_out};
ghost use Rattle.mt_top.specs.Keepers.{memory_of, keeper_of, kind_of};
ghost use Rattle.mt_top.specs.Shelves.{AnyShelf, memories_of, depot_of, HandsOut, taken_back, IsFresh};

use crate::keeper::AnyKeeper;
use mt_chain::{Depot, DepotFault, Keeper};
use mt_model::NoMemory;
use mt_words::StoreChoice;
use std::alloc::Global;
use std::marker::Model;

/// A depot of two stores in memory of either kind, of the numbers 0 and 1.
///
/// Asked for another number, or for a store that is out, it fails. Nothing else fails, and handing out
/// and taking back take no memory. It tells what stands in its places.
#[derive(Drop)]
pub struct AnyDepot {
    old_store: Option<AnyKeeper>,
    new_store: Option<AnyKeeper>,
    faults: u64,
}

impl Model for AnyDepot {
    ghost use Rattle.mt_top.specs.Shelves.{AnyShelf, IsAnyShelf};

    ghost Value = { AnyShelf };

    ghost view = { λ d. record { old_store = d.old_store; new_store = d.new_store; faults = d.faults } };

    ghost invariant = { λ d. IsAnyShelf (record { old_store = d.old_store; new_store = d.new_store; faults = d.faults }) };
}

impl AnyDepot {
    /// A depot that has these two stores, of the numbers 0 and 1, which have no faults.
    pub fn new(old: AnyKeeper, new: AnyKeeper) -> AnyDepot
        requires numbers { ((memory_of old).store ≡ 0) × ((memory_of new).store ≡ 1) }
        requires clean { ((memory_of old).faults ≡ 0) × ((memory_of new).faults ≡ 0) }
        ensures { result ≡ record { old_store = Some old; new_store = Some new; faults = 0 } }
    {
        let mut depot = AnyDepot {
            old_store: None,
            new_store: None,
            faults: 0,
        };
        depot.take_back(old);
        depot.take_back(new);
        depot
    }

    /// A depot of two stores without rows, of this kind, which do not fail before their call 2^62. The one
    /// error is want of memory.
    pub fn empty(alloc: Global, choice: StoreChoice) -> Result<AnyDepot, NoMemory>
        ensures { IfOk result (IsFresh choice) }
    {
        let old = AnyKeeper::new(alloc, choice, 0)?;
        let new = AnyKeeper::new(alloc, choice, 1)?;
        Ok(AnyDepot::new(old, new))
    }
}

impl Depot for AnyDepot {
    type Keeper = AnyKeeper;

    ghost shelf = { depot_of };

    fn open_store(&mut self, _alloc: Global, store: u32) -> Result<AnyKeeper, DepotFault>
        ensures depot { Opens keeper_of (depot_of self.old) store result (depot_of self.new) }
        ensures hands_out { HandsOut self.old store result self.new }
    {
        let found = match store {
            0 => self.old_store.take(),
            1 => self.new_store.take(),
            _ => None,
        };
        match found {
            Some(keeper) => Ok(keeper),
            None => {
                self.faults = self.faults.saturating_add(1);
                Err(DepotFault::Failed)
            }
        }
    }

    fn take_back(&mut self, keeper: AnyKeeper)
        requires { is_out (memories_of self.old) (memory_of keeper).store ≡ true }
        ensures depot { TakesBack (depot_of self.old) (keeper_of keeper) (depot_of self.new) }
        ensures taken { self.new ≡ taken_back self.old keeper }
    {
        let mut keeper = keeper;
        self.faults = self.faults.saturating_add(keeper.take_faults());
        if keeper.number() == 0 {
            self.old_store = Some(keeper);
        } else {
            self.new_store = Some(keeper);
        }
    }
}
