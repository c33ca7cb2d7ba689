//! A depot of two stores in memory.
ghost use Rattle.std.specs.Prelude.{◌≡◌, true, Some};
ghost use Rattle.mt_chain.specs.Shelf.{Opens, TakesBack};
ghost use Rattle.mt_mem.specs.Memory.{store_of};
ghost use Rattle.mt_mem.specs.MemoryShelf.{MemoryShelf, shelf_of, HandsOut, taken_back, is_out};

use crate::keeper::MemKeeper;
use mt_chain::{Depot, DepotFault, Keeper};
use std::alloc::Global;
use std::marker::Model;

/// A depot of two stores in memory, of the numbers 0 and 1.
///
/// Asked for another number, or for a store that is out, it fails. Nothing else fails, and no call
/// takes memory. It tells what stands in its places.
#[derive(Drop)]
pub struct MemDepot {
    old_store: Option<MemKeeper>,
    new_store: Option<MemKeeper>,
    faults: u64,
}

impl Model for MemDepot {
    ghost use Rattle.mt_mem.specs.MemoryShelf.{MemoryShelf, IsMemoryShelf};

    ghost Value = { MemoryShelf };

    ghost view = { λ d. record { old_store = d.old_store; new_store = d.new_store; faults = d.faults } };

    ghost invariant = { λ d. IsMemoryShelf (record { old_store = d.old_store; new_store = d.new_store; faults = d.faults }) };
}

impl MemDepot {
    /// A depot that has these two stores, of the numbers 0 and 1, which have no faults.
    pub fn new(old: MemKeeper, new: MemKeeper) -> MemDepot
        requires numbers { (old.store ≡ 0) × (new.store ≡ 1) }
        requires clean { (old.faults ≡ 0) × (new.faults ≡ 0) }
        ensures { result ≡ record { old_store = Some old; new_store = Some new; faults = 0 } }
    {
        let mut depot = MemDepot {
            old_store: None,
            new_store: None,
            faults: 0,
        };
        depot.take_back(old);
        depot.take_back(new);
        depot
    }
}

impl Depot for MemDepot {
    type Keeper = MemKeeper;

    ghost shelf = { shelf_of };

    fn open_store(&mut self, _alloc: Global, store: u32) -> Result<MemKeeper, DepotFault>
        ensures depot { Opens store_of (shelf_of self.old) store result (shelf_of self.new) }
        ensures hands_out { HandsOut self.old store result self.new }
    {
        let found = match store {
            0 => self.old_store.take(),
            1 => self.new_store.take(),
            _ => None,
        };
        match found {
            Some(keeper) => Ok(keeper),
            None => {
                self.faults = self.faults.saturating_add(1);
                Err(DepotFault::Failed)
            }
        }
    }

    fn take_back(&mut self, keeper: MemKeeper)
        requires { is_out self.old keeper.store ≡ true }
        ensures depot { TakesBack (shelf_of self.old) (store_of keeper) (shelf_of self.new) }
        ensures taken { self.new ≡ taken_back self.old keeper }
    {
        let mut keeper = keeper;
        self.faults = self.faults.saturating_add(keeper.take_faults());
        if keeper.number() == 0 {
            self.old_store = Some(keeper);
        } else {
            self.new_store = Some(keeper);
        }
    }
}
