//! Two stores opened as one table.
ghost use Rattle.std.specs.Prelude.{◌≡◌};
ghost use Rattle.mt_open.specs.Holdings.{pair_in};
ghost use Rattle.mt_open.specs.Opening.{HoldsStore, OpensPair, OpensStores, Finds, fault_of, damaged};

use crate::damage::Damage;
use crate::first::first_damage;
use crate::holding::Holding;
use crate::holdings::Holdings;
use crate::reading::{ReadFault, read_store};
use crate::walk::logical_table;
use mt_chain::Keeper;
use mt_model::{Entities, Key, NoMemory};
use std::alloc::Global;

/// What two stores show that were opened as one table.
#[derive(Drop)]
pub struct OpenedPair {
    /// The rows that clients see, in the order of their keys.
    pub table: Entities,

    /// Whether the old store is sealed and has no row.
    pub is_old_emptied: bool,
}

/// Why two stores were not opened.
#[derive(Debug, Drop, PartialEq, Eq)]
pub enum OpenFault {
    /// The stores are no sound pair. This is the first place where they fail one of the rules.
    Damaged {
        /// The number of the store.
        store: u32,
        /// The key of a row there, or of two empty texts where the store is sealed.
        key: Key,
        /// The number of the rule, from 1 to 8.
        rule: u8,
    },
    /// One of the stores failed; its count of faults rose.
    StoreFault,
    /// The allocator had no memory.
    NoMemory,
}

impl From<NoMemory> for OpenFault {
    ghost use Rattle.mt_open.specs.declared.opening.OpenFault.TheVariants.{NoMemory};

    ghost from_gives = { λ _ e. e ≡ NoMemory };

    fn from(_e: NoMemory) -> OpenFault {
        OpenFault::NoMemory
    }
}

/// All that a store holds, with its number.
fn hold<K: Keeper>(alloc: Global, keeper: &mut K) -> Result<Holding, ReadFault>
    ensures { HoldsStore (K.state keeper.old) result (K.state keeper.new) }
{
    match read_store(alloc, keeper) {
        Ok(loaded) => Ok(Holding::of(
            keeper.number(),
            loaded.rows,
            loaded.sealed,
            keeper.counter(),
        )),
        Err(fault) => Err(fault),
    }
}

fn fault_of(fault: ReadFault) -> OpenFault
    ensures { result ≡ fault_of fault }
{
    match fault {
        ReadFault::Failed => OpenFault::StoreFault,
        ReadFault::NoMemory => OpenFault::NoMemory,
    }
}

fn damaged(damage: Damage) -> OpenFault
    ensures { result ≡ damaged damage }
{
    OpenFault::Damaged {
        store: damage.store,
        key: damage.key,
        rule: damage.rule.number(),
    }
}

/// The logical table of two stores that were read whole, or where they are first damaged.
fn table_of(alloc: Global, stores: &Holdings) -> Result<Entities, OpenFault>
    ensures { Finds (pair_in stores.now) result }
{
    match first_damage(alloc, stores) {
        Ok(None) => Ok(logical_table(alloc, stores)?),
        Ok(Some(damage)) => Err(damaged(damage)),
        Err(NoMemory) => Err(OpenFault::NoMemory),
    }
}

/// Opens two stores as one table: reads the old one whole, then the new one, and gives the rows that
/// clients see, in the order of their keys. It tells from what it read whether the old store is sealed
/// and has no row.
///
/// Rows come only of a sound pair. `Damaged` comes only of one that is not, with the first damage: by
/// the rules in their order, then by the least key, and at equal keys old before new. `StoreFault`
/// comes only where one of the two stores failed, and its count of faults rose; after every other answer
/// both counts are as before. The contents of both stay as they were, whatever is answered.
pub fn open_stores<K: Keeper>(
    alloc: Global,
    old_store: &mut K,
    new_store: &mut K,
) -> Result<OpenedPair, OpenFault>
    ensures { OpensStores (K.state old_store.old) (K.state new_store.old) result (K.state old_store.new) (K.state new_store.new) }
{
    let old = match hold(alloc, old_store) {
        Ok(old) => old,
        Err(fault) => return Err(fault_of(fault)),
    };
    let new = match hold(alloc, new_store) {
        Ok(new) => new,
        Err(fault) => return Err(fault_of(fault)),
    };
    let is_old_emptied = old.is_emptied();
    match table_of(alloc, &Holdings { old, new }) {
        Ok(table) => Ok(OpenedPair {
            table,
            is_old_emptied,
        }),
        Err(fault) => Err(fault),
    }
}

/// Opens two stores as one table, as `open_stores` does, and gives the rows that clients see.
pub fn open_pair<K: Keeper>(
    alloc: Global,
    old_store: &mut K,
    new_store: &mut K,
) -> Result<Entities, OpenFault>
    ensures { OpensPair (K.state old_store.old) (K.state new_store.old) result (K.state old_store.new) (K.state new_store.new) }
{
    match open_stores(alloc, old_store, new_store) {
        Ok(opened) => Ok(opened.table),
        Err(fault) => Err(fault),
    }
}
