//! What is asked of one of two stores and what it answers, as values.
ghost use Rattle.mt_chain.specs.Asks.{CanAsk, Calls};

use crate::keeper::{KeepFault, Keeper};
use crate::query::{Found, Next, PkFrom, RangeQuery};
use crate::row::{Puts, Tags};
use mt_model::Text;
use std::alloc::Global;

/// One of two stores.
#[derive(Clone, Copy, Debug, PartialEq, Eq)]
pub enum Side {
    Old,
    New,
}

/// A store call with its arguments.
#[derive(Drop)]
pub enum Ask {
    Query(RangeQuery),

    /// All changes of a partition at once, or none.
    Apply { pk: Text, puts: Puts },
    Next(PkFrom),
    Seal,
}

/// A call of one of two stores.
#[derive(Drop)]
pub struct StoreAsk {
    pub side: Side,
    pub ask: Ask,
}

/// What a store answers to a call that it did not fail.
#[derive(Drop)]
pub enum StoreReply {
    /// To a query.
    Found(Found),

    /// All changes were made: one tag for each.
    Applied(Tags),

    /// To the question for the next partition.
    Next(Next),

    /// The store is sealed.
    SealDone,

    /// No change was made: the least one, counted from 0, whose condition does not hold.
    Unmet { index: u32 },

    /// No change was made: the store is sealed, and the partition has no row.
    SealedOff,
}

/// Why a store call has no answer.
#[derive(Clone, Copy, Debug, PartialEq, Eq)]
pub enum CallFault {
    /// The store failed; its count of faults rose.
    Failed,

    /// The allocator had no memory; no count of faults rose.
    NoMemory,
}

impl Ask {
    /// Makes the call of a store. After a fault the store holds what it held before. Its count of
    /// faults rises where the call is `Failed`, and nowhere else.
    pub fn call<K: Keeper>(&self, alloc: Global, keeper: &mut K) -> Result<StoreReply, CallFault>
        requires { CanAsk self.now }
        ensures { Calls (K.state keeper.old) self.now result (K.state keeper.new) }
    {
        match self {
            Ask::Query(query) => match keeper.query(alloc, query) {
                Ok(found) => Ok(StoreReply::Found(found)),
                Err(KeepFault::Failed) => Err(CallFault::Failed),
                Err(KeepFault::NoMemory) => Err(CallFault::NoMemory),
                Err(KeepFault::Unmet { .. } | KeepFault::Sealed) => unreachable!(),
            },
            Ask::Apply { pk, puts } => match keeper.apply(alloc, pk, puts) {
                Ok(tags) => Ok(StoreReply::Applied(tags)),
                Err(KeepFault::Unmet { index }) => Ok(StoreReply::Unmet { index }),
                Err(KeepFault::Sealed) => Ok(StoreReply::SealedOff),
                Err(KeepFault::Failed) => Err(CallFault::Failed),
                Err(KeepFault::NoMemory) => Err(CallFault::NoMemory),
            },
            Ask::Next(at) => match keeper.next_partition(alloc, at) {
                Ok(next) => Ok(StoreReply::Next(next)),
                Err(KeepFault::Failed) => Err(CallFault::Failed),
                Err(KeepFault::NoMemory) => Err(CallFault::NoMemory),
                Err(KeepFault::Unmet { .. } | KeepFault::Sealed) => unreachable!(),
            },
            Ask::Seal => match keeper.seal(alloc) {
                Ok(()) => Ok(StoreReply::SealDone),
                Err(KeepFault::Failed) => Err(CallFault::Failed),
                Err(KeepFault::NoMemory) => Err(CallFault::NoMemory),
                Err(KeepFault::Unmet { .. } | KeepFault::Sealed) => unreachable!(),
            },
        }
    }
}
