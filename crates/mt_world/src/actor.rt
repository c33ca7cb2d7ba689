//! Who takes turns, and what comes of them.
ghost use Rattle.std.specs.Prelude.{◌≡◌};
ghost use Rattle.mt_migrate.specs.Moves.{begin};
ghost use Rattle.mt_clean.specs.declared.state.State.TheVariants as at;
ghost use Rattle.mt_world.specs.Worlds.{WorldState};
ghost use Rattle.mt_world.specs.Moves.{CanStep};
ghost use Rattle.mt_world.specs.Turns.{Knows};

use mt_batch_plan::BatchCall;
use mt_chain::{Refusal, Tags};
use mt_clean::Cleaner;
use mt_filter::Filter;
use mt_migrate::Migrator;
use mt_model::{Entities, Text};
use mt_query_plan::QueryCall;
use mt_rules::Batch;
use mt_scan::{Page, PageCall, Token};
use std::alloc::Global;

/// What a client asks for.
#[derive(Drop)]
pub enum Request {
    /// All operations of a batch at once, or none.
    Batch(Batch),

    /// The rows of a partition, or those of them that a filter matches.
    Query {
        pk: Text,
        filter: Option<Filter>,
    },

    /// A page of the rows of the table, or of those of them that a filter matches: at most `top`, which
    /// is 1 to 1,000, from the token's place on, whose keys meet the rules, or from the start.
    Page {
        filter: Option<Filter>,
        top: u32,
        token: Option<Token>,
    },
}

/// A client's call.
#[derive(Drop)]
pub enum ClientCall {
    Batch(BatchCall),
    Query(QueryCall),
    Page(PageCall),

    /// The call was answered, or broke off at its first fault.
    Ended,
}

/// Who takes a turn.
#[derive(Drop)]
pub enum Actor {
    Client(ClientCall),

    /// It moves the table from the old store to the new one. It leaves no entry but those of failed
    /// store calls, and goes on after each of them.
    Migrator(Migrator),

    /// It empties the old store once that is sealed and its partitions are in the new one alone. It
    /// leaves entries as a migrator does.
    Cleaner(Cleaner),
}

impl Actor {
    /// A migrator at its beginning, which knows nothing yet. It takes no memory.
    pub fn migrator(alloc: Global) -> Actor
        ensures begins { result ≡ Actor.Migrator begin }
        ensures ready { CanStep result }
        ensures knows { (w : WorldState) → Knows w result }
    {
        Actor::Migrator(Migrator::new(alloc))
    }

    /// A cleaner at its beginning, which knows nothing yet. It takes no memory.
    pub fn cleaner() -> Actor
        ensures begins { result ≡ Actor.Cleaner at.Walk }
        ensures ready { CanStep result }
        ensures knows { (w : WorldState) → Knows w result }
    {
        Actor::Cleaner(Cleaner::new())
    }
}

/// What an actor is answered.
#[derive(Drop)]
pub enum Answer {
    /// The batch was applied: one tag for each operation, that of the row that it wrote, or for a
    /// delete that of the row that went.
    Written(Tags),

    /// An operation refuses the batch, and nothing changed.
    Refused(Refusal),

    /// These rows were asked for, in the order of their keys: each with its visible properties and the
    /// tag that clients see.
    Rows(Entities),

    /// This page was asked for: its rows in the order of their keys, each as above, and where the next
    /// page begins.
    Page(Page),

    /// The migrator is done: the old store is sealed, and each of its partitions is in the new one alone.
    Moved,

    /// The cleaner is done: the old store is sealed and has no row, and the world is retired.
    Cleaned,

    /// The cleaner has seen that the old store is not sealed, and is at its beginning.
    NotSealed,

    /// The cleaner has seen that new does not use this partition of old alone, and is at its beginning.
    NotMigrated { pk: Text },
}

/// What a turn came to.
#[derive(Drop)]
pub enum Progress {
    /// The actor goes on.
    More,
    Done(Answer),
}

/// Why a turn came to nothing.
#[derive(Clone, Copy, Debug, PartialEq, Eq)]
pub enum TurnFault {
    /// The store call failed; its store's count of faults rose, and the history has an entry of it.
    StoreFault,

    /// The history has no room for the turn's need, and no call was made.
    HistoryFull,

    /// The allocator had no memory; no row changed, and no entry was added.
    NoMemory,
}

/// What turns one after the other came to.
#[derive(Drop)]
pub struct Stepped {
    /// How many turns there were, that of a fault among them.
    pub taken: u32,

    /// What the last of them came to. It is `More` only where there was no further turn to take.
    pub came: Result<Progress, TurnFault>,
}
