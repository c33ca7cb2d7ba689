//! The world: two stores, and the history of what happened to their table.
ghost use Rattle.std.specs.Prelude.{◌≡◌, ◌≢◌, ◌≤◌, false, IfOk, IfErr, MatchBool, Ok, Err};
ghost use Rattle.mt_open.specs.Opening.{OpensPair};
ghost use Rattle.mt_world.specs.Worlds.{IsWorld};
ghost use Rattle.mt_world.specs.Replays.{CountsRows};
ghost use Rattle.mt_world.specs.Opening.{Opened};
ghost use Rattle.mt_world.specs.Moves.{CanStep, MayRequest, IsCallOf, retired_where};
ghost use Rattle.mt_world.specs.Sealing.{SealsOld};
ghost use Rattle.mt_world.specs.Turns.{Knows, Turned};
ghost use Rattle.mt_world.specs.WholeCalls.{EndsCall, TakesSteps, is_client};

use crate::actor::{Actor, Answer, ClientCall, Progress, Request, Stepped, TurnFault};
use crate::log::Log;
use crate::opening::NotOpened;
use crate::replay::count_rows;
use crate::stage::Stage;
use mt_batch_plan::BatchCall;
use mt_chain::Keeper;
use mt_history::History;
use mt_model::{Entities, NoMemory};
use mt_open::{OpenedPair, open_stores};
use mt_query_plan::QueryCall;
use mt_scan::{PageCall, page_bounds};
use std::alloc::Global;
use std::marker::Model;
use std::snapshot::Snapshot;

/// The two stores of a world.
#[derive(Drop)]
pub struct Stores<K> {
    pub old: K,
    pub new: K,
}

/// Two stores that answer as one table, and what happened to it since they were opened.
#[derive(Drop)]
pub struct World<K: Keeper> {
    stage: Stage<K>,

    /// The rows of the table at opening.
    base: Entities,
    generation: u32,
    retired: bool,

    /// The stores as they were opened.
    old_opened: Snapshot<K>,
    new_opened: Snapshot<K>,
}

impl<K: Keeper> Model for World<K> {
    ghost use Rattle.std.specs.Coded.{codes};
    ghost use Rattle.std.specs.Prelude.{◌+◌};
    ghost use Rattle.mt_history.specs.contracts.history.History as entries_of;
    ghost use Rattle.mt_world.specs.Worlds.{WorldState, IsWorld};

    ghost Value = { WorldState };

    ghost coded = { Prim.hlevel (codes, entries_of.the_row.coded) };

    ghost view = { λ w. record {
      old_store = w.stage.old_store;
      new_store = w.stage.new_store;
      base = w.base;
      history = w.stage.log.history;
      numbers = w.stage.log.numbers;
      fault_entries = w.stage.log.fault_entries;
      calls = w.stage.calls;
      generation = w.generation;
      retired = w.retired;
      opened_faults = (K.state w.old_opened.value).faults + (K.state w.new_opened.value).faults;
    } };

    ghost invariant = { λ w. IsWorld (record {
      old_store = w.stage.old_store;
      new_store = w.stage.new_store;
      base = w.base;
      history = w.stage.log.history;
      numbers = w.stage.log.numbers;
      fault_entries = w.stage.log.fault_entries;
      calls = w.stage.calls;
      generation = w.generation;
      retired = w.retired;
      opened_faults = (K.state w.old_opened.value).faults + (K.state w.new_opened.value).faults;
    }) };
}

/// Whether a world is retired after a turn that came to this: once a cleaner is done.
fn retired_after(came: &Result<Progress, TurnFault>, retired: bool) -> bool
    ensures { result ≡ retired_where came.now retired }
{
    match came {
        Ok(Progress::Done(Answer::Cleaned)) => true,
        _ => retired,
    }
}

/// Whether an actor goes on after a turn that came to this.
fn goes_on(came: &Result<Progress, TurnFault>) -> bool
    ensures { MatchBool result (came.now ≡ Ok Progress.More) (came.now ≢ Ok Progress.More) }
{
    matches!(came, Ok(Progress::More))
}

impl<K: Keeper> World<K> {
    /// Opens two stores, the one of number 0 as the old one and that of number 1 as the new one, with a
    /// history that may have so many entries, 1 to 1,048,576.
    ///
    /// Both are read whole, the old one first. The rows of the table at opening are those that clients
    /// see of a sound pair, and the world is retired where the old store is sealed and has no row.
    /// Refused with `Damaged` exactly where the stores are no sound pair, after both were read; with
    /// `StoreFault` only where one of them failed. Stores that are not opened come back as they are.
    pub fn open_world(
        alloc: Global,
        mut old_store: K,
        mut new_store: K,
        entries: u64,
    ) -> Result<World<K>, NotOpened<K>>
        requires old { (K.state old_store).number ≡ 0 }
        requires new { (K.state new_store).number ≡ 1 }
        requires some { 1 ≤ entries }
        requires bounded { entries ≤ 1048576 }
        ensures opened { IfOk result (Opened (K.state old_store) (K.state new_store) entries) }
        ensures refused { IfErr result (λ e. OpensPair (K.state old_store) (K.state new_store) (Err e.fault) (K.state e.old) (K.state e.new)) }
    {
        match open_stores(alloc, &mut old_store, &mut new_store) {
            Ok(
                OpenedPair {
                    table,
                    is_old_emptied,
                },
            ) => {
                let old_opened = Snapshot::of(&old_store);
                let new_opened = Snapshot::of(&new_store);
                Ok(World {
                    stage: Stage {
                        old_store,
                        new_store,
                        log: Log::new(alloc, entries),
                        calls: 0,
                    },
                    base: table,
                    generation: 1,
                    retired: is_old_emptied,
                    old_opened,
                    new_opened,
                })
            }
            Err(fault) => Err(NotOpened {
                fault,
                old: old_store,
                new: new_store,
            }),
        }
    }

    /// The call of a request, at its beginning, which knows nothing yet. The world stays as it is. The
    /// one error is want of memory, for the bounds of a page.
    pub fn call_of(&mut self, alloc: Global, request: Request) -> Result<ClientCall, NoMemory>
        requires { MayRequest request }
        ensures same { self.new ≡ self.old }
        ensures call { IfOk result (IsCallOf request) }
        ensures ready { IfOk result (λ c. CanStep (Actor.Client c)) }
        ensures knows { IfOk result (λ c. Knows self.new (Actor.Client c)) }
    {
        match request {
            Request::Batch(batch) => Ok(ClientCall::Batch(BatchCall::new(alloc, batch))),
            Request::Query { pk, filter } => {
                Ok(ClientCall::Query(QueryCall::new(pk, filter, false)))
            }
            Request::Page { filter, top, token } => {
                let bounds = page_bounds(alloc, &filter)?;
                Ok(ClientCall::Page(PageCall::new(alloc, filter, bounds, top, token)))
            }
        }
    }

    /// One turn of an actor: at most one store call, and then at most one entry. An answer or a fault
    /// ends a client's call. A batch that was written is answered so: all memory is taken before. A
    /// migrator or cleaner stays where it is after a fault, and takes no further turn once it is done. The
    /// world is retired once a cleaner is done.
    ///
    /// Refused with `HistoryFull`, with nothing done, exactly where the history has no room for an entry
    /// of the weight of the call's batch or query, for a page of 64, its filter's size and 4,096, or of 64
    /// for a migrator or cleaner. The history takes in order what calls were answered, each unit of a
    /// page, and that store calls failed.
    pub fn turn(
        &mut self,
        alloc: Global,
        caller: u32,
        actor: &mut Actor,
    ) -> Result<Progress, TurnFault>
        requires ready { CanStep actor.old }
        requires knows { Knows self.old actor.old }
        ensures turns { Turned self.old caller actor.old result self.new actor.new }
        ensures world { IsWorld self.old }
    {
        let came = self.stage.turn(alloc, caller, actor);
        self.retired = retired_after(&came, self.retired);
        came
    }

    /// Seals the old store, in one turn: from now on no partition is born in it. What clients see stays,
    /// and a sealed store stays sealed. A store call that failed leaves its entry.
    ///
    /// Refused with `HistoryFull`, with nothing done, exactly where the history has no room for an entry
    /// of the weight 64.
    pub fn seal_old(&mut self, alloc: Global, caller: u32) -> Result<(), TurnFault>
        ensures { SealsOld self.old caller result self.new }
    {
        self.stage.seal_old(alloc, caller)
    }

    /// Takes turns of a client until its call ends.
    fn end_call(
        &mut self,
        alloc: Global,
        caller: u32,
        actor: &mut Actor,
    ) -> Result<Answer, TurnFault>
        requires ready { CanStep actor.old }
        requires knows { Knows self.old actor.old }
        ensures { EndsCall self.old caller actor.old result self.new }
    {
        loop {
            match self.turn(alloc, caller, actor)? {
                Progress::More => {}
                Progress::Done(answer) => return Ok(answer),
            }
        }
    }

    /// Takes turns until the call ends, with no other caller between them. A batch at its beginning
    /// takes three at most while both stores tell what they hold: one that reads the old store, one that
    /// reads the new one, where the old one says so, and one that writes. A query takes two at most, and
    /// a page two for each of its 256 units. The entries of a page's units stay where a fault ends it.
    pub fn finish(
        &mut self,
        alloc: Global,
        caller: u32,
        call: ClientCall,
    ) -> Result<Answer, TurnFault>
        requires ready { CanStep (Actor.Client call) }
        requires knows { Knows self.old (Actor.Client call) }
        ensures { EndsCall self.old caller (Actor.Client call) result self.new }
    {
        let mut actor = Actor::Client(call);
        self.end_call(alloc, caller, &mut actor)
    }

    /// Takes at most so many turns of a migrator or a cleaner, with no other caller between them. It ends
    /// with the first turn after which the actor does not go on: one that says that it is done or what has
    /// stopped it, or one that came to nothing. The actor is then as that turn left it: after a fault, or
    /// where there was no further turn to take, it may go on from where it is.
    pub fn steps(&mut self, alloc: Global, caller: u32, actor: &mut Actor, steps: u32) -> Stepped
        requires some { 1 ≤ steps }
        requires machine { is_client actor.old ≡ false }
        requires ready { CanStep actor.old }
        requires knows { Knows self.old actor.old }
        ensures { TakesSteps self.old caller actor.old steps result self.new actor.new }
    {
        let mut taken = 0;
        loop {
            let came = self.turn(alloc, caller, actor);
            taken += 1;
            if taken == steps || !goes_on(&came) {
                return Stepped { taken, came };
            }
        }
    }

    /// What happened since the stores were opened, in order.
    pub fn history(&self) -> &History
        ensures value { result.now ≡ self.now.history }
        ensures world { IsWorld self.now }
    {
        self.stage.log.history()
    }

    /// How many times the table was moved to new stores, and 1.
    pub fn generation(&self) -> u32
        ensures value { result ≡ self.now.generation }
        ensures world { IsWorld self.now }
    {
        self.generation
    }

    /// Whether the old store has nothing left.
    pub fn retired(&self) -> bool
        ensures value { result ≡ self.now.retired }
        ensures world { IsWorld self.now }
    {
        self.retired
    }

    /// How many store calls were made since the stores were opened. The count stands still at its end.
    pub fn calls(&self) -> u64
        ensures value { result ≡ self.now.calls }
        ensures world { IsWorld self.now }
    {
        self.stage.calls
    }

    /// How many rows the table has, found by a replay of the history on copies of the rows at opening:
    /// it takes time and memory for them all. The one error is want of memory.
    pub fn rows(&self, alloc: Global) -> Result<u64, NoMemory>
        ensures { IfOk result (CountsRows self.now) }
    {
        count_rows(alloc, &self.base, self.stage.log())
    }

    /// The stores, as they are.
    pub fn into_stores(self) -> Stores<K>
        ensures old { K.state result.old ≡ self.old_store }
        ensures new { K.state result.new ≡ self.new_store }
        ensures world { IsWorld self }
    {
        Stores {
            old: self.stage.old_store,
            new: self.stage.new_store,
        }
    }
}
