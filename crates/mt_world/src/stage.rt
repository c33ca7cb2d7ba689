//! Two stores and the log of what happened to them: what turns change.
ghost use Rattle.std.specs.Prelude.{◌≡◌, ◌≤◌, [], true, false, IfOk, IfErr, OnOk, IsTrue, length, vec_capacity, Result, Ok, Err};
ghost use Rattle.mt_chain.specs.Asks.{CanAsk, FitsAsk};
ghost use Rattle.mt_batch_plan.specs.Calls.{Asks, is_write};
ghost use Rattle.mt_world.specs.Logs.{IsReady, Reserves};
ghost use Rattle.mt_world.specs.Moves.{CanStep};
ghost use Rattle.mt_world.specs.Turns.{CallsOn, TakesSomeTurn};
ghost use Rattle.mt_world.specs.Steps.{CallsStore, Answered, said_by, left_by};
ghost use Rattle.mt_scan.specs.Pages.{is_over};
ghost use Rattle.mt_migrate.specs.declared.state.State.TheVariants as at;
ghost use Rattle.mt_world.specs.Sealing.{seal_said, seal_left};
ghost use Rattle.mt_chain.specs.Batch.{batch_weight};
ghost use Rattle.mt_history.specs.Kept.{has_room};
ghost use Rattle.mt_history.specs.Weight.{need_of_move};
ghost use Rattle.mt_chain.specs.declared.ask.StoreAsk.{StoreAsk};

use crate::actor::{Actor, Answer, ClientCall, Progress, TurnFault};
use crate::log::Log;
use crate::{cleaning, moving, page, query};
use mt_batch_plan::{BatchCall, BatchProgress};
use mt_chain::{Ask, CallFault, Keeper, Side, StoreAsk, StoreReply, Tags};
use mt_clean::Cleaner;
use mt_history::{MOVE_NEED, What};
use mt_migrate::Migrator;
use mt_model::{NoMemory, Tag};
use mt_query_plan::QueryCall;
use mt_scan::PageCall;
use std::alloc::Global;
use std::marker::Model;
use std::mem;

/// Two stores, the log of what happened to them, and how many store calls were made.
#[derive(Drop)]
pub struct Stage<K: Keeper> {
    pub old_store: K,
    pub new_store: K,
    pub log: Log,

    /// The count stands still at its end.
    pub calls: u64,
}

impl<K: Keeper> Model for Stage<K> {
    ghost use Rattle.std.specs.Coded.{codes};
    ghost use Rattle.mt_history.specs.contracts.history.History as entries_of;
    ghost use Rattle.mt_world.specs.Turns.{Stage as State};

    ghost Value = { State };

    ghost coded = { Prim.hlevel (codes, entries_of.the_row.coded) };

    ghost view = { λ s. record { old_store = K.state s.old_store; new_store = K.state s.new_store; log = s.log; calls = s.calls } };
}

/// Room for a copy of the tags that a batch is answered, where the call is about to write.
fn room_for_tags(alloc: Global, call: &BatchCall) -> Result<Vec<Tag>, NoMemory>
    ensures empty { IfOk result (λ v. v.items ≡ []) }
    ensures room { IfOk result (λ v. is_write call.now.place ≡ true → length call.now.batch ≤ vec_capacity v) }
{
    if !call.is_write() {
        return Ok(Vec::new(alloc));
    }
    Ok(Vec::with_capacity(alloc, call.batch().ops().len())?)
}

/// Tags once more, in room that is there.
fn copy_tags(tags: &Tags, mut room: Vec<Tag>) -> Tags
    requires empty { room.items ≡ [] }
    requires room { length tags.now ≤ vec_capacity room }
    ensures { result ≡ tags.now }
{
    if room.extend_from_slice(tags.as_slice()).is_err() {
        unreachable!();
    }
    Tags::of(room)
}

/// What a turn has in hand before its store call: the call, and room for a copy of the tags.
type Prepared = (StoreAsk, Vec<Tag>);

/// Takes all memory that the turn needs after its store call, and asks for that call.
fn prepare(
    alloc: Global,
    log: &mut Log,
    caller: u32,
    call: &BatchCall,
) -> Result<Prepared, NoMemory>
    ensures same { Reserves log.old log.new }
    ensures ready { OnOk result (IsReady log.new caller) }
    ensures asks { IfOk result (λ p. Asks call.now.batch call.now.place p.0) }
    ensures can { IfOk result (λ p. CanAsk p.0.ask) }
    ensures empty { IfOk result (λ p. p.1.items ≡ []) }
    ensures room { IfOk result (λ p. is_write call.now.place ≡ true → length call.now.batch ≤ vec_capacity p.1) }
{
    log.reserve(caller)?;
    let room = room_for_tags(alloc, call)?;
    let ask = call.next(alloc)?;
    Ok((ask, room))
}

/// What a turn of a call comes to: its progress, and the call afterwards.
pub type Step = (Progress, ClientCall);

/// Takes a store's reply, and adds the entry of an answer.
fn answer(
    alloc: Global,
    log: &mut Log,
    caller: u32,
    mut call: BatchCall,
    room: Vec<Tag>,
    reply: StoreReply,
) -> Result<Step, TurnFault>
    requires fits { (a : StoreAsk) × Asks call.batch call.place a × FitsAsk a.ask reply }
    requires ready { IsReady log.old caller }
    requires light { IsTrue (has_room log.old.history (batch_weight call.batch)) }
    requires empty { room.items ≡ [] }
    requires room { is_write call.place ≡ true → length call.batch ≤ vec_capacity room }
    ensures { Answered (Actor.Client (ClientCall.Batch call)) reply log.old caller (said_by result) log.new (left_by result) }
{
    match call.absorb(alloc, reply) {
        Err(NoMemory) => Err(TurnFault::NoMemory),
        Ok(BatchProgress::More) => Ok((Progress::More, ClientCall::Batch(call))),
        Ok(BatchProgress::Written(tags)) => {
            let copy = copy_tags(&tags, room);
            log.push(
                caller,
                What::Batch {
                    batch: call.into_batch(),
                    tags: copy,
                },
            );
            Ok((Progress::Done(Answer::Written(tags)), ClientCall::Ended))
        }
        Ok(BatchProgress::Refused(refusal)) => {
            log.push(
                caller,
                What::Refused {
                    batch: call.into_batch(),
                },
            );
            Ok((Progress::Done(Answer::Refused(refusal)), ClientCall::Ended))
        }
    }
}

/// Makes the call of the store that is asked.
fn call_store<K: Keeper>(
    alloc: Global,
    old_store: &mut K,
    new_store: &mut K,
    ask: &StoreAsk,
) -> Result<StoreReply, CallFault>
    requires { CanAsk ask.now.ask }
    ensures { CallsOn ask.now.side (K.state old_store.old) (K.state new_store.old) ask.now.ask result (K.state old_store.new) (K.state new_store.new) }
{
    match ask.side {
        Side::Old => ask.ask.call(alloc, old_store),
        Side::New => ask.ask.call(alloc, new_store),
    }
}

impl<K: Keeper> Stage<K> {
    /// What happened to the stores.
    pub fn log(&self) -> &Log
        ensures { result.now ≡ self.now.log }
    {
        &self.log
    }

    /// Makes the store call that is asked for. One that failed leaves its entry, in memory that is in
    /// hand.
    fn ask_store(
        &mut self,
        alloc: Global,
        caller: u32,
        ask: StoreAsk,
    ) -> Result<StoreReply, TurnFault>
        requires can { CanAsk ask.ask }
        requires ready { IsReady self.old.log caller }
        requires room { IsTrue (has_room self.old.log.history 64) }
        ensures { CallsStore self.old caller ask result self.new }
    {
        self.calls = self.calls.saturating_add(1);
        match call_store(alloc, &mut self.old_store, &mut self.new_store, &ask) {
            Ok(reply) => Ok(reply),
            Err(CallFault::NoMemory) => Err(TurnFault::NoMemory),
            Err(CallFault::Failed) => {
                self.log.push(caller, What::Fault);
                Err(TurnFault::StoreFault)
            }
        }
    }

    /// One turn of a batch call.
    fn batch_turn(&mut self, alloc: Global, caller: u32, call: BatchCall) -> Result<Step, TurnFault>
        ensures { TakesSomeTurn self.old caller (Actor.Client (ClientCall.Batch call)) (said_by result) self.new (left_by result) }
    {
        if !self.log.history().room_for(call.batch().weight()) {
            return Err(TurnFault::HistoryFull);
        }
        let Ok((ask, room)) = prepare(alloc, &mut self.log, caller, &call) else {
            return Err(TurnFault::NoMemory);
        };
        let reply = self.ask_store(alloc, caller, ask)?;
        answer(alloc, &mut self.log, caller, call, room, reply)
    }

    /// One turn of a query.
    fn query_turn(&mut self, alloc: Global, caller: u32, call: QueryCall) -> Result<Step, TurnFault>
        ensures { TakesSomeTurn self.old caller (Actor.Client (ClientCall.Query call)) (said_by result) self.new (left_by result) }
    {
        if !self.log.history().room_for(call.need()) {
            return Err(TurnFault::HistoryFull);
        }
        let Ok(ask) = query::prepare(alloc, &mut self.log, caller, &call) else {
            return Err(TurnFault::NoMemory);
        };
        let reply = self.ask_store(alloc, caller, ask)?;
        query::answer(alloc, &mut self.log, caller, call, reply)
    }

    /// One turn of a page.
    fn page_turn(&mut self, alloc: Global, caller: u32, call: PageCall) -> Result<Step, TurnFault>
        requires { is_over call ≡ false }
        ensures { TakesSomeTurn self.old caller (Actor.Client (ClientCall.Page call)) (said_by result) self.new (left_by result) }
    {
        let need = call.need();
        if !self.log.history().room_for(need) {
            return Err(TurnFault::HistoryFull);
        }
        let Ok(ask) = page::prepare(alloc, &mut self.log, caller, &call) else {
            return Err(TurnFault::NoMemory);
        };
        let reply = self.ask_store(alloc, caller, ask)?;
        page::answer(alloc, &mut self.log, caller, call, reply)
    }

    /// One turn of a client's call.
    fn call_turn(&mut self, alloc: Global, caller: u32, call: ClientCall) -> Result<Step, TurnFault>
        requires { CanStep (Actor.Client call) }
        ensures { TakesSomeTurn self.old caller (Actor.Client call) (said_by result) self.new (left_by result) }
    {
        match call {
            ClientCall::Batch(call) => self.batch_turn(alloc, caller, call),
            ClientCall::Query(call) => self.query_turn(alloc, caller, call),
            ClientCall::Page(call) => self.page_turn(alloc, caller, call),
            ClientCall::Ended => unreachable!(),
        }
    }

    /// One turn of a client, whose call ends with an answer or a fault.
    fn client_turn(
        &mut self,
        alloc: Global,
        caller: u32,
        slot: &mut ClientCall,
    ) -> Result<Progress, TurnFault>
        requires { CanStep (Actor.Client slot.old) }
        ensures { TakesSomeTurn self.old caller (Actor.Client slot.old) result self.new (Actor.Client slot.new) }
    {
        let call = mem::replace(slot, ClientCall::Ended);
        let (progress, after) = self.call_turn(alloc, caller, call)?;
        *slot = after;
        Ok(progress)
    }

    /// Whether the history has room for the entry of a failed call.
    fn has_move_room(&self) -> bool
        ensures { result ≡ has_room self.now.log.history need_of_move }
    {
        self.log.history().room_for(MOVE_NEED)
    }

    /// One turn of a migrator, which stays where it is after a fault.
    fn migrator_turn(
        &mut self,
        alloc: Global,
        caller: u32,
        migrator: &mut Migrator,
    ) -> Result<Progress, TurnFault>
        requires { CanStep (Actor.Migrator migrator.old) }
        ensures { TakesSomeTurn self.old caller (Actor.Migrator migrator.old) result self.new (Actor.Migrator migrator.new) }
    {
        if migrator.is_done() {
            unreachable!();
        }
        if !self.has_move_room() {
            return Err(TurnFault::HistoryFull);
        }
        let Ok(ask) = moving::prepare(alloc, &mut self.log, caller, migrator) else {
            return Err(TurnFault::NoMemory);
        };
        let reply = self.ask_store(alloc, caller, ask)?;
        moving::answer(alloc, migrator, reply)
    }

    /// One turn of a cleaner, which stays where it is after a fault.
    fn cleaner_turn(
        &mut self,
        alloc: Global,
        caller: u32,
        cleaner: &mut Cleaner,
    ) -> Result<Progress, TurnFault>
        requires { CanStep (Actor.Cleaner cleaner.old) }
        ensures { TakesSomeTurn self.old caller (Actor.Cleaner cleaner.old) result self.new (Actor.Cleaner cleaner.new) }
    {
        if cleaner.is_done() {
            unreachable!();
        }
        if !self.has_move_room() {
            return Err(TurnFault::HistoryFull);
        }
        let Ok(ask) = cleaning::prepare(alloc, &mut self.log, caller, cleaner) else {
            return Err(TurnFault::NoMemory);
        };
        let reply = self.ask_store(alloc, caller, ask)?;
        cleaning::answer(alloc, cleaner, reply)
    }

    /// One turn of an actor: at most one store call, and then at most one entry.
    pub fn turn(
        &mut self,
        alloc: Global,
        caller: u32,
        actor: &mut Actor,
    ) -> Result<Progress, TurnFault>
        requires { CanStep actor.old }
        ensures { TakesSomeTurn self.old caller actor.old result self.new actor.new }
    {
        match actor {
            Actor::Client(slot) => self.client_turn(alloc, caller, slot),
            Actor::Migrator(migrator) => self.migrator_turn(alloc, caller, migrator),
            Actor::Cleaner(cleaner) => self.cleaner_turn(alloc, caller, cleaner),
        }
    }

    /// Seals the old store, as a migrator's turn does that is about to seal it.
    pub fn seal_old(&mut self, alloc: Global, caller: u32) -> Result<(), TurnFault>
        ensures { TakesSomeTurn self.old caller (Actor.Migrator at.SealOld) (seal_said result) self.new (seal_left result) }
    {
        if !self.has_move_room() {
            return Err(TurnFault::HistoryFull);
        }
        if self.log.reserve(caller).is_err() {
            return Err(TurnFault::NoMemory);
        }
        let ask = StoreAsk {
            side: Side::Old,
            ask: Ask::Seal,
        };
        let _ = self.ask_store(alloc, caller, ask)?;
        Ok(())
    }
}
