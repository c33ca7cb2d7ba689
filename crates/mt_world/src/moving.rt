//! What a migrator does in a turn beside its store call.
ghost use Rattle.std.specs.Prelude.{◌≡◌, IfOk, OnOk, None};
ghost use Rattle.mt_chain.specs.declared.ask.StoreAsk.{StoreAsk};
ghost use Rattle.mt_chain.specs.Asks.{CanAsk, FitsAsk};
ghost use Rattle.mt_migrate.specs.Moves.{Asks, GoesOn as IsUnderWay};
ghost use Rattle.mt_world.specs.Logs.{IsReady, Reserves};
ghost use Rattle.mt_world.specs.Steps.{GoesOn};

use crate::actor::{Actor, Answer, Progress, TurnFault};
use crate::log::Log;
use mt_chain::{StoreAsk, StoreReply};
use mt_migrate::{Migrator, MoveProgress};
use mt_model::NoMemory;
use std::alloc::Global;

/// Takes the memory for the entry of a failed call, and asks for the store call.
pub fn prepare(
    alloc: Global,
    log: &mut Log,
    caller: u32,
    migrator: &Migrator,
) -> Result<StoreAsk, NoMemory>
    requires { IsUnderWay migrator.now }
    ensures same { Reserves log.old log.new }
    ensures ready { OnOk result (IsReady log.new caller) }
    ensures asks { IfOk result (Asks migrator.now) }
    ensures can { IfOk result (λ a. CanAsk a.ask) }
{
    log.reserve(caller)?;
    migrator.next(alloc)
}

/// Takes the store's reply, which leaves no entry. Where there is no memory the migrator stays where it
/// was.
pub fn answer(
    alloc: Global,
    migrator: &mut Migrator,
    reply: StoreReply,
) -> Result<Progress, TurnFault>
    requires fits { (a : StoreAsk) × Asks migrator.old a × FitsAsk a.ask reply }
    ensures { GoesOn (Actor.Migrator migrator.old) reply result None (Actor.Migrator migrator.new) }
{
    match migrator.absorb(alloc, reply) {
        Ok(MoveProgress::More) => Ok(Progress::More),
        Ok(MoveProgress::Done) => Ok(Progress::Done(Answer::Moved)),
        Err(NoMemory) => Err(TurnFault::NoMemory),
    }
}
