//! What a cleaner does in a turn beside its store call.
ghost use Rattle.std.specs.Prelude.{◌≡◌, IfOk, OnOk, None};
ghost use Rattle.mt_chain.specs.declared.ask.StoreAsk.{StoreAsk};
ghost use Rattle.mt_chain.specs.Asks.{CanAsk, FitsAsk};
ghost use Rattle.mt_clean.specs.Cleanings.{Asks, GoesOn as IsUnderWay};
ghost use Rattle.mt_world.specs.Logs.{IsReady, Reserves};
ghost use Rattle.mt_world.specs.Steps.{GoesOn};

use crate::actor::{Actor, Answer, Progress, TurnFault};
use crate::log::Log;
use mt_chain::{StoreAsk, StoreReply};
use mt_clean::{CleanProgress, Cleaner};
use mt_model::NoMemory;
use std::alloc::Global;

/// Takes the memory for the entry of a failed call, and asks for the store call.
pub fn prepare(
    alloc: Global,
    log: &mut Log,
    caller: u32,
    cleaner: &Cleaner,
) -> Result<StoreAsk, NoMemory>
    requires { IsUnderWay cleaner.now }
    ensures same { Reserves log.old log.new }
    ensures ready { OnOk result (IsReady log.new caller) }
    ensures asks { IfOk result (Asks cleaner.now) }
    ensures can { IfOk result (λ a. CanAsk a.ask) }
{
    log.reserve(caller)?;
    cleaner.next(alloc)
}

/// Takes the store's reply, which leaves no entry. Where there is no memory the cleaner stays where it
/// was.
pub fn answer(
    alloc: Global,
    cleaner: &mut Cleaner,
    reply: StoreReply,
) -> Result<Progress, TurnFault>
    requires fits { (a : StoreAsk) × Asks cleaner.old a × FitsAsk a.ask reply }
    ensures { GoesOn (Actor.Cleaner cleaner.old) reply result None (Actor.Cleaner cleaner.new) }
{
    match cleaner.absorb(alloc, reply) {
        Ok(CleanProgress::More) => Ok(Progress::More),
        Ok(CleanProgress::Done) => Ok(Progress::Done(Answer::Cleaned)),
        Ok(CleanProgress::NotSealed) => Ok(Progress::Done(Answer::NotSealed)),
        Ok(CleanProgress::NotMigrated { pk }) => Ok(Progress::Done(Answer::NotMigrated { pk })),
        Err(NoMemory) => Err(TurnFault::NoMemory),
    }
}
