//! What a page does in a turn beside its store call.
ghost use Rattle.std.specs.Prelude.{◌≡◌, false, IfOk, OnOk, IsTrue};
ghost use Rattle.mt_chain.specs.Asks.{CanAsk, FitsAsk};
ghost use Rattle.mt_history.specs.Kept.{has_room};
ghost use Rattle.mt_history.specs.Weight.{need_of_page};
ghost use Rattle.mt_scan.specs.Pages.{IsPage, asks, is_over};
ghost use Rattle.mt_world.specs.Logs.{IsReady, Reserves};
ghost use Rattle.mt_world.specs.Steps.{Answered, said_by, left_by};

use crate::actor::{Actor, Answer, ClientCall, Progress, TurnFault};
use crate::log::Log;
use crate::stage::Step;
use mt_chain::{StoreAsk, StoreReply};
use mt_model::NoMemory;
use mt_scan::{PageCall, PageProgress};
use std::alloc::Global;

/// Takes the memory for an entry, and asks for the store call.
pub fn prepare(
    alloc: Global,
    log: &mut Log,
    caller: u32,
    call: &PageCall,
) -> Result<StoreAsk, NoMemory>
    requires { is_over call.now ≡ false }
    ensures same { Reserves log.old log.new }
    ensures ready { OnOk result (IsReady log.new caller) }
    ensures asks { IfOk result (λ a. a ≡ asks call.now) }
    ensures can { IfOk result (λ a. CanAsk a.ask) }
{
    log.reserve(caller)?;
    call.next(alloc)
}

/// Takes the store's reply. A unit that is done leaves its entry, which has the filter of the call,
/// whether the page goes on or ends with it.
pub fn answer(
    alloc: Global,
    log: &mut Log,
    caller: u32,
    mut call: PageCall,
    reply: StoreReply,
) -> Result<Step, TurnFault>
    requires valid { IsPage call }
    requires goes { is_over call ≡ false }
    requires fits { FitsAsk (asks call).ask reply }
    requires ready { IsReady log.old caller }
    requires light { IsTrue (has_room log.old.history (need_of_page call.filter)) }
    ensures { Answered (Actor.Client (ClientCall.Page call)) reply log.old caller (said_by result) log.new (left_by result) }
{
    match call.absorb(alloc, reply) {
        Err(NoMemory) => Err(TurnFault::NoMemory),
        Ok(PageProgress::More) => Ok((Progress::More, ClientCall::Page(call))),
        Ok(PageProgress::Unit(unit)) => {
            let Ok(what) = unit.into_entry(alloc, call.filter()) else {
                return Err(TurnFault::NoMemory);
            };
            log.push(caller, what);
            Ok((Progress::More, ClientCall::Page(call)))
        }
        Ok(PageProgress::Last(unit)) => {
            let Ok(last) = unit.into_entry(alloc, call.filter()) else {
                return Err(TurnFault::NoMemory);
            };
            log.push(caller, last);
            Ok((
                Progress::Done(Answer::Page(call.into_page())),
                ClientCall::Ended,
            ))
        }
    }
}
