//! What a query does in a turn beside its store call.
ghost use Rattle.std.specs.Prelude.{◌≡◌, IfOk, OnOk, IsTrue};
ghost use Rattle.mt_chain.specs.Asks.{CanAsk, FitsAsk};
ghost use Rattle.mt_history.specs.Kept.{has_room};
ghost use Rattle.mt_history.specs.Weight.{need_of_query};
ghost use Rattle.mt_query_plan.specs.Queries.{asks};
ghost use Rattle.mt_world.specs.Logs.{IsReady, Reserves};
ghost use Rattle.mt_world.specs.Steps.{Answered, said_by, left_by};

use crate::actor::{Actor, Answer, ClientCall, Progress, TurnFault};
use crate::log::Log;
use crate::stage::Step;
use mt_chain::{StoreAsk, StoreReply};
use mt_history::What;
use mt_model::NoMemory;
use mt_query_plan::{QueryCall, QueryProgress};
use std::alloc::Global;

/// Takes the memory for an entry, and asks for the store call.
pub fn prepare(
    alloc: Global,
    log: &mut Log,
    caller: u32,
    call: &QueryCall,
) -> Result<StoreAsk, NoMemory>
    ensures same { Reserves log.old log.new }
    ensures ready { OnOk result (IsReady log.new caller) }
    ensures asks { IfOk result (λ a. a ≡ asks call.now) }
    ensures can { IfOk result (λ a. CanAsk a.ask) }
{
    log.reserve(caller)?;
    call.next(alloc)
}

/// Takes the store's reply, and adds the entry of an answer, which has the partition and the filter of
/// the call.
pub fn answer(
    alloc: Global,
    log: &mut Log,
    caller: u32,
    mut call: QueryCall,
    reply: StoreReply,
) -> Result<Step, TurnFault>
    requires fits { FitsAsk (asks call).ask reply }
    requires ready { IsReady log.old caller }
    requires light { IsTrue (has_room log.old.history (need_of_query call.pk call.filter)) }
    ensures { Answered (Actor.Client (ClientCall.Query call)) reply log.old caller (said_by result) log.new (left_by result) }
{
    match call.absorb(alloc, reply) {
        Err(NoMemory) => Err(TurnFault::NoMemory),
        Ok(QueryProgress::More) => Ok((Progress::More, ClientCall::Query(call))),
        Ok(QueryProgress::Rows(rows)) => {
            let (pk, filter) = call.into_parts();
            log.push(caller, What::Query { pk, filter });
            Ok((Progress::Done(Answer::Rows(rows)), ClientCall::Ended))
        }
    }
}
