//! What a batch call does with the rows that it read.
ghost use Rattle.std.specs.Prelude.{◌≡◌, List, IfOk};
ghost use Rattle.mt_chain.specs.declared.op.Op.{Op};
ghost use Rattle.mt_rules.specs.Batches.{IsBatch};
ghost use Rattle.mt_batch_plan.specs.Calls.{saw, saw_entries};
ghost use Rattle.mt_batch_plan.specs.Verdicts.{led_to, IsLed, Sees};

use crate::basis::Basis;
use crate::place::AfterOld;
use crate::plan::{Plan, Verdict, judged};
use mt_chain::{Found, Op, Refusal};
use mt_meta::{MARKER_KEY, NewPhase, Phase, new_phase, old_phase};
use mt_model::NoMemory;
use std::alloc::Global;

/// Where the marker that was read leads a batch.
#[derive(Drop)]
pub(crate) enum Lead {
    /// To its beginning: no client may go on under this marker.
    Again,

    /// To a read of new.
    New(AfterOld),

    /// To its judging.
    Judge(Basis),
}

/// What comes of a read.
#[derive(Drop)]
pub(crate) enum Seen {
    /// The call begins again.
    Again,

    /// An operation is refused.
    Refused(Refusal),

    /// The call goes on to a read of new.
    Read(AfterOld),

    /// The call goes on to a write.
    Write { basis: Basis, plan: Plan },
}

/// Where a read of old leads.
pub(crate) fn lead_of_old(found: Found) -> Lead
    ensures leads { (ops : List Op) → led_to ops result ≡ saw ops found }
    ensures marked { IsLed result }
{
    let rows = found.named;
    match rows.get(MARKER_KEY) {
        Some(marker) => match old_phase(marker) {
            Some(Phase::UseOld | Phase::PreferOld) => Lead::Judge(Basis::OldRows { rows }),
            Some(Phase::PreferNew) => Lead::New(AfterOld::Turned { rows }),
            None => Lead::Again,
        },
        None if found.sealed => Lead::New(AfterOld::Closed),
        None => Lead::Judge(Basis::OldBirth),
    }
}

/// Where a read of new leads, after what old showed.
pub(crate) fn lead_of_new(after: AfterOld, found: Found) -> Lead
    ensures leads { (ops : List Op) → led_to ops result ≡ saw_entries ops after found }
    ensures marked { IsLed result }
{
    let entries = found.named;
    match entries.get(MARKER_KEY) {
        Some(marker) => match (new_phase(marker), after) {
            (Some(NewPhase::Filling), AfterOld::Turned { rows }) => {
                Lead::Judge(Basis::Overlay { rows, entries })
            }
            (Some(NewPhase::UseNew), _) => Lead::Judge(Basis::NewRows { entries }),
            (Some(NewPhase::Filling), AfterOld::Closed) | (None, _) => Lead::Again,
        },
        None => match after {
            AfterOld::Turned { .. } => Lead::Again,
            AfterOld::Closed => Lead::Judge(Basis::NewBirth),
        },
    }
}

/// What comes of a read that leads there. The one error is want of memory.
pub(crate) fn see(alloc: Global, ops: &[Op], lead: Lead) -> Result<Seen, NoMemory>
    requires batch { IsBatch ops.now }
    requires marked { IsLed lead }
    ensures { IfOk result (Sees ops.now (led_to ops.now lead)) }
{
    match lead {
        Lead::Again => Ok(Seen::Again),
        Lead::New(after) => Ok(Seen::Read(after)),
        Lead::Judge(basis) => match judged(alloc, ops, &basis)? {
            Verdict::Refused(refusal) => Ok(Seen::Refused(refusal)),
            Verdict::Accepted(plan) => Ok(Seen::Write { basis, plan }),
        },
    }
}
