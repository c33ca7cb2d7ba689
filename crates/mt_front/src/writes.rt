//! Operations that are tried together.
ghost use Rattle.std.specs.Prelude.{◌≡◌, ◌≤◌, ◌∷◌, [], All, IfOk};
ghost use Rattle.std.specs.List.{AllZip};
ghost use Rattle.mt_model.specs.Props.{visible_size};
ghost use Rattle.mt_chain.specs.Effect.{op_props};
ghost use Rattle.mt_rules.specs.Batches.{MayAsk};
ghost use Rattle.mt_mime.specs.Replies.{HasEcho};
ghost use Rattle.mt_mime.specs.Drafts.{IsDraftOf};
ghost use Rattle.mt_front.specs.Writes.{IsWriting};
ghost use Rattle.mt_front.specs.ChangeSets.{alone, AsksTogether};

use crate::asks::Asked;
use crate::refusals::batch_refusal;
use mt_chain::Op;
use mt_mime::{Draft, Echo, draft};
use mt_model::NoMemory;
use mt_rules::{Batch, BatchFault, check_batch};
use std::alloc::Global;
use std::marker::Model;

/// Operations that are tried together, with what the reply shows of each: a change set, or one
/// operation alone.
#[derive(Drop)]
pub struct Writes {
    batch: Batch,
    echoes: Vec<Echo>,
    change_set: bool,
}

impl Model for Writes {
    ghost use Rattle.mt_front.specs.Writes.{Writing, IsWriting};

    ghost Value = { Writing };

    ghost view = { λ w. record { ops = w.batch; echoes = w.echoes.items; change_set = w.change_set } };

    ghost invariant = { λ w. IsWriting (record { ops = w.batch; echoes = w.echoes.items; change_set = w.change_set }) };
}

impl Writes {
    /// The operations, in their order.
    pub fn ops(&self) -> &[Op]
        ensures { result.now ≡ self.now.ops }
    {
        self.batch.ops()
    }

    /// What the reply shows of each operation, in their order.
    pub fn echoes(&self) -> &[Echo]
        ensures { result.now ≡ self.now.echoes }
    {
        self.echoes.as_slice()
    }

    /// Whether they are a change set.
    pub fn is_change_set(&self) -> bool
        ensures value { result ≡ self.now.change_set }
        ensures valid { IsWriting self.now }
    {
        self.change_set
    }

    /// The draft of the reply to them, to be finished once they are done. The one error is want of
    /// memory.
    pub fn draft(&self, alloc: Global, close: bool) -> Result<Draft, NoMemory>
        ensures { IfOk result (IsDraftOf self.now.ops self.now.echoes self.now.change_set close) }
    {
        draft(
            alloc,
            self.batch.ops(),
            self.echoes.as_slice(),
            self.change_set,
            close,
        )
    }

    /// The batch of the operations.
    pub fn into_batch(self) -> Batch
        ensures { result ≡ self.ops }
    {
        self.batch
    }
}

/// What one operation alone asks for, which keeps the rules of keys, and has no hidden property and
/// at most 1,048,576 bytes of properties. The one error is want of memory.
pub fn write_alone(alloc: Global, op: Op, echo: Echo) -> Result<Asked, NoMemory>
    requires may { MayAsk op }
    requires echo { HasEcho op echo }
    requires small { visible_size (op_props op) ≤ 1048576 }
    ensures { IfOk result (λ a. a ≡ alone op echo) }
{
    let mut ops = Vec::with_capacity(alloc, 1)?;
    ops.push(op)?;
    let mut echoes = Vec::with_capacity(alloc, 1)?;
    echoes.push(echo)?;
    match check_batch(alloc, ops) {
        Ok(batch) => Ok(Asked::Write(Writes {
            batch,
            echoes,
            change_set: false,
        })),
        Err(fault) => match fault {
            BatchFault::NoMemory => Err(NoMemory),
            BatchFault::Empty
            | BatchFault::TooMany
            | BatchFault::TooLarge
            | BatchFault::OtherPartition { .. }
            | BatchFault::Twice { .. } => unreachable!(),
        },
    }
}

/// What a change set of these operations asks for, with an echo for each, `Plain` exactly where it is
/// no insert: that they are tried together, or the refusal of one of them, with its index. Refused is,
/// in this order, that there is none (at 0), that there are more than 100 (at 100), that they have more
/// than 4,194,304 bytes together (at 0), and then the first operation that is of another partition than
/// the first, or names the row of an earlier one. The one error is want of memory.
pub fn write_together(alloc: Global, ops: Vec<Op>, echoes: Vec<Echo>) -> Result<Asked, NoMemory>
    requires may { All MayAsk ops.items }
    requires echoes { AllZip HasEcho ops.items echoes.items }
    ensures { IfOk result (AsksTogether ops.items echoes.items) }
{
    match check_batch(alloc, ops) {
        Ok(batch) => Ok(Asked::Write(Writes {
            batch,
            echoes,
            change_set: true,
        })),
        Err(fault) => match batch_refusal(fault) {
            Some(bad) => Ok(Asked::RefusedPart(bad)),
            None => Err(NoMemory),
        },
    }
}
