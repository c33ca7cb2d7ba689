//! A reference program for the effects of operations and of batches: others are compared with it.
//!
//! It is the definitions exactly, but for want of memory. It keeps a whole table in one list, and is
//! not made to be fast.
ghost use Rattle.std.specs.Prelude.{◌≡◌, ◌<◌, ◌^◌, IfOk, OnOk, None, ◌++◌, ◌∷◌, [], length, option_copied};
ghost use Rattle.mt_model.specs.Merge.{merged};
ghost use Rattle.mt_chain.specs.Table.{IsSameTable, table_of};
ghost use Rattle.mt_chain.specs.Effect.{effect, cause_on, limits_cause, writes, told_tag};
ghost use Rattle.mt_chain.specs.Batch.{tags_answered};
ghost use Rattle.mt_chain.specs.Model.{IsOutcome, Judges, Applies, rows_with, with_rows_left};

use crate::op::{Cause, Op, Refusal};
use crate::row::Stored;
use crate::rows::Rows;
use mt_model::{Key, NoMemory, Props, PropsFault, Tag};
use std::alloc::Global;

/// Why an operation gave no outcome.
#[derive(Clone, Copy, Debug, PartialEq, Eq)]
pub enum EffectFault {
    /// The operation is refused.
    Refused { cause: Cause },
    /// There was no memory.
    NoMemory,
}

impl From<NoMemory> for EffectFault {
    ghost use Rattle.mt_chain.specs.declared.model.EffectFault.TheVariants.{NoMemory};

    ghost from_gives = { λ _ e. e ≡ NoMemory };

    fn from(_e: NoMemory) -> EffectFault {
        EffectFault::NoMemory
    }
}

/// Why a batch was not applied.
#[derive(Clone, Copy, Debug, PartialEq, Eq)]
pub enum ApplyFault {
    /// The batch is refused.
    Refused { refusal: Refusal },
    /// There was no memory.
    NoMemory,
}

impl From<NoMemory> for ApplyFault {
    ghost use Rattle.mt_chain.specs.declared.model.ApplyFault.TheVariants.{NoMemory};

    ghost from_gives = { λ _ e. e ≡ NoMemory };

    fn from(_e: NoMemory) -> ApplyFault {
        ApplyFault::NoMemory
    }
}

/// What a batch leaves.
#[derive(Drop)]
pub struct Applied {
    /// The rows of the table.
    pub rows: Rows,
    /// For each operation the tag of the row that it wrote, or of the row that went.
    pub tags: Vec<Tag>,
}

/// A row of these properties and that tag.
fn written(alloc: Global, props: &Props, tag: Tag) -> Result<Option<Stored>, EffectFault>
    ensures { IsOutcome (writes props.now tag) result }
{
    let props = props.copy(alloc)?;
    Ok(Some(Stored { props, tag }))
}

/// A row of these properties over its own, and of that tag, where they do not pass a limit together.
fn merged(alloc: Global, own: &Props, over: &Props, tag: Tag) -> Result<Option<Stored>, EffectFault>
    requires { limits_cause (merged own.now over.now) ≡ None }
    ensures { IsOutcome (writes (merged own.now over.now) tag) result }
{
    match own.merge(alloc, over) {
        Ok(props) => Ok(Some(Stored { props, tag })),
        Err(PropsFault::NoMemory) => Err(EffectFault::NoMemory),
        Err(_) => unreachable!(),
    }
}

/// What an operation leaves that is not refused: the row afterwards, or that there is none.
fn effect_allowed(
    alloc: Global,
    op: &Op,
    row: Option<&Stored>,
    tag: Tag,
) -> Result<Option<Stored>, EffectFault>
    requires { cause_on op.now (option_copied row) ≡ None }
    ensures { IsOutcome (effect op.now (option_copied row.entry) tag) result }
{
    match (op, row) {
        (Op::Delete { .. }, _) => Ok(None),
        (Op::Merge { props, .. } | Op::InsertOrMerge { props, .. }, Some(row)) => {
            merged(alloc, &row.props, props, tag)
        }
        (
            Op::Insert { props, .. }
            | Op::Replace { props, .. }
            | Op::Merge { props, .. }
            | Op::InsertOrReplace { props, .. }
            | Op::InsertOrMerge { props, .. },
            _,
        ) => written(alloc, props, tag),
    }
}

/// What comes of an operation on no row or on a row: the row afterwards, or that there is none.
///
/// A row that is written gets the tag.
pub fn effect(
    alloc: Global,
    op: &Op,
    row: Option<&Stored>,
    tag: Tag,
) -> Result<Option<Stored>, EffectFault>
    ensures { IsOutcome (effect op.now (option_copied row.entry) tag) result }
{
    match op.cause_on(row) {
        Some(cause) => Err(EffectFault::Refused { cause }),
        None => effect_allowed(alloc, op, row, tag),
    }
}

/// Leaves this at a key: a row, or none.
fn leave(alloc: Global, rows: &mut Rows, key: &Key, row: Option<Stored>) -> Result<(), NoMemory>
    ensures { OnOk result (rows.new ≡ rows_with rows.old key.now row) }
{
    match row {
        None => {
            rows.remove(key);
            Ok(())
        }
        Some(row) => {
            let key = key.copy(alloc)?;
            rows.put((key, row))
        }
    }
}

fn push_left(left: &mut Vec<Option<Stored>>, row: Option<Stored>) -> Result<(), NoMemory>
    ensures { OnOk result (left.new.items ≡ left.old.items ++ row ∷ []) }
{
    Ok(left.push(row)?)
}

/// What each operation leaves of its row, each judged on these rows, or the least refusal.
fn judge(
    alloc: Global,
    rows: &Rows,
    ops: &[Op],
    tags: &[Tag],
) -> Result<Vec<Option<Stored>>, ApplyFault>
    requires tags { length tags.now ≡ length ops.now }
    requires few { length ops.now < 2 ^ 32 }
    ensures { Judges rows.now ops.now tags.now result }
{
    let mut left = Vec::new(alloc);
    for (index, op) in ops.iter().enumerate() {
        match effect(alloc, op, rows.get(op.key()), tags[index]) {
            Ok(row) => push_left(&mut left, row)?,
            Err(EffectFault::Refused { cause }) => {
                let index = index as u32;
                let refusal = Refusal { index, cause };
                return Err(ApplyFault::Refused { refusal });
            }
            Err(EffectFault::NoMemory) => return Err(ApplyFault::NoMemory),
        }
    }
    Ok(left)
}

/// Leaves these rows at the keys that the operations name, the first of them where two name one key.
fn leave_all(
    alloc: Global,
    rows: &mut Rows,
    ops: &[Op],
    mut left: Vec<Option<Stored>>,
) -> Result<(), NoMemory>
    requires { length left.items ≡ length ops.now }
    ensures { OnOk result (IsSameTable (table_of rows.new) (with_rows_left ops.now left.items (table_of rows.old))) }
{
    while let Some(row) = left.pop() {
        leave(alloc, rows, ops[left.len()].key(), row)?;
    }
    Ok(())
}

/// The tag that a client is told of an operation.
fn told_tag(op: &Op, row: Option<&Stored>, tag: Tag) -> Tag
    ensures { result ≡ told_tag op.now (option_copied row.entry) tag }
{
    match (op, row) {
        (Op::Delete { .. }, Some(row)) => row.tag,
        _ => tag,
    }
}

/// The tags that a client is told of a batch on these rows.
fn tags_answered(alloc: Global, rows: &Rows, ops: &[Op], tags: &[Tag]) -> Result<Vec<Tag>, NoMemory>
    requires { length tags.now ≡ length ops.now }
    ensures { IfOk result (λ v. v.items ≡ tags_answered ops.now tags.now (table_of rows.now)) }
{
    let mut told = Vec::new(alloc);
    for (index, op) in ops.iter().enumerate() {
        told.push(told_tag(op, rows.get(op.key()), tags[index]))?;
    }
    Ok(told)
}

/// Applies a batch to rows, with a tag for each of its operations.
///
/// All operations are judged on these rows. Where one refuses, the least is named, and there are no
/// rows afterwards to speak of. Of operations that name one key the first counts.
pub fn apply_batch(
    alloc: Global,
    mut rows: Rows,
    ops: &[Op],
    tags: &[Tag],
) -> Result<Applied, ApplyFault>
    requires tags { length tags.now ≡ length ops.now }
    requires few { length ops.now < 2 ^ 32 }
    ensures { Applies rows ops.now tags.now result }
{
    let left = judge(alloc, &rows, ops, tags)?;
    let tags = tags_answered(alloc, &rows, ops, tags)?;
    leave_all(alloc, &mut rows, ops, left)?;
    Ok(Applied { rows, tags })
}
