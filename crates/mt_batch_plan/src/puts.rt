//! The write of a batch: the marker's put, and those of the operations in the order of their row keys.
ghost use Rattle.std.specs.Prelude.{◌≡◌, ◌∷◌, None, IfOk, IfSome, map, filter, option_copied, option_map};
ghost use Rattle.mt_model.specs.Props.{is_visible, limits_fault};
ghost use Rattle.mt_model.specs.Merge.{merged};
ghost use Rattle.mt_chain.specs.Asks.{CanAsk};
ghost use Rattle.mt_chain.specs.Effect.{op_key, cause_on};
ghost use Rattle.mt_chain.specs.Batch.{refusal_of};
ghost use Rattle.mt_meta.specs.ReadRows.{kept_row, sight_row};
ghost use Rattle.mt_rules.specs.Batches.{IsBatch, partition_of};
ghost use Rattle.mt_batch_plan.specs.Bases.{kept_props, seen_by, table_on, put_of, put_by, marker_put};
ghost use Rattle.mt_batch_plan.specs.Calls.{writes};
ghost use Rattle.mt_batch_plan.specs.Plans.{IsOrder, as_left, left_props, kept_left, merged_on, picked};

use crate::basis::Basis;
use mt_chain::{Ask, Op, Put, Puts, StoreAsk, StoredRow};
use mt_meta::{NO_TAG, Sight};
use mt_model::{NoMemory, Props, PropsFault, Text};
use mt_rules::Batch;
use std::alloc::Global;

/// Properties over the visible ones of a row, which keep the limits together. The one error is want of
/// memory.
fn merge(alloc: Global, own: &Props, over: &Props) -> Result<Props, NoMemory>
    requires { limits_fault (merged (filter is_visible own.now) over.now) ≡ None }
    ensures { IfOk result (λ p. p ≡ merged (filter is_visible own.now) over.now) }
{
    match own.visible(alloc)?.merge(alloc, over) {
        Ok(props) => Ok(props),
        Err(PropsFault::NoMemory) => Err(NoMemory),
        Err(_) => unreachable!(),
    }
}

/// What the written store keeps of properties over those that clients see.
fn keep_merged(
    alloc: Global,
    basis: &Basis,
    seen: Option<Sight<'_>>,
    over: &Props,
) -> Result<Props, NoMemory>
    requires { IfSome seen (λ sight. limits_fault (merged (filter is_visible sight.props.now) over.now) ≡ None) }
    ensures { IfOk result (λ p. p ≡ kept_props basis.now (merged_on (option_map sight_row seen.entry) over.now)) }
{
    match seen {
        None => basis.keep(alloc, over),
        Some(sight) => basis.keep(alloc, &merge(alloc, sight.props, over)?),
    }
}

/// What the written store keeps of what an operation leaves where it is accepted on what clients see.
fn kept(
    alloc: Global,
    basis: &Basis,
    op: &Op,
    seen: Option<Sight<'_>>,
) -> Result<Option<Props>, NoMemory>
    requires { cause_on op.now (option_map sight_row seen) ≡ None }
    ensures { IfOk result (λ left. left ≡ kept_left basis.now (left_props op.now (option_map sight_row seen.entry))) }
{
    match op {
        Op::Delete { .. } => basis.keep_gone(alloc),
        Op::Insert { props, .. } | Op::Replace { props, .. } | Op::InsertOrReplace { props, .. } =>
            Ok(Some(basis.keep(alloc, props)?)),
        Op::Merge { props, .. } | Op::InsertOrMerge { props, .. } => {
            Ok(Some(keep_merged(alloc, basis, seen, props)?))
        }
    }
}

/// The put that leaves these properties, or none, where that row was read, or none. An accepted
/// operation leaves a row where none was read, so the last of the puts is never made.
fn put_of(rk: Text, row: Option<&StoredRow>, left: Option<Props>) -> Put
    ensures { result ≡ put_of rk (option_map kept_row (option_copied row.entry)) (as_left left) }
{
    match (row, left) {
        (None, Some(props)) => Put::Insert { rk, props },
        (Some(row), Some(props)) => Put::Replace {
            rk,
            props,
            tag: row.tag,
        },
        (Some(row), None) => Put::Delete { rk, tag: row.tag },
        (None, None) => Put::Delete { rk, tag: NO_TAG },
    }
}

/// The put of an operation that is accepted on what clients see at its key.
fn put_on(alloc: Global, basis: &Basis, op: &Op) -> Result<Put, NoMemory>
    requires { cause_on op.now (seen_by basis.now (op_key op.now).rk) ≡ None }
    ensures { IfOk result (λ put. put ≡ put_by basis.now op.now) }
{
    let rk = op.key().rk.as_str();
    let left = kept(alloc, basis, op, basis.sight(rk))?;
    Ok(put_of(op.key().rk.copy(alloc)?, basis.stored(rk), left))
}

/// The marker's put, and then those of the operations in that order of their indexes.
fn puts_of(alloc: Global, basis: &Basis, ops: &[Op], order: &[usize]) -> Result<Vec<Put>, NoMemory>
    requires batch { IsBatch ops.now }
    requires order { IsOrder ops.now order.now }
    requires accepted { refusal_of ops.now (table_on basis.now) ≡ None }
    ensures { IfOk result (λ v. v.items ≡ marker_put basis.now ∷ map (put_by basis.now) (picked ops.now order.now)) }
{
    let mut puts = Vec::with_capacity(alloc, order.len() + 1)?;
    puts.push(basis.marker_put(alloc)?)?;
    for index in order {
        puts.push(put_on(alloc, basis, &ops[*index])?)?;
    }
    Ok(puts)
}

/// The write of a batch, whose operations are in that order. The one error is want of memory.
pub(crate) fn write(
    alloc: Global,
    batch: &Batch,
    order: &[usize],
    basis: &Basis,
) -> Result<StoreAsk, NoMemory>
    requires order { IsOrder batch.now order.now }
    requires accepted { refusal_of batch.now (table_on basis.now) ≡ None }
    ensures asks { IfOk result (λ a. a ≡ writes (partition_of batch.now) basis.now (picked batch.now order.now)) }
    ensures can { IfOk result (λ a. CanAsk a.ask) }
{
    let pk = batch.partition().copy(alloc)?;
    let puts = puts_of(alloc, basis, batch.ops(), order)?;
    Ok(StoreAsk {
        side: basis.side(),
        ask: Ask::Apply {
            pk,
            puts: Puts::of(puts),
        },
    })
}
