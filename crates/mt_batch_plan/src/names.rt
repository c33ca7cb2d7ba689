//! The read of a batch: the marker's row, and the rows that its operations name.
ghost use Rattle.std.specs.Prelude.{◌≡◌, ℕ, List, ◌≤◌, ◌∷◌, [], IfOk, IsPermutation, map, length};
ghost use Rattle.std.specs.List.Sorted.{IsSortedBy};
ghost use Rattle.mt_meta.specs.Markers.{marker_key};
ghost use Rattle.mt_chain.specs.Effect.{op_key};
ghost use Rattle.mt_chain.specs.Asks.{CanAsk};
ghost use Rattle.mt_rules.specs.Batches.{IsBatch, partition_of};
ghost use Rattle.mt_batch_plan.specs.Calls.{AreNames, reads};
ghost use Rattle.mt_batch_plan.specs.Plans.{is_below};

use mt_chain::{Ask, Op, RangeQuery, Side, StoreAsk};
use mt_meta::MARKER_KEY;
use mt_model::{NoMemory, Text, Texts};
use mt_rules::Batch;
use std::alloc::Global;

/// The marker's key, and then those of the operations in their order.
fn copy_names(alloc: Global, ops: &[Op]) -> Result<Vec<Text>, NoMemory>
    ensures { IfOk result (λ v. v.items ≡ marker_key ∷ map (λ op. (op_key op).rk) ops.now) }
{
    let mut names = Vec::with_capacity(alloc, ops.len() + 1)?;
    names.push(Text::of(alloc, MARKER_KEY)?)?;
    for op in ops {
        names.push(op.key().rk.copy(alloc)?)?;
    }
    Ok(names)
}

fn sort(names: &mut Vec<Text>)
    ensures permutation { IsPermutation names.old.items names.new.items }
    ensures sorted { IsSortedBy is_below names.new.items }
{
    names.sort_unstable_by(|a, b| a.cmp(b));
}

/// The keys of the marker and of the rows that the operations name, rising.
fn names_of(alloc: Global, ops: &[Op]) -> Result<Texts, NoMemory>
    requires { IsBatch ops.now }
    ensures names { IfOk result (AreNames ops.now) }
    ensures few { IfOk result (λ names. length names ≤ 101) }
{
    let mut names = copy_names(alloc, ops)?;
    sort(&mut names);
    Ok(Texts::of(names))
}

/// The read of a batch in one of the stores. The one error is want of memory.
pub(crate) fn read(alloc: Global, batch: &Batch, side: Side) -> Result<StoreAsk, NoMemory>
    ensures asks { IfOk result (λ a. (names : List (List ℕ)) × AreNames batch.now names × (a ≡ reads side (partition_of batch.now) names)) }
    ensures can { IfOk result (λ a. CanAsk a.ask) }
{
    let named = names_of(alloc, batch.ops())?;
    let pk = batch.partition().copy(alloc)?;
    let query = RangeQuery {
        pk,
        named,
        range: None,
    };
    Ok(StoreAsk {
        side,
        ask: Ask::Query(query),
    })
}
