//! What a batch call prepares with its read, so that it answers a write without memory.
ghost use Rattle.std.specs.Prelude.{◌≡◌, ◌<◌, ◌≤◌, ◌+◌, None, IfOk, vec_len, IsPermutation, map, length, option_map};
ghost use Rattle.std.specs.List.{range_with_len};
ghost use Rattle.std.specs.List.Sorted.{IsSortedBy};
ghost use Rattle.std.specs.Ordering.{nat_cmp};
ghost use Rattle.std.specs.Cmp.Lexicographic.{slice_cmp};
ghost use Rattle.mt_chain.specs.Table.{Table};
ghost use Rattle.mt_chain.specs.Effect.{op_key, told_tag, any_tag};
ghost use Rattle.mt_chain.specs.Batch.{refusal_of};
ghost use Rattle.mt_rules.specs.Batches.{IsBatch};
ghost use Rattle.mt_batch_plan.specs.Bases.{table_on};
ghost use Rattle.mt_batch_plan.specs.Calls.{AnswersTags};
ghost use Rattle.mt_meta.specs.ReadRows.{sight_row};
ghost use Rattle.mt_batch_plan.specs.Plans.{IsOrder, IsPlan, is_below, is_delete, filled, op_or};
ghost use Rattle.mt_batch_plan.specs.Verdicts.{IsJudged};

use crate::basis::Basis;
use crate::judge::refusal_on;
use mt_chain::{Op, Refusal, Tags};
use mt_meta::{NO_TAG, Sight};
use mt_model::{NoMemory, Tag};
use std::alloc::Global;
use std::cmp::Ordering;

/// What a write is answered with.
#[derive(Drop)]
pub(crate) struct Plan {
    /// The indexes of the operations, in the order of their row keys.
    pub order: Vec<usize>,

    /// A tag for each operation: for a delete the one that clients saw of its row.
    pub tags: Vec<Tag>,
}

/// What comes of judging a batch.
#[derive(Drop)]
pub(crate) enum Verdict {
    Refused(Refusal),
    Accepted(Plan),
}

impl Plan {
    /// A plan of nothing, which takes no memory.
    pub fn new(alloc: Global) -> Plan {
        Plan {
            order: Vec::new(alloc),
            tags: Vec::new(alloc),
        }
    }
}

/// The row key of the operation at an index, or the empty text past the end.
fn row_key(ops: &[Op], index: usize) -> &str
    ensures { result.now ≡ (op_key (op_or ops.now index)).rk }
{
    match ops.get(index) {
        Some(op) => op.key().rk.as_str(),
        None => "",
    }
}

/// By the row keys of the operations at two indexes.
fn compare(ops: &[Op], a: usize, b: usize) -> Ordering
    ensures { result ≡ slice_cmp nat_cmp (op_key (op_or ops.now a)).rk (op_key (op_or ops.now b)).rk }
{
    row_key(ops, a).cmp(row_key(ops, b))
}

/// The numbers below that.
fn indexes(alloc: Global, count: usize) -> Result<Vec<usize>, NoMemory>
    ensures { IfOk result (λ v. v.items ≡ range_with_len 0 count) }
{
    let mut indexes = Vec::with_capacity(alloc, count)?;
    for index in 0..count {
        indexes.push(index)?;
    }
    Ok(indexes)
}

fn sort(ops: &[Op], order: &mut Vec<usize>)
    ensures permutation { IsPermutation order.old.items order.new.items }
    ensures sorted { IsSortedBy (λ a b. is_below (op_key (op_or ops.now a)).rk (op_key (op_or ops.now b)).rk) order.new.items }
{
    order.sort_unstable_by(
        |a: &usize, b: &usize| -> Ordering
            ensures { result ≡ slice_cmp nat_cmp (op_key (op_or ops.entry.now a.now)).rk (op_key (op_or ops.entry.now b.now)).rk }
        { compare(ops, *a, *b) },
    );
}

/// The indexes of the operations, in the order of their row keys.
fn order_of(alloc: Global, ops: &[Op]) -> Result<Vec<usize>, NoMemory>
    requires { IsBatch ops.now }
    ensures { IfOk result (λ v. IsOrder ops.now v.items) }
{
    let mut order = indexes(alloc, ops.len())?;
    sort(ops, &mut order);
    Ok(order)
}

fn is_delete(op: &Op) -> bool
    ensures { result ≡ is_delete op.now }
{
    matches!(op, Op::Delete { .. })
}

/// The tag that a delete is answered on what clients see, and no tag for other operations.
fn tag_before(op: &Op, seen: Option<Sight<'_>>) -> Tag
    ensures { result ≡ told_tag op.now (option_map sight_row seen.entry) any_tag }
{
    match (op, seen) {
        (Op::Delete { .. }, Some(sight)) => sight.tag,
        _ => NO_TAG,
    }
}

/// The tags that deletes are answered on what clients see, and no tag for other operations.
fn tags_before(alloc: Global, ops: &[Op], basis: &Basis) -> Result<Vec<Tag>, NoMemory>
    ensures { IfOk result (λ v. v.items ≡ map (λ op. told_tag op (table_on basis.now (op_key op)) any_tag) ops.now) }
{
    let mut tags = Vec::with_capacity(alloc, ops.len())?;
    for op in ops {
        let seen = basis.sight(op.key().rk.as_str());
        tags.push(tag_before(op, seen))?;
    }
    Ok(tags)
}

/// Judges a batch on what clients see, and prepares its answer where none refuses.
pub(crate) fn judged(alloc: Global, ops: &[Op], basis: &Basis) -> Result<Verdict, NoMemory>
    requires { IsBatch ops.now }
    ensures { IfOk result (IsJudged ops.now (table_on basis.now)) }
{
    if let Some(refusal) = refusal_on(ops, basis) {
        return Ok(Verdict::Refused(refusal));
    }
    let order = order_of(alloc, ops)?;
    let tags = tags_before(alloc, ops, basis)?;
    Ok(Verdict::Accepted(Plan { order, tags }))
}

/// Fills in the tag of an operation that is no delete.
fn fill(tags: &mut Vec<Tag>, op: &Op, index: usize, tag: Tag)
    requires { index < vec_len tags.old }
    ensures { tags.new.items ≡ filled (is_delete op.now) index tag tags.old.items }
{
    if !is_delete(op) {
        tags[index] = tag;
    }
}

/// Fills in the tags that a store gave to the puts: the first to the marker's, and the others to the
/// operations in that order. A delete keeps its tag.
pub(crate) fn answer(ops: &[Op], order: &[usize], given: &[Tag], mut tags: Vec<Tag>) -> Tags
    requires batch { IsBatch ops.now }
    requires order { IsOrder ops.now order.now }
    requires given { length given.now ≡ length ops.now + 1 }
    requires tags { length tags.items ≡ length ops.now }
    ensures { (table : Table) → refusal_of ops.now table ≡ None → IsPlan ops.now table order.now tags.items → AnswersTags ops.now table given.now result }
{
    for (at, index) in order.iter().enumerate() {
        fill(&mut tags, &ops[*index], *index, given[at + 1]);
    }
    Tags::of(tags)
}
