//! Batches of operations of one partition.
ghost use Rattle.std.specs.Prelude.{◌≡◌, None, false, All, IfOk};
ghost use Rattle.std.specs.List.{list_any};
ghost use Rattle.mt_model.specs.Key.{key_fault};
ghost use Rattle.mt_model.specs.Name.{is_hidden};
ghost use Rattle.mt_rules.specs.Batches.{MayAsk};

use mt_chain::{Cond, Op};
use mt_model::{Key, Props};
use mt_rules::{Batch, check_batch};
use mt_test_stores::one;
use std::alloc::Global;
use std::test::Fail;

/// A kind of operation, each with the property `B`.
#[derive(Clone, Copy)]
pub enum Do {
    Insert,
    Replace(Cond),
    Merge(Cond),
    Delete(Cond),
    InsertOrReplace,
    InsertOrMerge,

    /// The row is replaced by the property `Age` alone.
    SetAge(i32),
}

/// An operation on the row of that key.
pub type Sample<'a> = (&'a str, Do);

/// One property that clients see.
fn visible(alloc: Global, name: &str, value: i32) -> Result<Props, Fail>
    ensures { IfOk result (λ ps. list_any (λ p. is_hidden p.name) ps ≡ false) }
{
    let props = one(alloc, name, value)?;
    Ok(props.visible(alloc)?)
}

/// What the operation brings: the property `B`, but for `SetAge`.
fn brought(alloc: Global, kind: Do) -> Result<Props, Fail>
    ensures { IfOk result (λ ps. list_any (λ p. is_hidden p.name) ps ≡ false) }
{
    match kind {
        Do::SetAge(age) => visible(alloc, "Age", age),
        _ => visible(alloc, "B", 1),
    }
}

/// The key of two texts that meet the rules of keys.
pub fn key(alloc: Global, pk: &str, rk: &str) -> Result<Key, Fail>
    ensures { IfOk result (λ k. key_fault k.pk k.rk ≡ None) }
{
    Ok(Key::read(alloc, pk, rk)?)
}

fn op_of(alloc: Global, pk: &str, sample: Sample<'_>) -> Result<Op, Fail>
    ensures { IfOk result MayAsk }
{
    let (rk, kind) = sample;
    let key = key(alloc, pk, rk)?;
    let props = brought(alloc, kind)?;
    Ok(match kind {
        Do::Insert => Op::Insert { key, props },
        Do::Replace(cond) => Op::Replace { key, props, cond },
        Do::Merge(cond) => Op::Merge { key, props, cond },
        Do::Delete(cond) => Op::Delete { key, cond },
        Do::InsertOrReplace => Op::InsertOrReplace { key, props },
        Do::InsertOrMerge => Op::InsertOrMerge { key, props },
        Do::SetAge(_) => Op::Replace {
            key,
            props,
            cond: Cond::Any,
        },
    })
}

fn ops_of(alloc: Global, pk: &str, samples: &[Sample<'_>]) -> Result<Vec<Op>, Fail>
    ensures { IfOk result (λ v. All MayAsk v.items) }
{
    let mut ops = Vec::new(alloc);
    for sample in samples {
        ops.push(op_of(alloc, pk, *sample)?)?;
    }
    Ok(ops)
}

/// The inserts of `a000`, `a001` and so on, at most 100.
fn inserts(alloc: Global, count: u32) -> Result<Vec<Op>, Fail>
    ensures { IfOk result (λ v. All MayAsk v.items) }
{
    let mut ops = Vec::new(alloc);
    for n in 0..count {
        let (tens, ones) = (n / 10, n % 10);
        let rk = format!(in alloc; "a0{tens}{ones}")?;
        ops.push(op_of(alloc, "p", (rk.as_str(), Do::Insert))?)?;
    }
    Ok(ops)
}

fn checked(alloc: Global, ops: Vec<Op>) -> Result<Batch, Fail>
    requires { All MayAsk ops.items }
{
    match check_batch(alloc, ops) {
        Ok(batch) => Ok(batch),
        Err(_) => Err(Fail::new("no batch")),
    }
}

/// A batch of that partition.
pub fn batch(alloc: Global, pk: &str, samples: &[Sample<'_>]) -> Result<Batch, Fail> {
    checked(alloc, ops_of(alloc, pk, samples)?)
}

/// A batch of so many inserts into the partition `p`, at most 100.
pub fn insert_batch(alloc: Global, count: u32) -> Result<Batch, Fail> {
    checked(alloc, inserts(alloc, count)?)
}
