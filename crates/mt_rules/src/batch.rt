//! Batches: operations on distinct rows of one partition.
ghost use Rattle.std.specs.Prelude.{◌≡◌, ◌⊎◌, ◌^◌, ◌-◌, ◌≤◌, ◌<◌, min, All, IfOk, IsOkUnless, MatchOption, List, [], length};
ghost use Rattle.mt_chain.specs.Batch.{batch_size, batch_weight};
ghost use Rattle.mt_rules.specs.Batches.{MayAsk, IsBatch, partition_of, count_fault, size_fault, places_fault, batch_fault};

use mt_chain::Op;
use mt_model::{NoMemory, Text};
use std::alloc::Global;
use std::collections::BTreeSet;
use std::marker::Model;

/// 1 to 100 operations on distinct rows of one partition, whose keys and properties have at most
/// 4,194,304 bytes together. No property is hidden.
#[derive(Debug, Drop)]
pub struct Batch {
    items: Vec<Op>,
}

impl Model for Batch {
    ghost use Rattle.std.specs.Prelude.{List};
    ghost use Rattle.mt_chain.specs.declared.op.Op.{Op};

    ghost Value = { List Op };

    ghost use Rattle.mt_rules.specs.Batches.{IsBatch};

    ghost view = { λ b. b.items.items };

    ghost invariant = { λ b. IsBatch b.items.items };
}

/// Why operations are no batch.
#[derive(Clone, Copy, Debug, PartialEq, Eq)]
pub enum BatchFault {
    /// There is no operation.
    Empty,

    /// There are more than 100 operations.
    TooMany,

    /// Keys and properties have more than 4,194,304 bytes together.
    TooLarge,

    /// The operation at this index is the first with a fault of place: its partition is not that of
    /// the first operation.
    OtherPartition { index: u32 },

    /// The operation at this index is the first with a fault of place: an earlier one names its row.
    Twice { index: u32 },

    /// There was no memory.
    NoMemory,
}

impl From<NoMemory> for BatchFault {
    ghost use Rattle.mt_rules.specs.declared.batch.BatchFault.TheVariants.{NoMemory};

    ghost from_gives = { λ _ e. e ≡ NoMemory };

    fn from(_e: NoMemory) -> BatchFault {
        BatchFault::NoMemory
    }
}

/// Operations of a batch, at most.
const MAX_OPERATIONS: usize = 100;

/// Bytes of the keys and properties of a batch, at most.
const MAX_BATCH_BYTES: u64 = 4_194_304;

/// The bytes of keys and properties, or the greatest number.
fn total_size(ops: &[Op]) -> u64
    ensures { result ≡ min (2 ^ 64 - 1) (batch_size ops.now) }
{
    let mut total: u64 = 0;
    for op in ops {
        total = total.saturating_add(op.size());
    }
    total
}

fn check_count(ops: &[Op]) -> Option<BatchFault>
    ensures { result ≡ count_fault ops.now }
{
    if ops.is_empty() {
        return Some(BatchFault::Empty);
    }
    if ops.len() > MAX_OPERATIONS {
        return Some(BatchFault::TooMany);
    }
    None
}

fn check_size(ops: &[Op]) -> Option<BatchFault>
    ensures { result ≡ size_fault ops.now }
{
    if total_size(ops) > MAX_BATCH_BYTES {
        return Some(BatchFault::TooLarge);
    }
    None
}

/// The first operation of another partition than that, or on a row that an earlier one names.
fn check_places(alloc: Global, pk: &Text, ops: &[Op]) -> Result<Option<BatchFault>, NoMemory>
    requires { length ops.now < 2 ^ 32 }
    ensures { IfOk result (λ r. r ≡ places_fault pk.now [] 0 ops.now) }
{
    let mut seen = BTreeSet::new(alloc);
    for (at, op) in ops.iter().enumerate() {
        let index = at as u32;
        let key = op.key();
        if key.pk != *pk {
            return Ok(Some(BatchFault::OtherPartition { index }));
        }
        match seen.insert(key.rk.as_str()) {
            Ok(true) => {}
            Ok(false) => return Ok(Some(BatchFault::Twice { index })),
            Err(_) => return Err(NoMemory),
        }
    }
    Ok(None)
}

fn check(alloc: Global, ops: &[Op]) -> Result<Option<BatchFault>, NoMemory>
    ensures { IfOk result (λ r. r ≡ batch_fault ops.now) }
{
    if let Some(fault) = check_count(ops) {
        return Ok(Some(fault));
    }
    if let Some(fault) = check_size(ops) {
        return Ok(Some(fault));
    }
    check_places(alloc, &ops[0].key().pk, ops)
}

fn copy_all(alloc: Global, ops: &[Op]) -> Result<Vec<Op>, NoMemory>
    ensures { IfOk result (λ v. v.items ≡ ops.now) }
{
    let mut copies = Vec::with_capacity(alloc, ops.len())?;
    for op in ops {
        copies.push(op.copy(alloc)?)?;
    }
    Ok(copies)
}

/// The batch of these operations, each of which keeps the rules of keys and has no hidden property.
///
/// Refusals come in this order: the number of operations; the bytes of all; then the place of the
/// first operation that has such a fault, its partition before its row. The test for rows that are
/// named twice takes memory, so its want may take the place of any answer.
pub fn check_batch(alloc: Global, ops: Vec<Op>) -> Result<Batch, BatchFault>
    requires { All MayAsk ops.items }
    ensures answers { MatchOption (batch_fault ops.items)
        (IsOkUnless result BatchFault.NoMemory)
        (λ f. (result ≡ Err f) ⊎ (result ≡ Err BatchFault.NoMemory)) }
    ensures ok { IfOk result (λ b. b ≡ ops.items) }
{
    match check(alloc, &ops)? {
        Some(fault) => Err(fault),
        None => Ok(Batch { items: ops }),
    }
}

impl Batch {
    /// The operations, in their order.
    pub fn ops(&self) -> &[Op]
        ensures value { result.now ≡ self.now }
        ensures valid { IsBatch self.now }
    {
        self.items.as_slice()
    }

    /// The operations, in their order, which takes no memory.
    pub fn into_ops(self) -> Vec<Op>
        ensures value { result.items ≡ self }
        ensures valid { IsBatch self }
    {
        self.items
    }

    /// The partition key of all operations.
    pub fn partition(&self) -> &Text
        ensures { result.now ≡ partition_of self.now }
    {
        &self.items[0].key().pk
    }

    /// What the batch counts where memory is shared out: 64, and the bytes of keys and properties.
    pub fn weight(&self) -> u64
        ensures { result ≡ batch_weight self.now }
    {
        64 + total_size(&self.items)
    }

    /// The same batch. The one error is want of memory.
    pub fn copy(&self, alloc: Global) -> Result<Batch, NoMemory>
        ensures { IfOk result (λ b. b ≡ self.now) }
    {
        let items = copy_all(alloc, self.ops())?;
        Ok(Batch { items })
    }
}
