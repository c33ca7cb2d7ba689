//! Operations on single rows, as a client asks for them.
ghost use Rattle.std.specs.Prelude.{◌≡◌, ◌^◌, ◌-◌, min, IfOk, IsTrue, ◌↔◌};
ghost use Rattle.mt_model.specs.Props.{visible_size};
ghost use Rattle.mt_chain.specs.Effect.{op_key, op_props, meets};
ghost use Rattle.mt_chain.specs.Batch.{op_size};

use mt_model::{Key, NoMemory, Props, Tag};
use std::alloc::Global;

/// What the tag of a row has to be.
#[derive(Clone, Copy, Debug, PartialEq, Eq)]
pub enum Cond {
    /// Any tag.
    Any,
    /// This tag.
    Is(Tag),
}

/// One operation on the row at a key.
#[derive(Debug, Drop, PartialEq, Eq)]
pub enum Op {
    /// No row is there, and this one comes.
    Insert { key: Key, props: Props },
    /// The row is there and meets the condition, and gets these properties in place of its own.
    Replace { key: Key, props: Props, cond: Cond },
    /// The row is there and meets the condition, and gets these properties over its own.
    Merge { key: Key, props: Props, cond: Cond },
    /// The row is there and meets the condition, and goes.
    Delete { key: Key, cond: Cond },
    /// These properties stand in the row, in place of any other.
    InsertOrReplace { key: Key, props: Props },
    /// These properties stand in the row, over those that it has.
    InsertOrMerge { key: Key, props: Props },
}

/// Why an operation is refused.
#[derive(Clone, Copy, Debug, PartialEq, Eq)]
pub enum Cause {
    /// A row is there.
    Exists,
    /// No row is there.
    NotFound,
    /// The row has another tag than the condition names.
    ConditionFailed,
    /// The merged row would have more than 252 visible properties.
    TooManyProperties,
    /// The merged row would have more than 1,048,576 bytes of visible properties.
    EntityTooLarge,
}

/// The operation of a batch that refuses it, and why.
#[derive(Clone, Copy, Debug, PartialEq, Eq)]
pub struct Refusal {
    /// Counted from 0.
    pub index: u32,
    pub cause: Cause,
}

impl Cond {
    /// Whether a row of that tag meets the condition.
    pub fn is_met_by(self, tag: Tag) -> bool
        ensures { result ≡ meets self tag }
    {
        match self {
            Cond::Any => true,
            Cond::Is(wanted) => wanted == tag,
        }
    }
}

impl Op {
    /// The key of the row.
    pub fn key(&self) -> &Key
        ensures { result.now ≡ op_key self.now }
    {
        match self {
            Op::Insert { key, .. }
            | Op::Replace { key, .. }
            | Op::Merge { key, .. }
            | Op::Delete { key, .. }
            | Op::InsertOrReplace { key, .. }
            | Op::InsertOrMerge { key, .. } => key,
        }
    }

    /// The bytes of the properties that it brings; a delete brings none.
    fn props_size(&self) -> u64
        ensures { result ≡ visible_size (op_props self.now) }
    {
        match self {
            Op::Insert { props, .. }
            | Op::Replace { props, .. }
            | Op::Merge { props, .. }
            | Op::InsertOrReplace { props, .. }
            | Op::InsertOrMerge { props, .. } => props.size(),
            Op::Delete { .. } => 0,
        }
    }

    /// The bytes of the key and of the visible properties, or the greatest number.
    pub fn size(&self) -> u64
        ensures { result ≡ min (2 ^ 64 - 1) (op_size self.now) }
    {
        let key = self.key();
        let pk = key.pk.as_str().len() as u64;
        let rk = key.rk.as_str().len() as u64;
        pk.saturating_add(rk).saturating_add(self.props_size())
    }

    /// The same operation. The one error is want of memory.
    pub fn copy(&self, alloc: Global) -> Result<Op, NoMemory>
        ensures { IfOk result (λ op. op ≡ self.now) }
    {
        let key = self.key().copy(alloc)?;
        match self {
            Op::Insert { props, .. } => Ok(Op::Insert {
                key,
                props: props.copy(alloc)?,
            }),
            Op::Replace { props, cond, .. } => Ok(Op::Replace {
                key,
                props: props.copy(alloc)?,
                cond: *cond,
            }),
            Op::Merge { props, cond, .. } => Ok(Op::Merge {
                key,
                props: props.copy(alloc)?,
                cond: *cond,
            }),
            Op::Delete { cond, .. } => Ok(Op::Delete { key, cond: *cond }),
            Op::InsertOrReplace { props, .. } => Ok(Op::InsertOrReplace {
                key,
                props: props.copy(alloc)?,
            }),
            Op::InsertOrMerge { props, .. } => Ok(Op::InsertOrMerge {
                key,
                props: props.copy(alloc)?,
            }),
        }
    }
}
