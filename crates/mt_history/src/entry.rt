//! Entries of a history.
ghost use Rattle.std.specs.Prelude.{◌≡◌, ◌^◌, ◌-◌, min};
ghost use Rattle.mt_history.specs.Weight.{weight};

use crate::need::{filter_size, from_size, query_need, row_from_size, text_size};
use mt_chain::{PkFrom, RkFrom, Tags};
use mt_filter::Filter;
use mt_model::Text;
use mt_rules::Batch;

/// What happened to the table in one turn, or was seen of it.
#[derive(Drop)]
pub enum What {
    /// The batch was applied. There is one tag for each operation: that of the row that it wrote, or
    /// for a delete that of the row that went.
    Batch {
        batch: Batch,
        tags: Tags,
    },

    /// The batch was refused.
    Refused {
        batch: Batch,
    },

    /// The rows of a partition were read, or those that a filter matches.
    Query {
        pk: Text,
        filter: Option<Filter>,
    },

    /// The rows of a partition were read from a place on and up to a row key, which belongs to the
    /// range, or those of them that a filter matches.
    Scan {
        pk: Text,
        from: RkFrom,
        upto: Option<Text>,
        filter: Option<Filter>,
    },

    /// No row has a partition key from a place on and up to, but not including, another.
    Gap {
        from: PkFrom,
        to: Option<Text>,
    },

    /// A call of a store failed.
    Fault,
}

/// One entry of a history.
#[derive(Drop)]
pub struct Entry {
    pub caller: u32,

    /// Counts the caller's entries, from 0.
    pub number: u64,
    pub what: What,
}

impl What {
    /// What the entry counts where memory is shared out, in bytes, or the greatest number: 64, the
    /// sizes of the operations, the bytes of the keys, and of a filter 16 for each node and the bytes
    /// of its names and literals.
    pub fn weight(&self) -> u64
        ensures { result ≡ min (2 ^ 64 - 1) (weight self.now) }
    {
        match self {
            What::Batch { batch, .. } | What::Refused { batch } => batch.weight(),
            What::Query { pk, filter } => query_need(pk, filter),
            What::Scan {
                pk,
                from,
                upto,
                filter,
            } => query_need(pk, filter)
                .saturating_add(row_from_size(from))
                .saturating_add(text_size(upto)),
            What::Gap { from, to } => 64_u64
                .saturating_add(from_size(from))
                .saturating_add(text_size(to)),
            What::Fault => 64,
        }
    }
}
