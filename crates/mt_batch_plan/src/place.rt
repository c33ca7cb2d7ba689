//! Where a batch call is.
use crate::basis::Basis;
use mt_chain::StoredRows;

/// What old showed a call that goes on to new.
#[derive(Drop)]
pub enum AfterOld {
    /// The partition has turned to new, and old has these rows at the call's keys.
    Turned { rows: StoredRows },

    /// Old is sealed, and has no such partition.
    Closed,
}

/// Where a batch call is, with what it has read.
#[derive(Drop)]
pub enum Place {
    /// It reads the marker and the rows that its operations name in the old store.
    ReadOld,

    /// It reads the same in the new store.
    ReadNew { after: AfterOld },

    /// It writes.
    Write { basis: Basis },
}
