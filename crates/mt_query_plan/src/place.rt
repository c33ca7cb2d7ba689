//! Where a query is.
use mt_chain::StoredRows;

/// Why a query reads new.
#[derive(Drop)]
pub enum AfterOld {
    /// The partition has turned to new, and old has these rows in the range.
    Turned { rows: StoredRows },

    /// Old is sealed, and has no such partition.
    Closed,

    /// New was seen to be used alone before, and old was not read.
    Moved,
}

/// Where a query is, with what it has read.
#[derive(Drop)]
pub enum Place {
    /// It reads the marker and the range in the old store.
    ReadOld,

    /// It reads the same in the new store.
    ReadNew { after: AfterOld },
}
