//! Where a cleaner is, with what it has read.
use mt_chain::StoredRows;
use mt_model::{Tag, Text};

/// Where a cleaner is.
#[derive(Drop)]
pub enum State {
    /// It asks for old's first partition.
    Walk,

    /// It reads new's marker, and the rows past this row key; from the first one on where it is none.
    Tombs {
        pk: Text,
        after: Option<Text>,
    },

    /// It deletes tombstones of new, which were read up to this row key, or to the end where it is
    /// none.
    Purge {
        pk: Text,
        upto: Option<Text>,
        tombs: StoredRows,
    },

    /// It reads old's marker and first rows.
    Rows {
        pk: Text,
    },

    /// It deletes rows of old, whose marker has this tag, and the marker itself where the partition has
    /// no more of them.
    Drop {
        pk: Text,
        marker: Tag,
        rows: StoredRows,
        more: bool,
    },

    /// Old is sealed and has no row.
    Done,
}
