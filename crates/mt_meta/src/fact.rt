//! What an actor knows of two stores between its steps. Contracts alone speak of facts: no code makes
//! one.

use mt_chain::{PkFrom, RkFrom, Side, StoredRows};
use mt_model::{Props, Tag, Text, Texts};

/// Row keys of a partition.
#[derive(Drop)]
pub enum Keys {
    /// No row key.
    None,
    /// These row keys.
    Named(Texts),
    /// The row keys of a range but these, which still wait for a put.
    Within {
        from: RkFrom,
        /// The last row key of the range, which belongs to it.
        upto: Option<Text>,
        waiting: Texts,
    },
}

/// What is so of two stores, and stays so whatever other actors do.
#[derive(Drop)]
pub enum Fact {
    /// A row of that tag has those properties, now and later.
    Row {
        side: Side,
        pk: Text,
        rk: Text,
        props: Props,
        tag: Tag,
    },
    /// Old's row, which a migrator has in hand, may be copied with the tag that clients see.
    Kept {
        pk: Text,
        rk: Text,
        tag: Tag,
    },
    /// A migrator has claimed the partition, or it is in new alone.
    Begun {
        pk: Text,
    },
    /// The partition is in one of the stores.
    There {
        pk: Text,
    },
    /// While new fills, old takes no write, and has these rows at those keys.
    Turned {
        pk: Text,
        keys: Keys,
        rows: StoredRows,
    },
    /// Old is sealed, and has nothing in the range.
    Closed {
        from: PkFrom,
        /// The end of the range, which does not belong to it.
        upto: Option<Text>,
    },
    /// New is used alone.
    Moved {
        pk: Text,
    },
    /// New's marker of that tag is of the migrator's own making, and at those keys its copies are made.
    Epoch {
        pk: Text,
        tag: Tag,
        keys: Keys,
    },
    /// New is used alone, has no tombstone at those keys, and old has no data rows but the rest, where
    /// that is known.
    Clean {
        pk: Text,
        keys: Keys,
        rest: Option<StoredRows>,
    },
    /// Old is sealed, and each of its partitions before the place is in new alone; without a place
    /// each of them all.
    Swept {
        place: Option<PkFrom>,
    },
    /// Old is retired.
    Retired,
}
