//! Where a migrator is, with what it has read.
use mt_chain::{PkFrom, StoredRows};
use mt_model::{Tag, Text};

/// The walks that a migrator makes over old's partitions.
#[derive(Clone, Copy, Debug, PartialEq, Eq)]
pub enum Walk {
    /// While clients may still bear partitions in old.
    BeforeSeal,

    /// Once old is sealed: what was born behind the first walk is moved too.
    AfterSeal,
}

/// The passes over the rows of a partition.
#[derive(Clone, Copy, Debug, PartialEq, Eq)]
pub enum Pass {
    /// Clients write old, whose marker `prefer-old` had this tag when it was last read or written.
    First { marker: Tag },

    /// Clients write new, and old's rows stay as they are.
    Second,
}

/// A partition that a walk has come to.
#[derive(Drop)]
pub struct Part {
    pub walk: Walk,
    pub pk: Text,
}

/// A pass over a partition.
#[derive(Drop)]
pub struct Copying {
    pub part: Part,
    pub pass: Pass,

    /// The tag of new's marker that this migrator wrote. While new has it, no other migrator copies.
    pub epoch: Tag,

    /// The row key up to which the pass is done; none at its start.
    pub done: Option<Text>,
}

/// The rows of a range that were read in one of the stores.
#[derive(Drop)]
pub struct Reading {
    pub rows: StoredRows,

    /// Whether the range has further rows.
    pub more: bool,
}

/// Where a migrator is.
#[derive(Drop)]
pub enum State {
    /// It asks for old's next partition.
    Walk {
        walk: Walk,
        from: PkFrom,
    },

    /// It seals old.
    SealOld,

    /// It reads old's marker.
    Look {
        part: Part,
    },

    /// It turns old's marker to `prefer-old`; the marker is among the rows that were read.
    Prepare {
        part: Part,
        rows: StoredRows,
    },

    /// It reads new's marker.
    Claim {
        part: Part,
        pass: Pass,
    },

    /// It makes new's marker.
    Begin {
        part: Part,
        pass: Pass,
    },

    /// It takes over new's marker, which has this tag.
    Takeover {
        part: Part,
        pass: Pass,
        filling: Tag,
    },

    /// It reads the next rows of old.
    ReadOld {
        copying: Copying,
    },

    /// It reads new's entries of the range that it read in old.
    ReadNew {
        copying: Copying,
        old: Reading,
    },

    /// It writes the copies of a chunk, which ends at this row key.
    Write {
        copying: Copying,
        upto: Option<Text>,
        rows: StoredRows,
        entries: StoredRows,
    },

    /// It turns old's marker to `prefer-new`.
    Switch {
        part: Part,
        marker: Tag,
        epoch: Tag,
    },

    /// It turns new's marker to `use-new`.
    Finish {
        part: Part,
        epoch: Tag,
    },

    /// Old is sealed, and each of its partitions is in new alone.
    Done,
}
