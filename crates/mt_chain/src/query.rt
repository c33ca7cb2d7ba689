ghost use Rattle.std.specs.Prelude.{◌≡◌};
ghost use Rattle.mt_chain.specs.Rows.{is_from, is_upto, is_within, is_past};

use crate::row::StoredRows;
use mt_model::{Text, Texts};

/// Where a range of row keys begins.
#[derive(Drop)]
pub enum RkFrom {
    /// At the first row of the partition.
    Start,
    /// At this row key.
    From(Text),
    /// Past this row key.
    After(Text),
}

/// Where a walk over partitions begins.
#[derive(Drop)]
pub enum PkFrom {
    /// At this partition key.
    From(Text),
    /// Past this partition key.
    After(Text),
}

/// A range of row keys, and how many of its rows are wanted.
#[derive(Drop)]
pub struct Range {
    pub from: RkFrom,
    /// The last row key of the range, which belongs to it.
    pub upto: Option<Text>,
    /// How many rows are wanted at most, 1 or more.
    pub limit: Option<u32>,
}

/// What is asked of one partition: some rows by their keys, and a range.
#[derive(Drop)]
pub struct RangeQuery {
    pub pk: Text,
    /// At most 101 row keys, rising.
    pub named: Texts,
    pub range: Option<Range>,
}

/// The answer to a query.
#[derive(Drop)]
pub struct Found {
    /// Those of the named rows that are there, in the order named.
    pub named: StoredRows,
    /// The first rows of the range, in order.
    pub rows: StoredRows,
    /// Whether the range has further rows.
    pub more: bool,
    /// Whether the store is sealed.
    pub sealed: bool,
}

/// The next partition that has a row, and whether the store is sealed.
#[derive(Drop)]
pub struct Next {
    pub pk: Option<Text>,
    pub sealed: bool,
}

impl RkFrom {
    /// Whether a row key lies at or after this place.
    pub fn admits(&self, rk: &Text) -> bool
        ensures { result ≡ is_from self.now rk.now }
    {
        match self {
            RkFrom::Start => true,
            RkFrom::From(low) => low <= rk,
            RkFrom::After(low) => low < rk,
        }
    }
}

impl PkFrom {
    /// Whether a partition key lies at or after this place.
    pub fn admits(&self, pk: &Text) -> bool
        ensures { result ≡ is_past self.now pk.now }
    {
        match self {
            PkFrom::From(low) => low <= pk,
            PkFrom::After(low) => low < pk,
        }
    }
}

/// Whether a row key does not lie past the end of a range, which belongs to it.
pub fn is_upto(upto: &Option<Text>, rk: &Text) -> bool
    ensures { result ≡ is_upto upto.now rk.now }
{
    match upto {
        None => true,
        Some(high) => rk <= high,
    }
}

impl Range {
    /// Whether a row key lies in the range.
    pub fn contains(&self, rk: &Text) -> bool
        ensures { result ≡ is_within self.now rk.now }
    {
        self.from.admits(rk) && is_upto(&self.upto, rk)
    }
}
