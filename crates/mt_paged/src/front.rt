//! Tests of rows that the first rows pass, in the order of keys, and no others.
ghost use Rattle.std.specs.Prelude.{◌≡◌, IsTrue};
ghost use Rattle.mt_chain.specs.Rows.{are_rising};
ghost use Rattle.mt_chain.specs.Places.{IsCut};
ghost use Rattle.mt_mem.specs.Entries.{entry, entries};
ghost use Rattle.mt_paged.specs.Fronts.{is_in_front, begins_in};

use crate::page::Page;
use mt_chain::{PkFrom, RkFrom};
use mt_mem::{Row, compare, is_before};
use mt_model::Text;

/// Which rows are the first ones.
#[derive(Clone, Copy)]
pub enum Front<'a> {
    /// Those up to a key, the row of the key among them.
    UpTo(&'a Text, &'a Text),
    /// Those before a range of a partition.
    BeforeRange(&'a Text, &'a RkFrom),
    /// Those of the partitions before one.
    BeforePartition(&'a Text),
    /// Those of the partitions before a place.
    BeforePlace(&'a PkFrom),
}

impl Front<'_> {
    /// Whether a row is one of the first.
    pub fn has(&self, row: &Row) -> bool
        ensures { result ≡ is_in_front self.now (entry row.now).0 }
    {
        match self {
            Front::UpTo(pk, rk) => compare(row, pk, rk).is_le(),
            Front::BeforeRange(pk, from) => is_before(pk, from, row),
            Front::BeforePartition(pk) => !(*pk <= &row.0),
            Front::BeforePlace(at) => !at.admits(&row.0),
        }
    }

    /// Whether a page begins with one of the first rows.
    pub fn begins(&self, page: &Page) -> bool
        ensures { result ≡ begins_in (is_in_front self.now) (entries page.now) }
    {
        match page.rows().first() {
            None => true,
            Some(row) => self.has(row),
        }
    }

    /// Where in rows the first ones end.
    pub fn end_in(&self, rows: &[Row]) -> usize
        requires { IsTrue (are_rising (entries rows.now)) }
        ensures { IsCut (is_in_front self.now) (entries rows.now) result }
    {
        rows.partition_point(|row| self.has(row))
    }
}
