//! Stores that were read whole.
ghost use Rattle.std.specs.Prelude.{◌≡◌, IsTrue, option_copied};
ghost use Rattle.mt_chain.specs.Rows.{are_rising, row_at};
ghost use Rattle.mt_meta.specs.Markers.{marker_key};
ghost use Rattle.mt_open.specs.Opening.{is_emptied};

use mt_chain::{Row, Rows, Stored};
use mt_meta::MARKER_KEY;
use mt_model::Text;
use std::marker::Model;

/// All that a store holds: rows whose keys rise, whether it is sealed, and how many tags it gave.
#[derive(Drop)]
pub struct Holding {
    number: u32,
    rows: Rows,
    sealed: bool,
    counter: u64,
}

impl Model for Holding {
    ghost use Rattle.mt_open.specs.Held.{Held};

    ghost Value = { Held };

    ghost view = { λ h. record { number = h.number; contents = record { rows = h.rows; sealed = h.sealed; counter = h.counter } } };
}

impl Holding {
    /// What a store of that number holds.
    pub fn of(number: u32, rows: Rows, sealed: bool, counter: u64) -> Holding
        ensures number { result.number ≡ number }
        ensures rows { result.contents.rows ≡ rows }
        ensures sealed { result.contents.sealed ≡ sealed }
        ensures counter { result.contents.counter ≡ counter }
    {
        Holding {
            number,
            rows,
            sealed,
            counter,
        }
    }

    /// The store's number.
    pub fn number(&self) -> u32
        ensures { result ≡ self.now.number }
    {
        self.number
    }

    /// The rows, in the order of their keys.
    pub fn rows(&self) -> &[Row]
        ensures value { result.now ≡ self.now.contents.rows }
        ensures rising { IsTrue (are_rising self.now.contents.rows) }
    {
        self.rows.as_slice()
    }

    /// Whether the store is sealed.
    pub fn is_sealed(&self) -> bool
        ensures { result ≡ self.now.contents.sealed }
    {
        self.sealed
    }

    /// Whether the store is sealed and has no row.
    pub fn is_emptied(&self) -> bool
        ensures { result ≡ is_emptied self.now.contents }
    {
        self.sealed && self.rows.as_slice().is_empty()
    }

    /// How many tags the store gave.
    pub fn counter(&self) -> u64
        ensures { result ≡ self.now.contents.counter }
    {
        self.counter
    }

    /// The row at a key, found by binary search.
    pub fn row(&self, pk: &Text, rk: &str) -> Option<&Stored>
        ensures { option_copied result ≡ row_at self.now.contents.rows pk.now rk.now }
    {
        self.rows.row_at(pk.as_str(), rk)
    }

    /// The marker of a partition.
    pub fn marker(&self, pk: &Text) -> Option<&Stored>
        ensures { option_copied result ≡ row_at self.now.contents.rows pk.now marker_key }
    {
        self.row(pk, MARKER_KEY)
    }
}
