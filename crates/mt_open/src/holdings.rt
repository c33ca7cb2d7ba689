//! The two stores, read whole.
ghost use Rattle.std.specs.Prelude.{◌≡◌, IsTrue};
ghost use Rattle.mt_chain.specs.Rows.{are_rising};
ghost use Rattle.mt_meta.specs.Steps.{number_of, contents_of};
ghost use Rattle.mt_open.specs.Holdings.{pair_in};

use crate::holding::Holding;
use mt_chain::{Row, Side};

/// The old store and the new one.
#[derive(Drop)]
pub struct Holdings {
    pub old: Holding,
    pub new: Holding,
}

impl Holdings {
    /// The one store or the other.
    pub fn on(&self, side: Side) -> &Holding
        ensures number { result.now.number ≡ number_of (pair_in self.now) side }
        ensures contents { result.now.contents ≡ contents_of (pair_in self.now) side }
    {
        match side {
            Side::Old => &self.old,
            Side::New => &self.new,
        }
    }

    /// The rows of the one store or the other, in the order of their keys.
    pub fn rows_on(&self, side: Side) -> &[Row]
        ensures value { result.now ≡ (contents_of (pair_in self.now) side).rows }
        ensures rising { IsTrue (are_rising (contents_of (pair_in self.now) side).rows) }
    {
        match side {
            Side::Old => self.old.rows(),
            Side::New => self.new.rows(),
        }
    }
}
