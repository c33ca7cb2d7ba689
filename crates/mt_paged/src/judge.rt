//! Whether puts hold on the rows of a store.
ghost use Rattle.std.specs.Prelude.{◌≡◌, ◌≤◌, IsTrue, length};
ghost use Rattle.mt_chain.specs.Rows.{are_rising};
ghost use Rattle.mt_chain.specs.Puts.{unmet_from};
ghost use Rattle.mt_paged.specs.Pages.{rows_in};

use crate::lookup::row_at;
use crate::pages::Pages;
use mt_chain::Put;
use mt_mem::{holds, row_key};
use mt_model::Text;

/// The least of at most 101 puts that does not hold, counted from 0.
pub fn unmet(pages: &Pages, pk: &Text, puts: &[Put]) -> Option<u32>
    requires rising { IsTrue (are_rising (rows_in pages.now)) }
    requires few { length puts.now ≤ 101 }
    ensures { result ≡ unmet_from 0 (rows_in pages.now) pk.now puts.now }
{
    for (index, put) in puts.iter().enumerate() {
        if !holds(put, row_at(pages, pk, row_key(put))) {
            return Some(index as u32);
        }
    }
    None
}
