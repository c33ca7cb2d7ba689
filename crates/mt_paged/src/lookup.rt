//! Searches in pages of rows whose keys rise.
ghost use Rattle.std.specs.Prelude.{◌≡◌, IsTrue, option_copied, option_map};
ghost use Rattle.mt_chain.specs.Rows.{are_rising, row_at, has_partition, shown};
ghost use Rattle.mt_mem.specs.Entries.{entry, stored};
ghost use Rattle.mt_paged.specs.Pages.{rows_in};
ghost use Rattle.mt_paged.specs.Fronts.{is_in_front};
ghost use Rattle.mt_paged.specs.Walks.{IsFirstPast};

use crate::front::Front;
use crate::pages::Pages;
use mt_chain::StoredRow;
use mt_mem::Row;
use mt_model::Text;

/// The row at a key.
pub fn row_at<'a>(pages: &'a Pages, pk: &Text, rk: &Text) -> Option<&'a StoredRow>
    requires { IsTrue (are_rising (rows_in pages.now)) }
    ensures stored { option_map stored (option_copied result) ≡ row_at (rows_in pages.now) pk.now rk.now }
    ensures shown { option_copied result ≡ option_map (shown rk.now) (row_at (rows_in pages.now) pk.now rk.now) }
{
    if pages.len() == 0 {
        return None;
    }
    let at = pages.home(pk, rk);
    mt_mem::row_at(pages.page(at), pk, rk)
}

/// The first row that does not belong to a front.
pub fn first_past<'a>(pages: &'a Pages, front: Front<'_>) -> Option<&'a Row>
    requires { IsTrue (are_rising (rows_in pages.now)) }
    ensures { IsFirstPast (is_in_front front.entry) (rows_in pages.now) (option_map entry (option_copied result)) }
{
    if pages.len() == 0 {
        return None;
    }
    let (at, place) = pages.spot(front);
    pages.first_from(at, place)
}

/// Whether a partition has a row.
pub fn has_partition(pages: &Pages, pk: &Text) -> bool
    requires { IsTrue (are_rising (rows_in pages.now)) }
    ensures { result ≡ has_partition (rows_in pages.now) pk.now }
{
    match first_past(pages, Front::BeforePartition(pk)) {
        None => false,
        Some(row) => *pk == row.0,
    }
}
