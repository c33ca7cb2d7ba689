//! Rows put into pages and taken out by their keys.
ghost use Rattle.std.specs.Prelude.{◌<◌, IsTrue, Some, None};
ghost use Rattle.mt_chain.specs.Rows.{are_rising, key_at};
ghost use Rattle.mt_mem.specs.Entries.{entry};
ghost use Rattle.mt_paged.specs.Pages.{rows_in};
ghost use Rattle.mt_paged.specs.Keyed.{Stores};

use crate::pages::Pages;
use mt_mem::{Row, place_of};
use mt_model::Text;

/// Puts a row at its key, in the place of any other, where there is memory for a page.
pub fn put(pages: &mut Pages, row: Row)
    requires rising { IsTrue (are_rising (rows_in pages.old)) }
    requires spare { 0 < pages.old.spare }
    ensures { Stores (entry row).0 (Some (entry row).1) pages.old pages.new }
{
    if pages.len() == 0 {
        pages.begin(row);
        return;
    }
    let at = pages.home(&row.0, &row.1.rk);
    match place_of(pages.page(at), &row.0, &row.1.rk) {
        Ok(place) => pages.set(at, place, row),
        Err(place) => pages.insert(at, place, row),
    }
}

/// Takes the row of a key out, if there is one.
pub fn remove(pages: &mut Pages, pk: &Text, rk: &Text)
    requires { IsTrue (are_rising (rows_in pages.old)) }
    ensures { Stores (key_at pk.now rk.now) None pages.old pages.new }
{
    if pages.len() == 0 {
        return;
    }
    let at = pages.home(pk, rk);
    match place_of(pages.page(at), pk, rk) {
        Ok(place) => pages.remove(at, place),
        Err(_) => {}
    }
}
