//! The changes of puts, made where memory was taken for them.
ghost use Rattle.std.specs.Prelude.{◌≡◌, ◌≤◌, IsTrue, length};
ghost use Rattle.mt_chain.specs.Rows.{are_rising};
ghost use Rattle.mt_mem.specs.Changes.{edit_of, edits_of, edited};
ghost use Rattle.mt_paged.specs.Pages.{rows_in};
ghost use Rattle.mt_paged.specs.Keyed.{Stores};

use crate::keyed::{put, remove};
use crate::pages::Pages;
use mt_mem::Change;
use mt_model::Text;

/// Makes a change of a partition, where there is memory for a page.
fn make(pages: &mut Pages, pk: &Text, change: Change<'_>)
    requires rising { IsTrue (are_rising (rows_in pages.old)) }
    requires spare { 1 ≤ pages.old.spare }
    ensures { Stores (edit_of pk.now change.entry).0 (edit_of pk.now change.entry).1 pages.old pages.new }
{
    match change {
        Change::Write(row) => put(pages, row),
        Change::Remove(rk) => remove(pages, pk, rk),
    }
}

/// Makes changes of a partition in order, where there is memory for as many pages.
pub fn make_all(pages: &mut Pages, pk: &Text, changes: Vec<Change<'_>>)
    requires rising { IsTrue (are_rising (rows_in pages.old)) }
    requires spare { length changes.items ≤ pages.old.spare }
    ensures rows { rows_in pages.new ≡ edited (edits_of pk.now changes.entry.items) (rows_in pages.old) }
    ensures rising { IsTrue (are_rising (rows_in pages.new)) }
{
    for change in changes {
        make(pages, pk, change);
    }
}
