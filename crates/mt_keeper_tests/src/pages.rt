//! Pages that are split, joined and emptied.
use crate::both::Both;
use crate::build::{delete, insert, partition};
use mt_chain::PkFrom;
use mt_model::Tag;
use std::alloc::Global;
use std::test::Fail;

fn tag(n: u64) -> Tag {
    Tag { store: 0, n }
}

/// Whether both stores take a row of this number and give it that tag, and no page is above 128 rows.
fn inserts(alloc: Global, both: &mut Both, row: u64, n: u64) -> Result<bool, Fail> {
    let given = both.put(alloc, 'p', insert(alloc, row)?)?;
    Ok(given == Some(tag(n)) && both.paged.largest_page() <= 128)
}

/// Whether both stores take out the row of this number and of that tag.
fn deletes(alloc: Global, both: &mut Both, row: u64, n: u64) -> Result<bool, Fail> {
    let given = both.put(alloc, 'p', delete(alloc, row, tag(n))?)?;
    Ok(given == Some(tag(n)) && both.paged.largest_page() <= 128)
}

#[test]
fn rising_keys_fill_pages(rt: HostRuntime) -> Result<(), Fail> {
    let alloc = rt.alloc();
    let mut both = Both::empty(alloc)?;
    assert!(rt; both.paged.largest_page() == 0);
    for row in 0..300 {
        assert!(rt; inserts(alloc, &mut both, row, row + 1)?);
    }
    assert!(rt; both.paged.largest_page() == 128);
    for row in 0..300 {
        assert!(rt; deletes(alloc, &mut both, row, row + 1)?);
    }
    assert!(rt; both.paged.largest_page() == 0);
    let first = PkFrom::From(partition(alloc, 'p')?);
    assert!(rt; !both.walk(alloc, &first)?);
    Ok(())
}

/// Falling keys leave pages of 72, 64 and 64 rows. The last one joins the page before it once it has
/// fewer than 32.
#[test]
fn small_pages_join(rt: HostRuntime) -> Result<(), Fail> {
    let alloc = rt.alloc();
    let mut both = Both::empty(alloc)?;
    for n in 1..201 {
        assert!(rt; inserts(alloc, &mut both, 200 - n, n)?);
    }
    for n in 1..33 {
        assert!(rt; deletes(alloc, &mut both, 200 - n, n)?);
    }
    assert!(rt; both.paged.largest_page() == 72);
    assert!(rt; deletes(alloc, &mut both, 167, 33)?);
    assert!(rt; both.paged.largest_page() == 95);
    Ok(())
}
