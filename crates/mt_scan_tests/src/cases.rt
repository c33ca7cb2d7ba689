use crate::scenes::{Came, Row, empty, mark, page, put, read};
use mt_mem::MemKeeper;
use mt_meta::{Mark, NewPhase, Phase};
use mt_model::Tag;
use std::alloc::Global;
use std::test::Fail;

/// A text and a number of so many digits, at most 99,999.
fn numbered(alloc: Global, prefix: &str, number: u32, width: usize) -> Result<String, Fail> {
    let mut text = String::new(alloc);
    text.push_str(prefix)?;
    let digits = format!(in alloc; "{number}")?;
    for _ in digits.as_str().len()..width {
        text.push_str("0")?;
    }
    text.push_str(digits.as_str())?;
    Ok(text)
}

fn is(came: &Came, calls: u32, units: u32, rows: usize, told: &str) -> bool {
    came.calls == calls && came.units == units && came.rows == rows && came.told.as_str() == told
}

#[test]
fn empty_stores_are_one_gap(rt: HostRuntime) -> Result<(), Fail> {
    let alloc = rt.alloc();
    let (mut old, mut new) = (empty(alloc, 0), empty(alloc, 1));
    let came = read(alloc, page(alloc, 1000)?, &mut old, &mut new)?;
    assert!(rt; is(&came, 1, 1, 0, "gap from  |;end"), "one gap");
    Ok(())
}

/// Old with the partition `p` of rows `r00000` on.
fn long(alloc: Global, count: u32) -> Result<MemKeeper, Fail> {
    let mut old = empty(alloc, 0);
    mark(alloc, &mut old, 0, "p", Row::Old(Phase::UseOld))?;
    for n in 0..count {
        let rk = numbered(alloc, "r", n, 5)?;
        put(alloc, &mut old, 0, "p", rk.as_str(), Row::Data(1))?;
    }
    Ok(old)
}

#[test]
fn chunks_end_at_their_last_row(rt: HostRuntime) -> Result<(), Fail> {
    let alloc = rt.alloc();
    let mut old = long(alloc, 250)?;
    let mut new = empty(alloc, 1);
    let came = read(alloc, page(alloc, 1000)?, &mut old, &mut new)?;
    let told = "gap from  p;scan p ^ r00098;scan p r00098 r00198;scan p r00198 |;gap after p |;end";
    assert!(rt; is(&came, 5, 5, 250, told), "250 rows");
    Ok(())
}

#[test]
fn a_page_ends_where_it_has_no_room(rt: HostRuntime) -> Result<(), Fail> {
    let alloc = rt.alloc();
    let mut old = empty(alloc, 0);
    mark(alloc, &mut old, 0, "m", Row::Old(Phase::UseOld))?;
    put(alloc, &mut old, 0, "m", "r", Row::Data(1))?;
    let mut new = empty(alloc, 1);
    let came = read(alloc, page(alloc, 1)?, &mut old, &mut new)?;
    assert!(rt;
        is(&came, 2, 2, 1, "gap from  m;scan m ^ r;row m r"),
        "one row"
    );
    Ok(())
}

#[test]
fn a_page_ends_at_256_units(rt: HostRuntime) -> Result<(), Fail> {
    let alloc = rt.alloc();
    let mut old = empty(alloc, 0);
    for n in 0..200 {
        let pk = numbered(alloc, "p", n, 3)?;
        mark(alloc, &mut old, 0, pk.as_str(), Row::Old(Phase::UseOld))?;
        put(alloc, &mut old, 0, pk.as_str(), "r", Row::Data(1))?;
    }
    let mut new = empty(alloc, 1);
    let came = read(alloc, page(alloc, 1000)?, &mut old, &mut new)?;
    assert!(rt; came.units == 256 && came.rows == 128, "256 units");
    assert!(rt;
        came.told.as_str().ends_with("scan p127 ^ |;after p127"),
        "the token"
    );
    Ok(())
}

/// Old with rows `a00000` to `a00118` by twos, turned, and new with a copy of each and then live rows
/// from `a00001` on to `a00150`.
fn overlaid(alloc: Global) -> Result<(MemKeeper, MemKeeper), Fail> {
    let (mut old, mut new) = (empty(alloc, 0), empty(alloc, 1));
    mark(alloc, &mut old, 0, "p", Row::Old(Phase::UseOld))?;
    mark(alloc, &mut new, 1, "p", Row::New(NewPhase::Filling))?;
    for n in 0_u32..60 {
        let rk = numbered(alloc, "a", n * 2, 5)?;
        put(alloc, &mut old, 0, "p", rk.as_str(), Row::Data(1))?;
        let seen = Tag {
            store: 0,
            n: n as u64 + 2,
        };
        put(
            alloc,
            &mut new,
            1,
            "p",
            rk.as_str(),
            Row::Kept(Mark::Copy(seen), 1),
        )?;
    }
    mark(alloc, &mut old, 0, "p", Row::Turn(1))?;
    for n in 1_u32..151 {
        let rk = numbered(alloc, "a", n, 5)?;
        let row = if n % 2 == 0 && n < 120 {
            Row::Again(Mark::Live, 2, n as u64 / 2 + 2)
        } else {
            Row::Kept(Mark::Live, 2)
        };
        put(alloc, &mut new, 1, "p", rk.as_str(), row)?;
    }
    Ok((old, new))
}

#[test]
fn a_chunk_over_both_ends_at_the_lesser(rt: HostRuntime) -> Result<(), Fail> {
    let alloc = rt.alloc();
    let (mut old, mut new) = overlaid(alloc)?;
    let came = read(alloc, page(alloc, 1000)?, &mut old, &mut new)?;
    let told = "gap from  p;scan p ^ a00098;scan p a00098 |;gap after p |;end";
    assert!(rt; is(&came, 6, 4, 151, told), "151 rows");
    Ok(())
}
