use crate::open::opening::one;
use mt_chain::{Keeper, Put};
use mt_mem::MemKeeper;
use mt_model::{Props, Text};
use mt_open::read_store;
use std::alloc::Global;
use std::test::Fail;

/// Puts a row without properties into partition `p`.
fn insert(alloc: Global, keeper: &mut MemKeeper, rk: &str) -> Result<(), Fail> {
    let pk = Text::of(alloc, "p")?;
    let rk = Text::of(alloc, rk)?;
    let props = Props::build(alloc, Vec::new(alloc))?;
    let puts = one(alloc, Put::Insert { rk, props })?;
    let _ = keeper.apply(alloc, &pk, &puts)?;
    Ok(())
}

/// A store of so many rows, whose keys rise as their tags do.
fn filled(alloc: Global, count: u64) -> Result<MemKeeper, Fail> {
    let mut keeper = MemKeeper::new(alloc, 0, Vec::new(alloc));
    for number in 0..count {
        let number = number.saturating_add(1000);
        let rk = format!(in alloc; "{number}")?;
        insert(alloc, &mut keeper, rk.as_str())?;
    }
    Ok(keeper)
}

/// Whether a partition of so many rows is read whole, and in order.
fn reads(alloc: Global, count: u64) -> Result<bool, Fail> {
    let mut keeper = filled(alloc, count)?;
    let loaded = read_store(alloc, &mut keeper)?;
    let mut next = 1u64;
    for row in loaded.rows.as_slice() {
        if row.1.tag.n != next {
            return Ok(false);
        }
        next = next.saturating_add(1);
    }
    Ok(loaded.rows.as_slice().len() as u64 == count)
}

#[test]
fn reads_long_partitions(rt: HostRuntime) -> Result<(), Fail> {
    let alloc = rt.alloc();
    for count in [0u64, 99, 100, 101, 200, 250] {
        assert!(rt; reads(alloc, count)?);
    }
    Ok(())
}
