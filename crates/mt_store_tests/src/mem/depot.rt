use crate::mem::build::{Ask, key, puts_of};
use mt_chain::{Depot, Keeper};
use mt_mem::{MemDepot, MemKeeper};
use mt_model::Tag;
use std::alloc::Global;
use std::test::Fail;

/// Two empty stores.
fn stores(alloc: Global) -> MemDepot {
    let old = MemKeeper::new(alloc, 0, Vec::new(alloc));
    let new = MemKeeper::new(alloc, 1, Vec::new(alloc));
    MemDepot::new(old, new)
}

/// Whether store 1 gives its first tag to an insert; then it goes back.
fn takes_a_row(alloc: Global, depot: &mut MemDepot) -> Result<bool, Fail> {
    let pk = key(alloc, 'p')?;
    let puts = puts_of(alloc, &[Ask::Insert('z', 9)])?;
    let mut keeper = depot.open_store(alloc, 1)?;
    let tags = keeper.apply(alloc, &pk, &puts)?;
    depot.take_back(keeper);
    Ok(tags.as_slice() == [Tag { store: 1, n: 1 }].as_slice())
}

#[test]
fn hands_out_stores(rt: HostRuntime) -> Result<(), Fail> {
    let alloc = rt.alloc();
    let mut depot = stores(alloc);
    assert!(rt; takes_a_row(alloc, &mut depot)?);
    let keeper = depot.open_store(alloc, 1)?;
    assert!(rt; keeper.number() == 1 && keeper.counter() == 1);
    assert!(rt; depot.open_store(alloc, 1).is_err() && depot.open_store(alloc, 2).is_err());
    assert!(rt; depot.open_store(alloc, 0)?.number() == 0);
    Ok(())
}
