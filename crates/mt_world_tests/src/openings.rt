//! Two stores opened as a world, or named as no sound pair.
ghost use Rattle.std.specs.Prelude.{◌≡◌};

use mt_mem::MemKeeper;
use mt_meta::{Mark, Phase};
use mt_open::OpenFault;
use mt_test_stores::{FILLING, Past, SEEN, TURNED, failing_store, store_of};
use mt_world::World;
use std::alloc::Global;
use std::test::Fail;

fn fault_text(alloc: Global, fault: &OpenFault) -> Result<String, Fail> {
    match fault {
        OpenFault::Damaged { store, key, rule } => {
            let (store, rule) = (*store, *rule);
            let (pk, rk) = (key.pk.as_str(), key.rk.as_str());
            Ok(format!(in alloc; "store {store} rule {rule} at {pk}/{rk}")?)
        }
        OpenFault::StoreFault => Ok(String::from_str(alloc, "StoreFault")?),
        OpenFault::NoMemory => Ok(String::from_str(alloc, "NoMemory")?),
    }
}

/// Whether the world of two stores is retired and how many rows it has, or why there is none.
fn opening_text(alloc: Global, old: MemKeeper, new: MemKeeper) -> Result<String, Fail>
    requires old { old.store ≡ 0 }
    requires new { new.store ≡ 1 }
{
    match World::open_world(alloc, old, new, 10) {
        Ok(world) => {
            let (retired, rows) = (world.retired(), world.rows(alloc)?);
            Ok(format!(in alloc; "retired {retired} rows {rows}")?)
        }
        Err(refused) => fault_text(alloc, &refused.fault),
    }
}

/// A client's row, under a marker that lets clients write it.
const WRITTEN: [Past; 2] = [Past::Old(Phase::UseOld), Past::Row("r", 40)];

const COPIED: [Past; 2] = [FILLING, Past::Kept("r", Mark::Copy(SEEN), 40)];

/// Whether stores with these pasts are opened as wanted.
fn open_as(alloc: Global, old: &[Past], new: &[Past], want: &str) -> Result<bool, Fail> {
    let old = store_of(alloc, 0, old)?;
    let new = store_of(alloc, 1, new)?;
    Ok(opening_text(alloc, old, new)?.as_str() == want)
}

#[test]
fn opens_sound_pairs(rt: HostRuntime) -> Result<(), Fail> {
    let alloc = rt.alloc();
    assert!(rt; open_as(alloc, &[], &[], "retired false rows 0")?);
    assert!(rt; open_as(alloc, &WRITTEN, &[], "retired false rows 1")?);
    assert!(rt; open_as(alloc, &TURNED, &[FILLING], "retired false rows 1")?);
    assert!(rt; open_as(alloc, &[Past::Sealed], &[], "retired true rows 0")?);
    Ok(())
}

#[test]
fn names_the_damage_of_a_pair(rt: HostRuntime) -> Result<(), Fail> {
    let alloc = rt.alloc();
    let unmarked = [Past::Row("r", 40)];
    assert!(rt; open_as(alloc, &unmarked, &[], "store 0 rule 2 at p/r")?);
    assert!(rt; open_as(alloc, &WRITTEN, &COPIED, "store 1 rule 3 at p/\u{1}")?);
    assert!(rt; open_as(alloc, &[], &[Past::Sealed], "store 1 rule 8 at /")?);
    Ok(())
}

#[test]
fn a_store_that_fails_is_not_opened(rt: HostRuntime) -> Result<(), Fail> {
    let alloc = rt.alloc();
    for (old_failing, new_failing) in [(1, 0), (0, 1)] {
        let old = failing_store(alloc, 0, &[], old_failing)?;
        let new = failing_store(alloc, 1, &[], new_failing)?;
        let got = opening_text(alloc, old, new)?;
        assert!(rt; got.as_str() == "StoreFault", "{got}");
    }
    Ok(())
}
