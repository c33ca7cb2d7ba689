//! Cleaners over two stores, one store call after the other.
ghost use Rattle.std.specs.Prelude.{◌≡◌, false, IfOk};
ghost use Rattle.mt_clean.specs.Cleanings.{GoesOn, says_done};

use crate::migrations::{Stores, run, stores_of};
use mt_chain::Keeper;
use mt_clean::{CleanProgress, Cleaner};
use mt_meta::{Mark, NewPhase, Phase};
use mt_test_stores::{FILLING, Past, reply_to, rows_text, store_of};
use std::alloc::Global;
use std::test::Fail;

/// One step of a cleaner.
fn step(alloc: Global, cleaner: &mut Cleaner, stores: &mut Stores) -> Result<CleanProgress, Fail>
    requires { GoesOn cleaner.old }
    ensures { IfOk result (λ said. says_done said ≡ false → GoesOn cleaner.new) }
{
    let ask = cleaner.next(alloc)?;
    let reply = reply_to(alloc, &ask, &mut stores.old, &mut stores.new)?;
    Ok(cleaner.absorb(alloc, reply)?)
}

/// So many steps of a cleaner that goes on at each.
fn steps(alloc: Global, cleaner: &mut Cleaner, stores: &mut Stores, count: u32) -> Result<(), Fail>
    requires { GoesOn cleaner.old }
    ensures { IfOk result (λ u. GoesOn cleaner.new) }
{
    for _ in 0..count {
        match step(alloc, cleaner, stores)? {
            CleanProgress::More => {}
            _ => return Err(Fail::new("it does not go on")),
        }
    }
    Ok(())
}

/// What a cleaner says that does not go on.
fn said(alloc: Global, progress: &CleanProgress, calls: u32) -> Result<String, Fail> {
    match progress {
        CleanProgress::More => Ok(String::new(alloc)),
        CleanProgress::Done => Ok(format!(in alloc; "done in {calls}")?),
        CleanProgress::NotSealed => Ok(format!(in alloc; "not sealed in {calls}")?),
        CleanProgress::NotMigrated { pk } => {
            let pk = pk.as_str();
            Ok(format!(in alloc; "not migrated: {pk} in {calls}")?)
        }
    }
}

/// What a cleaner says at last, and in how many steps.
fn ends(alloc: Global, cleaner: &mut Cleaner, stores: &mut Stores) -> Result<String, Fail>
    requires { GoesOn cleaner.old }
{
    for calls in 0..100 {
        match step(alloc, cleaner, stores)? {
            CleanProgress::More => {}
            progress => return said(alloc, &progress, calls + 1),
        }
    }
    Err(Fail::new("it does not end"))
}

fn cleaned(alloc: Global, stores: &mut Stores) -> Result<String, Fail> {
    let mut cleaner = Cleaner::new();
    ends(alloc, &mut cleaner, stores)
}

/// The two stores after these pasts.
fn stores_after(alloc: Global, old: &[Past], new: &[Past]) -> Result<Stores, Fail> {
    let old = store_of(alloc, 0, old)?;
    let new = store_of(alloc, 1, new)?;
    Ok(Stores { old, new })
}

/// How a cleaner ends after a partition of so many rows was moved. Old is empty then.
fn moved_and_cleaned(alloc: Global, count: u32) -> Result<String, Fail> {
    let mut stores = stores_of(alloc, count)?;
    let _ = run(alloc, &mut stores)?;
    let text = cleaned(alloc, &mut stores)?;
    let left = rows_text(alloc, &mut stores.old, "p")?;
    if left.as_str() == "" {
        Ok(text)
    } else {
        Err(Fail::new("old has a row"))
    }
}

#[test]
fn cleans_old_in_chunks(rt: HostRuntime) -> Result<(), Fail> {
    let alloc = rt.alloc();
    let cases = [
        (49, "done in 5"),
        (50, "done in 5"),
        (99, "done in 5"),
        (100, "done in 8"),
        (199, "done in 10"),
    ];
    for (count, want) in cases {
        let text = moved_and_cleaned(alloc, count)?;
        assert!(rt; text.as_str() == want, "{count} rows: {text}");
    }
    Ok(())
}

#[test]
fn is_done_where_a_sealed_old_is_empty(rt: HostRuntime) -> Result<(), Fail> {
    let alloc = rt.alloc();
    let mut stores = stores_after(alloc, &[Past::Sealed], &[])?;
    let text = cleaned(alloc, &mut stores)?;
    assert!(rt; text.as_str() == "done in 1", "{text}");
    Ok(())
}

#[test]
fn begins_again_where_old_is_not_sealed(rt: HostRuntime) -> Result<(), Fail> {
    let alloc = rt.alloc();
    let mut stores = stores_after(alloc, &[], &[])?;
    let mut cleaner = Cleaner::new();
    match step(alloc, &mut cleaner, &mut stores)? {
        CleanProgress::NotSealed => {}
        _ => return Err(Fail::new("sealed")),
    }
    if stores.old.seal(alloc).is_err() {
        return Err(Fail::new("a store is not sealed"));
    }
    let after = step(alloc, &mut cleaner, &mut stores)?;
    assert!(rt; matches!(after, CleanProgress::Done), "not done");
    Ok(())
}

#[test]
fn tells_what_is_not_migrated(rt: HostRuntime) -> Result<(), Fail> {
    let alloc = rt.alloc();
    let old = [Past::Old(Phase::UseOld), Past::Row("r", 40), Past::Sealed];
    let mut stores = stores_after(alloc, &old, &[])?;
    let text = cleaned(alloc, &mut stores)?;
    assert!(rt; text.as_str() == "not migrated: p in 2", "{text}");
    Ok(())
}

/// Old's row `r` in a partition that has turned to new, in a sealed store.
const TURNED_SEALED: [Past; 4] = [
    Past::Old(Phase::UseOld),
    Past::Row("r", 40),
    Past::Turned(Phase::PreferNew, 1),
    Past::Sealed,
];

#[test]
fn leaves_a_tombstone_while_new_fills(rt: HostRuntime) -> Result<(), Fail> {
    let alloc = rt.alloc();
    let new = [FILLING, Past::Kept("r", Mark::Tomb, 40)];
    let mut stores = stores_after(alloc, &TURNED_SEALED, &new)?;
    let text = cleaned(alloc, &mut stores)?;
    assert!(rt; text.as_str() == "not migrated: p in 2", "{text}");
    let rows = rows_text(alloc, &mut stores.new, "p")?;
    assert!(rt; rows.as_str() == "\u{1} 1.1 filling;r 1.2 tomb;", "{rows}");
    Ok(())
}

#[test]
fn purges_a_tombstone(rt: HostRuntime) -> Result<(), Fail> {
    let alloc = rt.alloc();
    let new = [
        Past::New(NewPhase::UseNew),
        Past::Kept("r", Mark::Tomb, 40),
        Past::Kept("s", Mark::Live, 40),
    ];
    let mut stores = stores_after(alloc, &TURNED_SEALED, &new)?;
    let text = cleaned(alloc, &mut stores)?;
    assert!(rt; text.as_str() == "done in 6", "{text}");
    let rows = rows_text(alloc, &mut stores.new, "p")?;
    assert!(rt; rows.as_str() == "\u{1} 1.1 use-new;s 1.3 live;", "{rows}");
    Ok(())
}

#[test]
fn goes_on_where_another_has_dropped_the_partition(rt: HostRuntime) -> Result<(), Fail> {
    let alloc = rt.alloc();
    let new = [Past::New(NewPhase::UseNew), Past::Kept("r", Mark::Live, 40)];
    let mut stores = stores_after(alloc, &TURNED_SEALED, &new)?;
    let mut first = Cleaner::new();
    steps(alloc, &mut first, &mut stores, 3)?;
    let second = cleaned(alloc, &mut stores)?;
    assert!(rt; second.as_str() == "done in 5", "{second}");
    let text = ends(alloc, &mut first, &mut stores)?;
    assert!(rt; text.as_str() == "done in 3", "{text}");
    Ok(())
}
