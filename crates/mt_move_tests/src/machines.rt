//! Migrators and cleaners that take turns of a world.
ghost use Rattle.std.specs.Prelude.{◌≡◌, ◌≤◌, false, IfOk};
ghost use Rattle.mt_world.specs.Moves.{CanStep};
ghost use Rattle.mt_world.specs.Turns.{Knows};
ghost use Rattle.mt_world.specs.WholeCalls.{is_client, TakesSteps};
ghost use Rattle.mt_world.specs.declared.actor.Stepped.{Stepped};

use mt_mem::MemKeeper;
use mt_meta::Phase;
use mt_test_stores::{Past, insert, one, store_of};
use mt_test_worlds::{Do, asked, batch, opened, stores_text, world_of};
use mt_world::{Actor, Answer, Progress, Request, TurnFault, World};
use std::alloc::Global;
use std::test::Fail;

/// So many turns of a migrator or a cleaner that goes on after each.
fn go(
    alloc: Global,
    world: &mut World<MemKeeper>,
    caller: u32,
    machine: &mut Actor,
    steps: u32,
) -> Result<(), Fail>
    requires some { 1 ≤ steps }
    requires machine { is_client machine.old ≡ false }
    requires ready { CanStep machine.old }
    requires knows { Knows world.old machine.old }
    ensures machine { is_client machine.new ≡ false }
    ensures ready { IfOk result (λ u. CanStep machine.new) }
    ensures steps { (s : Stepped) × TakesSteps world.old caller machine.old steps s world.new machine.new }
{
    match world.steps(alloc, caller, machine, steps).came {
        Ok(Progress::More) => Ok(()),
        _ => Err(Fail::new("a machine does not go on")),
    }
}

/// How many turns a migrator or a cleaner takes until it is done.
fn ends(
    alloc: Global,
    world: &mut World<MemKeeper>,
    caller: u32,
    machine: &mut Actor,
) -> Result<u32, Fail>
    requires machine { is_client machine.old ≡ false }
    requires ready { CanStep machine.old }
    requires knows { Knows world.old machine.old }
{
    let stepped = world.steps(alloc, caller, machine, 1000);
    match stepped.came {
        Ok(Progress::Done(Answer::Moved | Answer::Cleaned)) => Ok(stepped.taken),
        _ => Err(Fail::new("a machine is not done")),
    }
}

/// What the stores hold where a second migrator took four turns between the seventh and the eighth of
/// the first one.
fn overtaken(alloc: Global) -> Result<String, Fail> {
    let mut world = world_of(alloc, &[Past::Old(Phase::UseOld), Past::Row("r", 40)], &[])?;
    let mut first = Actor::migrator(alloc);
    go(alloc, &mut world, 1000, &mut first, 7)?;
    let mut second = Actor::migrator(alloc);
    go(alloc, &mut world, 1001, &mut second, 4)?;
    go(alloc, &mut world, 1000, &mut first, 1)?;
    stores_text(alloc, world, "p")
}

/// The first migrator's put names a marker that is no longer there: it writes nothing, and goes on.
#[test]
fn a_migrator_that_was_overtaken_writes_nothing(rt: HostRuntime) -> Result<(), Fail> {
    let got = overtaken(rt.alloc())?;
    let want = "old \u{1} 0.3 prefer-old;r 0.2 ;new \u{1} 1.2 filling;";
    assert!(rt; got.as_str() == want, "{got}");
    Ok(())
}

/// What an insert is answered in a world whose history has one entry, and how many turns a migrator takes
/// then, what the last of them comes to, and how many store calls were made by then.
fn full(alloc: Global) -> Result<String, Fail> {
    let (old, new) = (store_of(alloc, 0, &[])?, store_of(alloc, 1, &[])?);
    let mut world = opened(alloc, old, new, 1)?;
    let insert = batch(alloc, "p", &[("r", Do::Insert)])?;
    let text = asked(alloc, &mut world, 0, Request::Batch(insert))?;
    let mut migrator = Actor::migrator(alloc);
    let stepped = world.steps(alloc, 1000, &mut migrator, 5);
    let (taken, calls) = (stepped.taken, world.calls());
    match stepped.came {
        Err(TurnFault::HistoryFull) => Ok(format!(in alloc;
            "{text}full at {taken} calls {calls}"
        )?),
        _ => Err(Fail::new("the history is not full")),
    }
}

#[test]
fn a_full_history_stops_a_migrator_before_its_call(rt: HostRuntime) -> Result<(), Fail> {
    let got = full(rt.alloc())?;
    let want = "0.2 calls 2 rows 1; full at 1 calls 2";
    assert!(rt; got.as_str() == want, "{got}");
    Ok(())
}

/// An old store with a partition of so many rows, and its marker first.
fn rows_of(alloc: Global, count: u32) -> Result<MemKeeper, Fail>
    ensures { IfOk result (λ k. k.store ≡ 0) }
{
    let mut old = store_of(alloc, 0, &[Past::Old(Phase::UseOld)])?;
    for n in 0..count {
        let number = 100 + u64::from(n);
        let rk = format!(in alloc; "r{number}")?;
        insert(alloc, &mut old, rk.as_str(), one(alloc, "Age", 1)?)?;
    }
    Ok(old)
}

/// How many turns a migrator and then a cleaner take for one partition of so many rows.
fn moved_and_cleaned(alloc: Global, count: u32) -> Result<(u32, u32), Fail> {
    let (old, new) = (rows_of(alloc, count)?, store_of(alloc, 1, &[])?);
    let mut world = opened(alloc, old, new, 10)?;
    let mut migrator = Actor::migrator(alloc);
    let moved = ends(alloc, &mut world, 1000, &mut migrator)?;
    let mut cleaner = Actor::cleaner();
    let cleaned = ends(alloc, &mut world, 2000, &mut cleaner)?;
    if world.retired() {
        Ok((moved, cleaned))
    } else {
        Err(Fail::new("old has a row"))
    }
}

#[test]
fn a_partition_is_moved_and_cleaned_in_chunks(rt: HostRuntime) -> Result<(), Fail> {
    for (count, moves, cleans) in [
        (49, 18, 5),
        (50, 23, 5),
        (99, 23, 5),
        (100, 28, 8),
        (199, 33, 10),
    ] {
        let (moved, cleaned) = moved_and_cleaned(rt.alloc(), count)?;
        assert!(rt; moved == moves, "{count} rows moved in {moved}");
        assert!(rt; cleaned == cleans, "{count} rows cleaned in {cleaned}");
    }
    Ok(())
}
