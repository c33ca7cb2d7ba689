//! Migrators over two stores, one store call after the other.
ghost use Rattle.std.specs.Prelude.{◌≡◌, IfOk};
ghost use Rattle.mt_migrate.specs.Moves.{GoesOn};

use mt_chain::StoreReply;
use mt_mem::MemKeeper;
use mt_meta::Phase;
use mt_migrate::{Migrator, MoveProgress};
use mt_test_stores::{Past, insert, one, reply_to, rows_text, store_of, tag_text};
use std::alloc::Global;
use std::test::Fail;

/// The two stores of a migration.
#[derive(Drop)]
pub(crate) struct Stores {
    pub old: MemKeeper,
    pub new: MemKeeper,
}

/// What came of a step.
#[derive(Drop)]
struct Outcome {
    progress: MoveProgress,

    /// The tags of puts that were made, or the index of the one that does not hold.
    told: String,
}

/// Stores of which old has a partition of so many rows, and its marker first; of 0 rows none.
pub(crate) fn stores_of(alloc: Global, count: u32) -> Result<Stores, Fail> {
    let marker = [Past::Old(Phase::UseOld)];
    let mut old = store_of(alloc, 0, if count > 0 { &marker } else { &[] })?;
    let new = store_of(alloc, 1, &[])?;
    for n in 0..count {
        let number = 100 + u64::from(n);
        let rk = format!(in alloc; "r{number}")?;
        insert(alloc, &mut old, rk.as_str(), one(alloc, "Age", 1)?)?;
    }
    Ok(Stores { old, new })
}

/// The tags of puts that were made, or the index of the one that does not hold.
fn told(alloc: Global, reply: &StoreReply) -> Result<String, Fail> {
    match reply {
        StoreReply::Applied(tags) => tag_text(alloc, tags.as_slice()),
        StoreReply::Unmet { index } => {
            let index = *index;
            Ok(format!(in alloc; "unmet at {index} ")?)
        }
        _ => Ok(String::new(alloc)),
    }
}

/// One step of a migrator.
fn step(alloc: Global, migrator: &mut Migrator, stores: &mut Stores) -> Result<Outcome, Fail>
    requires { GoesOn migrator.old }
    ensures { IfOk result (λ s. s.progress ≡ MoveProgress.More → GoesOn migrator.new) }
{
    let ask = migrator.next(alloc)?;
    let reply = reply_to(alloc, &ask, &mut stores.old, &mut stores.new)?;
    let told = told(alloc, &reply)?;
    let progress = migrator.absorb(alloc, reply)?;
    Ok(Outcome { progress, told })
}

/// What the steps of a migrator tell until it is done, and how many they are.
pub(crate) fn run(alloc: Global, stores: &mut Stores) -> Result<(u32, String), Fail> {
    let mut migrator = Migrator::new(alloc);
    let mut text = String::new(alloc);
    for calls in 0..100 {
        let came = step(alloc, &mut migrator, stores)?;
        text.push_str(came.told.as_str())?;
        if came.progress == MoveProgress::Done {
            return Ok((calls + 1, text));
        }
    }
    Err(Fail::new("not done"))
}

/// What so many steps tell of a migrator that is not done by then.
fn tells(
    alloc: Global,
    migrator: &mut Migrator,
    stores: &mut Stores,
    steps: u32,
) -> Result<String, Fail>
    requires { GoesOn migrator.old }
    ensures { IfOk result (λ text. GoesOn migrator.new) }
{
    let mut text = String::new(alloc);
    for _ in 0..steps {
        let came = step(alloc, migrator, stores)?;
        text.push_str(came.told.as_str())?;
        if came.progress == MoveProgress::Done {
            return Err(Fail::new("done too early"));
        }
    }
    Ok(text)
}

#[test]
fn moves_one_row(rt: HostRuntime) -> Result<(), Fail> {
    let alloc = rt.alloc();
    let mut stores = stores_of(alloc, 1)?;
    let (calls, told) = run(alloc, &mut stores)?;
    assert!(rt; calls == 18, "{calls}");
    assert!(rt; told.as_str() == "0.3 1.1 1.1 1.2 0.4 1.3 ", "{told}");
    Ok(())
}

#[test]
fn counts_the_calls_of_chunks(rt: HostRuntime) -> Result<(), Fail> {
    let alloc = rt.alloc();
    for (count, want) in [(0, 3), (49, 18), (50, 23), (99, 23), (100, 28)] {
        let mut stores = stores_of(alloc, count)?;
        let (calls, _) = run(alloc, &mut stores)?;
        assert!(rt; calls == want, "{count} rows: {calls}");
    }
    Ok(())
}

/// What a migrator tells whose partition was taken over after its read of new.
fn overtaken(alloc: Global, stores: &mut Stores) -> Result<String, Fail> {
    let mut first = Migrator::new(alloc);
    let mut text = tells(alloc, &mut first, stores, 7)?;
    let mut second = Migrator::new(alloc);
    text.push_str(tells(alloc, &mut second, stores, 4)?.as_str())?;
    text.push_str(tells(alloc, &mut first, stores, 1)?.as_str())?;
    Ok(text)
}

#[test]
fn stops_a_migrator_whose_epoch_is_over(rt: HostRuntime) -> Result<(), Fail> {
    let alloc = rt.alloc();
    let mut stores = stores_of(alloc, 1)?;
    let told = overtaken(alloc, &mut stores)?;
    assert!(rt; told.as_str() == "0.3 1.1 1.2 unmet at 0 ", "{told}");
    let rows = rows_text(alloc, &mut stores.new, "p")?;
    assert!(rt; rows.as_str() == "\u{1} 1.2 filling;", "{rows}");
    Ok(())
}
