//! Turns of the world: whole calls, and calls of two clients beside each other.
ghost use Rattle.std.specs.Prelude.{◌≡◌, true, IfOk};
ghost use Rattle.mt_world.specs.Moves.{CanStep};
ghost use Rattle.mt_world.specs.Turns.{Knows};
ghost use Rattle.mt_world.specs.WholeCalls.{is_client};

use mt_chain::Cond;
use mt_mem::MemKeeper;
use mt_test_stores::{FILLING, Past, TURNED, failing_store, store_of};
use mt_test_worlds::{
    Do, Sample, answer_text, asked, batch, entry_text, insert_batch, opened, stores_text, world_of,
};
use mt_world::{Actor, Progress, Request, World};
use std::alloc::Global;
use std::test::Fail;

/// The callers of three batches in the partition `p`.
type Script = [(u32, &'static [Sample<'static>]); 3];

/// What three batches come to over fresh stores, of which old fails at this call, and the entries that
/// they leave.
fn run(alloc: Global, failing: u64, entries: u64, script: Script) -> Result<String, Fail> {
    let old = failing_store(alloc, 0, &[], failing)?;
    let new = store_of(alloc, 1, &[])?;
    let mut world = opened(alloc, old, new, entries)?;
    let mut text = String::new(alloc);
    for (caller, samples) in script {
        let batch = batch(alloc, "p", samples)?;
        text.push_str(asked(alloc, &mut world, caller, Request::Batch(batch))?.as_str())?;
    }
    text.push_str(entry_text(alloc, world.history())?.as_str())?;
    Ok(text)
}

const A: &[Sample<'static>] = &[("a", Do::Insert)];

const B: &[Sample<'static>] = &[("b", Do::Insert)];

const A_NOT_B: &[Sample<'static>] = &[("a", Do::Insert), ("b", Do::Delete(Cond::Any))];

#[test]
fn answers_callers(rt: HostRuntime) -> Result<(), Fail> {
    let alloc = rt.alloc();
    let scenes: [(u64, u64, Script, &str); 4] = [
        (
            0,
            10,
            [(0, A), (0, A), (7, A)],
            "0.2 calls 2 rows 1; Exists at 0 calls 3 rows 1; Exists at 0 calls 4 rows 1; batch 0.0 refused 0.1 refused 7.0 ",
        ),
        (
            0,
            10,
            [(0, A_NOT_B), (0, B), (0, A_NOT_B)],
            "NotFound at 1 calls 1 rows 0; 0.2 calls 3 rows 1; 0.3 0.2 calls 5 rows 1; refused 0.0 batch 0.1 batch 0.2 ",
        ),
        (
            4,
            10,
            [(0, A), (0, B), (1, B)],
            "0.2 calls 2 rows 1; StoreFault calls 3 rows 1; 0.3 calls 5 rows 2; batch 0.0 fault 0.1 batch 1.0 ",
        ),
        (
            0,
            1,
            [(0, A), (0, B), (1, A)],
            "0.2 calls 2 rows 1; HistoryFull calls 2 rows 1; HistoryFull calls 2 rows 1; batch 0.0 ",
        ),
    ];
    for (failing, entries, script, want) in scenes {
        let got = run(alloc, failing, entries, script)?;
        assert!(rt; got.as_str() == want, "{got}");
    }
    Ok(())
}

#[test]
fn writes_many_rows_in_two_store_calls(rt: HostRuntime) -> Result<(), Fail> {
    let alloc = rt.alloc();
    let mut world = world_of(alloc, &[], &[])?;
    let batch = insert_batch(alloc, 100)?;
    let got = asked(alloc, &mut world, 3, Request::Batch(batch))?;
    let mut want = String::new(alloc);
    for n in 2..102 {
        want.push_str(format!(in alloc; "0.{n} ")?.as_str())?;
    }
    want.push_str("calls 2 rows 100; ")?;
    assert!(rt; got == want, "{got}");
    Ok(())
}

/// What a batch of one operation comes to in the world of these stores, and what they hold then.
fn written(
    alloc: Global,
    old: &[Past],
    new: &[Past],
    pk: &str,
    sample: Sample<'_>,
) -> Result<String, Fail> {
    let mut world = world_of(alloc, old, new)?;
    let batch = batch(alloc, pk, &[sample])?;
    let text = asked(alloc, &mut world, 0, Request::Batch(batch))?;
    let held = stores_text(alloc, world, pk)?;
    Ok(format!(in alloc; "{text}{held}")?)
}

#[test]
fn goes_on_in_new_in_three_turns(rt: HostRuntime) -> Result<(), Fail> {
    let alloc = rt.alloc();
    let got = written(
        alloc,
        &TURNED,
        &[FILLING],
        "p",
        ("r", Do::Delete(Cond::Any)),
    )?;
    let want =
        "0.2 calls 3 rows 0; old \u{1} 0.3 prefer-new;r 0.2 ;new \u{1} 1.1 filling;r 1.2 tomb;";
    assert!(rt; got.as_str() == want, "{got}");
    let got = written(alloc, &[Past::Sealed], &[], "q", ("1", Do::Insert))?;
    let want = "1.2 calls 3 rows 1; old new \u{1} 1.1 use-new;1 1.2 live;";
    assert!(rt; got.as_str() == want, "{got}");
    Ok(())
}

#[test]
fn a_deleted_row_is_inserted_again_in_new(rt: HostRuntime) -> Result<(), Fail> {
    let alloc = rt.alloc();
    let mut world = world_of(alloc, &TURNED, &[FILLING])?;
    let delete = batch(alloc, "p", &[("r", Do::Delete(Cond::Any))])?;
    let gone = asked(alloc, &mut world, 0, Request::Batch(delete))?;
    let insert = batch(alloc, "p", &[("r", Do::Insert)])?;
    let back = asked(alloc, &mut world, 0, Request::Batch(insert))?;
    assert!(rt; gone.as_str() == "0.2 calls 3 rows 0; ", "{gone}");
    assert!(rt; back.as_str() == "1.3 calls 6 rows 1; ", "{back}");
    Ok(())
}

/// A client at the beginning of a batch of one insert.
fn client(alloc: Global, world: &mut World<MemKeeper>, rk: &str) -> Result<Actor, Fail>
    ensures same { world.new ≡ world.old }
    ensures client { IfOk result (λ a. is_client a ≡ true) }
    ensures ready { IfOk result CanStep }
    ensures knows { IfOk result (Knows world.new) }
{
    let batch = batch(alloc, "p", &[(rk, Do::Insert)])?;
    let call = world.call_of(alloc, Request::Batch(batch))?;
    Ok(Actor::Client(call))
}

/// One turn of a client that goes on, and another's call that waits meanwhile.
fn step_beside(
    alloc: Global,
    world: &mut World<MemKeeper>,
    caller: u32,
    actor: &mut Actor,
    other: &Actor,
) -> Result<(), Fail>
    requires client { is_client actor.old ≡ true }
    requires ready { CanStep actor.old }
    requires knows { Knows world.old actor.old }
    requires beside { Knows world.old other.now }
    ensures client { is_client actor.new ≡ true }
    ensures ready { IfOk result (λ u. CanStep actor.new) }
    ensures knows { Knows world.new actor.new }
    ensures beside { Knows world.new other.now }
{
    match world.turn(alloc, caller, actor) {
        Ok(Progress::More) => Ok(()),
        _ => Err(Fail::new("a call ended early")),
    }
}

/// What a client's call is answered in the end, and by how many turns, while another's call waits.
fn end_beside(
    alloc: Global,
    world: &mut World<MemKeeper>,
    caller: u32,
    actor: &mut Actor,
    other: &Actor,
) -> Result<String, Fail>
    requires client { is_client actor.old ≡ true }
    requires ready { CanStep actor.old }
    requires knows { Knows world.old actor.old }
    requires beside { Knows world.old other.now }
    ensures knows { Knows world.new actor.new }
    ensures beside { Knows world.new other.now }
{
    for turns in 1..10 {
        match world.turn(alloc, caller, actor) {
            Ok(Progress::More) => {}
            Ok(Progress::Done(answer)) => {
                let text = answer_text(alloc, &answer)?;
                return Ok(format!(in alloc; "{text}turns {turns}; ")?);
            }
            Err(_) => return Err(Fail::new("a turn came to nothing")),
        }
    }
    Err(Fail::new("a call does not end"))
}

/// What two clients are answered whose inserts into a partition that is not there yet take one turn
/// each, and then end one after the other; and the entries.
fn raced(alloc: Global) -> Result<String, Fail> {
    let mut world = world_of(alloc, &[], &[])?;
    let mut first = client(alloc, &mut world, "a")?;
    let mut second = client(alloc, &mut world, "b")?;
    step_beside(alloc, &mut world, 0, &mut first, &second)?;
    step_beside(alloc, &mut world, 1, &mut second, &first)?;
    let mut text = end_beside(alloc, &mut world, 0, &mut first, &second)?;
    text.push_str(end_beside(alloc, &mut world, 1, &mut second, &first)?.as_str())?;
    text.push_str(entry_text(alloc, world.history())?.as_str())?;
    Ok(text)
}

#[test]
fn two_clients_bear_one_partition(rt: HostRuntime) -> Result<(), Fail> {
    let got = raced(rt.alloc())?;
    let want = "0.2 turns 1; 0.3 turns 3; batch 0.0 batch 1.0 ";
    assert!(rt; got.as_str() == want, "{got}");
    Ok(())
}
