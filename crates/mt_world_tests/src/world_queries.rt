//! Queries of a world, beside batches.
ghost use Rattle.std.specs.Prelude.{IfOk};
ghost use Rattle.mt_world.specs.Moves.{MayRequest};

use mt_chain::Cond;
use mt_meta::{Mark, Phase};
use mt_model::Text;
use mt_test_stores::{FILLING, Past, SEEN, TURNED, failing_store, store_of};
use mt_test_worlds::{Do, asked, batch, entry_text, filter_of, opened};
use mt_world::Request;
use std::alloc::Global;
use std::test::Fail;

/// What a client asks for.
#[derive(Clone, Copy)]
enum Ask {
    /// An operation on the row `r` of the partition `p`.
    Op(Do),

    /// The rows of a partition, or with a filter that is not empty those that it matches.
    Query(&'static str, &'static str),
}

/// A world as it begins, and what is asked of it.
#[derive(Clone, Copy)]
struct Scene<'a> {
    old: &'a [Past],
    new: &'a [Past],

    /// The call of old that fails, or 0.
    failing: u64,

    /// How many entries the history may have.
    entries: u64,
    asks: [Ask; 3],
}

fn request(alloc: Global, ask: Ask) -> Result<Request, Fail>
    ensures { IfOk result MayRequest }
{
    match ask {
        Ask::Op(kind) => Ok(Request::Batch(batch(alloc, "p", &[("r", kind)])?)),
        Ask::Query(pk, filter) => {
            let pk = Text::of(alloc, pk)?;
            let filter = filter_of(alloc, filter)?;
            Ok(Request::Query { pk, filter })
        }
    }
}

/// What three calls come to, and the entries that they leave.
fn played(alloc: Global, scene: Scene<'_>) -> Result<String, Fail> {
    let old = failing_store(alloc, 0, scene.old, scene.failing)?;
    let new = store_of(alloc, 1, scene.new)?;
    let mut world = opened(alloc, old, new, scene.entries)?;
    let mut text = String::new(alloc);
    for ask in scene.asks {
        let request = request(alloc, ask)?;
        text.push_str(asked(alloc, &mut world, 0, request)?.as_str())?;
    }
    text.push_str(entry_text(alloc, world.history())?.as_str())?;
    Ok(text)
}

const ALL: Ask = Ask::Query("p", "");

/// `TURNED` after it was at `prefer-old`: the marker has the tag 0.4.
const TURNED_LATER: [Past; 4] = [
    Past::Old(Phase::UseOld),
    Past::Row("r", 40),
    Past::Turned(Phase::PreferOld, 1),
    Past::Turned(Phase::PreferNew, 3),
];

#[test]
fn answers_what_both_stores_show_while_new_fills(rt: HostRuntime) -> Result<(), Fail> {
    let alloc = rt.alloc();
    let deleted = Scene {
        old: &TURNED,
        new: &[FILLING],
        failing: 0,
        entries: 10,
        asks: [ALL, Ask::Op(Do::Delete(Cond::Any)), ALL],
    };
    let got = played(alloc, deleted)?;
    let want =
        "[r 0.2;] calls 2 rows 1; 0.2 calls 5 rows 0; [] calls 7 rows 0; query 0.0 batch 0.1 query 0.2 ";
    assert!(rt; got.as_str() == want, "{got}");
    Ok(())
}

#[test]
fn filters_what_clients_see_of_a_replaced_row(rt: HostRuntime) -> Result<(), Fail> {
    let alloc = rt.alloc();
    let replaced = Scene {
        old: &TURNED_LATER,
        new: &[FILLING, Past::Kept("r", Mark::Copy(SEEN), 40)],
        failing: 0,
        entries: 10,
        asks: [Ask::Op(Do::SetAge(20)), Ask::Query("p", "Age gt 30"), ALL],
    };
    let got = played(alloc, replaced)?;
    let want =
        "1.3 calls 3 rows 1; [] calls 5 rows 1; [r 1.3;] calls 7 rows 1; batch 0.0 filtered 0.1 query 0.2 ";
    assert!(rt; got.as_str() == want, "{got}");
    Ok(())
}

#[test]
fn leaves_an_entry_without_rows_too(rt: HostRuntime) -> Result<(), Fail> {
    let alloc = rt.alloc();
    let fresh = Scene {
        old: &[],
        new: &[],
        failing: 0,
        entries: 10,
        asks: [
            Ask::Query("q", ""),
            Ask::Op(Do::Insert),
            Ask::Query("p", "RowKey eq 's'"),
        ],
    };
    let got = played(alloc, fresh)?;
    let want =
        "[] calls 1 rows 0; 0.2 calls 3 rows 1; [] calls 4 rows 1; query 0.0 batch 0.1 filtered 0.2 ";
    assert!(rt; got.as_str() == want, "{got}");
    Ok(())
}

#[test]
fn breaks_off_at_a_fault_and_at_a_full_history(rt: HostRuntime) -> Result<(), Fail> {
    let alloc = rt.alloc();
    // Call 1 of a store opens it.
    let failing = Scene {
        old: &[],
        new: &[],
        failing: 2,
        entries: 10,
        asks: [ALL, ALL, Ask::Op(Do::Insert)],
    };
    let got = played(alloc, failing)?;
    let want =
        "StoreFault calls 1 rows 0; [] calls 2 rows 0; 0.2 calls 4 rows 1; fault 0.0 query 0.1 batch 0.2 ";
    assert!(rt; got.as_str() == want, "{got}");
    let full = Scene {
        failing: 0,
        entries: 1,
        asks: [Ask::Op(Do::Insert), ALL, ALL],
        ..failing
    };
    let got = played(alloc, full)?;
    let want =
        "0.2 calls 2 rows 1; HistoryFull calls 2 rows 1; HistoryFull calls 2 rows 1; batch 0.0 ";
    assert!(rt; got.as_str() == want, "{got}");
    Ok(())
}
