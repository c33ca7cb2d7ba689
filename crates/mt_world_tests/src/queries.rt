//! The call of a query over two stores, one store call after the other.
use mt_mem::MemKeeper;
use mt_meta::{Mark, NewPhase, Phase};
use mt_model::{Entity, Text};
use mt_query_plan::{QueryCall, QueryProgress};
use mt_test_stores::{FILLING, Past, SEEN, TURNED, reply_to, store_of};
use mt_test_worlds::filter_of;
use std::alloc::Global;
use std::test::Fail;

/// Two stores, a query of the partition `p`, and what it is answered by so many calls.
#[derive(Clone, Copy)]
struct Scene<'a> {
    old: &'a [Past],
    new: &'a [Past],
    known: bool,
    filter: &'a str,
    calls: u32,

    /// The row keys, each with the number of the store and of the tag, and how many properties it has.
    told: &'a str,
}

fn tell(alloc: Global, rows: &[Entity]) -> Result<String, Fail> {
    let mut text = String::new(alloc);
    for row in rows {
        let rk = row.key.rk.as_str();
        let (store, n) = (row.tag.store, row.tag.n);
        let count = row.props.as_slice().len();
        text.push_str(format!(in alloc; "{rk} {store}.{n} {count};")?.as_str())?;
    }
    Ok(text)
}

fn step(
    alloc: Global,
    call: &mut QueryCall,
    old: &mut MemKeeper,
    new: &mut MemKeeper,
) -> Result<QueryProgress, Fail> {
    let ask = call.next(alloc)?;
    let reply = reply_to(alloc, &ask, old, new)?;
    Ok(call.absorb(alloc, reply)?)
}

/// Whether a scene ends as it says.
fn plays(alloc: Global, scene: Scene<'_>) -> Result<bool, Fail> {
    let mut old = store_of(alloc, 0, scene.old)?;
    let mut new = store_of(alloc, 1, scene.new)?;
    let pk = Text::of(alloc, "p")?;
    let filter = filter_of(alloc, scene.filter)?;
    let mut call = QueryCall::new(pk, filter, scene.known);
    for calls in 0..scene.calls {
        if let QueryProgress::Rows(rows) = step(alloc, &mut call, &mut old, &mut new)? {
            let told = tell(alloc, rows.as_slice())?;
            return Ok(calls + 1 == scene.calls && told.as_str() == scene.told);
        }
    }
    Ok(false)
}

/// A query of all rows.
fn all<'a>(old: &'a [Past], new: &'a [Past], calls: u32, told: &'a str) -> Scene<'a> {
    Scene {
        old,
        new,
        known: false,
        filter: "",
        calls,
        told,
    }
}

#[test]
fn reads_old_while_clients_write_there(rt: HostRuntime) -> Result<(), Fail> {
    let alloc = rt.alloc();
    let rows = [
        Past::Old(Phase::PreferOld),
        Past::Row("b", 1),
        Past::Row("a", 2),
    ];
    let new = [FILLING, Past::Kept("b", Mark::Copy(SEEN), 9)];
    assert!(rt;
        plays(alloc, all(&rows, &new, 1, "a 0.3 1;b 0.2 1;"))?,
        "all"
    );
    let some = Scene {
        filter: "RowKey ge 'b' and Age lt 5",
        ..all(&rows, &new, 1, "b 0.2 1;")
    };
    assert!(rt; plays(alloc, some)?, "some");
    assert!(rt; plays(alloc, all(&[], &[], 1, ""))?, "none");
    Ok(())
}

#[test]
fn reads_new_over_old_while_new_fills(rt: HostRuntime) -> Result<(), Fail> {
    let alloc = rt.alloc();
    assert!(rt;
        plays(alloc, all(&TURNED, &[FILLING], 2, "r 0.2 1;"))?,
        "old's row"
    );
    let copied = [FILLING, Past::Kept("r", Mark::Copy(SEEN), 40)];
    assert!(rt;
        plays(alloc, all(&TURNED, &copied, 2, "r 0.2 1;"))?,
        "its copy"
    );
    let deleted = [FILLING, Past::Kept("r", Mark::Tomb, 40)];
    assert!(rt; plays(alloc, all(&TURNED, &deleted, 2, ""))?, "deleted");
    let beside = [
        FILLING,
        Past::Kept("s", Mark::Live, 1),
        Past::Kept("q", Mark::Live, 1),
    ];
    assert!(rt;
        plays(alloc, all(&TURNED, &beside, 2, "q 1.3 1;r 0.2 1;s 1.2 1;"))?,
        "beside"
    );
    Ok(())
}

#[test]
fn filters_what_clients_see(rt: HostRuntime) -> Result<(), Fail> {
    let alloc = rt.alloc();
    let replaced = [
        FILLING,
        Past::Kept("r", Mark::Copy(SEEN), 40),
        Past::Again("r", Mark::Live, 20, 2),
    ];
    let scene = all(&TURNED, &replaced, 2, "r 1.3 1;");
    assert!(rt; plays(alloc, scene)?, "replaced");
    let older = Scene {
        filter: "Age gt 30",
        told: "",
        ..scene
    };
    assert!(rt; plays(alloc, older)?, "older");
    Ok(())
}

#[test]
fn reads_new_alone_once_it_is_used(rt: HostRuntime) -> Result<(), Fail> {
    let alloc = rt.alloc();
    let new = [
        Past::New(NewPhase::UseNew),
        Past::Kept("s", Mark::Copy(SEEN), 1),
    ];
    let turned = all(&TURNED, &new, 2, "s 0.2 1;");
    assert!(rt; plays(alloc, turned)?, "turned");
    let known = Scene {
        known: true,
        calls: 1,
        ..turned
    };
    assert!(rt; plays(alloc, known)?, "known");
    let sealed = Scene {
        old: &[Past::Sealed],
        ..turned
    };
    assert!(rt; plays(alloc, sealed)?, "sealed");
    let nothing = Scene {
        new: &[],
        told: "",
        ..sealed
    };
    assert!(rt; plays(alloc, nothing)?, "nothing");
    Ok(())
}
