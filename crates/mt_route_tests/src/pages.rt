//! Pages: store calls and entries.
use crate::sessions::{CREATED, FRESH, INSERT, Plan, Room, comes_to, world_of, written};
use mt_mem::MemKeeper;
use mt_test_stores::{FILLING, Past, TURNED};
use mt_world::World;
use std::alloc::Global;
use std::test::Fail;

const INSERT_Q: &str =
    "POST /Orders HTTP/1.1\r\nContent-Length: 41\r\n\r\n{\"PartitionKey\":\"q\",\"RowKey\":\"r\",\"A\":\"x\"}";

/// The inserts behind which pages are read.
const NO_INSERT: &[&str] = &[];

const ONE_INSERT: &[&str] = &[INSERT];

const TWO_INSERTS: &[&str] = &[INSERT, INSERT_Q];

const PAGE: &str = "GET /Orders() HTTP/1.1\r\n\r\n";

const PAGE_OF_ONE: &str = "GET /Orders?$top=1 HTTP/1.1\r\n\r\n";

const BEHIND_ROW: &str = "GET /Orders()?NextPartitionKey=1!cA&NextRowKey=1!cg HTTP/1.1\r\n\r\n";

const BEHIND_P: &str = "GET /Orders()?NextPartitionKey=2!cA HTTP/1.1\r\n\r\n";

const WITHIN_P: &str = "GET /Orders()?$filter=PartitionKey%20eq%20'p' HTTP/1.1\r\n\r\n";

const NO_ROWS: &str = "GET /Orders?$top=0 HTTP/1.1\r\n\r\n";

const BAD_TOKEN: &str = "GET /Orders?NextRowKey=1!cg HTTP/1.1\r\n\r\n";

const BAD_FILTER: &str = "GET /Orders?$filter=A%20@ HTTP/1.1\r\n\r\n";

const FOUND: &str = "HTTP/1.1 200 OK\r\n";

const REFUSED: &str = "HTTP/1.1 400 Bad Request\r\n";

const FAULT: &str = "HTTP/1.1 500 Internal Server Error\r\n";

const FULL: &str = "HTTP/1.1 507 Insufficient Storage\r\n";

/// A world by this plan in which each insert was done.
fn world_with(alloc: Global, plan: Plan, inserts: &[&str]) -> Result<World<MemKeeper>, Fail> {
    let mut world = world_of(alloc, plan)?;
    for insert in inserts {
        let first = written(alloc, &mut world, insert)?;
        if !first.as_str().starts_with(CREATED) {
            return Err(Fail::new("an insert was not done"));
        }
    }
    Ok(world)
}

/// An empty table is one gap. Else there is a scan for each partition, with a gap before it, and a gap
/// behind the last. Each takes one store call.
#[test]
fn each_unit_takes_one_store_call(rt: HostRuntime) -> Result<(), Fail> {
    let alloc = rt.alloc();
    for (inserts, counted) in [
        (NO_INSERT, "calls 1 rows 0: gap"),
        (ONE_INSERT, "calls 5 rows 1: batch gap scan gap"),
        (
            TWO_INSERTS,
            "calls 9 rows 2: batch batch gap scan gap scan gap",
        ),
    ] {
        let mut world = world_with(alloc, FRESH, inserts)?;
        assert!(rt;
            comes_to(alloc, &mut world, PAGE, FOUND, counted)?,
            "{counted}"
        );
    }
    Ok(())
}

/// A page without room, and one at the end of its bounds, reads no further. One that begins behind a
/// row begins with a scan.
#[test]
fn a_page_reads_no_further_than_it_shows(rt: HostRuntime) -> Result<(), Fail> {
    let alloc = rt.alloc();
    for (input, line, counted) in [
        (PAGE_OF_ONE, FOUND, "calls 6 rows 2: batch batch gap scan"),
        (
            BEHIND_ROW,
            FOUND,
            "calls 8 rows 2: batch batch scan gap scan gap",
        ),
        (BEHIND_P, FOUND, "calls 7 rows 2: batch batch gap scan gap"),
        (WITHIN_P, FOUND, "calls 7 rows 2: batch batch gap scan gap"),
        (NO_ROWS, REFUSED, "calls 4 rows 2: batch batch"),
        (BAD_TOKEN, REFUSED, "calls 4 rows 2: batch batch"),
        (BAD_FILTER, REFUSED, "calls 4 rows 2: batch batch"),
    ] {
        let mut world = world_with(alloc, FRESH, TWO_INSERTS)?;
        assert!(rt;
            comes_to(alloc, &mut world, input, line, counted)?,
            "{input}"
        );
    }
    Ok(())
}

/// Old's row under a marker that sends to new, which fills: the scan reads both stores. Gaps read old
/// alone, as it is not sealed.
#[test]
fn a_page_while_new_fills(rt: HostRuntime) -> Result<(), Fail> {
    let alloc = rt.alloc();
    let plan = Plan {
        old: &TURNED,
        new: &[FILLING],
        ..FRESH
    };
    let mut world = world_of(alloc, plan)?;
    for counted in [
        "calls 4 rows 1: gap scan gap",
        "calls 8 rows 1: gap scan gap gap scan gap",
    ] {
        assert!(rt;
            comes_to(alloc, &mut world, PAGE, FOUND, counted)?,
            "{counted}"
        );
    }
    Ok(())
}

/// Old is sealed, so that each unit reads new too, where the row is born.
#[test]
fn a_page_where_old_is_sealed(rt: HostRuntime) -> Result<(), Fail> {
    let alloc = rt.alloc();
    let plan = Plan {
        old: &[Past::Sealed],
        ..FRESH
    };
    let mut world = world_of(alloc, plan)?;
    for (input, line, counted) in [
        (PAGE, FOUND, "calls 2 rows 0: gap"),
        (INSERT, CREATED, "calls 5 rows 1: gap batch"),
        (PAGE, FOUND, "calls 11 rows 1: gap batch gap scan gap"),
    ] {
        assert!(rt;
            comes_to(alloc, &mut world, input, line, counted)?,
            "{counted}"
        );
    }
    Ok(())
}

/// Old fails at the first, the second or the third unit: those before it have their entries, and the
/// connection goes on. Call 1 of old opens it, and the insert takes two more.
#[test]
fn a_failed_store_leaves_the_units_before(rt: HostRuntime) -> Result<(), Fail> {
    let alloc = rt.alloc();
    for (failing_old, fault, counted) in [
        (
            4,
            "calls 3 rows 1: batch fault",
            "calls 6 rows 1: batch fault gap scan gap",
        ),
        (
            5,
            "calls 4 rows 1: batch gap fault",
            "calls 7 rows 1: batch gap fault gap scan gap",
        ),
        (
            6,
            "calls 5 rows 1: batch gap scan fault",
            "calls 8 rows 1: batch gap scan fault gap scan gap",
        ),
    ] {
        let plan = Plan {
            failing_old,
            ..FRESH
        };
        let mut world = world_with(alloc, plan, ONE_INSERT)?;
        assert!(rt; comes_to(alloc, &mut world, PAGE, FAULT, fault)?, "{fault}");
        assert!(rt;
            comes_to(alloc, &mut world, PAGE, FOUND, counted)?,
            "{counted}"
        );
    }
    Ok(())
}

/// Where there is no room for a unit, those before it have their entries, and no store is called for
/// it.
#[test]
fn a_full_history_leaves_the_units_before(rt: HostRuntime) -> Result<(), Fail> {
    let alloc = rt.alloc();
    for (room, inserts, counted) in [
        (Room::One, ONE_INSERT, "calls 2 rows 1: batch"),
        (Room::Three, ONE_INSERT, "calls 4 rows 1: batch gap scan"),
        (Room::Three, TWO_INSERTS, "calls 5 rows 2: batch batch gap"),
    ] {
        let plan = Plan { room, ..FRESH };
        let mut world = world_with(alloc, plan, inserts)?;
        for _ in 0..2 {
            assert!(rt;
                comes_to(alloc, &mut world, PAGE, FULL, counted)?,
                "{counted}"
            );
        }
    }
    Ok(())
}
