//! Reads: store calls and entries.
use crate::sessions::{CREATED, FRESH, INSERT, Plan, Room, comes_to, world_of, written};
use mt_test_stores::{FILLING, TURNED};
use std::test::Fail;

const GET: &str = "GET /Orders(PartitionKey='p',RowKey='r') HTTP/1.1\r\n\r\n";

const GET_ABSENT: &str = "GET /Orders(PartitionKey='p',RowKey='q') HTTP/1.1\r\n\r\n";

const GET_BAD: &str = "GET /Orders(PartitionKey='/',RowKey='q') HTTP/1.1\r\n\r\n";

const ATOMIC: &str =
    "GET /Orders?$filter=PartitionKey%20eq%20'p' HTTP/1.1\r\nx-mt-atomic: true\r\n\r\n";

const ATOMIC_BAD: &str = "GET /Orders?$filter=A%20@ HTTP/1.1\r\nx-mt-atomic: true\r\n\r\n";

const ATOMIC_WIDE: &str = "GET /Orders HTTP/1.1\r\nx-mt-atomic: true\r\n\r\n";

const DELETE: &str = "DELETE /Orders(PartitionKey='p',RowKey='r') HTTP/1.1\r\nIf-Match: *\r\n\r\n";

const FOUND: &str = "HTTP/1.1 200 OK\r\n";

const ABSENT: &str = "HTTP/1.1 404 Not Found\r\n";

const REFUSED: &str = "HTTP/1.1 400 Bad Request\r\n";

const FAULT: &str = "HTTP/1.1 500 Internal Server Error\r\n";

const FULL: &str = "HTTP/1.1 507 Insufficient Storage\r\n";

/// Each read takes one store call and leaves one entry, with rows and without; a refusal neither.
#[test]
fn a_read_takes_one_store_call(rt: HostRuntime) -> Result<(), Fail> {
    let alloc = rt.alloc();
    for (input, line, counted) in [
        (GET, FOUND, "calls 3 rows 1: batch query"),
        (GET_ABSENT, ABSENT, "calls 3 rows 1: batch query"),
        (ATOMIC, FOUND, "calls 3 rows 1: batch query"),
        (GET_BAD, REFUSED, "calls 2 rows 1: batch"),
        (ATOMIC_BAD, REFUSED, "calls 2 rows 1: batch"),
        (ATOMIC_WIDE, REFUSED, "calls 2 rows 1: batch"),
    ] {
        let mut world = world_of(alloc, FRESH)?;
        let first = written(alloc, &mut world, INSERT)?;
        assert!(rt; first.as_str().starts_with(CREATED), "{first}");
        assert!(rt;
            comes_to(alloc, &mut world, input, line, counted)?,
            "{input}"
        );
    }
    Ok(())
}

/// A store that fails leaves the entry of a fault, and a full history none and no store call.
#[test]
fn a_read_that_is_not_answered(rt: HostRuntime) -> Result<(), Fail> {
    let alloc = rt.alloc();
    for (failing_old, room, line, counted) in [
        (4, Room::Ten, FAULT, "calls 3 rows 1: batch fault"),
        (0, Room::One, FULL, "calls 2 rows 1: batch"),
    ] {
        for input in [GET, GET_ABSENT, ATOMIC] {
            let plan = Plan {
                failing_old,
                room,
                ..FRESH
            };
            let mut world = world_of(alloc, plan)?;
            let first = written(alloc, &mut world, INSERT)?;
            assert!(rt; first.as_str().starts_with(CREATED), "{first}");
            assert!(rt;
                comes_to(alloc, &mut world, input, line, counted)?,
                "{input}"
            );
        }
    }
    Ok(())
}

/// Old's row under a marker that sends to new, which fills: both stores are read.
#[test]
fn a_read_while_new_fills(rt: HostRuntime) -> Result<(), Fail> {
    let alloc = rt.alloc();
    let plan = Plan {
        old: &TURNED,
        new: &[FILLING],
        ..FRESH
    };
    let mut world = world_of(alloc, plan)?;
    for (input, line, counted) in [
        (GET, FOUND, "calls 2 rows 1: query"),
        (ATOMIC, FOUND, "calls 4 rows 1: query query"),
        (
            DELETE,
            "HTTP/1.1 204 No Content\r\n",
            "calls 7 rows 0: query query batch",
        ),
        (GET, ABSENT, "calls 9 rows 0: query query batch query"),
    ] {
        assert!(rt;
            comes_to(alloc, &mut world, input, line, counted)?,
            "{input}"
        );
    }
    Ok(())
}
