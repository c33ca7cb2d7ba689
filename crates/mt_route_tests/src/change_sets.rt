//! Change sets: store calls and entries.
use crate::sessions::{CREATED, FRESH, INSERT, Plan, Room, comes_to, world_of, written};
use mt_chain::Keeper;
use std::alloc::Global;
use std::test::Fail;

/// One request of a change set.
#[derive(Clone, Copy)]
enum Part {
    /// The insert of a row whose key is `a` and this number, into the partition `p`.
    Row(u32),

    /// The insert of a row of this partition.
    Insert(&'static str),

    /// An insert whose body is no object.
    Unreadable,

    /// The deletion of a row that is not there.
    Delete,

    /// `GET` on the table.
    Get,
}

fn insert(alloc: Global, pk: &str, rk: &str) -> Result<String, Fail> {
    Ok(format!(in alloc;
        "POST /Orders HTTP/1.1\r\n\r\n{{\"PartitionKey\":\"{pk}\",\"RowKey\":\"{rk}\"}}"
    )?)
}

fn request(alloc: Global, part: Part) -> Result<String, Fail> {
    match part {
        Part::Row(n) => {
            let rk = format!(in alloc; "a{n}")?;
            insert(alloc, "p", rk.as_str())
        }
        Part::Insert(pk) => insert(alloc, pk, "r"),
        Part::Unreadable => Ok(String::from_str(alloc, "POST /Orders HTTP/1.1\r\n\r\n[")?),
        Part::Delete => Ok(String::from_str(
            alloc,
            "DELETE /Orders(PartitionKey='p',RowKey='b') HTTP/1.1\r\nIf-Match: *\r\n\r\n",
        )?),
        Part::Get => Ok(String::from_str(alloc, "GET /Orders HTTP/1.1\r\n\r\n")?),
    }
}

/// The body of a change set of these requests.
fn body_of(alloc: Global, parts: &[Part]) -> Result<String, Fail> {
    let mut body = String::from_str(
        alloc,
        "--b\r\nContent-Type: multipart/mixed; boundary=c\r\n\r\n",
    )?;
    for part in parts {
        body.push_str("--c\r\nContent-Type: application/http\r\n\r\n")?;
        body.push_str(request(alloc, *part)?.as_str())?;
        body.push_str("\r\n")?;
    }
    body.push_str("--c--\r\n--b--\r\n")?;
    Ok(body)
}

/// The change set of these requests.
fn set_of(alloc: Global, parts: &[Part]) -> Result<String, Fail> {
    let body = body_of(alloc, parts)?;
    let size = body.len();
    Ok(format!(in alloc;
        "POST /$batch HTTP/1.1\r\nContent-Type: multipart/mixed; boundary=b\r\nContent-Length: {size}\r\n\r\n{body}"
    )?)
}

/// The inserts of so many rows.
fn rows(alloc: Global, count: u32) -> Result<Vec<Part>, Fail> {
    let mut parts = Vec::new(alloc);
    for n in 0..count {
        parts.push(Part::Row(n))?;
    }
    Ok(parts)
}

const ACCEPTED: &str = "HTTP/1.1 202 Accepted\r\n";

/// The second call puts the marker and the rows.
#[test]
fn a_hundred_inserts_take_two_store_calls(rt: HostRuntime) -> Result<(), Fail> {
    let alloc = rt.alloc();
    let mut world = world_of(alloc, FRESH)?;
    let parts = rows(alloc, 100)?;
    let input = set_of(alloc, parts.as_slice())?;
    assert!(rt;
        comes_to(
            alloc,
            &mut world,
            input.as_str(),
            ACCEPTED,
            "calls 2 rows 100: batch"
        )?
    );
    let stores = world.into_stores();
    assert!(rt; stores.old.counter() == 101);
    Ok(())
}

#[test]
fn too_many_inserts_take_none(rt: HostRuntime) -> Result<(), Fail> {
    let alloc = rt.alloc();
    let mut world = world_of(alloc, FRESH)?;
    let parts = rows(alloc, 101)?;
    let input = set_of(alloc, parts.as_slice())?;
    assert!(rt;
        comes_to(
            alloc,
            &mut world,
            input.as_str(),
            ACCEPTED,
            "calls 0 rows 0:"
        )?
    );
    Ok(())
}

const REFUSED: [&[Part]; 5] = [
    &[],
    &[Part::Insert("p"), Part::Insert("p")],
    &[Part::Insert("p"), Part::Row(0), Part::Insert("q")],
    &[Part::Insert("p"), Part::Unreadable],
    &[Part::Insert("p"), Part::Get],
];

/// Of the refusals only the table's takes a store call, and leaves an entry.
#[test]
fn refusals_before_the_table_leave_nothing(rt: HostRuntime) -> Result<(), Fail> {
    let alloc = rt.alloc();
    let mut world = world_of(alloc, FRESH)?;
    for parts in REFUSED {
        let input = set_of(alloc, parts)?;
        assert!(rt;
            comes_to(
                alloc,
                &mut world,
                input.as_str(),
                ACCEPTED,
                "calls 0 rows 0:"
            )?
        );
    }
    let input = set_of(alloc, &[Part::Insert("p"), Part::Delete])?;
    assert!(rt;
        comes_to(
            alloc,
            &mut world,
            input.as_str(),
            ACCEPTED,
            "calls 1 rows 0: refused"
        )?
    );
    Ok(())
}

const FAULT: &str = "HTTP/1.1 500 Internal Server Error\r\n";

const FULL: &str = "HTTP/1.1 507 Insufficient Storage\r\n";

/// A store that fails at the read or at the write leaves the entry of a fault; a full history none.
#[test]
fn whole_replies_in_place_of_the_parts(rt: HostRuntime) -> Result<(), Fail> {
    let alloc = rt.alloc();
    let input = set_of(alloc, &[Part::Row(0), Part::Row(1)])?;
    // Call 1 of old opens it, and the first insert takes two more: call 4 reads, and call 5 writes.
    for (failing_old, room, line, counted) in [
        (4, Room::Ten, FAULT, "calls 3 rows 1: batch fault"),
        (5, Room::Ten, FAULT, "calls 4 rows 1: batch fault"),
        (0, Room::One, FULL, "calls 2 rows 1: batch"),
    ] {
        let plan = Plan {
            failing_old,
            room,
            ..FRESH
        };
        let mut world = world_of(alloc, plan)?;
        let first = written(alloc, &mut world, INSERT)?;
        assert!(rt; first.as_str().starts_with(CREATED), "{first}");
        assert!(rt;
            comes_to(alloc, &mut world, input.as_str(), line, counted)?,
            "{counted}"
        );
    }
    Ok(())
}
