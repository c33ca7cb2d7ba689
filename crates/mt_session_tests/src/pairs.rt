//! Runs over stores that have rows.
use crate::runs::{PLAIN, ran_over};
use mt_mem::MemDepot;
use mt_meta::{Mark, Phase};
use mt_test_stores::{FILLING, Past, SEEN, TURNED, store_of};
use std::alloc::Global;
use std::test::Fail;

/// What the two stores have in the partition `p`.
#[derive(Clone, Copy)]
enum Pair {
    /// Old's marker is `use-old`, and new fills and has a copy of the row `r`.
    CopiedTooEarly,

    /// The same old, and new is empty.
    Written,

    /// New is sealed and has no row.
    Sealed,

    /// Old has the row `r` of tag 0.2 under `prefer-new` of tag 0.3, and new fills.
    Turned,
}

/// Old's row `r` under a marker that lets clients write it.
const WRITTEN: [Past; 2] = [Past::Old(Phase::UseOld), Past::Row("r", 40)];

fn depot_of(alloc: Global, pair: Pair) -> Result<MemDepot, Fail> {
    let old = match pair {
        Pair::CopiedTooEarly | Pair::Written => store_of(alloc, 0, &WRITTEN)?,
        Pair::Sealed => store_of(alloc, 0, &[])?,
        Pair::Turned => store_of(alloc, 0, &TURNED)?,
    };
    let new = match pair {
        Pair::CopiedTooEarly => {
            let copy = Past::Kept("r", Mark::Copy(SEEN), 40);
            store_of(alloc, 1, &[FILLING, copy])?
        }
        Pair::Written => store_of(alloc, 1, &[])?,
        Pair::Sealed => store_of(alloc, 1, &[Past::Sealed])?,
        Pair::Turned => store_of(alloc, 1, &[FILLING])?,
    };
    Ok(MemDepot::new(old, new))
}

const DELETE: &str =
    "DELETE /Orders(PartitionKey='p',RowKey='r') HTTP/1.1\r\nHost: x\r\nIf-Match: *\r\n\r\n";

const DELETE_AND_INSERT: &str =
    "DELETE /Orders(PartitionKey='p',RowKey='r') HTTP/1.1\r\nHost: x\r\nIf-Match: *\r\n\r\nPOST /Orders HTTP/1.1\r\nHost: x\r\nContent-Length: 33\r\n\r\n{\"PartitionKey\":\"p\",\"RowKey\":\"r\"}";

#[test]
fn damaged_stores_are_named_and_sound_ones_are_served(rt: HostRuntime) -> Result<(), Fail> {
    let alloc = rt.alloc();
    for (pair, input, status, want) in [
        (
            Pair::CopiedTooEarly,
            DELETE,
            6,
            "damaged store=1 rule=3 pk=70 rk=01\n",
        ),
        (Pair::Written, DELETE, 0, "HTTP/1.1 204 No Content\r\n\r\n"),
        (Pair::Sealed, DELETE, 6, "damaged store=1 rule=8 pk= rk=\n"),
        (
            Pair::Turned,
            DELETE_AND_INSERT,
            0,
            "HTTP/1.1 204 No Content\r\n\r\nHTTP/1.1 201 Created\r\nContent-Type: application/json\r\nETag: W/\"1.3\"\r\nContent-Length: 58\r\n\r\n{\"PartitionKey\":\"p\",\"RowKey\":\"r\",\"odata.etag\":\"W/\\\"1.3\\\"\"}",
        ),
    ] {
        let mut depot = depot_of(alloc, pair)?;
        let (found, got) = ran_over(alloc, PLAIN, &mut depot, input)?;
        assert!(rt; found == status);
        assert!(rt; got.as_str() == want, "{got}");
    }
    Ok(())
}
