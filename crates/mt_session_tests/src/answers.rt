//! What requests are answered.
ghost use Rattle.std.specs.Prelude.{IfOk};
ghost use Rattle.mt_chain.specs.StoreCall.{CanQuery};

use crate::http::{
    Ask, CREATED, INSERT, Match, Reply, insert_with, replies_of, reply_of, request_of, requests_of,
};
use crate::runs::{PLAIN, Plan, depot_of, ran, ran_over};
use mt_chain::{Depot, Keeper, RangeQuery, StoredRows};
use mt_model::{Text, Texts, Value};
use mt_words::StoreChoice;
use std::alloc::Global;
use std::test::Fail;

#[test]
fn one_insert(rt: HostRuntime) -> Result<(), Fail> {
    let (status, got) = ran(rt.alloc(), PLAIN, INSERT)?;
    assert!(rt; status == 0);
    assert!(rt; got.as_str() == CREATED, "{got}");
    Ok(())
}

#[test]
fn answers_in_any_pieces(rt: HostRuntime) -> Result<(), Fail> {
    let alloc = rt.alloc();
    let twice = requests_of(alloc, &[Ask::Insert("r"), Ask::Insert("r")])?;
    let both = replies_of(alloc, &[Reply::Created("r", 2), Reply::Exists])?;
    for piece in [1, 2, 3, 7, 4096] {
        // Call 1 of each store opens it; the first insert takes two more calls of the old store, and
        // the second one more.
        let plan = Plan {
            piece,
            failing_old: 5,
            failing_new: 2,
            ..PLAIN
        };
        let (status, got) = ran(alloc, plan, twice.as_str())?;
        assert!(rt; status == 0);
        assert!(rt; got.as_str() == both.as_str(), "{got}");
    }
    Ok(())
}

/// A tag that the row does not have any more or does not have yet, and one that it has.
const SECOND: Match = Match::Says("W/\"0.2\"");

const THIRD: Match = Match::Says("W/\"0.3\"");

#[test]
fn a_request_after_the_first_insert(rt: HostRuntime) -> Result<(), Fail> {
    let alloc = rt.alloc();
    for (ask, reply) in [
        (Ask::Insert("r"), Reply::Exists),
        (Ask::Insert("s"), Reply::Created("s", 3)),
        (Ask::QuietInsert("s"), Reply::Quiet(3)),
        (Ask::Put("r", SECOND), Reply::Tagged(3)),
        (Ask::Put("r", THIRD), Reply::ConditionFailed),
        (Ask::Put("q", Match::Absent), Reply::Tagged(3)),
        (Ask::Put("q", Match::Any), Reply::NotFound),
        (Ask::Put("q", SECOND), Reply::NotFound),
        (Ask::Merge("r", Match::Any), Reply::Tagged(3)),
        (Ask::Merge("r", Match::Says("nonsense")), Reply::BadETag),
        (Ask::Delete("r", Match::Any), Reply::Gone),
        (Ask::Delete("r", THIRD), Reply::ConditionFailed),
        (Ask::Delete("r", Match::Absent), Reply::MissingIfMatch),
        (Ask::Delete("q", Match::Any), Reply::NotFound),
    ] {
        let input = requests_of(alloc, &[Ask::Insert("r"), ask])?;
        let want = replies_of(alloc, &[Reply::Created("r", 2), reply])?;
        let (status, got) = ran(alloc, PLAIN, input.as_str())?;
        assert!(rt; status == 0);
        assert!(rt; got.as_str() == want.as_str(), "{got}");
    }
    Ok(())
}

const DAY: [(Ask, Reply); 22] = [
    (Ask::Insert("r"), Reply::Created("r", 2)),
    (Ask::Insert("r"), Reply::Exists),
    (Ask::Delete("r", Match::Any), Reply::Gone),
    (Ask::Insert("r"), Reply::Created("r", 3)),
    (Ask::Put("r", SECOND), Reply::ConditionFailed),
    (Ask::Put("r", THIRD), Reply::Tagged(4)),
    (Ask::Merge("r", Match::Any), Reply::Tagged(5)),
    (Ask::Merge("r", Match::Says("*x")), Reply::BadETag),
    (Ask::Put("q", Match::Absent), Reply::Tagged(6)),
    (Ask::Put("q", THIRD), Reply::ConditionFailed),
    (Ask::Delete("r", Match::Absent), Reply::MissingIfMatch),
    (Ask::Delete("r", Match::Says("W/\"0.5\"")), Reply::Gone),
    (Ask::Delete("r", Match::Any), Reply::NotFound),
    (Ask::Merge("r", Match::Any), Reply::NotFound),
    (Ask::Put("r", Match::Any), Reply::NotFound),
    (Ask::Merge("r", Match::Absent), Reply::Tagged(7)),
    (Ask::Insert("r"), Reply::Exists),
    (Ask::Delete("r", Match::Any), Reply::Gone),
    (Ask::QuietInsert("r"), Reply::Quiet(8)),
    (Ask::QuietInsert("s"), Reply::Quiet(9)),
    (Ask::Insert("t"), Reply::Created("t", 10)),
    (Ask::Put("q", Match::Any), Reply::Tagged(11)),
];

#[test]
fn a_day(rt: HostRuntime) -> Result<(), Fail> {
    let alloc = rt.alloc();
    let mut input = String::new(alloc);
    let mut want = String::new(alloc);
    for (ask, reply) in DAY {
        input.push_str(request_of(alloc, ask)?.as_str())?;
        want.push_str(reply_of(alloc, reply)?.as_str())?;
    }
    let (status, got) = ran(alloc, PLAIN, input.as_str())?;
    assert!(rt; status == 0);
    assert!(rt; got.as_str() == want.as_str(), "{got}");
    Ok(())
}

/// Asks for the row `r` of the partition `p`.
fn row_r(alloc: Global) -> Result<RangeQuery, Fail>
    ensures { IfOk result CanQuery }
{
    let mut names = Vec::new(alloc);
    names.push(Text::of(alloc, "r")?)?;
    Ok(RangeQuery {
        pk: Text::of(alloc, "p")?,
        named: Texts::of(names),
        range: None,
    })
}

/// The properties of rows that are texts.
fn listed(alloc: Global, rows: &StoredRows) -> Result<String, Fail> {
    let mut text = String::new(alloc);
    for row in rows.as_slice() {
        for prop in row.props.as_slice() {
            if let Value::Str(value) = &prop.value {
                let name = prop.name.as_str();
                let value = value.as_str();
                text.push_str(format!(in alloc; "{name}={value} ")?.as_str())?;
            }
        }
    }
    Ok(text)
}

#[test]
fn merged_rows_have_both(rt: HostRuntime) -> Result<(), Fail> {
    let alloc = rt.alloc();
    let input = requests_of(alloc, &[Ask::Insert("r"), Ask::Merge("r", Match::Any)])?;
    let mut depot = depot_of(alloc, StoreChoice::Paged, PLAIN)?;
    let (status, _) = ran_over(alloc, PLAIN, &mut depot, input.as_str())?;
    assert!(rt; status == 0);
    let mut old = depot.open_store(alloc, 0)?;
    let found = old.query(alloc, &row_r(alloc)?)?;
    let got = listed(alloc, &found.named)?;
    assert!(rt; got.as_str() == "A=x B=y ", "{got}");
    Ok(())
}

#[test]
fn a_failed_store_call_is_answered(rt: HostRuntime) -> Result<(), Fail> {
    let alloc = rt.alloc();
    let asks = [Ask::Insert("r"), Ask::Insert("s"), Ask::Insert("s")];
    let input = requests_of(alloc, &asks)?;
    // The first insert takes two calls after the one that opens the store.
    for (failing_old, replies) in [
        (
            2,
            [Reply::StoreFault, Reply::Created("s", 2), Reply::Exists],
        ),
        (
            3,
            [Reply::StoreFault, Reply::Created("s", 2), Reply::Exists],
        ),
        (
            4,
            [
                Reply::Created("r", 2),
                Reply::StoreFault,
                Reply::Created("s", 3),
            ],
        ),
    ] {
        let want = replies_of(alloc, &replies)?;
        let plan = Plan {
            failing_old,
            ..PLAIN
        };
        let (status, got) = ran(alloc, plan, input.as_str())?;
        assert!(rt; status == 0);
        assert!(rt; got.as_str() == want.as_str(), "{got}");
    }
    Ok(())
}

const ENTITIES: [(&str, &str); 3] = [
    (
        "{\"N\":\"5\",\"N@odata.type\":\"Edm.Int64\",\"PartitionKey\":\"p\",\"RowKey\":\"r\"}",
        "{\"N\":\"5\",\"N@odata.type\":\"Edm.Int64\",\"PartitionKey\":\"p\",\"RowKey\":\"r\",\"odata.etag\":\"W/\\\"0.2\\\"\"}",
    ),
    (
        " { \"RowKey\" : \"r\" ,\t\"PartitionKey\":\"\\u0070\",\r\n\"A\":\"y\", \"A\":\"x\" } ",
        "{\"A\":\"x\",\"PartitionKey\":\"p\",\"RowKey\":\"r\",\"odata.etag\":\"W/\\\"0.2\\\"\"}",
    ),
    (
        "{\"PartitionKey\":\"p\",\"RowKey\":\"r\",\"_z\":true,\"b\":-1,\"Q\":\"a\\\"b\",\"Timestamp\":\"x\",\"n\":null}",
        "{\"PartitionKey\":\"p\",\"Q\":\"a\\\"b\",\"RowKey\":\"r\",\"_z\":true,\"b\":-1,\"odata.etag\":\"W/\\\"0.2\\\"\"}",
    ),
];

#[test]
fn entities(rt: HostRuntime) -> Result<(), Fail> {
    let alloc = rt.alloc();
    for (body, text) in ENTITIES {
        let request = insert_with(alloc, body)?;
        let size = text.len();
        let want = format!(in alloc;
            "HTTP/1.1 201 Created\r\nContent-Type: application/json\r\nETag: W/\"0.2\"\r\nContent-Length: {size}\r\n\r\n{text}"
        )?;
        let (status, got) = ran(alloc, PLAIN, request.as_str())?;
        assert!(rt; status == 0);
        assert!(rt; got.as_str() == want.as_str(), "{got}");
    }
    Ok(())
}
