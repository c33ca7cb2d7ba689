//! How runs end.
use crate::http::{Ask, CREATED, INSERT, Reply, replies_of, reply_of, requests_of};
use crate::runs::{PLAIN, Plan, depot_of, ran, ran_over};
use mt_words::StoreChoice;
use std::alloc::Global;
use std::test::Fail;

/// What was written.
#[derive(Clone, Copy)]
enum Output {
    Nothing,
    Usage,
    Created,
    OtherAndCreated,
    CreatedAndOther,
}

const USAGE: &str = "usage: mtable session|drill|serve [options]\n";

fn text_of(alloc: Global, output: Output) -> Result<String, Fail> {
    match output {
        Output::Nothing => Ok(String::new(alloc)),
        Output::Usage => Ok(String::from_str(alloc, USAGE)?),
        Output::Created => reply_of(alloc, Reply::Created("r", 2)),
        Output::OtherAndCreated => {
            replies_of(alloc, &[Reply::NotImplemented, Reply::Created("r", 2)])
        }
        Output::CreatedAndOther => {
            replies_of(alloc, &[Reply::Created("r", 2), Reply::NotImplemented])
        }
    }
}

#[test]
fn ends_of_the_input(rt: HostRuntime) -> Result<(), Fail> {
    let alloc = rt.alloc();
    let insert = Ask::Insert("r");
    for (asks, want) in [
        ([Ask::Tables, insert], Output::OtherAndCreated),
        ([insert, Ask::Tables], Output::CreatedAndOther),
    ] {
        let input = requests_of(alloc, &asks)?;
        let want = text_of(alloc, want)?;
        let (found, got) = ran(alloc, PLAIN, input.as_str())?;
        assert!(rt; found == 0);
        assert!(rt; got.as_str() == want.as_str(), "{got}");
    }
    let (status, got) = ran(alloc, PLAIN, "")?;
    assert!(rt; status == 0);
    assert!(rt; got.is_empty());
    Ok(())
}

#[test]
fn statuses(rt: HostRuntime) -> Result<(), Fail> {
    let alloc = rt.alloc();
    for (plan, status, want) in [
        (
            Plan {
                command: "help",
                ..PLAIN
            },
            2,
            Output::Usage,
        ),
        (
            Plan {
                failing_read: 1,
                ..PLAIN
            },
            3,
            Output::Nothing,
        ),
        (
            Plan {
                failing_read: 2,
                ..PLAIN
            },
            3,
            Output::Created,
        ),
        (
            Plan {
                failing_write: 1,
                ..PLAIN
            },
            4,
            Output::Nothing,
        ),
        (
            Plan {
                failing_old: 1,
                ..PLAIN
            },
            5,
            Output::Nothing,
        ),
        (
            Plan {
                failing_new: 1,
                ..PLAIN
            },
            5,
            Output::Nothing,
        ),
        (PLAIN, 0, Output::Created),
    ] {
        let want = text_of(alloc, want)?;
        let (found, got) = ran(alloc, plan, INSERT)?;
        assert!(rt; found == status);
        assert!(rt; got.as_str() == want.as_str(), "{got}");
    }
    Ok(())
}

#[test]
fn a_second_run_serves_the_rows_of_the_first(rt: HostRuntime) -> Result<(), Fail> {
    let alloc = rt.alloc();
    let mut depot = depot_of(alloc, StoreChoice::Paged, PLAIN)?;
    for want in [Reply::Created("r", 2), Reply::Exists] {
        let want = reply_of(alloc, want)?;
        let (status, got) = ran_over(alloc, PLAIN, &mut depot, INSERT)?;
        assert!(rt; status == 0);
        assert!(rt; got.as_str() == want.as_str(), "{got}");
    }
    Ok(())
}

#[test]
fn each_read_and_write_fails_in_turn(rt: HostRuntime) -> Result<(), Fail> {
    let alloc = rt.alloc();
    let twice = requests_of(alloc, &[Ask::Insert("r"), Ask::Insert("r")])?;
    let both = replies_of(alloc, &[Reply::Created("r", 2), Reply::Exists])?;
    for failing_read in 1..30 {
        let plan = Plan {
            failing_read,
            piece: 7,
            ..PLAIN
        };
        let (status, got) = ran(alloc, plan, twice.as_str())?;
        assert!(rt; status == 3);
        assert!(rt;
            got.is_empty() || got.as_str() == CREATED || got.as_str() == both.as_str(),
            "{got}"
        );
    }
    for failing_write in 1..3 {
        let plan = Plan {
            failing_write,
            ..PLAIN
        };
        let (status, got) = ran(alloc, plan, twice.as_str())?;
        assert!(rt; status == 4);
        assert!(rt; both.as_str().starts_with(got.as_str()), "{got}");
    }
    Ok(())
}
