//! The words of the command, and what each asks for.
use crate::http::{Ask, CREATED, INSERT, Reply, reply_of, requests_of};
use crate::runs::{PLAIN, Plan, ran};
use std::alloc::Global;
use std::test::Fail;

const USAGE: &str = "usage: mtable session|drill|serve [options]\n";

/// The status and the output of a command, over an input of one insert.
fn answers(alloc: Global, command: &'static str) -> Result<(u8, String), Fail> {
    ran(alloc, Plan { command, ..PLAIN }, INSERT)
}

#[test]
fn words_that_are_no_command_get_the_usage_line(rt: HostRuntime) -> Result<(), Fail> {
    let alloc = rt.alloc();
    for command in [
        "",
        "x",
        "drill",
        "drill --number 0",
        "--help x",
        "--multi=1",
        "session --history 05",
        "session --history 0",
        "session --history 1048577",
        "session --keeper paged --keeper paged",
        "session --old f",
        "session --table ab",
        "session --table=Tables",
        "session --history",
    ] {
        let (status, got) = answers(alloc, command)?;
        assert!(rt; status == 2, "{command}");
        assert!(rt; got.as_str() == USAGE, "{command}: {got}");
    }
    Ok(())
}

#[test]
fn help_is_the_usage_line(rt: HostRuntime) -> Result<(), Fail> {
    let alloc = rt.alloc();
    let (status, got) = answers(alloc, "--help")?;
    assert!(rt; status == 0);
    assert!(rt; got.as_str() == USAGE, "{got}");
    let unwritten = Plan {
        command: "--help",
        failing_write: 1,
        ..PLAIN
    };
    let (status, got) = ran(alloc, unwritten, "")?;
    assert!(rt; status == 4);
    assert!(rt; got.is_empty(), "{got}");
    Ok(())
}

#[test]
fn a_history_is_full_at_the_limit_of_the_words(rt: HostRuntime) -> Result<(), Fail> {
    let alloc = rt.alloc();
    let input = requests_of(alloc, &[Ask::Insert("r"), Ask::Insert("s")])?;
    let full = reply_of(alloc, Reply::HistoryFull)?;
    let want = format!(in alloc; "{CREATED}{full}")?;
    for command in ["session --history 1", "session --history=1"] {
        // Call 1 opens a store, and the first insert takes two more: no call is made for the second.
        let plan = Plan {
            command,
            failing_old: 4,
            ..PLAIN
        };
        let (status, got) = ran(alloc, plan, input.as_str())?;
        assert!(rt; status == 0);
        assert!(rt; got.as_str() == want.as_str(), "{command}: {got}");
    }
    Ok(())
}

const ITEMS: &str =
    "POST /items HTTP/1.1\r\nHost: x\r\nContent-Length: 41\r\n\r\n{\"PartitionKey\":\"p\",\"RowKey\":\"r\",\"A\":\"x\"}";

#[test]
fn the_table_of_the_words_is_served(rt: HostRuntime) -> Result<(), Fail> {
    let alloc = rt.alloc();
    for command in ["session --table Items", "session --table=ITEMS --history=5"] {
        let (status, got) = ran(alloc, Plan { command, ..PLAIN }, ITEMS)?;
        assert!(rt; status == 0);
        assert!(rt; got.as_str() == CREATED, "{command}: {got}");
    }
    Ok(())
}
