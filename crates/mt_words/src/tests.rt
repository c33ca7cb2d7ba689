use crate::{Command, Common, StoreChoice, Usage, read_words};
use clap::{Arg, ArgMatches, Command as Parser};
use std::alloc::Global;
use std::test::Fail;

/// What is read of a command line.
#[derive(Clone, Copy, Debug, PartialEq, Eq)]
enum Read<'a> {
    Session(Shared<'a>),
    Drill(u64, u32, Shared<'a>),
    Help,
    Bad,
    NoMemory,
}

/// The table, the entries of the history and the keeper.
#[derive(Clone, Copy, Debug, PartialEq, Eq)]
struct Shared<'a>(&'a str, u64, StoreChoice);

const DEFAULTS: Shared<'static> = Shared("Orders", 1_048_576, StoreChoice::Paged);

fn values_of(common: &Common) -> Shared<'_> {
    Shared(common.table.as_str(), common.history, common.stores)
}

fn seen(command: &Result<Command, Usage>) -> Read<'_> {
    match command {
        Ok(Command::Session { common }) => Read::Session(values_of(common)),
        Ok(
            Command::Drill {
                number,
                events,
                common,
            },
        ) => Read::Drill(*number, *events, values_of(common)),
        Ok(Command::Help) => Read::Help,
        Err(Usage::Bad) => Read::Bad,
        Err(Usage::NoMemory) => Read::NoMemory,
    }
}

/// The words of a line, between blanks.
fn words(alloc: Global, line: &str) -> Result<Vec<String>, Fail> {
    let mut words = Vec::new(alloc);
    for part in line.split(' ') {
        let mut word = String::new(alloc);
        word.push_str(part)?;
        words.push(word)?;
    }
    Ok(words)
}

#[test]
fn reads_commands_with_their_options(rt: HostRuntime) -> Result<(), Fail> {
    let alloc = rt.alloc();
    let five = Shared("Orders", 5, StoreChoice::Paged);
    let plain = Shared("Orders", 1_048_576, StoreChoice::Plain);
    for (line, want) in [
        ("session", Read::Session(DEFAULTS)),
        ("session --history=5", Read::Session(five)),
        ("session --history 5", Read::Session(five)),
        ("session --history 1048576", Read::Session(DEFAULTS)),
        ("session --keeper plain", Read::Session(plain)),
        ("session --keeper=plain", Read::Session(plain)),
        ("session --keeper paged", Read::Session(DEFAULTS)),
        (
            "session --keeper=paged --history 5 --table=Orders",
            Read::Session(five),
        ),
        (
            "session --table Items",
            Read::Session(Shared("Items", 1_048_576, StoreChoice::Paged)),
        ),
        (
            "drill --number 0 --keeper plain",
            Read::Drill(0, 1_000, plain),
        ),
        ("drill --number 0", Read::Drill(0, 1_000, DEFAULTS)),
        (
            "drill --events 100000 --history=5 --number=18446744073709551615",
            Read::Drill(18_446_744_073_709_551_615, 100_000, five),
        ),
        ("--help", Read::Help),
    ] {
        let words = words(alloc, line)?;
        let result = read_words(alloc, &words);
        assert!(rt; seen(&result) == want, "{line}");
    }
    Ok(())
}

#[test]
fn refuses_what_is_no_command(rt: HostRuntime) -> Result<(), Fail> {
    let alloc = rt.alloc();
    for line in [
        "",
        "x",
        "Session",
        "serve --listen x",
        "--help x",
        "session x",
        "session --history",
        "session --history 0",
        "session --history 05",
        "session --history +5",
        "session --history -5",
        "session --history 1048577",
        "session --history=5 --history=5",
        "session --history --keeper",
        "session --keeper",
        "session --keeper list",
        "session --keeper Paged",
        "session --keeper paged --keeper paged",
        "session --keeper=plain --keeper=paged",
        "session --old f",
        "session --multi=1",
        "session --table ab",
        "session --table=Tables",
        "session --number 1",
        "session --events 1",
        "drill",
        "drill --events 1",
        "drill --number 18446744073709551616",
        "drill --number 00",
        "drill --number 1 --events 0",
        "drill --number 1 --events 100001",
        "drill --number= --events 1",
    ] {
        let words = words(alloc, line)?;
        let result = read_words(alloc, &words);
        assert!(rt; seen(&result) == Read::Bad, "{line}");
    }
    let none = Vec::new(alloc);
    let result = read_words(alloc, &none);
    assert!(rt; seen(&result) == Read::Bad);
    Ok(())
}

/// The command line as `clap` knows it.
fn parser<'a>(alloc: Global) -> Result<Parser<'a>, Fail> {
    let session = Parser::new(alloc, "session")
        .arg(
            Arg::new(alloc, "table")
                .long("table")
                .allow_hyphen_values(true),
        )?
        .arg(
            Arg::new(alloc, "history")
                .long("history")
                .allow_hyphen_values(true),
        )?
        .arg(
            Arg::new(alloc, "keeper")
                .long("keeper")
                .allow_hyphen_values(true),
        )?;
    Ok(
        Parser::new(alloc, "mtable")
            .no_binary_name(true)
            .subcommand(session)?,
    )
}

/// Lines that both readers take.
const LINES: [[&str; 3]; 6] = [
    ["session", "--history=5", "--table=Items"],
    ["session", "--history", "5"],
    ["session", "--keeper", "plain"],
    ["session", "--keeper", "paged"],
    ["session", "--table", "Items"],
    ["session", "--keeper=plain", "--history=70"],
];

fn owned(alloc: Global, parts: &[&str]) -> Result<Vec<String>, Fail> {
    let mut words = Vec::new(alloc);
    for part in parts {
        let mut word = String::new(alloc);
        word.push_str(part)?;
        words.push(word)?;
    }
    Ok(words)
}

fn text_of<'a>(matches: &ArgMatches<'a>, id: &str, default: &'a str) -> &'a str {
    matches.get_str(id).unwrap_or(default)
}

#[test]
fn reads_the_values_that_clap_reads(rt: HostRuntime) -> Result<(), Fail> {
    let alloc = rt.alloc();
    for line in &LINES {
        let mut parser = parser(alloc)?;
        let matches = parser.try_get_matches_from_mut(line)?;
        let Some(("session", options)) = matches.subcommand() else {
            return Err(Fail::new("no session"));
        };
        let words = owned(alloc, line)?;
        let result = read_words(alloc, &words);
        let history = text_of(options, "history", "1048576").parse::<u64>()?;
        let keeper = if text_of(options, "keeper", "paged") == "paged" {
            StoreChoice::Paged
        } else {
            StoreChoice::Plain
        };
        let want = Shared(text_of(options, "table", "Orders"), history, keeper);
        assert!(rt; seen(&result) == Read::Session(want));
    }
    Ok(())
}
