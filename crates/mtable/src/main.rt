//! The table server over standard input, standard output and two stores in memory.
#![tactic(auto)]

use mt_io::{ReadSource, WriteSink};
use mt_model::NoMemory;
use mt_top::AnyDepot;
use mt_words::{Command, StoreChoice, Usage, read_words};
use std::alloc::Global;
use std::env;
use std::io::{self, ErrorKind};
use std::process::ExitCode;

/// The exit status where the words could not be read, or the stores not be made, for want of memory.
const NO_MEMORY: u8 = 9;

/// The words after the program's name. Words that are not UTF-8 are no words of a command: none are
/// given then.
fn words(rt: &HostRuntime) -> io::Result<Vec<String>> {
    let mut words = Vec::new(rt.alloc());
    let args = match env::args(rt) {
        Ok(args) => args,
        Err(e) => {
            if matches!(e.kind(), ErrorKind::InvalidData) {
                return Ok(words);
            }
            return Err(e);
        }
    };
    for word in args.skip(1) {
        words.push(word)?;
    }
    Ok(words)
}

/// Where the command of these words keeps its rows. Words that are no command name plain stores, which
/// take no memory and are not used then.
fn stores_of(alloc: Global, words: &[String]) -> Result<StoreChoice, NoMemory> {
    match read_words(alloc, words) {
        Ok(Command::Session { common }) => Ok(common.stores),
        Ok(Command::Drill { common, .. }) => Ok(common.stores),
        Ok(Command::Help) | Err(Usage::Bad) => Ok(StoreChoice::Plain),
        Err(Usage::NoMemory) => Err(NoMemory),
    }
}

fn main(rt: HostRuntime) -> ExitCode {
    let Ok(words) = words(&rt) else {
        return ExitCode::from(NO_MEMORY);
    };
    let Ok(stores) = stores_of(rt.alloc(), &words) else {
        return ExitCode::from(NO_MEMORY);
    };
    let mut source = ReadSource::new(rt.stdin(), 0);
    let mut sink = WriteSink::new(rt.stdout(), 0);
    let Ok(mut depot) = AnyDepot::empty(rt.alloc(), stores) else {
        return ExitCode::from(NO_MEMORY);
    };
    let status = mt_top::run(rt.alloc(), &words, &mut source, &mut sink, &mut depot);
    ExitCode::from(status.code)
}
