//! The reader of a command line.
ghost use Rattle.std.specs.Prelude.{◌≡◌, Some, None, IfOk};
ghost use Rattle.mt_words.specs.Words.{common_of};
ghost use Rattle.mt_words.specs.Readings.{texts_of, given_of, Reads, ReadsSession, ReadsDrill, ReadsHelp};

use crate::command::{Command, Common, StoreChoice, Usage};
use crate::settings::{MAX_HISTORY, Settings, read_settings};
use mt_model::{NoMemory, Text};
use std::alloc::Global;

/// The table that is served where none is named.
const DEFAULT_TABLE: &str = "Orders";

/// The events of a drill where no number is given.
const DEFAULT_EVENTS: u32 = 1_000;

/// What the options say that are common to commands.
fn common_of(alloc: Global, settings: Settings<'_>) -> Result<Common, NoMemory>
    ensures { IfOk result (λ c. c ≡ common_of (given_of settings.entry)) }
{
    Ok(Common {
        table: Text::of(alloc, settings.table.unwrap_or(DEFAULT_TABLE))?,
        history: settings.history.unwrap_or(MAX_HISTORY),
        stores: settings.keeper.unwrap_or(StoreChoice::Paged),
    })
}

/// A session with the options that the words spell.
fn read_session(alloc: Global, words: &[String]) -> Result<Command, Usage>
    ensures { ReadsSession (texts_of words.now) result }
{
    let Some(settings) = read_settings(words) else {
        return Err(Usage::Bad);
    };
    let (None, None) = (settings.number, settings.events) else {
        return Err(Usage::Bad);
    };
    let common = common_of(alloc, settings)?;
    Ok(Command::Session { common })
}

/// A drill with the options that the words spell.
fn read_drill(alloc: Global, words: &[String]) -> Result<Command, Usage>
    ensures { ReadsDrill (texts_of words.now) result }
{
    let Some(settings) = read_settings(words) else {
        return Err(Usage::Bad);
    };
    let Some(number) = settings.number else {
        return Err(Usage::Bad);
    };
    let common = common_of(alloc, settings)?;
    Ok(Command::Drill {
        number,
        events: settings.events.unwrap_or(DEFAULT_EVENTS),
        common,
    })
}

fn read_help(words: &[String]) -> Result<Command, Usage>
    ensures { ReadsHelp (texts_of words.now) result }
{
    if words.is_empty() {
        Ok(Command::Help)
    } else {
        Err(Usage::Bad)
    }
}

/// The command that the words after the program's name spell.
///
/// The first word is `session`, `drill` or `--help`; nothing follows `--help`. Options follow the
/// others in any order, each at most once, as `--x v` or `--x=v`; a value may begin with `-`:
///
/// - `--table NAME`: 3 to 63 ASCII letters and digits, a letter first, and not `Tables` in any case.
///   `Orders` where it is not given.
/// - `--history N`: 1 to 1,048,576 entries, which is also what is taken where it is not given.
/// - `--keeper plain`: stores in memory, with the rows of each in one list; or `--keeper paged`: with
///   the rows in pages, also where it is not given.
/// - `--number N`: 0 to 2^64 - 1. A drill has one, a session has none.
/// - `--events N`: 1 to 100,000, of a drill; 1,000 where it is not given.
///
/// Numbers are decimal digits without sign or leading zeros, save `0`. [`Usage::Bad`] comes exactly
/// where the words spell no command. The other error is want of memory.
pub fn read_words(alloc: Global, words: &[String]) -> Result<Command, Usage>
    ensures { Reads (texts_of words.now) result }
{
    match words {
        [] => Err(Usage::Bad),
        [first, rest @ ..] => match first.as_str() {
            "session" => read_session(alloc, rest),
            "drill" => read_drill(alloc, rest),
            "--help" => read_help(rest),
            _ => Err(Usage::Bad),
        },
    }
}
