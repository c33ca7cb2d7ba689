ghost use Rattle.std.specs.Prelude.{◌≡◌, ◌⊎◌, ◌≤◌};
ghost use Rattle.mt_front.specs.Session.{Sent, Cut};
ghost use Rattle.mt_words.specs.Readings.{texts_of};
ghost use Rattle.mt_top.specs.Run.{service_of, code_of, Helps, RefusesWords, EndsSession, Runs};
ghost use Rattle.mt_top.specs.Endings.{ending_at, ending_of, depot_ending, Refuses, Over};

use crate::line::damage_line;
use mt_chain::{Depot, DepotFault, Keeper};
use mt_front::{ConnFault, End, Served, session};
use mt_io::{Sink, Source, send};
use mt_model::NoMemory;
use mt_open::OpenFault;
use mt_words::{Command, Common, Usage, read_words};
use mt_world::{NotOpened, Stores, World};
use std::alloc::Global;

const USAGE: &[u8] = b"usage: mtable session|drill|serve [options]\n";

/// The exit status of a run.
///
/// 0: the input was whole requests to its end, or to one that ended the connection, and each was
/// answered; or the usage line was asked for, and written. 2: the words are no command, or those of the
/// drill, which is not built. 3: a read failed. 4: a write failed. 5: the depot or a store
/// failed while the stores were opened. 6: the stores are no sound pair, and their first damage was
/// named by a line. 7: the input had something else than a whole request within the limits. 9: the
/// allocator had no memory.
#[derive(Clone, Copy, Debug, PartialEq, Eq)]
pub struct Status {
    pub code: u8,
}

/// How a run ended.
#[derive(Clone, Copy, Debug, PartialEq, Eq)]
pub enum Ending {
    /// The input was whole requests to its end, or to one that ended the connection; or the usage line
    /// was written that was asked for.
    Served,
    /// The words are no command that is built.
    BadWords,
    /// A read failed.
    ReadFault,
    /// A write failed.
    WriteFault,
    /// The depot or a store failed while the stores were opened.
    StoreFault,
    /// The stores are no sound pair.
    Damaged,
    /// The input had something else than a whole request within the limits.
    BadInput,
    /// The allocator had no memory.
    NoMemory,
}

impl Ending {
    fn code(self) -> u8
        ensures { result ≡ code_of self }
    {
        match self {
            Ending::Served => 0,
            Ending::BadWords => 2,
            Ending::ReadFault => 3,
            Ending::WriteFault => 4,
            Ending::StoreFault => 5,
            Ending::Damaged => 6,
            Ending::BadInput => 7,
            Ending::NoMemory => 9,
        }
    }
}

/// How the result of a session ends the run.
fn ending_of(served: Result<Served, ConnFault>) -> Ending
    ensures { result ≡ ending_of served }
{
    match served {
        Ok(served) => ending_at(served.end),
        Err(ConnFault::ReadFault) => Ending::ReadFault,
        Err(ConnFault::WriteFault) => Ending::WriteFault,
        Err(ConnFault::NoMemory) => Ending::NoMemory,
    }
}

/// How the end of a session ends the run.
fn ending_at(end: End) -> Ending
    ensures { result ≡ ending_at end }
{
    match end {
        End::Input | End::Closed => Ending::Served,
        End::BadInput => Ending::BadInput,
    }
}

fn ending_of_depot(fault: DepotFault) -> Ending
    ensures { result ≡ depot_ending fault }
{
    match fault {
        DepotFault::Failed => Ending::StoreFault,
        DepotFault::NoMemory => Ending::NoMemory,
    }
}

/// Writes all of these bytes, or a first part of them where a write fails, which is ignored.
fn say<T: Sink>(sink: &mut T, bytes: &[u8])
    ensures { Sent (T.output sink.old) bytes.now (T.output sink.new) ⊎ Cut (T.output sink.old) bytes.now (T.output sink.new) }
{
    let _ = send(sink, bytes);
}

/// Refuses the words.
fn refuse_words<T: Sink>(sink: &mut T) -> Ending
    ensures { RefusesWords result (T.output sink.old) (T.output sink.new) }
{
    say(sink, USAGE);
    Ending::BadWords
}

/// Writes the usage line that was asked for.
fn help<T: Sink>(sink: &mut T) -> Ending
    ensures { Helps result (T.output sink.old) (T.output sink.new) }
{
    match send(sink, USAGE) {
        Ok(()) => Ending::Served,
        Err(_) => Ending::WriteFault,
    }
}

/// How the run ends where two stores were not opened, and writes the line that names a damage.
fn refuse<T: Sink>(alloc: Global, fault: OpenFault, sink: &mut T) -> Ending
    ensures { Refuses (T.output sink.old) fault result (T.output sink.new) }
{
    match fault {
        OpenFault::Damaged { store, key, rule } => match damage_line(alloc, store, &key, rule) {
            Ok(line) => {
                say(sink, line.as_slice());
                Ending::Damaged
            }
            Err(NoMemory) => Ending::NoMemory,
        },
        OpenFault::StoreFault => Ending::StoreFault,
        OpenFault::NoMemory => Ending::NoMemory,
    }
}

/// A session over two open stores, which come back in every case.
fn over_stores<K: Keeper, S: Source, T: Sink>(
    alloc: Global,
    common: &Common,
    old: K,
    new: K,
    source: &mut S,
    sink: &mut T,
) -> (Ending, Stores<K>)
    requires some { 1 ≤ common.now.history }
    requires bounded { common.now.history ≤ 1048576 }
    requires old { (K.state old).number ≡ 0 }
    requires new { (K.state new).number ≡ 1 }
    ensures { Over (service_of common.now) (S.input source.old) (T.output sink.old) (K.state old) (K.state new) result.0
        (S.input source.new) (T.output sink.new) (K.state result.1.old) (K.state result.1.new) }
{
    match World::open_world(alloc, old, new, common.history) {
        Ok(mut world) => {
            let served = session(alloc, &mut world, &common.table, source, sink);
            (ending_of(served), world.into_stores())
        }
        Err(NotOpened { fault, old, new }) => (refuse(alloc, fault, sink), Stores { old, new }),
    }
}

/// A session over the stores 0 and 1 of a depot, which are handed back.
fn over_depot<S: Source, T: Sink, D: Depot>(
    alloc: Global,
    common: &Common,
    source: &mut S,
    sink: &mut T,
    depot: &mut D,
) -> Ending
    requires some { 1 ≤ common.now.history }
    requires bounded { common.now.history ≤ 1048576 }
    ensures { EndsSession (service_of common.now) (S.input source.old) (T.output sink.old) (D.shelf depot.old) result
        (S.input source.new) (T.output sink.new) (D.shelf depot.new) }
{
    let old = match depot.open_store(alloc, 0) {
        Ok(old) => old,
        Err(fault) => return ending_of_depot(fault),
    };
    let new = match depot.open_store(alloc, 1) {
        Ok(new) => new,
        Err(fault) => {
            depot.take_back(old);
            return ending_of_depot(fault);
        }
    };
    let (ending, stores) = over_stores(alloc, common, old, new, source, sink);
    depot.take_back(stores.old);
    depot.take_back(stores.new);
    ending
}

/// Runs the program with these words, which [`mt_words::read_words`] reads.
///
/// `session` reads requests on its table from the source and writes their replies to the sink, over the
/// stores 0 and 1 of the depot, which may hold the rows of any sound pair, with a history of as many
/// entries as it says. Every store that was opened is handed back. Stores that are no sound pair are
/// left as they are: the line `damaged store=S rule=R pk=HEX rk=HEX` is written, with the number of the
/// store and of the rule, and the bytes of the key in hexadecimal, in lower case. Nothing is read then,
/// and a failure of that write is ignored.
///
/// `--help` writes the usage line. Words that are no command are answered by the same line, and so is
/// `drill`, which is not built; a failure of that write is ignored. None of these opens a store or
/// reads.
pub fn run<S: Source, T: Sink, D: Depot>(
    alloc: Global,
    words: &[String],
    source: &mut S,
    sink: &mut T,
    depot: &mut D,
) -> Status
    ensures { Runs (texts_of words.now) (S.input source.old) (T.output sink.old) (D.shelf depot.old) result.code
        (S.input source.new) (T.output sink.new) (D.shelf depot.new) }
{
    let ending = match read_words(alloc, words) {
        Ok(Command::Session { common }) => over_depot(alloc, &common, source, sink, depot),
        Ok(Command::Help) => help(sink),
        Ok(
            Command::Drill {
                common: _common,
                ..
            },
        ) => refuse_words(sink),
        Err(Usage::Bad) => refuse_words(sink),
        Err(Usage::NoMemory) => Ending::NoMemory,
    };
    Status {
        code: ending.code(),
    }
}
