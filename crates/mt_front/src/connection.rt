//! One connection.
ghost use Rattle.std.specs.Prelude.{◌≡◌, ◌≤◌, ◌<◌, ◌+◌, ◌^◌, IfOk};
ghost use Rattle.mt_front.specs.declared.asks.Asked.TheVariants as asked;
ghost use Rattle.mt_front.specs.PageReads.{MayPage, MayTry};
ghost use Rattle.mt_front.specs.Session.{Serves};
ghost use Rattle.mt_world.specs.Moves.{MayRequest};
ghost use Rattle.mt_http_out.specs.Rendering.{bytes_of, IsReply};
ghost use Rattle.mt_front.specs.Refusals.{bad_reply, fault_reply, full_reply};
ghost use Rattle.mt_front.specs.Machines.{IsHeld};
ghost use Rattle.mt_front.specs.Services.{MayOrder};
ghost use Rattle.mt_front.specs.Turns.{Tries, WritesReply, SaysReply, SaysMade, Converses, AnswersCall, AnswersBeside, AnswersRequest, AnswersFault, RefusesAs, turn_behind, turn_refused, served_of, SessionTurn};

use crate::asks::{Asked, asked_by};
use crate::machines::{CALLER, Machines};
use crate::page_replies::page_reply;
use crate::pages::PageRead;
use crate::reads::{Read, rows_reply};
use crate::refusals::{
    BadRequest, bad_part, bad_request, head_refusal, history_full, no_memory, refusal_reply,
    store_fault,
};
use crate::reports::report_reply;
use crate::services::Admin;
use crate::writes::Writes;
use mt_chain::{Keeper, Refusal, Tags};
use mt_http_in::{Code, InFault, Incoming, Reader, read_request};
use mt_http_out::{Reply, render};
use mt_io::{IoFault, Sink, Source, send};
use mt_model::{Entities, NoMemory, Text};
use mt_scan::Page;
use mt_world::{Answer, Request, TurnFault, World};
use std::alloc::Global;

/// How a connection ended.
#[derive(Clone, Copy, Debug, PartialEq, Eq)]
pub enum End {
    /// The input was read to its end.
    Input,

    /// The last request was one of HTTP/1.0 or said `Connection: close`.
    Closed,

    /// What was left was no whole request within the limits.
    BadInput,
}

/// A connection that was served to its end.
#[derive(Clone, Copy, Debug, PartialEq, Eq)]
pub struct Served {
    /// How many replies were written.
    pub requests: u64,
    pub end: End,
}

/// Why a connection broke off.
#[derive(Clone, Copy, Debug, PartialEq, Eq)]
pub enum ConnFault {
    /// A read failed; the source's count of faults rose.
    ReadFault,

    /// A write failed; the sink's count of faults rose.
    WriteFault,

    /// The allocator had no memory.
    NoMemory,
}

/// How a request came out.
#[derive(Drop)]
enum Outcome {
    /// Its operations were done, and these are the tags of their rows.
    Done(Tags),

    /// The table refused one of its operations.
    Refused(Refusal),

    /// These rows were found.
    Found(Entities),

    /// This page was read.
    Paged(Page),

    /// A store failed.
    Fault,

    /// The history is full.
    Full,
}

/// What one turn of a session came to.
#[derive(Clone, Copy, Debug, PartialEq, Eq)]
enum Turn {
    /// A request was answered.
    Answered,

    /// The session ended.
    Ended(End),
}

/// Writes the bytes of a reply. It takes no memory.
fn send_bytes<T: Sink>(sink: &mut T, bytes: &[u8]) -> Result<(), ConnFault>
    ensures { WritesReply (T.output sink.old) bytes.now result (T.output sink.new) }
{
    match send(sink, bytes) {
        Ok(()) => Ok(()),
        Err(IoFault::Failed) => Err(ConnFault::WriteFault),
    }
}

/// Renders a reply that may have been made into the buffer, in place of what stands there, and writes
/// it at once. Where there is no memory nothing is written.
fn send_reply<T: Sink>(
    out: &mut Vec<u8>,
    sink: &mut T,
    reply: Result<Reply, NoMemory>,
) -> Result<(), ConnFault>
    requires { IfOk reply IsReply }
    ensures { SaysMade (T.output sink.old) reply result (T.output sink.new) }
{
    let Ok(reply) = reply else {
        return Err(ConnFault::NoMemory);
    };
    out.clear();
    match render(&reply, out) {
        Ok(()) => send_bytes(sink, out.as_slice()),
        Err(NoMemory) => Err(ConnFault::NoMemory),
    }
}

/// Refuses what is asked for before anything is tried.
fn send_refusal<T: Sink>(
    alloc: Global,
    out: &mut Vec<u8>,
    sink: &mut T,
    refusal: BadRequest,
    close: bool,
) -> Result<(), ConnFault>
    ensures { SaysReply (T.output sink.old) (bytes_of (bad_reply refusal close)) result (T.output sink.new) }
{
    send_reply(out, sink, bad_request(alloc, refusal, close))
}

/// Says that a store failed.
fn send_fault<T: Sink>(
    alloc: Global,
    out: &mut Vec<u8>,
    sink: &mut T,
    close: bool,
) -> Result<(), ConnFault>
    ensures { SaysReply (T.output sink.old) (bytes_of (fault_reply close)) result (T.output sink.new) }
{
    send_reply(out, sink, store_fault(alloc, close))
}

/// Says that the history is full.
fn send_full<T: Sink>(
    alloc: Global,
    out: &mut Vec<u8>,
    sink: &mut T,
    close: bool,
) -> Result<(), ConnFault>
    ensures { SaysReply (T.output sink.old) (bytes_of (full_reply close)) result (T.output sink.new) }
{
    send_reply(out, sink, history_full(alloc, close))
}

/// Tries a request on the world. The one error is want of memory.
fn try_request<K: Keeper>(
    alloc: Global,
    world: &mut World<K>,
    request: Request,
) -> Result<Outcome, NoMemory>
    requires { MayRequest request }
    ensures { Tries 0 world.old request result world.new }
{
    let call = world.call_of(alloc, request)?;
    match world.finish(alloc, CALLER, call) {
        Ok(Answer::Written(tags)) => Ok(Outcome::Done(tags)),
        Ok(Answer::Refused(refusal)) => Ok(Outcome::Refused(refusal)),
        Ok(Answer::Rows(rows)) => Ok(Outcome::Found(rows)),
        Ok(Answer::Page(page)) => Ok(Outcome::Paged(page)),
        Ok(Answer::Moved) => unreachable!(),
        Ok(Answer::Cleaned) => unreachable!(),
        Ok(Answer::NotSealed) => unreachable!(),
        Ok(Answer::NotMigrated { .. }) => unreachable!(),
        Err(TurnFault::StoreFault) => Ok(Outcome::Fault),
        Err(TurnFault::HistoryFull) => Ok(Outcome::Full),
        Err(TurnFault::NoMemory) => Err(NoMemory),
    }
}

/// Tries operations and writes their reply. All memory for the reply to those that are done is taken
/// before they are tried; there may be none for another reply.
fn write_rows<K: Keeper, T: Sink>(
    alloc: Global,
    world: &mut World<K>,
    out: &mut Vec<u8>,
    sink: &mut T,
    writes: Writes,
    keep: bool,
) -> Result<(), ConnFault>
    ensures { AnswersCall 0 world.old (T.output sink.old) (asked.Write writes) keep result world.new (T.output sink.new) }
{
    let close = !keep;
    let change_set = writes.is_change_set();
    let Ok(draft) = writes.draft(alloc, close) else {
        return Err(ConnFault::NoMemory);
    };
    match try_request(alloc, world, Request::Batch(writes.into_batch())) {
        Ok(Outcome::Done(tags)) => send_bytes(sink, &draft.finish(&tags)),
        Ok(Outcome::Refused(refusal)) => {
            send_reply(out, sink, refusal_reply(alloc, change_set, refusal, close))
        }
        Ok(Outcome::Found(_)) => unreachable!(),
        Ok(Outcome::Paged(_)) => unreachable!(),
        Ok(Outcome::Fault) => send_fault(alloc, out, sink, close),
        Ok(Outcome::Full) => send_full(alloc, out, sink, close),
        Err(NoMemory) => Err(ConnFault::NoMemory),
    }
}

/// Reads rows and writes the reply that shows them.
fn read_rows<K: Keeper, T: Sink>(
    alloc: Global,
    world: &mut World<K>,
    out: &mut Vec<u8>,
    sink: &mut T,
    read: Read,
    keep: bool,
) -> Result<(), ConnFault>
    ensures { AnswersCall 0 world.old (T.output sink.old) (asked.Read read) keep result world.new (T.output sink.new) }
{
    let close = !keep;
    let Read {
        pk,
        filter,
        shape,
        show,
    } = read;
    match try_request(alloc, world, Request::Query { pk, filter }) {
        Ok(Outcome::Done(_)) => unreachable!(),
        Ok(Outcome::Refused(_)) => unreachable!(),
        Ok(Outcome::Found(rows)) => {
            send_reply(
                out,
                sink,
                rows_reply(alloc, shape, &show, rows.as_slice(), close),
            )
        }
        Ok(Outcome::Paged(_)) => unreachable!(),
        Ok(Outcome::Fault) => send_fault(alloc, out, sink, close),
        Ok(Outcome::Full) => send_full(alloc, out, sink, close),
        Err(NoMemory) => Err(ConnFault::NoMemory),
    }
}

/// Reads a page and writes the reply that shows it.
fn read_page<K: Keeper, T: Sink>(
    alloc: Global,
    world: &mut World<K>,
    out: &mut Vec<u8>,
    sink: &mut T,
    read: PageRead,
    keep: bool,
) -> Result<(), ConnFault>
    requires { MayPage read }
    ensures { AnswersCall 0 world.old (T.output sink.old) (asked.Page read) keep result world.new (T.output sink.new) }
{
    let close = !keep;
    let PageRead {
        filter,
        top,
        token,
        show,
    } = read;
    match try_request(alloc, world, Request::Page { filter, top, token }) {
        Ok(Outcome::Done(_)) => unreachable!(),
        Ok(Outcome::Refused(_)) => unreachable!(),
        Ok(Outcome::Found(_)) => unreachable!(),
        Ok(Outcome::Paged(page)) => send_reply(out, sink, page_reply(alloc, &show, page, close)),
        Ok(Outcome::Fault) => send_fault(alloc, out, sink, close),
        Ok(Outcome::Full) => send_full(alloc, out, sink, close),
        Err(NoMemory) => Err(ConnFault::NoMemory),
    }
}

/// Does what is ordered, and writes the reply that tells it.
fn administer<K: Keeper, T: Sink>(
    alloc: Global,
    world: &mut World<K>,
    machines: &mut Machines,
    out: &mut Vec<u8>,
    sink: &mut T,
    order: Admin,
    keep: bool,
) -> Result<(), ConnFault>
    requires may { MayOrder order }
    requires held { IsHeld world.old machines.old }
    ensures { AnswersBeside 0 world.old machines.old (T.output sink.old) (asked.Admin order) keep result world.new machines.new (T.output sink.new) }
{
    let close = !keep;
    match machines.administer(alloc, world, order) {
        Ok(report) => send_reply(out, sink, report_reply(alloc, report, close)),
        Err(TurnFault::StoreFault) => send_fault(alloc, out, sink, close),
        Err(TurnFault::HistoryFull) => send_full(alloc, out, sink, close),
        Err(TurnFault::NoMemory) => Err(ConnFault::NoMemory),
    }
}

/// Answers what is asked for.
fn answer<K: Keeper, T: Sink>(
    alloc: Global,
    world: &mut World<K>,
    machines: &mut Machines,
    out: &mut Vec<u8>,
    sink: &mut T,
    asks: Asked,
    keep: bool,
) -> Result<(), ConnFault>
    requires may { MayTry asks }
    requires held { IsHeld world.old machines.old }
    ensures { AnswersBeside 0 world.old machines.old (T.output sink.old) asks keep result world.new machines.new (T.output sink.new) }
{
    match asks {
        Asked::Write(writes) => write_rows(alloc, world, out, sink, writes, keep),
        Asked::Read(read) => read_rows(alloc, world, out, sink, read, keep),
        Asked::Page(read) => read_page(alloc, world, out, sink, read, keep),
        Asked::Admin(order) => administer(alloc, world, machines, out, sink, order, keep),
        Asked::Refused(refusal) => send_refusal(alloc, out, sink, refusal, !keep),
        Asked::RefusedPart(bad) => send_reply(out, sink, bad_part(alloc, bad, !keep)),
    }
}

/// Behind an answer the connection goes on or ends.
fn turn_behind(keep: bool) -> Turn
    ensures { result ≡ turn_behind keep }
{
    if keep {
        Turn::Answered
    } else {
        Turn::Ended(End::Closed)
    }
}

/// Answers a request.
fn answer_request<K: Keeper, T: Sink>(
    alloc: Global,
    world: &mut World<K>,
    machines: &mut Machines,
    table: &Text,
    out: &mut Vec<u8>,
    sink: &mut T,
    request: Incoming,
) -> Result<Turn, ConnFault>
    requires { IsHeld world.old machines.old }
    ensures { AnswersRequest 0 table.now world.old machines.old (T.output sink.old) request result world.new machines.new (T.output sink.new) }
{
    let keep = request.keep;
    let Ok(asks) = asked_by(alloc, table, request) else {
        return Err(ConnFault::NoMemory);
    };
    match answer(alloc, world, machines, out, sink, asks, keep) {
        Ok(()) => Ok(turn_behind(keep)),
        Err(fault) => Err(fault),
    }
}

/// What comes behind a refusal by that code.
fn turn_refused(code: Code, close: bool) -> Turn
    ensures { result ≡ turn_refused code close }
{
    match code {
        Code::InvalidHead | Code::InvalidFraming | Code::RequestBodyTooLarge | Code::InvalidBody =>
            Turn::Ended(End::BadInput),
        Code::CompressedBody => turn_behind(!close),
    }
}

/// Refuses what was read.
fn refuse<T: Sink>(
    alloc: Global,
    out: &mut Vec<u8>,
    sink: &mut T,
    code: Code,
    close: bool,
) -> Result<Turn, ConnFault>
    ensures faults { (T.output sink.old).faults ≤ (T.output sink.new).faults }
    ensures answers { RefusesAs (T.output sink.old) code close result (T.output sink.new) }
{
    match send_refusal(alloc, out, sink, head_refusal(code), close) {
        Ok(()) => Ok(turn_refused(code, close)),
        Err(fault) => Err(fault),
    }
}

/// Answers where no request was read.
fn answer_fault<T: Sink>(
    alloc: Global,
    out: &mut Vec<u8>,
    sink: &mut T,
    fault: InFault,
) -> Result<Turn, ConnFault>
    ensures { AnswersFault (T.output sink.old) fault result (T.output sink.new) }
{
    match fault {
        InFault::ReadFault => Err(ConnFault::ReadFault),
        InFault::WriteFault => Err(ConnFault::WriteFault),
        InFault::NoMemory => Err(ConnFault::NoMemory),
        InFault::Refused { code, close, .. } => refuse(alloc, out, sink, code, close),
    }
}

/// Reads, answers and writes one request.
fn take_turn<K: Keeper, S: Source, T: Sink>(
    alloc: Global,
    world: &mut World<K>,
    machines: &mut Machines,
    table: &Text,
    reader: &mut Reader,
    source: &mut S,
    out: &mut Vec<u8>,
    sink: &mut T,
) -> Result<Turn, ConnFault>
    requires { IsHeld world.old machines.old }
    ensures { SessionTurn 0 table.now reader.old (S.input source.old) (T.output sink.old) world.old machines.old result
        reader.new (S.input source.new) (T.output sink.new) world.new machines.new }
{
    match read_request(alloc, reader, source, sink) {
        Ok(Some(request)) => answer_request(alloc, world, machines, table, out, sink, request),
        Ok(None) => Ok(Turn::Ended(End::Input)),
        Err(fault) => answer_fault(alloc, out, sink, fault),
    }
}

/// A connection that ended so behind these answers. The reply that closes it counts, too.
fn served_of(answered: u64, end: End) -> Served
    requires { answered + 1 < 2 ^ 64 }
    ensures { result ≡ served_of answered end }
{
    let requests = match end {
        End::Input => answered,
        End::Closed | End::BadInput => answered + 1,
    };
    Served { requests, end }
}

/// Serves a connection, but for the reply that tells want of memory.
fn converse<K: Keeper, S: Source, T: Sink>(
    alloc: Global,
    world: &mut World<K>,
    table: &Text,
    source: &mut S,
    sink: &mut T,
) -> Result<Served, ConnFault>
    ensures { Converses 0 table.now world.old (S.input source.old) (T.output sink.old) result world.new (S.input source.new) (T.output sink.new) }
{
    let Ok(mut reader) = Reader::new(alloc) else {
        return Err(ConnFault::NoMemory);
    };
    let mut machines = Machines::new(alloc);
    let mut out = Vec::new(alloc);
    'requests: for requests in 0..u64::MAX {
        match take_turn(
            alloc,
            world,
            &mut machines,
            table,
            &mut reader,
            source,
            &mut out,
            sink,
        ) {
            Ok(Turn::Answered) => {}
            Ok(Turn::Ended(end)) => return Ok(served_of(requests, end)),
            Err(fault) => return Err(fault),
        }
    }
    Err(ConnFault::NoMemory)
}

/// Serves a connection on a table as the world's caller 0: to the end of its input, to a request of
/// HTTP/1.0 or with `Connection: close`, to what is no whole request within the limits, or to the
/// first fault of reading, of writing or of memory. It reads as `mt_http_in::read_request` does.
///
/// Each whole request is answered from the world: refused before anything is tried, done, refused by
/// the table, or answered with 500 where a store failed and with 507 where the history is full. The
/// connection has one migrator and one cleaner, which take the turns that its requests ask for. What
/// is no whole request is refused, and the connection ends. The last reply before a connection ends
/// has `Connection: close` as its last field. Each reply is written at once. All memory for the reply
/// to a write that is done is taken before its first store call, so that it is answered. Where there
/// is no memory for something else, 503 is tried, and the session ends; what was asked last has left
/// no entry of a batch then.
///
/// No read begins once a whole request stands in what was read, and none after the source said its
/// end. At most 2^64 - 1 replies are written; the end of this count is told as want of memory.
pub fn session<K: Keeper, S: Source, T: Sink>(
    alloc: Global,
    world: &mut World<K>,
    table: &Text,
    source: &mut S,
    sink: &mut T,
) -> Result<Served, ConnFault>
    ensures { Serves 0 table.now world.old (S.input source.old) (T.output sink.old) result world.new (S.input source.new) (T.output sink.new) }
{
    match converse(alloc, world, table, source, sink) {
        Ok(served) => Ok(served),
        Err(ConnFault::ReadFault) => Err(ConnFault::ReadFault),
        Err(ConnFault::WriteFault) => Err(ConnFault::WriteFault),
        Err(ConnFault::NoMemory) => {
            let _ = send(sink, no_memory());
            Err(ConnFault::NoMemory)
        }
    }
}
