//! Requests from the bytes of a source.
ghost use Rattle.std.specs.Prelude.{◌≡◌, ℕ, List, if◌then◌else◌, []};
ghost use Rattle.mt_io.specs.Ends.{Sends};
ghost use Rattle.mt_http_in.specs.Fields.{keeps_open};
ghost use Rattle.mt_http_in.specs.Requests.{ReadsRequest, Continued, continue_bytes, status_of, FaultOf};
ghost use Rattle.mt_http_in.specs.declared.InFault.TheVariants as fault;

use crate::bodies::read_body;
use crate::fields::Fields;
use crate::framing::{framed, is_closing, is_compressed, wants_continue};
use crate::heads::{Head, read_head};
use crate::reader::{Halt, Reader};
use crate::{Code, InFault};
use mt_io::{IoFault, Sink, Source, send};
use mt_model::{Blob, NoMemory, Text};
use std::alloc::Global;

/// A whole request.
#[derive(Drop)]
pub struct Incoming {
    pub method: Text,

    /// The target, as it stands in the head.
    pub target: Text,
    pub fields: Fields,

    /// The content, without its framing; 4,194,304 bytes at most.
    pub body: Blob,

    /// Whether the connection goes on behind the reply.
    pub keep: bool,
}

/// The most bytes of a head with the trailers.
const MAX_HEAD: usize = 16_384;

fn status(code: Code) -> u16
    ensures { result ≡ status_of code }
{
    match code {
        Code::InvalidHead | Code::InvalidFraming | Code::InvalidBody => 400,
        Code::RequestBodyTooLarge => 413,
        Code::CompressedBody => 501,
    }
}

fn refused(code: Code, close: bool) -> InFault
    ensures { result ≡ fault.Refused (status_of code) code close }
{
    InFault::Refused {
        status: status(code),
        code,
        close,
    }
}

/// The answer where reading stopped.
fn fault_of(halt: Halt) -> InFault
    ensures { FaultOf halt result }
{
    match halt {
        Halt::ReadFault => InFault::ReadFault,
        Halt::NoMemory => InFault::NoMemory,
        Halt::Refused(code) => refused(code, true),
    }
}

/// Writes `100 Continue` where it is wanted.
fn say_continue<T: Sink>(sink: &mut T, wanted: bool) -> Result<(), IoFault>
    ensures { Sends (T.output sink.old) (if wanted then continue_bytes else []) result (T.output sink.new) }
{
    if wanted {
        send(sink, b"HTTP/1.1 100 Continue\r\n\r\n")
    } else {
        send(sink, b"")
    }
}

/// Whether the connection goes on after a request with this head.
fn is_kept(head: &Head) -> bool
    ensures { result ≡ keeps_open head.now.minor head.now.fields }
{
    head.minor == 1 && !is_closing(head.fields.as_slice())
}

/// Reads what follows a head.
fn read_rest<S: Source, T: Sink>(
    alloc: Global,
    reader: &mut Reader,
    source: &mut S,
    sink: &mut T,
    head: Head,
) -> Result<Option<Incoming>, InFault>
    ensures { Continued head reader.old (S.input source.old) (T.output sink.old) result reader.new (S.input source.new) (T.output sink.new) }
{
    let framing = framed(head.fields.as_slice());
    let wanted = wants_continue(head.fields.as_slice());
    let keep = is_kept(&head);
    let packed = is_compressed(head.fields.as_slice());
    let room = MAX_HEAD.saturating_sub(head.size);
    match say_continue(sink, wanted) {
        Ok(()) => {}
        Err(IoFault::Failed) => return Err(InFault::WriteFault),
    }
    let body = match read_body(alloc, reader, source, framing, room) {
        Ok(body) => body,
        Err(halt) => return Err(fault_of(halt)),
    };
    if packed {
        return Err(refused(Code::CompressedBody, !keep));
    }
    match Blob::of(alloc, body.as_slice()) {
        Ok(body) => Ok(Some(Incoming {
            method: head.method,
            target: head.target,
            fields: head.fields,
            body,
            keep,
        })),
        Err(NoMemory) => Err(InFault::NoMemory),
    }
}

/// Reads the next request of HTTP/1.1 (RFC 9112), in whatever pieces its bytes come; None at the
/// end of input before its first byte.
///
/// A head has at most 16,384 bytes, the trailers with it, and 64 fields. A body is framed by one
/// Content-Length in decimal digits, or by the one Transfer-Encoding `chunked`, or there is none;
/// it has at most 4,194,304 bytes. Where the first Expect is `100-continue` and a body may come,
/// `100 Continue` is written before it is read.
///
/// The first of these that is not so is refused: a head (400 InvalidHead), its framing (400
/// InvalidFraming), its length or the sizes of chunks so far (413 RequestBodyTooLarge), the body
/// (400 InvalidBody); each closes. A whole request with a Content-Encoding other than `identity`
/// is 501 CompressedBody, is taken off the input, and closes where `keep` would be false.
///
/// A whole request is taken off the input, and no read begins once it stands in what was read;
/// none begins after the source said its end. After another error nothing is said of the reader.
pub fn read_request<S: Source, T: Sink>(
    alloc: Global,
    reader: &mut Reader,
    source: &mut S,
    sink: &mut T,
) -> Result<Option<Incoming>, InFault>
    ensures { ReadsRequest reader.old (S.input source.old) (T.output sink.old) result reader.new (S.input source.new) (T.output sink.new) }
{
    match read_head(alloc, reader, source) {
        Ok(Some(head)) => read_rest(alloc, reader, source, sink, head),
        Ok(None) => Ok(None),
        Err(halt) => Err(fault_of(halt)),
    }
}
