//! The bodies of requests.
ghost use Rattle.std.specs.Prelude.{◌≤◌, ℕ};
ghost use Rattle.mt_http_in.specs.Reading.{Reads};
ghost use Rattle.mt_http_in.specs.Bodies.{SpellsChunked, AreChunkedBegun, ChunkedRefused, SpellsBody, IsBodyBegun, BodyRefused};

use crate::Code;
use crate::chunks::{Body, read_bytes, read_chunks};
use crate::framing::Framing;
use crate::reader::{Halt, Reader};
use crate::trailers::read_trailers;
use mt_io::Source;
use std::alloc::Global;

/// Reads chunks and the trailers behind them.
fn read_chunked<S: Source>(
    alloc: Global,
    reader: &mut Reader,
    source: &mut S,
    room: usize,
) -> Result<Body, Halt>
    requires { room ≤ 16384 }
    ensures { Reads (SpellsChunked room) (AreChunkedBegun room) (ChunkedRefused room) reader.old (S.input source.old) result reader.new (S.input source.new) }
{
    let body = match read_chunks(alloc, reader, source) {
        Ok(body) => body,
        Err(halt) => return Err(halt),
    };
    match read_trailers(reader, source, room) {
        Ok(()) => Ok(body),
        Err(halt) => Err(halt),
    }
}

/// Reads the body behind a head, which leaves that room for trailers.
pub fn read_body<S: Source>(
    alloc: Global,
    reader: &mut Reader,
    source: &mut S,
    framing: Framing,
    room: usize,
) -> Result<Body, Halt>
    requires { room ≤ 16384 }
    ensures { Reads (SpellsBody room framing) (IsBodyBegun room framing) (BodyRefused room framing) reader.old (S.input source.old) result reader.new (S.input source.new) }
{
    match framing {
        Framing::Length(n) => read_bytes(reader, source, Body::new(alloc), n as usize),
        Framing::Chunked => read_chunked(alloc, reader, source, room),
        Framing::Large => Err(Halt::Refused(Code::RequestBodyTooLarge)),
        Framing::Unclear => Err(Halt::Refused(Code::InvalidFraming)),
    }
}
