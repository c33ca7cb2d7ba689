//! The chunks of a body.
ghost use Rattle.std.specs.Prelude.{◌≡◌, ◌≤◌, ◌<◌, ◌+◌, ℕ, List, [], length};
ghost use Rattle.mt_http_in.specs.Reading.{Reads, MovedAs};
ghost use Rattle.mt_http_in.specs.Chunks.{SpellsBytes, IsShort, CutOff, SpellsEnd, NoEnd, SpellsLine, IsLineBegun, NoLine, SpellsContent, IsContentBegun, ContentRefused, SpellsChunks, AreChunksBegun, AreChunksRefused};

use crate::Code;
use crate::reader::{Halt, Reader};
use httparse::{Status, parse_chunk_size};
use mt_io::Source;
use std::alloc::Global;
use std::marker::Model;

/// The most bytes of a chunk line.
const MAX_LINE: usize = 16_384;

/// The most bytes of a body.
const MAX_BODY: usize = 4_194_304;

/// A body as far as it is read.
#[derive(Drop)]
pub struct Body {
    bytes: Vec<u8>,
}

impl Model for Body {
    ghost use Rattle.std.specs.Prelude.{ℕ, List};

    ghost Value = { List ℕ };

    ghost view = { λ b. b.bytes.items };
}

impl Body {
    /// A body that has no bytes yet.
    pub fn new(alloc: Global) -> Body
        ensures { result ≡ [] }
    {
        Body {
            bytes: Vec::new(alloc),
        }
    }

    /// The bytes, in their order.
    pub fn as_slice(&self) -> &[u8]
        ensures { result.now ≡ self.now }
    {
        self.bytes.as_slice()
    }

    fn len(&self) -> usize
        ensures { result ≡ length self.now }
    {
        self.bytes.len()
    }

    /// Moves bytes from the front of the reader to the end of the body, and answers how many.
    fn take(&mut self, reader: &mut Reader, most: usize) -> Result<usize, Halt>
        ensures { MovedAs most reader.old self.old result reader.new self.new }
    {
        let n = most.min(reader.len());
        if self
            .bytes
            .extend_from_slice(&reader.as_slice()[..n])
            .is_err()
        {
            return Err(Halt::NoMemory);
        }
        reader.skip(n);
        Ok(n)
    }
}

/// Reads n bytes onto a body.
pub fn read_bytes<S: Source>(
    reader: &mut Reader,
    source: &mut S,
    body: Body,
    n: usize,
) -> Result<Body, Halt>
    ensures { Reads (SpellsBytes body n) (IsShort n) (CutOff n) reader.old (S.input source.old) result reader.new (S.input source.new) }
{
    let mut body = body;
    let mut missing = n;
    'pieces: loop {
        match body.take(reader, missing) {
            Ok(taken) => missing -= taken,
            Err(halt) => return Err(halt),
        }
        if missing == 0 {
            return Ok(body);
        }
        match reader.fill(source) {
            Ok(0) => return Err(Halt::Refused(Code::InvalidBody)),
            Ok(_) => {}
            Err(halt) => return Err(halt),
        }
    }
}

/// Reads the line end behind a chunk.
fn read_end<S: Source>(reader: &mut Reader, source: &mut S) -> Result<(), Halt>
    ensures { Reads SpellsEnd (IsShort 2) NoEnd reader.old (S.input source.old) result reader.new (S.input source.new) }
{
    'ends: while reader.len() < 2 {
        match reader.fill(source) {
            Ok(0) => return Err(Halt::Refused(Code::InvalidBody)),
            Ok(_) => {}
            Err(halt) => return Err(halt),
        }
    }
    if reader.as_slice()[..2] != [13, 10] {
        return Err(Halt::Refused(Code::InvalidBody));
    }
    reader.skip(2);
    Ok(())
}

/// Reads a chunk line, and answers its size.
fn read_line<S: Source>(reader: &mut Reader, source: &mut S) -> Result<u64, Halt>
    ensures { Reads SpellsLine IsLineBegun NoLine reader.old (S.input source.old) result reader.new (S.input source.new) }
{
    'lines: loop {
        match parse_chunk_size(reader.as_slice()) {
            Ok(Status::Complete((len, size))) => {
                if len > MAX_LINE {
                    return Err(Halt::Refused(Code::InvalidBody));
                }
                reader.skip(len);
                return Ok(size);
            }
            Ok(Status::Partial) => {
                if reader.len() >= MAX_LINE {
                    return Err(Halt::Refused(Code::InvalidBody));
                }
                match reader.fill(source) {
                    Ok(0) => return Err(Halt::Refused(Code::InvalidBody)),
                    Ok(_) => {}
                    Err(halt) => return Err(halt),
                }
            }
            Err(_) => return Err(Halt::Refused(Code::InvalidBody)),
        }
    }
}

/// Reads the content of a chunk and the line end behind it onto a body.
fn read_content<S: Source>(
    reader: &mut Reader,
    source: &mut S,
    body: Body,
    size: u64,
) -> Result<Body, Halt>
    requires { length body ≤ 4194304 }
    ensures { Reads (SpellsContent body size) (IsContentBegun body size) (ContentRefused body size) reader.old (S.input source.old) result reader.new (S.input source.new) }
{
    if size > (MAX_BODY - body.len()) as u64 {
        return Err(Halt::Refused(Code::RequestBodyTooLarge));
    }
    let body = match read_bytes(reader, source, body, size as usize) {
        Ok(body) => body,
        Err(halt) => return Err(halt),
    };
    match read_end(reader, source) {
        Ok(()) => Ok(body),
        Err(halt) => Err(halt),
    }
}

/// Reads the chunks of a body, up to the line that ends them.
pub fn read_chunks<S: Source>(
    alloc: Global,
    reader: &mut Reader,
    source: &mut S,
) -> Result<Body, Halt>
    ensures { Reads SpellsChunks AreChunksBegun AreChunksRefused reader.old (S.input source.old) result reader.new (S.input source.new) }
{
    let mut body = Body::new(alloc);
    'chunks: loop {
        let size = match read_line(reader, source) {
            Ok(size) => size,
            Err(halt) => return Err(halt),
        };
        if size == 0 {
            return Ok(body);
        }
        match read_content(reader, source, body, size) {
            Ok(longer) => body = longer,
            Err(halt) => return Err(halt),
        }
    }
}
