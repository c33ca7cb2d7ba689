//! The heads of requests.
ghost use Rattle.std.specs.Prelude.{◌≡◌, ℕ, length, map, List, All, IfOk, IsUtf8};
ghost use Rattle.httparse.specs.Spans.{IsHeaderWithin, IsWithin, span_bytes};
ghost use Rattle.mt_http_in.specs.Heads.{ParsedAs, ReadsHead, field_at, HasNameAt, IsFound, IsHeadAt};

use crate::Code;
use crate::fields::{Field, Fields};
use crate::reader::{Halt, Reader};
use httparse::Status;
use httparse::spans::{EMPTY_HEADER_SPAN, HeaderSpan, RequestSpans, Span, parse_request};
use mt_io::Source;
use mt_model::{Blob, NoMemory, Text};
use std::alloc::Global;
use std::str;

/// The parts of a head.
#[derive(Drop)]
pub struct Head {
    pub method: Text,
    pub target: Text,
    pub minor: u8,
    pub fields: Fields,

    /// The length of the head, in bytes.
    pub size: usize,
}

/// What a buffer begins with.
#[derive(Drop)]
pub enum Parsed {
    /// A head.
    Whole(Head),

    /// What can become a head.
    More,

    /// No head, whatever follows.
    Bad,
}

/// The most bytes of a head.
const MAX_HEAD: usize = 16_384;

/// The most fields of a head.
const MAX_FIELDS: usize = 64;

fn text_at(alloc: Global, bytes: &[u8], span: Span) -> Result<Text, NoMemory>
    requires inside { IsWithin (length bytes.now) span }
    requires text { IsUtf8 (span_bytes bytes.now span) }
    ensures { IfOk result (λ t. t ≡ span_bytes bytes.now span) }
{
    match str::from_utf8(span.of(bytes)) {
        Ok(text) => Text::of(alloc, text),
        Err(_) => unreachable!(),
    }
}

fn field_at(alloc: Global, bytes: &[u8], span: HeaderSpan) -> Result<Field, NoMemory>
    requires inside { IsHeaderWithin (length bytes.now) span }
    requires text { HasNameAt bytes.now span }
    ensures { IfOk result (λ f. f ≡ field_at bytes.now span) }
{
    let name = text_at(alloc, bytes, span.name)?;
    let value = Blob::of(alloc, span.value.of(bytes))?;
    Ok(Field { name, value })
}

fn fields_at(alloc: Global, bytes: &[u8], spans: &[HeaderSpan]) -> Result<Fields, NoMemory>
    requires inside { All (IsHeaderWithin (length bytes.now)) spans.now }
    requires texts { All (HasNameAt bytes.now) spans.now }
    ensures { IfOk result (λ fs. fs ≡ map (field_at bytes.now) spans.now) }
{
    let mut fields = Vec::new(alloc);
    for span in spans {
        let field = field_at(alloc, bytes, *span)?;
        fields.push(field)?;
    }
    Ok(Fields::of(fields))
}

/// Copies the parts of a head that was found.
fn head_at(
    alloc: Global,
    bytes: &[u8],
    found: RequestSpans,
    spans: &[HeaderSpan],
) -> Result<Head, NoMemory>
    requires { IsFound bytes.now found spans.now }
    ensures { IfOk result (IsHeadAt bytes.now found spans.now) }
{
    let method = text_at(alloc, bytes, found.method)?;
    let target = text_at(alloc, bytes, found.path)?;
    let fields = fields_at(alloc, bytes, spans)?;
    Ok(Head {
        method,
        target,
        minor: found.version,
        fields,
        size: found.len,
    })
}

/// Reads the head that the bytes begin with. The one error is want of memory.
pub fn parse_head(alloc: Global, bytes: &[u8]) -> Result<Parsed, NoMemory>
    ensures { IfOk result (ParsedAs bytes.now) }
{
    let mut spans = [EMPTY_HEADER_SPAN; MAX_FIELDS];
    match parse_request(bytes, &mut spans) {
        Ok(Status::Complete(found)) => {
            if found.len > MAX_HEAD {
                return Ok(Parsed::Bad);
            }
            let head = head_at(alloc, bytes, found, &spans[..found.headers])?;
            Ok(Parsed::Whole(head))
        }
        Ok(Status::Partial) => {
            if bytes.len() < MAX_HEAD {
                Ok(Parsed::More)
            } else {
                Ok(Parsed::Bad)
            }
        }
        Err(_) => Ok(Parsed::Bad),
    }
}

/// Reads the next head; None at the end of input before its first byte.
pub fn read_head<S: Source>(
    alloc: Global,
    reader: &mut Reader,
    source: &mut S,
) -> Result<Option<Head>, Halt>
    ensures { ReadsHead reader.old (S.input source.old) result reader.new (S.input source.new) }
{
    'heads: loop {
        match parse_head(alloc, reader.as_slice()) {
            Ok(Parsed::Whole(head)) => {
                reader.skip(head.size);
                return Ok(Some(head));
            }
            Ok(Parsed::Bad) => return Err(Halt::Refused(Code::InvalidHead)),
            Ok(Parsed::More) => match reader.fill(source) {
                Ok(0) => {
                    if reader.is_empty() {
                        return Ok(None);
                    }
                    return Err(Halt::Refused(Code::InvalidHead));
                }
                Ok(_) => {}
                Err(halt) => return Err(halt),
            },
            Err(NoMemory) => return Err(Halt::NoMemory),
        }
    }
}
