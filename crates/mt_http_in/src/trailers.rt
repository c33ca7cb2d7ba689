//! The trailers behind the chunks of a body.
ghost use Rattle.std.specs.Prelude.{◌≡◌, ◌≤◌, ◌+◌, ℕ, List, length, take};
ghost use Rattle.httparse.specs.Grammar.{Field, LineEnd, print_section};
ghost use Rattle.mt_http_in.specs.Reading.{Reads};
ghost use Rattle.mt_http_in.specs.Trailers.{print_lines, feeds, first_lines, window, TrailersAs, SpellsTrailers, AreTrailersBegun, TrailersRefused};

use crate::Code;
use crate::reader::{Halt, Reader};
use httparse::spans::{EMPTY_HEADER_SPAN, parse_headers};
use httparse::{Error, Status};
use mt_io::Source;

/// What a buffer begins with.
#[derive(Clone, Copy)]
pub enum Trailers {
    /// Trailers, of so many bytes with the empty line that ends them.
    Whole(usize),

    /// What can become trailers.
    More,

    /// Too many fields, or lines that have no room.
    Overlong,

    /// No trailers, whatever follows.
    Malformed,
}

/// The most fields of trailers.
const MAX_FIELDS: usize = 64;

/// The length of the lines of a section, without the empty line that ends it.
fn lines_len(section: &[u8]) -> usize
    ensures { (fields : List Field) (last : LineEnd) → section.now ≡ print_section fields last → result ≡ length (print_lines fields) }
{
    let len = section.len();
    if len < 2 {
        return 0;
    }
    if section[len - 2] == b'\r' {
        len - 2
    } else {
        len - 1
    }
}

fn front(bytes: &[u8], n: usize) -> &[u8]
    ensures { result.now ≡ take n bytes.now }
{
    &bytes[..n.min(bytes.len())]
}

fn first_lines(bytes: &[u8], most: usize) -> &[u8]
    ensures { result.now ≡ first_lines most bytes.now }
{
    let mut left = most;
    let mut at = 0;
    'lines: while at < bytes.len() && left > 0 {
        if bytes[at] == b'\n' {
            left -= 1;
        }
        at += 1;
    }
    front(bytes, at)
}

fn feeds(bytes: &[u8]) -> usize
    ensures { result ≡ feeds bytes.now }
{
    bytes.iter().filter(|byte| **byte == b'\n').count()
}

/// The bytes in which trailers stand.
fn window(bytes: &[u8], room: usize) -> &[u8]
    requires { room ≤ 16384 }
    ensures { result.now ≡ window room bytes.now }
{
    first_lines(front(bytes, room + 2), MAX_FIELDS + 1)
}

fn parse_trailers(bytes: &[u8], room: usize) -> Trailers
    requires { room ≤ 16384 }
    ensures { TrailersAs room bytes.now result }
{
    let mut spans = [EMPTY_HEADER_SPAN; MAX_FIELDS];
    let seen = window(bytes, room);
    match parse_headers(seen, &mut spans) {
        Ok(Status::Complete((len, _count))) => {
            if lines_len(&seen[..len]) > room {
                Trailers::Overlong
            } else {
                Trailers::Whole(len)
            }
        }
        Ok(Status::Partial) => {
            if bytes.len() < room + 2 && feeds(seen) <= MAX_FIELDS {
                Trailers::More
            } else {
                Trailers::Overlong
            }
        }
        Err(Error::TooManyHeaders) => Trailers::Overlong,
        Err(_) => Trailers::Malformed,
    }
}

/// Reads the trailers of a body behind its chunks, where their lines may have so many bytes.
pub fn read_trailers<S: Source>(
    reader: &mut Reader,
    source: &mut S,
    room: usize,
) -> Result<(), Halt>
    requires { room ≤ 16384 }
    ensures { Reads (SpellsTrailers room) (AreTrailersBegun room) (TrailersRefused room) reader.old (S.input source.old) result reader.new (S.input source.new) }
{
    'trailers: loop {
        match parse_trailers(reader.as_slice(), room) {
            Trailers::Whole(len) => {
                reader.skip(len);
                return Ok(());
            }
            Trailers::More => match reader.fill(source) {
                Ok(0) => return Err(Halt::Refused(Code::InvalidBody)),
                Ok(_) => {}
                Err(halt) => return Err(halt),
            },
            Trailers::Overlong => return Err(Halt::Refused(Code::InvalidHead)),
            Trailers::Malformed => return Err(Halt::Refused(Code::InvalidBody)),
        }
    }
}
