//! Delimiter lines (RFC 2046, section 5.1.1).
ghost use Rattle.std.specs.Prelude.{◌≡◌, MatchOption};
ghost use Rattle.std.specs.List.{list_all};
ghost use Rattle.httparse.specs.Grammar.{is_ows};
ghost use Rattle.mt_mime.specs.Marks.{IsKind, HasMark, HasNoMark};

use crate::lines::{after, peel_line};

/// What a line is to a boundary.
#[derive(Clone, Copy)]
enum Kind {
    /// A line of a part, or of what stands outside.
    Plain,

    /// It begins a part.
    Delimiter,

    /// It ends the last part.
    Closing,
}

/// The first line that stands between parts.
#[derive(Clone, Copy)]
pub struct Mark<'a> {
    /// The lines before it, with their ends.
    pub lines: &'a [u8],

    /// Whether no part follows.
    pub closing: bool,

    /// What follows its line end, where it has one.
    pub rest: Option<&'a [u8]>,
}

fn are_blank(bytes: &[u8]) -> bool
    ensures { result ≡ list_all is_ows bytes.now }
{
    bytes.iter().all(|byte| *byte == b' ' || *byte == b'\t')
}

fn kind_of(line: &[u8], boundary: &[u8]) -> Kind
    ensures { IsKind boundary.now line.now result }
{
    let Some(rest) = after(line, b"--") else {
        return Kind::Plain;
    };
    let Some(rest) = after(rest, boundary) else {
        return Kind::Plain;
    };
    if are_blank(rest) {
        return Kind::Delimiter;
    }
    let Some(rest) = after(rest, b"--") else {
        return Kind::Plain;
    };
    if are_blank(rest) {
        Kind::Closing
    } else {
        Kind::Plain
    }
}

/// Goes on to the first line that stands between parts.
pub fn to_mark<'a>(bytes: &'a [u8], boundary: &[u8]) -> Option<Mark<'a>>
    ensures { MatchOption result (HasNoMark boundary.now bytes.now) (HasMark boundary.now bytes.now) }
{
    let mut rest = bytes;
    'lines: loop {
        let line = peel_line(rest);
        let closing = match kind_of(line.text, boundary) {
            Kind::Plain => {
                let Some(more) = line.rest else {
                    return None;
                };
                rest = more;
                continue;
            }
            Kind::Delimiter => false,
            Kind::Closing => true,
        };
        return Some(Mark {
            lines: &bytes[..bytes.len() - rest.len()],
            closing,
            rest: line.rest,
        });
    }
}
