//! What the fields of a head say of its body and of the connection.
ghost use Rattle.std.specs.Prelude.{◌≡◌, ℕ, ◌+◌, ◌<◌, List, drop, min, reverse, length, true, IfSome};
ghost use Rattle.std.specs.List.{list_all, position};
ghost use Rattle.std.specs.Char.{is_ascii_digit};
ghost use Rattle.std.specs.Str.Parse.{digits_value};
ghost use Rattle.httparse.specs.Grammar.{is_ows, skip_ows, trim_ows};
ghost use Rattle.mt_http_in.specs.Fields.{values_of, AreValues, coded, length_of, framing_of, expects, has_body, calls_for, is_comma, has_word, says_close, has_close, says_packed, is_packed};

use crate::fields::{Field, first_value, is_word, says};

/// How a body is framed.
#[derive(Clone, Copy, Drop)]
pub enum Framing {
    /// So many bytes, 4,194,304 at most.
    Length(u64),

    /// Chunks.
    Chunked,

    /// More bytes than a body may have.
    Large,

    /// Not as a body may be.
    Unclear,
}

/// The values of the fields of one name.
#[derive(Clone, Copy)]
enum Values<'a> {
    Absent,
    One(&'a [u8]),
    Many,
}

/// The most bytes of a body.
const MAX_BODY: u64 = 4_194_304;

fn values_named<'a>(fields: &'a [Field], name: &[u8]) -> Values<'a>
    ensures { AreValues (values_of name.now fields.now) result }
{
    match fields {
        [] => Values::Absent,
        [first, rest @ ..] => {
            let later = values_named(rest, name);
            if !first.is_named(name) {
                return later;
            }
            match later {
                Values::Absent => Values::One(first.value.as_slice()),
                Values::One(_) | Values::Many => Values::Many,
            }
        }
    }
}

/// The number that decimal digits write, or 4,194,305 where it is greater.
fn capped_value(digits: &[u8]) -> u64
    requires { list_all is_ascii_digit digits.now ≡ true }
    ensures { result ≡ min (digits_value 10 digits.now) 4194305 }
{
    let mut n = 0;
    for digit in digits {
        n = (n * 10 + (*digit - b'0') as u64).min(MAX_BODY + 1);
    }
    n
}

fn are_digits(text: &[u8]) -> bool
    ensures { result ≡ list_all is_ascii_digit text.now }
{
    text.iter().all(|byte| byte.is_ascii_digit())
}

fn read_length(text: &[u8]) -> Framing
    ensures { result ≡ length_of text.now }
{
    if text.is_empty() || !are_digits(text) {
        return Framing::Unclear;
    }
    let n = capped_value(text);
    if n > MAX_BODY {
        Framing::Large
    } else {
        Framing::Length(n)
    }
}

fn read_coding(value: &[u8]) -> Framing
    ensures { result ≡ coded value.now }
{
    if is_word(value, b"chunked") {
        Framing::Chunked
    } else {
        Framing::Unclear
    }
}

/// How the body is framed.
pub fn framed(fields: &[Field]) -> Framing
    ensures { result ≡ framing_of fields.now }
{
    let lengths = values_named(fields, b"content-length");
    match values_named(fields, b"transfer-encoding") {
        Values::Absent => match lengths {
            Values::Absent => Framing::Length(0),
            Values::One(value) => read_length(value),
            Values::Many => Framing::Unclear,
        },
        Values::One(value) => match lengths {
            Values::Absent => read_coding(value),
            Values::One(_) | Values::Many => Framing::Unclear,
        },
        Values::Many => Framing::Unclear,
    }
}

fn is_expecting(fields: &[Field]) -> bool
    ensures { result ≡ expects fields.now }
{
    says(first_value(fields, b"expect"), b"100-continue")
}

fn is_with_body(framing: Framing) -> bool
    ensures { result ≡ has_body framing }
{
    match framing {
        Framing::Length(n) => n > 0,
        Framing::Chunked => true,
        Framing::Large | Framing::Unclear => false,
    }
}

/// Whether `100 Continue` is wanted.
pub fn wants_continue(fields: &[Field]) -> bool
    ensures { result ≡ calls_for fields.now }
{
    is_expecting(fields) && is_with_body(framed(fields))
}

fn is_blank(byte: u8) -> bool
    ensures { result ≡ is_ows byte }
{
    byte == b' ' || byte == b'\t'
}

/// The bytes from the first that is no blank.
fn after_blanks(bytes: &[u8]) -> &[u8]
    ensures { result.now ≡ skip_ows bytes.now }
{
    match bytes {
        [] => bytes,
        [first, rest @ ..] => {
            if is_blank(*first) {
                after_blanks(rest)
            } else {
                bytes
            }
        }
    }
}

/// The bytes up to the last that is no blank.
fn before_blanks(bytes: &[u8]) -> &[u8]
    ensures { result.now ≡ reverse (skip_ows (reverse bytes.now)) }
{
    match bytes {
        [] => bytes,
        [rest @ .., last] => {
            if is_blank(*last) {
                before_blanks(rest)
            } else {
                bytes
            }
        }
    }
}

/// The bytes without the blanks and tabs at both ends.
pub fn trimmed(bytes: &[u8]) -> &[u8]
    ensures { result.now ≡ trim_ows bytes.now }
{
    before_blanks(after_blanks(bytes))
}

fn comma_at(bytes: &[u8]) -> Option<usize>
    ensures value { result ≡ position is_comma bytes.now }
    ensures within { IfSome result (λ at. at < length bytes.now) }
{
    bytes.iter().position(|byte| *byte == b',')
}

fn after_comma(bytes: &[u8], at: usize) -> &[u8]
    requires { at < length bytes.now }
    ensures { result.now ≡ drop (at + 1) bytes.now }
{
    let len = bytes.len();
    &bytes[at + 1..len]
}

/// Whether a list of words with commas between them has that word.
fn has_listed(value: &[u8], word: &[u8]) -> bool
    ensures { result ≡ has_word word.now value.now }
{
    let mut rest = value;
    'words: loop {
        match comma_at(rest) {
            Some(at) => {
                if is_word(trimmed(&rest[..at]), word) {
                    return true;
                }
                rest = after_comma(rest, at);
            }
            None => return is_word(trimmed(rest), word),
        }
    }
}

fn closes(field: &Field) -> bool
    ensures { result ≡ says_close field.now }
{
    field.is_named(b"connection") && has_listed(field.value.as_slice(), b"close")
}

/// Whether the connection is to end.
pub fn is_closing(fields: &[Field]) -> bool
    ensures { result ≡ has_close fields.now }
{
    fields.iter().any(|field| closes(field))
}

fn compresses(field: &Field) -> bool
    ensures { result ≡ says_packed field.now }
{
    field.is_named(b"content-encoding") && !is_word(field.value.as_slice(), b"identity")
}

/// Whether the body is compressed.
pub fn is_compressed(fields: &[Field]) -> bool
    ensures { result ≡ is_packed fields.now }
{
    fields.iter().any(|field| compresses(field))
}
