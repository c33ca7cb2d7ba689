//! The values of Content-Type (RFC 9110, section 8.3).
ghost use Rattle.std.specs.Prelude.{◌≡◌, ◌∷◌, ◌+◌, ◌≤◌, ◌<◌, ℕ, false, length, codes, option_map, IfSome, drop};
ghost use Rattle.std.specs.List.{position};
ghost use Rattle.mt_mime.specs.MediaTypes.{is_quote, is_equals, pieces, pieces_left, value_at, some_word, before_quote, word_of, has_type, boundary_of, first_boundary};

use mt_http_in::{says, trimmed};

/// The first piece of a value, and what follows its semicolon, where it has one.
#[derive(Clone, Copy)]
struct Cut<'a> {
    piece: &'a [u8],
    rest: Option<&'a [u8]>,
}

/// The piece up to the first semicolon outside of quotes.
fn first_piece(value: &[u8]) -> Cut<'_>
    ensures { pieces false value.now ≡ result.piece.now ∷ pieces_left result.rest }
{
    let mut quoted = false;
    for (at, byte) in value.iter().enumerate() {
        if *byte == b';' && !quoted {
            return Cut {
                piece: &value[..at],
                rest: Some(&value[at + 1..]),
            };
        }
        quoted = if *byte == b'"' { !quoted } else { quoted };
    }
    Cut {
        piece: value,
        rest: None,
    }
}

fn quote_at(bytes: &[u8]) -> Option<usize>
    ensures value { result ≡ position is_quote bytes.now }
    ensures within { IfSome result (λ at. at < length bytes.now) }
{
    bytes.iter().position(|byte| *byte == b'"')
}

fn equals_at(bytes: &[u8]) -> Option<usize>
    ensures value { result ≡ position is_equals bytes.now }
    ensures within { IfSome result (λ at. at < length bytes.now) }
{
    bytes.iter().position(|byte| *byte == b'=')
}

fn behind(bytes: &[u8], at: usize) -> &[u8]
    requires { at < length bytes.now }
    ensures { result.now ≡ drop (at + 1) bytes.now }
{
    let len = bytes.len();
    &bytes[at + 1..len]
}

/// The value of the parameter, where its name is `boundary`.
fn boundary_value(piece: &[u8]) -> Option<&[u8]>
    ensures { option_map (λ v. v.now) result ≡ value_at piece.now (position is_equals piece.now) }
{
    let Some(at) = equals_at(piece) else {
        return None;
    };
    if says(Some(trimmed(&piece[..at])), b"boundary") {
        Some(trimmed(behind(piece, at)))
    } else {
        None
    }
}

fn some_word(word: &[u8]) -> Option<&[u8]>
    ensures { option_map (λ w. w.now) result ≡ some_word word.now }
{
    match word {
        [] => None,
        [_, ..] => Some(word),
    }
}

/// The word before the first quote, where that is the last byte.
fn before_quote(text: &[u8]) -> Option<&[u8]>
    ensures { option_map (λ w. w.now) result ≡ before_quote text.now (position is_quote text.now) }
{
    let Some(at) = quote_at(text) else {
        return None;
    };
    if at + 1 == text.len() {
        some_word(&text[..at])
    } else {
        None
    }
}

/// The word that a parameter's value writes.
fn word_of(value: &[u8]) -> Option<&[u8]>
    ensures { option_map (λ w. w.now) result ≡ word_of value.now }
{
    match value {
        [] => None,
        [b'"', inner @ ..] => before_quote(inner),
        [_, ..] => Some(value),
    }
}

/// Whether the value is of that media type, with any parameters.
pub fn has_type(value: &[u8], name: &[u8]) -> bool
    ensures { result ≡ has_type name.now value.now }
{
    says(Some(trimmed(first_piece(value).piece)), name)
}

/// The value of the first parameter named `boundary`.
fn first_boundary(params: Option<&[u8]>) -> Option<&[u8]>
    ensures { option_map (λ v. v.now) result ≡ first_boundary (pieces_left params.entry) }
{
    let mut rest = params;
    'params: while let Some(more) = rest {
        let next = first_piece(more);
        if let Some(value) = boundary_value(next.piece) {
            return Some(value);
        }
        rest = next.rest;
    }
    None
}

/// The boundary of the value of a Content-Type (RFC 2046, section 5.1.1), where it is multipart/mixed and
/// has one. The media type and the name are compared without regard to ASCII case. The first parameter of
/// that name counts: its value as it is, or what stands in its quotes, in which no backslash is read. An
/// empty boundary is none, and so is one whose quotes have no end, or text behind them. A semicolon in
/// quotes ends no parameter; blanks and tabs round names and values are dropped.
pub fn boundary_of(value: &[u8]) -> Option<&[u8]>
    ensures { option_map (λ w. w.now) result ≡ boundary_of value.now }
{
    if !has_type(value, b"multipart/mixed") {
        return None;
    }
    match first_boundary(first_piece(value).rest) {
        Some(value) => word_of(value),
        None => None,
    }
}
