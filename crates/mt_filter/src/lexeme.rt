//! The lexemes of a filter's text: names and words, parentheses and literals.
ghost use Rattle.std.specs.Prelude.{◌≡◌, ◌+◌, ◌<◌, ◌^◌, IfOk, false, drop, take, length, slice_index, Ok};
ghost use Rattle.std.specs.Str.{IsCharBoundary, chars};
ghost use Rattle.mt_model.specs.Name.{begins_name};
ghost use Rattle.mt_filter.specs.Class.{run_length};
ghost use Rattle.mt_filter.specs.Lexeme.{front_of, lexeme, IsWithin, IsInside, IsQuoted, IsNumber, IsWhole, IsNumberBefore, IsWord, IsLexeme, sign_length, whole_kind, quoted_kind, mark_length, begins_mark};

use crate::classes::{Class, run_length};
use crate::filter::FilterKind;
use crate::quoted::{Quoted, closing_quote, guid_of, is_hex, quoted_by};
use mt_time::read_utc;

/// What a lexeme is.
#[derive(Clone, Copy, Debug, PartialEq, Eq)]
pub enum LexemeKind {
    Open,
    Close,
    Word,
    Text,
    Binary,
    Guid([u8; 16]),
    Moment(i64),
    Int32(i32),
    Int64(i64),
}

/// A lexeme at the front of a text.
#[derive(Clone, Copy, Debug, PartialEq, Eq)]
pub struct Lexeme {
    pub kind: LexemeKind,

    /// Where the part begins that says its value: the inside of a literal between quotes, and the
    /// whole of every other lexeme.
    pub from: usize,

    /// Where that part ends.
    pub to: usize,

    /// Its bytes.
    pub len: usize,
}

/// What the first character of a text begins.
#[derive(Clone, Copy, Debug, PartialEq, Eq)]
enum Front {
    End,
    Open,
    Close,
    Quote,
    Number,
    Word,
    Nothing,
}

/// A lexeme of which the whole says its value.
fn whole(kind: LexemeKind, len: usize) -> Lexeme
    ensures { result ≡ lexeme kind 0 len len }
{
    Lexeme {
        kind,
        from: 0,
        to: len,
        len,
    }
}

fn begins_word(text: &str) -> bool
    ensures { result ≡ begins_name (chars text.now) }
{
    match text.chars().next() {
        Some(c) => (c == '_') | unicode_ident::is_xid_start(c),
        None => false,
    }
}

fn front_of(text: &str) -> Front
    ensures { result ≡ front_of text.now }
{
    match text.as_bytes() {
        [] => Front::End,
        [b'(', ..] => Front::Open,
        [b')', ..] => Front::Close,
        [b'\'', ..] => Front::Quote,
        [b'-' | b'0'..=b'9', ..] => Front::Number,
        _ => {
            if begins_word(text) {
                Front::Word
            } else {
                Front::Nothing
            }
        }
    }
}

/// Reads the literal of this inside, which begins at byte `at`.
fn read_inside(kind: Quoted, inside: &str, at: usize) -> Result<Lexeme, FilterKind>
    requires { at + length inside.now < 2 ^ 63 }
    ensures value { IsInside kind at inside.now result }
    ensures places { IfOk result (λ x. (x.from ≡ at) × (x.to ≡ at + length inside.now) × (x.len ≡ at + length inside.now + 1)) }
{
    let to = at + inside.len();
    let kind = match kind {
        Quoted::Text => LexemeKind::Text,
        Quoted::Moment => match read_utc(inside.as_bytes()) {
            Ok(ticks) => LexemeKind::Moment(ticks),
            Err(_) => return Err(FilterKind::Token),
        },
        Quoted::Guid => match guid_of(inside) {
            Some(bytes) => LexemeKind::Guid(bytes),
            None => return Err(FilterKind::Token),
        },
        Quoted::Binary => {
            if !is_hex(inside.as_bytes()) {
                return Err(FilterKind::Token);
            }
            LexemeKind::Binary
        }
    };
    Ok(Lexeme {
        kind,
        from: at,
        to,
        len: to + 1,
    })
}

/// Reads the literal whose quotes begin at byte `quote`.
fn read_quoted(text: &str, kind: Quoted, quote: usize) -> Result<Lexeme, FilterKind>
    requires within { quote < length text.now }
    requires quote { slice_index text.now quote ≡ 39 }
    ensures value { IsQuoted kind quote text.now result }
    ensures within { IfOk result (IsWithin text.now) }
{
    let (_, rest) = text.split_at(quote + 1);
    match closing_quote(rest.as_bytes()) {
        Some(end) => {
            let (inside, _) = rest.split_at(end);
            read_inside(kind, inside, quote + 1)
        }
        None => Err(FilterKind::Token),
    }
}

/// The kind of a whole number: Int32 where it fits, unless an `L` marks it as Int64.
fn whole_kind(is_long: bool, n: i64) -> LexemeKind
    ensures { result ≡ whole_kind is_long n }
{
    if is_long || n < -2_147_483_648 || n > 2_147_483_647 {
        LexemeKind::Int64(n)
    } else {
        LexemeKind::Int32(n as i32)
    }
}

/// Reads a whole number of this sign and digits.
fn read_whole(numeral: &str, is_long: bool) -> Result<Lexeme, FilterKind>
    ensures value { IsWhole is_long numeral.now result }
    ensures places { IfOk result (λ x. (x.from ≡ 0) × (x.to ≡ x.len) × (x.len ≡ length numeral.now + mark_length is_long)) }
{
    let Ok(n) = numeral.parse::<i64>() else {
        return Err(FilterKind::OutOfRange);
    };
    let len = numeral.len() + usize::from(is_long);
    Ok(whole(whole_kind(is_long, n), len))
}

/// How many bytes the sign takes.
fn sign_length(text: &str) -> usize
    ensures value { result ≡ sign_length text.now }
    ensures boundary { IsCharBoundary text.now result }
{
    let bytes = text.as_bytes();
    if !bytes.is_empty() && bytes[0] == b'-' {
        1
    } else {
        0
    }
}

/// Reads the number of this sign and digits, before what follows them.
fn read_number_before(numeral: &str, rest: &str) -> Result<Lexeme, FilterKind>
    ensures value { IsNumberBefore numeral.now rest.now result }
    ensures places { IfOk result (λ x. (x.from ≡ 0) × (x.to ≡ x.len) × (x.len ≡ length numeral.now + mark_length (begins_mark rest.now))) }
{
    match rest.as_bytes() {
        [b'.' | b'e' | b'E', ..] => Err(FilterKind::DoubleLiteral),
        [b'L', ..] => read_whole(numeral, true),
        _ => read_whole(numeral, false),
    }
}

fn read_number(text: &str) -> Result<Lexeme, FilterKind>
    ensures value { IsNumber text.now result }
    ensures within { IfOk result (IsWithin text.now) }
{
    let sign = sign_length(text);
    let (_, unsigned) = text.split_at(sign);
    let digits = run_length(unsigned, Class::Digit);
    if digits == 0 {
        return Err(FilterKind::Token);
    }
    let (numeral, rest) = text.split_at(sign + digits);
    read_number_before(numeral, rest)
}

/// What the literal is that begins with this word, if quotes stand right after it.
fn quoted_kind(word: &str, rest: &str) -> Option<Quoted>
    ensures { result ≡ quoted_kind word.now rest.now }
{
    match rest.as_bytes() {
        [b'\'', ..] => quoted_by(word),
        _ => None,
    }
}

fn read_word(text: &str) -> Result<Lexeme, FilterKind>
    ensures value { IsWord text.now result }
    ensures within { IfOk result (IsWithin text.now) }
{
    let len = run_length(text, Class::Letter);
    let (word, rest) = text.split_at(len);
    match quoted_kind(word, rest) {
        Some(kind) => read_quoted(text, kind, len),
        None => Ok(whole(LexemeKind::Word, len)),
    }
}

/// Reads the lexeme at the front of a text: the longest that begins there. The end of the text is
/// `Expected`; `Token`, `DoubleLiteral` and `OutOfRange` say why none begins. It takes no memory.
pub fn read_lexeme(text: &str) -> Result<Lexeme, FilterKind>
    ensures value { IsLexeme text.now result }
    ensures within { IfOk result (IsWithin text.now) }
{
    match front_of(text) {
        Front::End => Err(FilterKind::Expected),
        Front::Open => Ok(whole(LexemeKind::Open, 1)),
        Front::Close => Ok(whole(LexemeKind::Close, 1)),
        Front::Quote => read_quoted(text, Quoted::Text, 0),
        Front::Number => read_number(text),
        Front::Word => read_word(text),
        Front::Nothing => Err(FilterKind::Token),
    }
}
