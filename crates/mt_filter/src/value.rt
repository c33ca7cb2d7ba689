//! The values of literals.
ghost use Rattle.std.specs.Prelude.{◌≡◌, IfOk, MatchOption, Ok, IsErr, List, ℕ};
ghost use Rattle.hex.specs.Hex.{decode_of};
ghost use Rattle.mt_filter.specs.Literal.{undoubled, IsBlob, IsValue};

use crate::lexeme::LexemeKind;
use hex::FromHexError;
use mt_model::{Blob, NoMemory, Text, Value};
use std::alloc::Global;

/// The text whose quotes the inside of a literal doubles. The one error is want of memory.
pub fn undoubled(alloc: Global, inside: &str) -> Result<Text, NoMemory>
    ensures { IfOk result (λ t. t ≡ undoubled inside.now) }
{
    let mut text = String::new(alloc);
    let mut is_after_quote = false;
    for c in inside.chars() {
        let is_second = is_after_quote & (c == '\'');
        if is_second {
            is_after_quote = false;
            continue;
        }
        text.push(c)?;
        is_after_quote = c == '\'';
    }
    Ok(Text::from_string(text))
}

/// The bytes that hexadecimal digits write, if they do. The one error is want of memory.
fn hex_bytes(alloc: Global, digits: &[u8]) -> Result<Option<Blob>, NoMemory>
    ensures { IfOk result (IsBlob digits.now) }
{
    match hex::decode(alloc, digits) {
        Ok(bytes) => Ok(Some(Blob::of(alloc, bytes.as_slice())?)),
        Err(FromHexError::OutOfMemory) => Err(NoMemory),
        Err(_) => Ok(None),
    }
}

/// The value of a lexeme of this kind whose value this part of the text says, if it is a literal.
/// The one error is want of memory.
pub fn value_of(alloc: Global, kind: LexemeKind, part: &str) -> Result<Option<Value>, NoMemory>
    ensures { IfOk result (IsValue kind part.now) }
{
    match kind {
        LexemeKind::Text => Ok(Some(Value::Str(undoubled(alloc, part)?))),
        LexemeKind::Binary => match hex_bytes(alloc, part.as_bytes())? {
            Some(bytes) => Ok(Some(Value::Binary(bytes))),
            None => Ok(None),
        },
        LexemeKind::Guid(bytes) => Ok(Some(Value::Guid(bytes))),
        LexemeKind::Moment(ticks) => Ok(Some(Value::Moment(ticks))),
        LexemeKind::Int32(n) => Ok(Some(Value::Int32(n))),
        LexemeKind::Int64(n) => Ok(Some(Value::Int64(n))),
        LexemeKind::Word if part == "true" => Ok(Some(Value::Bool(true))),
        LexemeKind::Word if part == "false" => Ok(Some(Value::Bool(false))),
        LexemeKind::Word | LexemeKind::Open | LexemeKind::Close => Ok(None),
    }
}
