//! The token that a unary begins with.
ghost use Rattle.std.specs.Prelude.{◌≡◌, IfOk};
ghost use Rattle.mt_filter.specs.Begin.{begin_of};

use crate::filter::Field;
use crate::lexeme::LexemeKind;
use crate::words::field_of;
use mt_model::NoMemory;
use std::alloc::Global;

/// What a token begins where a unary may stand.
#[derive(Drop)]
pub enum Begin {
    /// `not`.
    Not,

    /// A parenthesis.
    Open,

    /// The name of a test.
    Name(Field),

    /// No unary.
    Other,
}

/// What begins with a lexeme of this kind that this part of the text says. The one error is want
/// of memory.
pub fn begin_of(alloc: Global, kind: LexemeKind, part: &str) -> Result<Begin, NoMemory>
    ensures { IfOk result (λ begin. begin ≡ begin_of kind part.now) }
{
    match kind {
        LexemeKind::Open => Ok(Begin::Open),
        LexemeKind::Word if part == "not" => Ok(Begin::Not),
        LexemeKind::Word => match field_of(alloc, part)? {
            Some(field) => Ok(Begin::Name(field)),
            None => Ok(Begin::Other),
        },
        _ => Ok(Begin::Other),
    }
}
