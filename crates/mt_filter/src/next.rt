//! Lexemes on demand, with their places.
ghost use Rattle.std.specs.Prelude.{◌≡◌, Ok, Err, MatchResult, drop, length, slice_range};
ghost use Rattle.mt_filter.specs.Words.{skipped};
ghost use Rattle.mt_filter.specs.Lexeme.{IsLexeme, IsNext};

use crate::filter::FilterKind;
use crate::lexeme::{LexemeKind, read_lexeme};
use crate::words::skip_blanks;

/// A lexeme, the part of the text that says its value, and what follows it.
#[derive(Clone, Copy)]
pub struct Next<'a> {
    pub kind: LexemeKind,
    pub part: &'a str,
    pub rest: &'a str,

    /// How many bytes the text has from the lexeme's first on.
    pub left: usize,
}

/// Where a text stops being a filter, and why.
#[derive(Clone, Copy, Debug, PartialEq, Eq)]
pub struct Stop {
    /// How many bytes the text has from that place on.
    pub left: usize,
    pub kind: FilterKind,
}

/// The first lexeme of a text, after blanks. Where none begins the place is that of its first
/// byte, and at the end of the text its length. It takes no memory.
pub fn next_lexeme(text: &str) -> Result<Next<'_>, Stop>
    ensures { MatchResult result
        (λ next. IsNext (skipped text.now) next.kind next.part.now next.rest.now × (next.left ≡ length (skipped text.now)))
        (λ stop. IsLexeme (skipped text.now) (Err stop.kind) × (stop.left ≡ length (skipped text.now))) }
{
    let text = skip_blanks(text);
    let left = text.len();
    match read_lexeme(text) {
        Ok(lexeme) => {
            let (_, rest) = text.split_at(lexeme.len);
            let part = &text[lexeme.from..lexeme.to];
            Ok(Next {
                kind: lexeme.kind,
                part,
                rest,
                left,
            })
        }
        Err(kind) => Err(Stop { left, kind }),
    }
}
