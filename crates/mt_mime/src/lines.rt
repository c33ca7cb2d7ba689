//! Lines that end in a carriage return and a line feed.
ghost use Rattle.std.specs.Prelude.{◌≡◌, ◌≢◌, ℕ, List, ◌++◌, MatchOption};
ghost use Rattle.mt_mime.specs.Lines.{IsPeeled};

/// A line at the front of some bytes.
#[derive(Clone, Copy)]
pub struct Line<'a> {
    /// The line without its end.
    pub text: &'a [u8],

    /// What follows the line's end, where it has one.
    pub rest: Option<&'a [u8]>,
}

/// What follows the literal, where the bytes begin with it.
pub fn after<'a>(bytes: &'a [u8], literal: &[u8]) -> Option<&'a [u8]>
    ensures { MatchOption result ((rest : List ℕ) → bytes.now ≢ literal.now ++ rest) (λ rest. bytes.now ≡ literal.now ++ rest.now) }
{
    bytes.strip_prefix(literal)
}

/// The first line; the last one of a text has no end.
pub fn peel_line(bytes: &[u8]) -> Line<'_>
    ensures { IsPeeled bytes.now result }
{
    for at in 0..bytes.len() {
        if let Some(rest) = after(&bytes[at..], b"\r\n") {
            return Line {
                text: &bytes[..at],
                rest: Some(rest),
            };
        }
    }
    Line {
        text: bytes,
        rest: None,
    }
}
