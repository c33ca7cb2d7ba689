//! Parts of texts and of bytes.
ghost use Rattle.std.specs.Prelude.{◌≡◌, ◌≢◌, ℕ, ◌<◌, ◌==◌, List, ◌++◌, length, MatchOption};
ghost use Rattle.std.specs.List.{position_or_len, before_first, after_first};

/// What follows the literal, where the text begins with it.
pub fn after<'a>(text: &'a str, literal: &str) -> Option<&'a str>
    ensures { MatchOption result ((rest : List ℕ) → text.now ≢ literal.now ++ rest) (λ rest. text.now ≡ literal.now ++ rest.now) }
{
    text.strip_prefix(literal)
}

/// The bytes before the first separator and those behind it, where it is there.
pub fn split_once(bytes: &[u8], separator: u8) -> Option<(&[u8], &[u8])>
    ensures { MatchOption result (position_or_len (λ b. b == separator) bytes.now ≡ length bytes.now)
        (λ x. (position_or_len (λ b. b == separator) bytes.now < length bytes.now) × (x.0.now ≡ before_first (λ b. b == separator) bytes.now) × (x.1.now ≡ after_first (λ b. b == separator) bytes.now)) }
{
    match bytes.iter().position(|b| *b == separator) {
        Some(at) => Some((&bytes[..at], &bytes[at + 1..])),
        None => None,
    }
}
