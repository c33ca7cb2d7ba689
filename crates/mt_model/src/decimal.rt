//! Numbers as texts in decimal digits.
ghost use Rattle.std.specs.Prelude.{◌≡◌, ◌≢◌, ◌<◌, ◌^◌, ℕ, decimal, MatchOption};

use itoa::Buffer;

/// The number that the text spells in decimal digits, without sign or leading zeros. `None` comes
/// exactly where no number below 2^64 is spelled so.
pub fn read_decimal(text: &str) -> Option<u64>
    ensures { MatchOption result ((n : ℕ) → n < 2 ^ 64 → text.now ≢ decimal n) (λ n. text.now ≡ decimal n) }
{
    let Ok(n) = text.parse::<u64>() else {
        return None;
    };
    let mut buffer = Buffer::new();
    if buffer.format(n) == text {
        Some(n)
    } else {
        None
    }
}
