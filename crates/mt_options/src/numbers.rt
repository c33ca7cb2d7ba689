//! Numbers that options give.
ghost use Rattle.std.specs.Prelude.{◌≡◌, ◌≢◌, ◌≤◌, ℕ, decimal, MatchOption};

use mt_model::read_decimal;

/// The number from `least` to `most` that the text spells in decimal digits, without sign or leading
/// zeros. `None` comes exactly where it spells none.
pub fn read_number(text: &str, least: u64, most: u64) -> Option<u64>
    ensures { MatchOption result ((n : ℕ) → least ≤ n → n ≤ most → text.now ≢ decimal n) (λ n. (text.now ≡ decimal n) × (least ≤ n) × (n ≤ most)) }
{
    match read_decimal(text) {
        Some(n) => {
            if n < least || n > most {
                return None;
            }
            Some(n)
        }
        None => None,
    }
}
