//! From texts to ticks.
ghost use Rattle.std.specs.Prelude.{◌≡◌, ℕ, ◌<◌, ◌≤◌, ◌+◌, ◌-◌, ◌*◌, ◌^◌, ◌++◌, ◌∷◌, List, length, drop, MatchOption, IfOk, OnErr, Ok, ℤ};
ghost use Rattle.std.specs.Str.Parse.{AllDigits, digits_value};
ghost use Rattle.mt_time.specs.Digits.{numeral, AreDecimals, fraction_of};
ghost use Rattle.mt_time.specs.Moment.{HasTicks, HasNoTicks, two_after, end_of};
ghost use Rattle.mt_time.specs.Written.{AreShort, IsWritten, IsNotWritten};

use crate::fields::Fields;

/// A text that is no moment of the grammar.
#[derive(Clone, Copy, Debug, Drop, PartialEq, Eq)]
pub struct BadDate;

/// The number that these digits write, if they are digits.
fn digits_number(digits: &[u8]) -> Option<u32>
    requires { length digits.now ≤ 9 }
    ensures { MatchOption result (AllDigits 10 digits.now → ⊥) (λ n. AllDigits 10 digits.now × (n ≡ digits_value 10 digits.now)) }
{
    let mut number = 0;
    for digit in digits {
        if !digit.is_ascii_digit() {
            return None;
        }
        number = number * 10 + u32::from(digit - b'0');
    }
    Some(number)
}

/// The number of `count` digits at the front, and what follows them.
fn read_number(text: &[u8], count: usize) -> Option<(u32, &[u8])>
    requires { count ≤ 9 }
    ensures { MatchOption result
        ((n : ℕ) (rest : List ℕ) → text.now ≡ numeral count n ++ rest → ⊥)
        (λ x. (x.0 < 10 ^ count) × (text.now ≡ numeral count x.0 ++ x.1.now)) }
{
    let Some((digits, rest)) = text.split_at_checked(count) else {
        return None;
    };
    let Some(number) = digits_number(digits) else {
        return None;
    };
    Some((number, rest))
}

/// The number of two digits that stand after this character, and what follows them.
fn read_two_after(text: &[u8], before: u8) -> Option<(u32, &[u8])>
    ensures { MatchOption result
        ((n : ℕ) (rest : List ℕ) → text.now ≡ two_after before n rest → ⊥)
        (λ x. (x.0 < 100) × (text.now ≡ two_after before x.0 x.1.now)) }
{
    match text {
        [first, rest @ ..] if *first == before => read_number(rest, 2),
        _ => None,
    }
}

/// The ticks that the decimals at the end of a text stand for.
fn read_end(text: &[u8]) -> Option<u32>
    ensures { MatchOption result
        ((ds : List ℕ) → AreDecimals ds → text.now ≡ end_of ds → ⊥)
        (λ n. (n < 10_000_000) × ((ds : List ℕ) × AreDecimals ds × (text.now ≡ end_of ds) × (n ≡ fraction_of ds))) }
{
    let Some(text) = text.strip_suffix(b"Z".as_slice()) else {
        return None;
    };
    if text.is_empty() {
        return Some(0);
    }
    let Some(digits) = text.strip_prefix(b".".as_slice()) else {
        return None;
    };
    read_decimals(digits)
}

/// The ticks that one to seven decimals stand for.
fn read_decimals(digits: &[u8]) -> Option<u32>
    ensures { MatchOption result
        (AreDecimals digits.now → 0 < length digits.now → ⊥)
        (λ n. (n < 10_000_000) × AreDecimals digits.now × (0 < length digits.now) × (n ≡ fraction_of digits.now)) }
{
    if digits.is_empty() || digits.len() > 7 {
        return None;
    }
    let Some(number) = digits_number(digits) else {
        return None;
    };
    Some(number * 10_u32.pow(7 - digits.len() as u32))
}

/// The numbers of a text, if it is written as a moment is.
fn read_fields(text: &[u8]) -> Option<Fields>
    ensures { MatchOption result (IsNotWritten text.now) (λ f. AreShort f × IsWritten text.now f) }
{
    let Some((year, rest)) = read_number(text, 4) else {
        return None;
    };
    let Some((month, rest)) = read_two_after(rest, b'-') else {
        return None;
    };
    let Some((day, rest)) = read_two_after(rest, b'-') else {
        return None;
    };
    let Some((hour, rest)) = read_two_after(rest, b'T') else {
        return None;
    };
    let Some((minute, rest)) = read_two_after(rest, b':') else {
        return None;
    };
    let Some((second, rest)) = read_two_after(rest, b':') else {
        return None;
    };
    let Some(fraction) = read_end(rest) else {
        return None;
    };
    Some(Fields {
        year,
        month,
        day,
        hour,
        minute,
        second,
        fraction,
    })
}

/// The moment that a text names, in ticks of 100 ns from 1601-01-01T00:00:00Z.
///
/// The text is `YYYY-MM-DDTHH:MM:SS`, then optionally a point and one to seven digits, then `Z`: a
/// date-time of RFC 3339 with capital letters and the offset `Z`. `BadDate` comes exactly for a
/// text outside this grammar, for a day or a time of day that does not exist (second 60 too), and
/// for a year before 1601. It takes no memory.
pub fn read_utc(text: &[u8]) -> Result<i64, BadDate>
    ensures ok { IfOk result (HasTicks text.now) }
    ensures bad { OnErr result (HasNoTicks text.now) }
    // so what `print_utc` printed is read as the ticks that it was given
    ensures one { (ticks : ℤ) → HasTicks text.now ticks → result ≡ Ok ticks }
{
    let Some(fields) = read_fields(text) else {
        return Err(BadDate);
    };
    let Some(ticks) = fields.ticks() else {
        return Err(BadDate);
    };
    Ok(ticks as i64)
}
