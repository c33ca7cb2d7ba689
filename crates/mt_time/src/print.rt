//! From ticks to texts.
ghost use Rattle.std.specs.Prelude.{◌≡◌, ℕ, ◌<◌, ◌+◌, ◌-◌, ◌*◌, ◌/◌, ◌%◌, ◌++◌, ◌∷◌, IfOk, OnOk, pos, ◌≤ℤ◌, string_bytes};
ghost use Rattle.mt_time.specs.Digits.{numeral};
ghost use Rattle.mt_time.specs.Moment.{Parts, IsDateTime, text_of, ticks_of, padded, HasTicks, HasTicksInFull};
ghost use Rattle.mt_time.specs.Written.{with_decimals};

use crate::fields::Fields;
use std::alloc::{AllocError, Global};

/// Appends the last `count` digits of a number.
fn push_digits(text: &mut String, number: u32, count: u32) -> Result<(), AllocError>
    ensures { OnOk result (string_bytes text.new ≡ string_bytes text.old ++ numeral count number) }
{
    if count > 0 {
        push_digits(text, number / 10, count - 1)?;
        let digit = b'0' + (number % 10) as u8;
        text.push(char::from(digit))?;
    }
    Ok(())
}

/// Appends a character and the last two digits of a number.
fn push_two_after(text: &mut String, before: char, number: u32) -> Result<(), AllocError>
    requires { before < 128 }
    ensures { OnOk result (string_bytes text.new ≡ string_bytes text.old ++ before ∷ numeral 2 number) }
{
    text.push(before)?;
    push_digits(text, number, 2)
}

/// The text of these numbers, with seven decimals.
fn print_fields(alloc: Global, fields: Fields) -> Result<String, AllocError>
    ensures { IfOk result (λ text. string_bytes text ≡ text_of (with_decimals fields (numeral 7 fields.fraction))) }
{
    let mut text = String::with_capacity(alloc, 28)?;
    push_digits(&mut text, fields.year, 4)?;
    push_two_after(&mut text, '-', fields.month)?;
    push_two_after(&mut text, '-', fields.day)?;
    push_two_after(&mut text, 'T', fields.hour)?;
    push_two_after(&mut text, ':', fields.minute)?;
    push_two_after(&mut text, ':', fields.second)?;
    text.push('.')?;
    push_digits(&mut text, fields.fraction, 7)?;
    text.push('Z')?;
    Ok(text)
}

/// The text of the moment that many ticks of 100 ns after 1601-01-01T00:00:00Z, always with seven
/// decimals. It is a date-time of RFC 3339 that `read_utc` reads as the same ticks.
///
/// The ticks are at least 0 and at most 2,650,467,743,999,999,999, which is the last tick of the
/// year 9999. The error is want of memory alone.
pub fn print_utc(alloc: Global, ticks: i64) -> Result<String, AllocError>
    requires low { pos 0 ≤ℤ ticks }
    requires high { ticks ≤ℤ pos 2_650_467_743_999_999_999 }
    ensures full { IfOk result (λ text. HasTicksInFull (string_bytes text) ticks) }
    // so `read_utc` reads it as these ticks
    ensures reads_back { IfOk result (λ text. HasTicks (string_bytes text) ticks) }
    // so a text that `read_utc` read as these ticks is printed as itself, padded to seven decimals
    ensures same { (p : Parts) → IsDateTime p → ticks ≡ pos (ticks_of p) → IfOk result (λ text. string_bytes text ≡ text_of (padded p)) }
{
    print_fields(alloc, Fields::at(ticks as u64))
}
