//! The numbers of a date and a time of day as they are written.
ghost use Rattle.std.specs.Prelude.{◌≡◌, ℕ, ◌<◌, ◌≤◌, ◌+◌, ◌-◌, ◌*◌, ◌/◌, ◌%◌, ◌^◌, List, MatchOption, IfSome, pos};
ghost use Rattle.mt_time.specs.Digits.{numeral, AreDecimals, fraction_of};
ghost use Rattle.mt_time.specs.Moment.{IsDateTime, ticks_of};
ghost use Rattle.mt_time.specs.Written.{AreShort, with_decimals};

use jiff_core::civil::Date;

/// The first year whose moments have ticks.
const FIRST_YEAR: u32 = 1601;

/// The days from the first date of the calendar, -9999-01-01, to 1601-01-01.
pub const DAYS_BEFORE_1601: u32 = 4_236_813;

/// The ticks of 100 ns in a second.
pub const TICKS_PER_SECOND: u64 = 10_000_000;

/// A date and a time of day, and the ticks of the begun second.
#[derive(Clone, Copy)]
pub struct Fields {
    pub year: u32,
    pub month: u32,
    pub day: u32,
    pub hour: u32,
    pub minute: u32,
    pub second: u32,
    pub fraction: u32,
}

impl Fields {
    ghost use Rattle.mt_time.specs.declared.fields.Fields.{Fields};

    /// The ticks up to this moment, if there is such a moment in the years 1601 to 9999.
    pub fn ticks(self) -> Option<u64>
        requires { AreShort self }
        ensures small { IfSome result (λ ticks. ticks < 2 ^ 63) }
        ensures value { MatchOption result
            ((ds : List ℕ) → IsDateTime (with_decimals self ds) → ⊥)
            (λ ticks. (ds : List ℕ) → AreDecimals ds → self.fraction ≡ fraction_of ds → IsDateTime (with_decimals self ds) × (ticks ≡ ticks_of (with_decimals self ds))) }
    {
        if self.year < FIRST_YEAR || self.hour > 23 || self.minute > 59 || self.second > 59 {
            return None;
        }
        let Ok(date) = Date::new(self.year as i16, self.month as i8, self.day as i8) else {
            return None;
        };
        let days = date.days_since_min() - DAYS_BEFORE_1601;
        let hours = u64::from(days) * 24 + u64::from(self.hour);
        let seconds = (hours * 60 + u64::from(self.minute)) * 60 + u64::from(self.second);
        Some(seconds * TICKS_PER_SECOND + u64::from(self.fraction))
    }

    /// The parts of the moment that many ticks after 1601-01-01T00:00:00Z.
    pub fn at(ticks: u64) -> Fields
        requires { ticks ≤ 2_650_467_743_999_999_999 }
        ensures date { IsDateTime (with_decimals result (numeral 7 result.fraction)) }
        ensures ticks { ticks ≡ ticks_of (with_decimals result (numeral 7 result.fraction)) }
    {
        let seconds = ticks / TICKS_PER_SECOND;
        let minutes = seconds / 60;
        let hours = minutes / 60;
        let days = (hours / 24) as u32;
        let date = Date::from_days_since_min(days + DAYS_BEFORE_1601);
        Fields {
            year: u32::from(date.year.unsigned_abs()),
            month: u32::from(date.month),
            day: u32::from(date.day),
            hour: (hours % 24) as u32,
            minute: (minutes % 60) as u32,
            second: (seconds % 60) as u32,
            fraction: (ticks % TICKS_PER_SECOND) as u32,
        }
    }
}
