//! Moments of UTC as texts and as ticks of 100 ns from 1601-01-01T00:00:00Z.
#![tactic(auto)]

mod fields;
mod print;
mod read;

pub use print::print_utc;
pub use read::{BadDate, read_utc};
