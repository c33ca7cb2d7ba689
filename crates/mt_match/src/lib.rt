//! Which rows a filter matches, and between which keys they lie.
#![tactic(auto)]

mod bounds;
mod matching;
mod partition;

pub use bounds::{Bounds, key_bounds};
pub use matching::{matches, matches_row};
pub use partition::atomic_partition;
