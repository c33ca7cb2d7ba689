//! Stores in memory, and a depot of two of them.
#![tactic(auto)]

mod answer;
mod change;
mod depot;
mod judge;
mod keeper;
mod lookup;
mod rewrite;

pub use answer::copy_row;
pub use change::{Change, Plan, prepare};
pub use depot::MemDepot;
pub use judge::{holds, row_key};
pub use keeper::MemKeeper;
pub use lookup::{Row, compare, is_before, is_not_past, place_of, row_at};
