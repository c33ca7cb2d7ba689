//! A store in memory whose rows stand in pages.
#![tactic(auto)]

mod answer;
mod change;
mod front;
mod judge;
mod keeper;
mod keyed;
mod lookup;
mod page;
mod pages;

pub use keeper::PagedKeeper;
