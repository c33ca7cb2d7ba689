//! The history of a table: its entries in order, within limits, and what each is answered.
#![tactic(auto)]

mod blocks;
mod entry;
mod history;
pub mod model;
mod need;

pub use entry::{Entry, What};
pub use history::History;
pub use need::{MOVE_NEED, page_need, query_need};
