//! A page of a table as store calls: unit by unit, each a chunk of rows or a gap between partitions.
#![tactic(auto)]

mod asks;
mod call;
mod chunk;
mod keys;
mod saw;
mod unit;

pub use call::{PageCall, page_bounds};
pub use saw::Half;
pub use unit::{Page, PageProgress, Place, Token, Unit};
