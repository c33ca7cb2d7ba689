//! A batch of operations as store calls: first a read of the rows that it names, then one conditional write.
#![tactic(auto)]

mod basis;
mod call;
mod judge;
mod names;
mod place;
mod plan;
mod puts;
mod saw;

pub use basis::Basis;
pub use call::{BatchCall, BatchProgress};
pub use place::{AfterOld, Place};
