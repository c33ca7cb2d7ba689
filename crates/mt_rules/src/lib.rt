//! Which lists of operations are batches.
#![tactic(auto)]

mod batch;

pub use batch::{Batch, BatchFault, check_batch};
