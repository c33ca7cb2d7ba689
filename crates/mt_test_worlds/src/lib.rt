//! Worlds over two stores with a past, and what is asked of them, for tests.
#![tactic(auto)]

mod batches;
mod filters;
mod worlds;

pub use batches::{Do, Sample, batch, insert_batch, key};
pub use filters::filter_of;
pub use worlds::{answer_text, asked, entry_text, opened, outcome_text, stores_text, world_of};
