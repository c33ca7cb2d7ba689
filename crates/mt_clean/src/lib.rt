//! The cleaning of an old store whose table was moved to a new one: a machine that gives its next store
//! call and takes the store's reply.
#![tactic(auto)]

mod asks;
mod cleaner;
mod rows;
mod state;
mod steps;

pub use cleaner::{CleanProgress, Cleaner};
pub use state::State;
