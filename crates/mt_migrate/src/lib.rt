//! The move of a table from an old store to a new one, partition by partition, while clients go on
//! reading and writing: a machine that gives its next store call and takes the store's reply.
#![tactic(auto)]

mod asks;
mod chunk;
mod migrator;
mod moves;
mod puts;
mod state;

pub use migrator::{Migrator, MoveProgress};
pub use state::{Copying, Part, Pass, Reading, State, Walk};
