//! The words of the command line.
#![tactic(auto)]

mod command;
mod settings;
#[cfg(test)]
mod tests;
mod words;

pub use command::{Command, Common, StoreChoice, Usage};
pub use words::read_words;
