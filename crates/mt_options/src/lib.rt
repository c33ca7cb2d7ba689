//! What the query options of a read say: what is shown of a row, how many rows, and where a page begins.
#![tactic(auto)]

mod levels;
mod numbers;
mod shows;
#[cfg(test)]
mod tests;
mod tokens;
mod values;

pub use levels::{begins_with, level_by, named_level, stands_in};
pub use numbers::read_number;
pub use shows::{Show, read_show};
pub use tokens::{Token, TokenRead, read_token, write_token};
pub use values::value_of;
