//! Filters of a query, as the OData text of `$filter`.
#![tactic(auto)]

mod begin;
mod chain;
mod classes;
mod filter;
mod laws;
mod lexeme;
mod next;
mod quoted;
mod reader;
mod value;
mod words;

pub use filter::{Compare, Field, Filter, FilterFault, FilterKind};
pub use laws::{one_outcome, quotes_are_doubled};
pub use reader::read_filter;
