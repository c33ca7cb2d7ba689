//! The contract of a store: rows by key, conditional changes of one partition at a time, ranges, and a seal.
#![tactic(auto)]

mod ask;
mod cause;
mod depot;
mod keeper;
pub mod model;
mod op;
mod query;
mod row;
mod rows;
mod two_lists;

pub use ask::{Ask, CallFault, Side, StoreAsk, StoreReply};
pub use depot::{Depot, DepotFault};
pub use keeper::{KeepFault, Keeper};
pub use op::{Cause, Cond, Op, Refusal};
pub use query::{Found, Next, PkFrom, Range, RangeQuery, RkFrom, is_upto};
pub use row::{Put, Puts, Stored, StoredRow, StoredRows, Tags};
pub use rows::{Row, Rows};
pub use two_lists::{first_key, first_row, rows_past};
