//! A query of one partition as store calls: at most one read of each of two stores.
#![tactic(auto)]

mod answer;
mod call;
mod place;
mod range;
mod saw;

pub use answer::{push_one, wanted};
pub use call::{QueryCall, QueryProgress};
pub use place::{AfterOld, Place};
