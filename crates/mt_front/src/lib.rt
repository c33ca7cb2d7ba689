//! One connection of requests on a table, from bytes to bytes.
#![tactic(auto)]

mod asks;
mod change_sets;
mod changes;
mod connection;
mod fields;
mod machines;
mod methods;
mod page_replies;
mod pages;
mod reads;
mod refusals;
mod reports;
mod routes;
mod services;
mod writes;

pub use asks::{Asked, asked_by};
pub use connection::{ConnFault, End, Served, session};
pub use methods::Resource;
pub use pages::PageRead;
pub use reads::{Read, Shape};
pub use refusals::{
    BadPart, BadRequest, bad_part, bad_request, cause_reply, head_refusal, history_full, no_memory,
    refusal_reply, store_fault,
};
pub use services::{Admin, Machine, Report};
pub use writes::Writes;
