//! Entities as JSON objects (RFC 8259), in the form of the Azure Table service's bodies.
#![tactic(auto)]

mod draft;
mod guid;
mod kind;
mod member;
mod members;
mod quote;
mod read;
mod value;
mod write;

pub use draft::Draft;
pub use read::{Body, JsonFault, KeyUse, read_entity};
pub use write::{Level, write_entity};
