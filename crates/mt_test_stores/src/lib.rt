//! Stores in memory with a past, for tests.
#![tactic(auto)]

mod stores;

pub use stores::{
    FILLING, Past, SEEN, TURNED, failing_store, insert, kind_of, one, replace, reply_to, rows_text,
    store_of, tag_text,
};
