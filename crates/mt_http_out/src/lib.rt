//! Replies as bytes: responses of HTTP/1.1 (RFC 9112).
#![tactic(auto)]

mod rendering;
mod reply;
#[cfg(test)]
mod tests;

pub use rendering::{put, put_close, put_length, put_line, put_status, render, render_inner};
pub use reply::{Reply, ReplyField, ReplyFields};
