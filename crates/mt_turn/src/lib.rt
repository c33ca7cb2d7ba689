//! A lock whose value is a history, and whose passes know what they have seen of it.
//!
//! A `Turnstile` holds one value, of a type that is `Journaled`: it stands for a window of a
//! history of entries. Who works with the value holds a `Pass`. `take` waits for the turn and
//! hands the value out, and `give` puts it back, with at most one entry more. A pass that finds
//! the value again knows how its history went on: no entry is lost or moved, none of those that
//! came in between is the pass's own, and the facts that the pass carried still hold.
#![tactic(auto)]

mod journal;
mod pass;
mod rule;
#[cfg(test)]
mod tests;
mod turnstile;
mod view;

pub use journal::{Journaled, Knowing};
pub use pass::{Pass, PassOf};
pub use rule::Law;
pub use turnstile::{NotMade, Turnstile};
pub use view::{View, Window};
