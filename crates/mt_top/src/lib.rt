//! The commands of the table server, over any source, sink and depot.
#![tactic(auto)]

mod depot;
mod keeper;
mod line;
mod running;

pub use depot::AnyDepot;
pub use keeper::AnyKeeper;
pub use running::{Status, run};
