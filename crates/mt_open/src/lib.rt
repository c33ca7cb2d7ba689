//! Opening two stores as one table: what each holds, whether they are a sound pair, where they fail
//! first, and the table that clients see.
#![tactic(auto)]

mod damage;
mod first;
mod forms;
mod holding;
mod holdings;
mod opening;
mod phases;
mod reading;
mod table;
mod tags;
mod walk;

pub use damage::{Damage, Rule};
pub use first::first_damage;
pub use holding::Holding;
pub use holdings::Holdings;
pub use opening::{OpenFault, OpenedPair, open_pair, open_stores};
pub use reading::{Loaded, ReadFault, read_store};
pub use table::entity_at;
pub use walk::logical_table;
