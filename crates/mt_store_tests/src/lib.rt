//! Tests of the stores and of what stands on them: rows and batches, the store in memory, the migration's
//! rows, opening, and the history.
#![tactic(auto)]

#[cfg(test)]
mod chain;
#[cfg(test)]
mod history;
#[cfg(test)]
mod mem;
#[cfg(test)]
mod meta;
#[cfg(test)]
mod open;
#[cfg(test)]
mod rules;
#[cfg(test)]
mod stores;
