//! Tests of change sets, reads and pages in a connection: how many store calls and entries they take.
#![tactic(auto)]

#[cfg(test)]
mod change_sets;
#[cfg(test)]
mod pages;
#[cfg(test)]
mod reads;
#[cfg(test)]
mod sessions;
