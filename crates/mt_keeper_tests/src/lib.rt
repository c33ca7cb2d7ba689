//! Tests of the two stores in memory beside one another: one with its rows in a list, one with its rows
//! in pages.
#![tactic(auto)]

#[cfg(test)]
mod both;
#[cfg(test)]
mod build;
#[cfg(test)]
mod pages;
#[cfg(test)]
mod random;
