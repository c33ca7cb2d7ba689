//! Tests of pages over two stores in memory.
#![tactic(auto)]

#[cfg(test)]
mod cases;
#[cfg(test)]
mod scenes;
