//! Tests of what requests ask for, and of whole runs of the program, from its words and input to its
//! output and status.
#![tactic(auto)]

#[cfg(test)]
mod answers;
#[cfg(test)]
mod asks;
#[cfg(test)]
mod commands;
#[cfg(test)]
mod endings;
#[cfg(test)]
mod heads;
#[cfg(test)]
mod http;
#[cfg(test)]
mod pairs;
#[cfg(test)]
mod refusals;
#[cfg(test)]
mod runs;
