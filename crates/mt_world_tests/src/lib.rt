//! Tests of the machines that take turns on two stores, and of the world that gives them their turns.
#![tactic(auto)]

#[cfg(test)]
mod cleanings;
#[cfg(test)]
mod migrations;
#[cfg(test)]
mod openings;
#[cfg(test)]
mod plans;
#[cfg(test)]
mod queries;
#[cfg(test)]
mod turns;
#[cfg(test)]
mod world_queries;
