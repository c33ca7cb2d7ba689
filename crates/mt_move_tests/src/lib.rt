//! Tests of the world that gives migrators and cleaners their turns.
#![tactic(auto)]

#[cfg(test)]
mod machines;
