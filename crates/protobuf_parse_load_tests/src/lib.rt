//! Tests of loads, over files that the caller's own resolver has. Nothing but tests stands here.
#![tactic(auto)]

#[cfg(test)]
mod loads;
