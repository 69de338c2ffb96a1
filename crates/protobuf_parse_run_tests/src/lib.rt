//! Tests of runs that can't be cases: a resolver of the caller's own, real files, the programs on
//! them and on writers that fail, and the texts of all faults, counted. Nothing but tests stands
//! here.
#![tactic(auto)]

#[cfg(test)]
mod commands;
#[cfg(test)]
mod faults;
#[cfg(test)]
mod files;
#[cfg(test)]
mod one_read;
#[cfg(test)]
mod outcome;
#[cfg(test)]
mod program;
#[cfg(test)]
mod real_files;
#[cfg(test)]
mod resolving;
#[cfg(test)]
mod run_faults;
