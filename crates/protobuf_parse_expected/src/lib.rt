//! What could stand where a text has a fault: each token that might is put there and read.
#![tactic(auto)]

mod ending;
mod reading;
mod verdict;

pub use verdict::{Verdict, verdicts};
