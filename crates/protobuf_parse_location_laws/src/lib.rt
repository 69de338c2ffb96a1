//! What source info and descriptors have to do with one another.
#![tactic(auto)]

mod laws;

pub use laws::declarations_are_located;
