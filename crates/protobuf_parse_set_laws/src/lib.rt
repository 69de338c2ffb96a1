//! What the writer and the reader of descriptor sets have to do with one another.
#![tactic(auto)]

mod laws;

pub use laws::sets_are_read_back;
