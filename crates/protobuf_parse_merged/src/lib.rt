//! Messages as people mean them: what the records of a message leave once they are merged.
#![tactic(auto)]

mod declared;
mod defaults;
mod fault;
mod laws;
mod maps;
mod merging;
mod message;
mod occurrences;
mod oneofs;
mod runs;
mod scalars;
mod strays;
#[cfg(test)]
mod tests;

pub use fault::MergeError;
pub use laws::{fields_ascend, values_join};
pub use merging::merged;
pub use message::{Field, FieldValue, Message, Unknown};
