//! What changes in files could do to bytes that were written by the old ones: whether readers of
//! the new files read on.
#![tactic(auto)]

mod change;
mod compare;
mod field_changes;
mod fields;
mod laws;
mod partners;
mod strength;
#[cfg(test)]
mod tests;
mod types;

pub use change::{WireChange, WireChangeKind};
pub use compare::{reads_on, wire_changes};
pub use laws::{known_fields_are_settled, old_bytes_are_read, same_names_go_together};
pub use strength::Strength;
