//! What doesn't hold among the descriptors of a set that any tool wrote: names that are declared
//! nowhere, or where the file doesn't see them, imports that don't stand before it, positions of
//! nothing, and names that are no identifiers.
#![tactic(auto)]

mod declared;
mod fields;
mod files;
mod imports;
mod known;
mod law;
mod messages;
mod names;
mod positions;
mod rule;
mod services;
mod sight;
mod types;
mod violation;

pub use files::check_set;
pub use law::types_are_declared;
pub use rule::SetRule;
pub use violation::SetViolation;
