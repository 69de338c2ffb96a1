//! What changed from an old version of a schema's files to a new one: what is declared no more, what
//! has another name, type, label or default, which numbers and names are free to be taken again, and
//! which options of files differ. What breaks bytes on the wire is another crate's matter, with a
//! theorem.
#![tactic(auto)]

mod change;
mod enums;
mod extensions;
mod fields;
mod files;
mod kind;
mod messages;
mod new_fields;
mod oneofs;
mod options;
mod reserved;
mod same;
mod services;
mod shapes;
#[cfg(test)]
mod tests;
mod versions;
mod within;

pub use change::{Change, Place};
pub use kind::{Category, ChangeKind};
pub use versions::changes;
