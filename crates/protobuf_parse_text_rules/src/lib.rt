//! What `protoc` refuses in a text that has a tree, and descriptors no longer show: its violations
//! of the rules of texts, each at its place.
#![tactic(auto)]

mod bodies;
mod constants;
mod declarations;
mod fields;
mod messages;
mod options;
mod rule;
mod statements;
mod tokens;
mod violation;

pub use rule::TextRule;
pub use statements::text_violations;
pub use violation::{TextViolation, tell, tell_if};
