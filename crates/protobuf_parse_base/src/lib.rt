//! What every layer of the schema parser stands on: dotted names, the paths of `.proto` files, and
//! the spellings of names and bytes.
#![tactic(auto)]

pub mod by_text;
pub mod joins;
pub mod multimap;
mod name;
pub mod names;
pub mod proto_path;
pub mod text;

pub use name::Name;
