//! Where the declarations of a `.proto` file stand, by their full names and by the paths of
//! `SourceCodeInfo`: for linters, documentation tools and editors.
#![tactic(auto)]

mod declaration;
mod file_locations;
mod ignoring;
mod oneofs;
mod paths;
mod positions;
mod walk;

pub use declaration::{Declaration, DeclarationKind};
pub use file_locations::FileLocations;
pub use ignoring::asks_to_ignore;
pub use walk::declarations;
