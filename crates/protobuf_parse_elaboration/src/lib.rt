//! From a file's tree to its descriptor.
#![tactic(auto)]

mod constructs;
mod laws;

pub use constructs::{
    decoded_bytes, decoded_text, elaborate, elaborate_all, elaborate_all_owned, elaborate_owned,
    has_builtin_option,
};
pub use laws::{custom_options_are_of_sets, types_are_declared, types_are_looked_up};
