//! What the custom options of a construct become, by the descriptors of files.
#![tactic(auto)]

mod constants;
mod custom_parts;
mod fields;
mod laws;
mod lookup;
mod paths;
mod refuse;
mod spots;
mod statements;
mod strings;
mod values;
mod viewpoint;
mod with_customs;

pub use custom_parts::has_custom_option;
pub use laws::{
    any_order, extensions_are_looked_up, more_files, never_too_deep, option_bytes_spell,
    options_are_not_read, options_are_read, options_are_recovered,
};
pub use spots::{PickedFiles, Spots};
pub use with_customs::WithCustoms;
