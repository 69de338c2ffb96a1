//! What `protoc` refuses in the names and the constants of a file that a run takes: by its tree,
//! and by what the files declare that it sees.
#![tactic(auto)]

mod again;
mod constants;
mod declarations;
mod fields;
mod files;
mod given;
mod lookups;
mod messages;
mod names;
mod options;
mod services;

pub use files::NameFiles;
pub use messages::name_violations;
