//! The paths by which `.proto` files import one another.
mod check;
mod error;
pub mod laws;
mod parts;
mod path;

pub use error::PathError;
pub use parts::{join_parts, kept_parts};
pub use path::{ProtoPath, ProtoPathBuf};
