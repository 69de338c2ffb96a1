//! Identifiers and the dotted paths that they make.
mod absolute;
mod components;
mod dots;
mod ident;
pub mod laws;
mod relative;

pub use absolute::{ProtobufAbsPath, ProtobufAbsPathRef};
pub use components::Components;
pub use ident::{ProtobufIdent, ProtobufIdentRef};
pub use relative::{ProtobufRelPath, ProtobufRelPathRef};
