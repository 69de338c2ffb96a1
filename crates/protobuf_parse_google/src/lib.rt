//! The files of Google that schemas import, with all that they declare: what protobuf 3.21.12 has
//! under these paths, written anew and without comments.
#![tactic(auto)]

mod any_proto;
mod api_proto;
mod descriptor_proto;
mod duration_proto;
mod empty_proto;
mod field_mask_proto;
mod files;
mod plugin_proto;
mod source_context_proto;
mod struct_proto;
mod timestamp_proto;
mod type_proto;
mod wrappers_proto;

pub use files::google_files;
