//! Descriptors from the bytes of a `FileDescriptorSet` of `google/protobuf/descriptor.proto`, as
//! any tool writes them.
#![tactic(auto)]

mod body;
mod choices;
mod descriptors;
mod fault;
mod fields;
mod lists;
mod messages;
mod options;
mod parts;
mod sets;
mod source_info;
mod type_names;
mod values;

pub use fault::{SetError, SetFault, SetFaultKind};
pub use sets::{read_descriptor_set, read_descriptor_set_with_info};
pub use source_info::SetFile;
