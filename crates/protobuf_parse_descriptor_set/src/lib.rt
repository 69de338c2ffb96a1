//! Descriptors as the bytes of a `FileDescriptorSet` of `google/protobuf/descriptor.proto`, which
//! other tools read.
#![tactic(auto)]

mod descriptors;
mod laws;
mod messages;
mod numbers;
mod oneofs;
mod options;
mod parts;
mod ranges;
mod records;
mod source_info;

ghost use Rattle.std.specs.Prelude.{◌≡◌, [], IfOk, map};
ghost use Rattle.protobuf_parse_model.specs.Descriptors.{file_view};
ghost use Rattle.protobuf_parse_descriptor_set.specs.DescriptorItems.{set_bytes, set_entries};
ghost use Rattle.protobuf_parse_wire.specs.Wire.{Spells};

pub use laws::{custom_options_are_fields, oneofs_are_moved};
use parts::put_parts;
use protobuf_parse_model::FileDescriptorProto;
pub use source_info::{FileWithInfo, descriptor_set_with_info};
use std::alloc::{AllocError, Global};

/// The number of the files in a `FileDescriptorSet`.
const FILE: u32 = 1;

/// How many bytes a field takes, as long as most are.
const FIELD_LEN: usize = 64;

/// The bytes of a `FileDescriptorSet` that has the files, in order: what `protoc` writes with
/// `--descriptor_set_out`, and what it takes with `--descriptor_set_in`.
///
/// Each field of `descriptor.proto` that a descriptor has stands with its number there, in order of
/// numbers (`specs/DescriptorItems.antt` has a line a field). What is absent or false isn't
/// written, nor an options message in which nothing is set, nor a syntax but `proto3`. The bytes of
/// custom options stand as they are, behind the built-in options. Synthetic oneofs stand behind the
/// others, since readers refuse them elsewhere, and `oneof_index` says the new indices. Where a
/// message has `message_set_wire_format`, an end of 536870912, which `max` has in a descriptor, is
/// written as 2147483647.
///
/// The one error is that memory is short. A message with 2^31 oneofs or more counts as such: no
/// `oneof_index` could tell their indices, and no reader takes a message of its size.
///
/// ```
/// let parsed = parser.parse_and_typecheck(&rt)?;
/// fs::write(&rt, "shop.pb", &descriptor_set(rt.alloc(), &parsed.file_descriptors)?)?;
/// ```
pub fn descriptor_set(alloc: Global, files: &[FileDescriptorProto]) -> Result<Vec<u8>, AllocError>
    ensures bytes { IfOk result (λ bytes. bytes.items ≡ set_bytes (map file_view files.now)) }
    ensures spells { IfOk result
        (λ bytes. Spells (set_entries (map file_view files.now)) bytes.items) }
{
    let mut out = Vec::with_capacity(alloc, room_for(files))?;
    put_parts(alloc, &mut out, FILE, files)?;
    Ok(out)
}

/// Room for the fields, as long as most are, so that a large set is not copied while it grows.
fn room_for(files: &[FileDescriptorProto]) -> usize {
    let mut room: usize = 0;
    for file in files {
        room = room.saturating_add(room_of(file));
    }
    room
}

/// Room for the fields of a file.
fn room_of(file: &FileDescriptorProto) -> usize {
    let mut fields: usize = 0;
    for message in &file.message_type {
        fields = fields.saturating_add(message.field.len());
    }
    fields.saturating_mul(FIELD_LEN)
}
