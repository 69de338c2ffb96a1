//! Sets.

ghost use Rattle.std.specs.Prelude.{◌≡◌, IfOk, map};
ghost use Rattle.protobuf_parse_model.specs.Descriptors as model;
ghost use Rattle.protobuf_parse_set_reader.specs.Answers.{Gives};
ghost use Rattle.protobuf_parse_set_reader.specs.Bodies.{body_view};
ghost use Rattle.protobuf_parse_set_reader.specs.Reading as spec;
ghost use Rattle.protobuf_parse_set_reader.specs.SourceInfo.{set_file_view};

use crate::body::{Body, body_of};
use crate::fault::SetError;
use crate::parts::parts;
use crate::source_info::SetFile;
use crate::type_names::types_of;
use protobuf_parse_model::FileDescriptorProto;
use protobuf_parse_records::Span;
use std::alloc::Global;

/// The number of the files in a `FileDescriptorSet`.
const FILE: u32 = 1;

/// The files of a `FileDescriptorSet`, in order: what `protoc` writes with `--descriptor_set_out`,
/// and what other tools write.
///
/// Fields stand in any order. Of several that are not repeated the last counts, and the parts of an
/// options message are those of one. Packed numbers and others are taken. `specs/Reading.antt` has
/// a line a field. What has no line is passed over: groups, `edition`, the options of extension
/// ranges, and what newer versions of `descriptor.proto` add. So is `source_code_info`, which
/// `read_descriptor_set_with_info` reads. In options nothing is lost: `custom` has the bytes of
/// each record that sets no built-in option, as they stand, in order. Among these are an enum's
/// number that no value has, and the number of a built-in option with another wire type.
///
/// A descriptor is as sets have it: synthetic oneofs stand last, an end of `max` in a message set
/// is 2147483647, `syntax` is there for proto3 alone where protoc wrote it. What another tool
/// leaves out is what it means: a field has the label `optional`, a `json_name` that is made of its
/// name, and the type of the message or the enum among the files that its `type_name`, with a first
/// dot, is the full name of; numbers are 0.
///
/// The time and the memory are in proportion to the bytes.
///
/// Errors: `Fault` with what is wrong and where, as `SetFaultKind` says; `Memory`. Of several
/// faults one that stops the names of messages and enums from being read comes first; then those of
/// a message's records, from the left; then those of its fields, in the order of the definition.
#[tactic(auto, unfolding(crate::specs::Reading::set_of))]
pub fn read_descriptor_set(
    alloc: Global,
    bytes: &[u8],
) -> Result<Vec<FileDescriptorProto>, SetError>
    ensures { Gives (λ v. map model.file_view v.items) result (spec.set_of bytes.now) }
{
    let set = body_of(alloc, Span { start: 0, bytes })?;
    files_of(alloc, &set)
}

#[tactic(auto, unfolding(crate::specs::Reading::files_of))]
fn files_of(alloc: Global, set: &Body<'_>) -> Result<Vec<FileDescriptorProto>, SetError>
    ensures { Gives (λ v. map model.file_view v.items) result
        (spec.files_of (body_view set.now)) }
{
    let types = types_of(alloc, set)?;
    parts(alloc, &types, set, FILE)
}

/// The files of a `FileDescriptorSet`, in order, each with the bytes of its `source_code_info`,
/// which `protoc` writes with `--include_source_info` as well.
///
/// The files are those of `read_descriptor_set`. Beside a file stands `None` where it has no source
/// info, else the bytes of a `SourceCodeInfo`: of one that stands in several parts they are one
/// behind the other, which is how the parts of a message are put together. The bytes are not looked
/// at.
///
/// Errors: those of `read_descriptor_set`, and besides them `WrongWireType` at the tag of a record
/// that has the number of source info, 9, and another wire type. It comes behind what is wrong with
/// the other fields of its file.
#[tactic(auto, unfolding(crate::specs::Reading::set_with_info_of))]
pub fn read_descriptor_set_with_info(alloc: Global, bytes: &[u8]) -> Result<Vec<SetFile>, SetError>
    ensures gives { Gives (λ v. map set_file_view v.items) result
        (spec.set_with_info_of bytes.now) }
    ensures files { IfOk result
        (λ v. spec.set_of bytes.now ≡ Ok (map (λ f. model.file_view f.file) v.items)) }
{
    let set = body_of(alloc, Span { start: 0, bytes })?;
    set_files_of(alloc, &set)
}

#[tactic(auto, unfolding(crate::specs::Reading::set_files_of))]
fn set_files_of(alloc: Global, set: &Body<'_>) -> Result<Vec<SetFile>, SetError>
    ensures { Gives (λ v. map set_file_view v.items) result
        (spec.set_files_of (body_view set.now)) }
{
    let types = types_of(alloc, set)?;
    parts(alloc, &types, set, FILE)
}
