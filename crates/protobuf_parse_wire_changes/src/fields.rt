//! Fields of messages, and extensions, by their numbers.

ghost use Rattle.std.specs.Prelude.{◌≡◌, map, option_map};
ghost use Rattle.std.specs.Option.{option_copied};
ghost use Rattle.protobuf_parse_model.specs.Descriptors.{field_view, file_view};
ghost use Rattle.protobuf_parse_decode.specs.Declarations as spec;
ghost use Rattle.protobuf_parse_decode.specs.Sorts.{sort_of};
ghost use Rattle.protobuf_parse_wire_changes.specs.Changes.{typed_in};
ghost use Rattle.protobuf_parse_wire_changes.specs.Inside.{typed_view};
ghost use Rattle.protobuf_parse_wire_changes.specs.Seen.{has_to_be_utf8};

use protobuf_parse_index::Index;
use protobuf_parse_model::{FieldDescriptorProto, FieldType, FileDescriptorProto, Label};

/// What counts of a field's declaration.
#[derive(Drop)]
pub struct Field<'i> {
    pub field_type: FieldType,
    /// Whether it is a string, which has to be UTF-8.
    pub utf8: bool,
    pub repeated: bool,
    pub type_name: Option<&'i str>,
}

/// The message's field, or extension, with that number.
pub fn field_of<'i>(index: &Index<'i>, message: &str, number: i32) -> Option<Field<'i>>
    ensures { option_map typed_view result
        ≡ typed_in (map file_view index.now) message.now number }
{
    match index.field(message, number) {
        None => None,
        Some(field) => Some(Field {
            field_type: field.type_,
            utf8: has_to_be_utf8(index, message, number, field),
            repeated: is_repeated(field.label),
            type_name: field.type_name.as_deref(),
        }),
    }
}

/// Whether the field's values have to be UTF-8.
pub fn needs_utf8(field: &Field<'_>) -> bool
    ensures { result ≡ has_to_be_utf8 (typed_view field.now).declared.sort }
{
    match field.field_type {
        FieldType::String => field.utf8,
        _ => false,
    }
}

fn is_repeated(label: Label) -> bool
    ensures { result ≡ spec.is_repeated label }
{
    label == Label::Repeated
}

/// Whether the field is a string that a file with the syntax `proto3` declares.
#[tactic(auto, unfolding(protobuf_parse_decode::specs::Declarations::stands_in_proto3))]
fn has_to_be_utf8(
    index: &Index<'_>,
    message: &str,
    number: i32,
    field: &FieldDescriptorProto,
) -> bool
    ensures { sort_of result field.now.type_ ≡ sort_of
        (spec.stands_in_proto3 (map file_view index.now) message.now number (field_view field.now))
        field.now.type_ }
{
    match field.type_ {
        FieldType::String => path_in_proto3(index, path_declaring(index, message, number, field)),
        _ => false,
    }
}

/// The path of the file that declares the field of the message with that number.
fn path_declaring<'i>(
    index: &'i Index<'_>,
    message: &str,
    number: i32,
    field: &FieldDescriptorProto,
) -> Option<&'i str>
    ensures { option_copied result ≡ spec.path_declaring (map file_view index.now) message.now
        number (field_view field.now).extendee }
{
    match &field.extendee {
        None => match index.message(message) {
            Some(message) => Some(message.file),
            None => None,
        },
        Some(_) => match index.extension(message, number) {
            Some(extension) => Some(extension.file),
            None => None,
        },
    }
}

/// Whether a file is known by that path and has the syntax `proto3`.
fn path_in_proto3(index: &Index<'_>, path: Option<&str>) -> bool
    ensures { result
        ≡ spec.path_in_proto3 (map file_view index.now) (option_copied path.entry) }
{
    match path {
        Some(path) => match index.file(path) {
            Some(file) => is_proto3(file),
            None => false,
        },
        None => false,
    }
}

fn is_proto3(file: &FileDescriptorProto) -> bool
    ensures { result ≡ spec.is_proto3 (file_view file.now) }
{
    match &file.syntax {
        Some(syntax) => syntax.as_str() == "proto3",
        None => false,
    }
}
