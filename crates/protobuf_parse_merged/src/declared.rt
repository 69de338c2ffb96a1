//! What files declare of a message's fields.

ghost use Rattle.std.specs.Prelude.{◌≡◌, map, option_map};
ghost use Rattle.std.specs.Option.{option_and_then, option_copied};
ghost use Rattle.protobuf_parse_model.specs.Descriptors.{field_view, file_view, message_view};
ghost use Rattle.protobuf_parse_decode.specs.Declarations as decode;
ghost use Rattle.protobuf_parse_merged.specs.Declarations as spec;
ghost use Rattle.protobuf_parse_merged.specs.Inside.{declared_view};

use protobuf_parse_index::Index;
use protobuf_parse_model::{
    DescriptorProto, FieldDescriptorProto, FieldType, FileDescriptorProto, Label,
};
use protobuf_parse_wire::ReadValue;

/// What merging asks of a field's declaration.
#[derive(Clone, Copy)]
pub struct Declared<'i> {
    pub repeated: bool,
    /// Whether a zero says no more than that nothing is there.
    pub implicit: bool,
    /// The position of its oneof.
    pub oneof: Option<u32>,
    /// The message or the enum that it holds.
    pub type_name: &'i str,
    /// Whether that is a closed enum.
    pub closed: bool,
    /// Whether that is the entry of a map.
    pub is_map: bool,
}

/// The declaration of the message's field, or extension, with that number.
#[tactic(auto, unfolding(crate::specs::Declarations::declared_in))]
pub fn declaration_of<'i>(index: &Index<'i>, message: &str, number: u32) -> Option<Declared<'i>>
    ensures { option_map declared_view result
        ≡ spec.declared_in (map file_view index.now) message.now number }
{
    if number >= 1 << 29 {
        return None;
    }
    match index.field(message, number as i32) {
        None => None,
        Some(field) => Some(declaration(index, message, field)),
    }
}

fn declaration<'i>(
    index: &Index<'_>,
    message: &str,
    field: &'i FieldDescriptorProto,
) -> Declared<'i>
    ensures { declared_view result
        ≡ spec.declaration (map file_view index.now) message.now (field_view field.now) }
{
    let type_name = field.type_name.as_deref().unwrap_or("");
    let repeated = is_repeated(field.label);
    Declared {
        repeated,
        implicit: is_implicit(index, message, field),
        oneof: position_of(field.oneof_index),
        type_name,
        closed: is_enum(field.type_) && is_closed(index, type_name),
        is_map: repeated && is_entry_named(index, type_name),
    }
}

fn position_of(index: Option<i32>) -> Option<u32>
    ensures { result ≡ option_and_then spec.position_of index }
{
    match index {
        Some(index) => u32::try_from(index).ok(),
        None => None,
    }
}

fn is_repeated(label: Label) -> bool
    ensures { result ≡ decode.is_repeated label }
{
    label == Label::Repeated
}

fn is_enum(field_type: FieldType) -> bool
    ensures { result ≡ spec.is_enum field_type }
{
    field_type == FieldType::Enum
}

/// Whether the enum of that name is closed.
fn is_closed(index: &Index<'_>, name: &str) -> bool
    ensures { result ≡ spec.closed_named (map file_view index.now) name.now }
{
    match index.enumeration(name) {
        Some(enumeration) => !path_in_proto3(index, Some(enumeration.file)),
        None => false,
    }
}

/// Whether the enum of that name declares the number.
pub fn is_declared(index: &Index<'_>, name: &str, number: i128) -> bool
    ensures { result ≡ spec.is_declared (map file_view index.now) name.now number }
{
    index.value_read(name, &ReadValue::Number(number)).is_some()
}

/// Whether the message of that name is the entry of a map.
pub fn is_entry_named(index: &Index<'_>, name: &str) -> bool
    ensures { result ≡ spec.entry_named (map file_view index.now) name.now }
{
    match index.message(name) {
        Some(message) => is_entry(message.descriptor),
        None => false,
    }
}

fn is_entry(message: &DescriptorProto) -> bool
    ensures { result ≡ spec.is_entry (message_view message.now) }
{
    match &message.options {
        Some(options) => options.map_entry == Some(true),
        None => false,
    }
}

/// Whether the presence of the message's field is implicit.
fn is_implicit(index: &Index<'_>, message: &str, field: &FieldDescriptorProto) -> bool
    ensures { result
        ≡ spec.is_implicit (map file_view index.now) message.now (field_view field.now) }
{
    field.extendee.is_none()
        && field.oneof_index.is_none()
        && !field.proto3_optional
        && !is_entry_named(index, message)
        && is_in_proto3(index, message)
}

/// Whether the message stands in a file with the syntax `proto3`.
pub fn is_in_proto3(index: &Index<'_>, message: &str) -> bool
    ensures { result ≡ spec.stands_in_proto3 (map file_view index.now) message.now }
{
    match index.message(message) {
        Some(message) => path_in_proto3(index, Some(message.file)),
        None => path_in_proto3(index, None),
    }
}

/// Whether a file is known by that path and has the syntax `proto3`.
fn path_in_proto3(index: &Index<'_>, path: Option<&str>) -> bool
    ensures { result
        ≡ decode.path_in_proto3 (map file_view index.now) (option_copied path.entry) }
{
    match path {
        Some(path) => match index.file(path) {
            Some(file) => is_proto3(file),
            None => false,
        },
        None => false,
    }
}

fn is_proto3(file: &FileDescriptorProto) -> bool
    ensures { result ≡ decode.is_proto3 (file_view file.now) }
{
    match &file.syntax {
        Some(syntax) => syntax.as_str() == "proto3",
        None => false,
    }
}
