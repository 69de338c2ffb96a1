//! What files declare of a message's fields.

ghost use Rattle.std.specs.Prelude.{◌≡◌, ◌<◌, ◌^◌, map, option_map};
ghost use Rattle.std.specs.Option.{option_copied};
ghost use Rattle.protobuf_parse_model.specs.Descriptors.{field_view, file_view};
ghost use Rattle.protobuf_parse_decode.specs.Answers.{Gives, found};
ghost use Rattle.protobuf_parse_decode.specs.Declarations as spec;
ghost use Rattle.protobuf_parse_decode.specs.Sorts.{sort_of};
ghost use Rattle.protobuf_parse_decode.specs.Inside.{declared_view};

use crate::fault::{DecodeError, DecodeFaultKind, fault};
use protobuf_parse_index::Index;
use protobuf_parse_model::{FieldDescriptorProto, FieldType, FileDescriptorProto, Label};

/// What a field's declaration says of its bytes.
#[derive(Clone, Copy)]
pub struct Declared<'i> {
    pub field_type: FieldType,
    /// Whether it is a string, which has to be UTF-8.
    pub utf8: bool,
    pub repeated: bool,
    pub type_name: Option<&'i str>,
}

/// The name of a message that the files declare. `at` is where the record stands that holds one.
#[tactic(auto, unfolding(crate::specs::Declarations::entered))]
pub fn message_name<'n>(
    index: &Index<'_>,
    at: usize,
    name: Option<&'n str>,
) -> Result<&'n str, DecodeError>
    ensures { Gives (λ n. spec.declared_in (map file_view index.now) n.now) result
        (found at (spec.entered (map file_view index.now) (option_copied name.entry))) }
{
    let Some(name) = name else {
        return Err(fault(at, DecodeFaultKind::NoSuchMessage));
    };
    match index.message(name) {
        Some(_) => Ok(name),
        None => Err(fault(at, DecodeFaultKind::NoSuchMessage)),
    }
}

/// The declaration of the message's field, or extension, with that number.
#[tactic(auto, unfolding(crate::specs::Declarations::declared_in))]
pub fn declaration_of<'i>(index: &Index<'i>, message: &str, number: u32) -> Option<Declared<'i>>
    requires { number < 2 ^ 31 }
    ensures { option_map declared_view result
        ≡ spec.declared_in (map file_view index.now) message.now number }
{
    let number = number as i32;
    match index.field(message, number) {
        None => None,
        Some(field) => Some(Declared {
            field_type: field.type_,
            utf8: has_to_be_utf8(index, message, number, field),
            repeated: is_repeated(field.label),
            type_name: field.type_name.as_deref(),
        }),
    }
}

fn is_repeated(label: Label) -> bool
    ensures { result ≡ spec.is_repeated label }
{
    label == Label::Repeated
}

/// Whether the field is a string that a file with the syntax `proto3` declares.
#[tactic(auto, unfolding(crate::specs::Declarations::stands_in_proto3))]
fn has_to_be_utf8(
    index: &Index<'_>,
    message: &str,
    number: i32,
    field: &FieldDescriptorProto,
) -> bool
    ensures { sort_of result field.now.type_ ≡ sort_of
        (spec.stands_in_proto3 (map file_view index.now) message.now number (field_view field.now))
        field.now.type_ }
{
    match field.type_ {
        FieldType::String => path_in_proto3(index, path_declaring(index, message, number, field)),
        _ => false,
    }
}

/// The path of the file that declares the field of the message with that number.
fn path_declaring<'i>(
    index: &'i Index<'_>,
    message: &str,
    number: i32,
    field: &FieldDescriptorProto,
) -> Option<&'i str>
    ensures { option_copied result ≡ spec.path_declaring (map file_view index.now) message.now
        number (field_view field.now).extendee }
{
    match &field.extendee {
        None => match index.message(message) {
            Some(message) => Some(message.file),
            None => None,
        },
        Some(_) => match index.extension(message, number) {
            Some(extension) => Some(extension.file),
            None => None,
        },
    }
}

/// Whether a file is known by that path and has the syntax `proto3`.
fn path_in_proto3(index: &Index<'_>, path: Option<&str>) -> bool
    ensures { result
        ≡ spec.path_in_proto3 (map file_view index.now) (option_copied path.entry) }
{
    match path {
        Some(path) => match index.file(path) {
            Some(file) => is_proto3(file),
            None => false,
        },
        None => false,
    }
}

fn is_proto3(file: &FileDescriptorProto) -> bool
    ensures { result ≡ spec.is_proto3 (file_view file.now) }
{
    match &file.syntax {
        Some(syntax) => syntax.as_str() == "proto3",
        None => false,
    }
}
