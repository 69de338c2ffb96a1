//! The bytes that strings stand for.

ghost use Rattle.std.specs.Prelude.{unwrap_or, []};
ghost use Rattle.protobuf_parse_lexer.specs.Decoder.{decode, text_of};
ghost use Rattle.protobuf_parse_syntax.specs.Trees.{pieces_of};
ghost use Rattle.protobuf_parse_model.specs.BuiltinOptions.{string_faults};
ghost use Rattle.protobuf_parse_model.specs.Descriptors.{field_view};
ghost use Rattle.protobuf_parse_model.specs.Duplicates as duplicates;
ghost use Rattle.protobuf_parse_model.specs.declared.error.ElabErrorKind.TheVariants.{StrLitDecode};
ghost use Rattle.protobuf_parse_options.specs.CustomFaults.{string_value_faults};
ghost use Rattle.protobuf_parse_options.specs.Given.{path_said};
ghost use Rattle.protobuf_parse_options.specs.OptionFields.{type_takes};
ghost use Rattle.protobuf_parse_options.specs.Refusals.{Gives, Refuses};

use crate::refuse::{OptionFailure, not_taken, wrong};
use protobuf_parse_elaboration::{decoded_bytes, decoded_text};
use protobuf_parse_model::{ElabErrorKind, FieldDescriptorProto, FieldType, path_text};
use protobuf_parse_syntax::{ProtobufOptionNamePart, StrLit};
use std::alloc::Global;

/// The bytes of the string that the option of that name gives to the field. E9 for one that says
/// nothing, of a text field too for one that is no text.
pub fn bytes_given(
    alloc: Global,
    option: &[ProtobufOptionNamePart],
    field: &FieldDescriptorProto,
    string: &StrLit,
) -> Result<Vec<u8>, OptionFailure>
    ensures { let f = field_view field.now in let pieces = pieces_of string.now in
        Gives (λ v. v.items) result
        (string_value_faults (path_said option.now) f.name (type_takes f.type_) pieces)
        (unwrap_or (decode pieces) []) }
{
    match field.type_ {
        FieldType::String => text_said(alloc, option, string),
        FieldType::Bytes => bytes_said(alloc, option, string),
        _ => Err(not_taken(alloc, field)),
    }
}

fn text_said(
    alloc: Global,
    option: &[ProtobufOptionNamePart],
    string: &StrLit,
) -> Result<Vec<u8>, OptionFailure>
    ensures { let pieces = pieces_of string.now in
        Gives (λ v. v.items) result (string_faults (path_said option.now) (text_of pieces))
        (unwrap_or (decode pieces) []) }
{
    match decoded_text(alloc, string)? {
        Some(text) => Ok(text.into_bytes()),
        None => Err(says_nothing(alloc, option)),
    }
}

fn bytes_said(
    alloc: Global,
    option: &[ProtobufOptionNamePart],
    string: &StrLit,
) -> Result<Vec<u8>, OptionFailure>
    ensures { let pieces = pieces_of string.now in
        Gives (λ v. v.items) result (string_faults (path_said option.now) (decode pieces))
        (unwrap_or (decode pieces) []) }
{
    match decoded_bytes(alloc, string)? {
        Some(bytes) => Ok(bytes),
        None => Err(says_nothing(alloc, option)),
    }
}

/// The failure for a string that says nothing, by the option's name: E9.
fn says_nothing(alloc: Global, option: &[ProtobufOptionNamePart]) -> OptionFailure
    ensures { Refuses result (duplicates.fault StrLitDecode (path_said option.now)) }
{
    match path_text(alloc, option) {
        Ok(name) => wrong(alloc, ElabErrorKind::StrLitDecode, &name),
        Err(_) => OptionFailure::Memory,
    }
}
