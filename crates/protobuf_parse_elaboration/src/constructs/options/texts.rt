//! The texts of a field's descriptor that its options set: the default and the JSON name.

ghost use Rattle.std.specs.Prelude.{◌≡◌, ◌++◌, [], codes, option_map, string_bytes, IfOk};
ghost use Rattle.protobuf_parse_base.specs.DeclaredNames.{name_bytes};
ghost use Rattle.protobuf_parse_syntax.specs.Trees.{constant_syntax};
ghost use Rattle.protobuf_parse_syntax.specs.Formats.{format};
ghost use Rattle.protobuf_parse_model.specs.Duplicates.{fault};
ghost use Rattle.protobuf_parse_model.specs.Faults.{placed};
ghost use Rattle.protobuf_parse_model.specs.declared.error.ElabErrorKind.TheVariants.{DefaultValueIsNotStringLiteral};
ghost use Rattle.protobuf_parse_model.specs.declared.error.ElabErrorKind.TheVariants.{WrongOptionType};
ghost use Rattle.protobuf_parse_model.specs.BuiltinOptions.{options_seen};
ghost use Rattle.protobuf_parse_elaboration.specs.Fields as spec;
ghost use Rattle.protobuf_parse_elaboration.specs.Telling.{Tells};

use crate::constructs::options::said::first_named;
use crate::constructs::options::strings::{bytes_given, text_given};
use protobuf_parse_base::Name;
use protobuf_parse_base::text::{escape_bytes, json_name};
use protobuf_parse_lexer::Place;
use protobuf_parse_model::{ElabError, ElabErrorKind, FieldType, tell};
use protobuf_parse_syntax::{ProtobufConstant, ProtobufOption};
use std::alloc::{AllocError, Global};

/// The default of the field of that type and name, where its options set one. E8 where the default
/// of a string or of bytes is no string, E9 where it is a string that says nothing.
pub fn default_value(
    alloc: Global,
    faults: &mut Vec<ElabError>,
    kind: FieldType,
    name: &str,
    options: &[&ProtobufOption],
) -> Result<Option<String>, AllocError>
    ensures value { IfOk result (λ o. option_map string_bytes o
        ≡ spec.default_of kind (options_seen options.now)) }
    ensures faults { Tells result faults.old faults.new
        (spec.default_faults kind name.now (options_seen options.now)) }
{
    match first_named(options, "default") {
        Some(option) => {
            let text = default_text(alloc, faults, option.place, kind, name, &option.value)?;
            Ok(Some(text))
        }
        None => Ok(None),
    }
}

/// How a default is written in the descriptor of the field of that type and name.
fn default_text(
    alloc: Global,
    faults: &mut Vec<ElabError>,
    place: Place,
    kind: FieldType,
    name: &str,
    value: &ProtobufConstant,
) -> Result<String, AllocError>
    ensures value { IfOk result
        (λ s. string_bytes s ≡ spec.default_text kind (constant_syntax value.now)) }
    ensures faults { Tells result faults.old faults.new
        (placed place (spec.default_value_faults kind name.now (constant_syntax value.now))) }
{
    match kind {
        FieldType::String => string_default(alloc, faults, place, name, value),
        FieldType::Bytes => bytes_default(alloc, faults, place, name, value),
        _ => value.format(alloc),
    }
}

fn string_default(
    alloc: Global,
    faults: &mut Vec<ElabError>,
    place: Place,
    name: &str,
    value: &ProtobufConstant,
) -> Result<String, AllocError>
    ensures value { IfOk result
        (λ s. string_bytes s ≡ spec.default_text FieldType.String (constant_syntax value.now)) }
    ensures faults { Tells result faults.old faults.new
        (placed place (spec.default_value_faults FieldType.String name.now
        (constant_syntax value.now))) }
{
    match value {
        ProtobufConstant::String(string) => text_given(alloc, faults, place, "default", string),
        _ => no_string(alloc, faults, place, name, value),
    }
}

fn bytes_default(
    alloc: Global,
    faults: &mut Vec<ElabError>,
    place: Place,
    name: &str,
    value: &ProtobufConstant,
) -> Result<String, AllocError>
    ensures value { IfOk result
        (λ s. string_bytes s ≡ spec.default_text FieldType.Bytes (constant_syntax value.now)) }
    ensures faults { Tells result faults.old faults.new
        (placed place (spec.default_value_faults FieldType.Bytes name.now
        (constant_syntax value.now))) }
{
    match value {
        ProtobufConstant::String(string) => {
            let bytes = bytes_given(alloc, faults, place, "default", string)?;
            escape_bytes(alloc, &bytes)
        }
        _ => no_string(alloc, faults, place, name, value),
    }
}

/// A default as it is written that was to be a string: E8.
fn no_string(
    alloc: Global,
    faults: &mut Vec<ElabError>,
    place: Place,
    name: &str,
    value: &ProtobufConstant,
) -> Result<String, AllocError>
    ensures value { IfOk result (λ s. string_bytes s ≡ format (constant_syntax value.now)) }
    ensures faults { Tells result faults.old faults.new
        (placed place (fault DefaultValueIsNotStringLiteral name.now)) }
{
    let kind = ElabErrorKind::DefaultValueIsNotStringLiteral;
    tell(alloc, faults, place, kind, name)?;
    value.format(alloc)
}

/// The JSON name of the field of that name: as its options set it, or from the name. E10 where it
/// is set to no string, E9 where to a string that is no text.
pub fn json_name_of(
    alloc: Global,
    faults: &mut Vec<ElabError>,
    name: &str,
    options: &[&ProtobufOption],
) -> Result<Name, AllocError>
    ensures value { IfOk result
        (λ n. name_bytes n ≡ spec.field_json_name name.now (options_seen options.now)) }
    ensures faults { Tells result faults.old faults.new
        (spec.json_name_faults (options_seen options.now)) }
{
    match first_named(options, "json_name") {
        Some(option) => json_name_said(alloc, faults, option.place, &option.value),
        None => json_name(alloc, name),
    }
}

/// The JSON name that an option says, empty where it says none.
fn json_name_said(
    alloc: Global,
    faults: &mut Vec<ElabError>,
    place: Place,
    value: &ProtobufConstant,
) -> Result<Name, AllocError>
    ensures value { IfOk result
        (λ n. name_bytes n ≡ spec.json_value_said (constant_syntax value.now)) }
    ensures faults { Tells result faults.old faults.new
        (placed place (spec.json_value_faults (constant_syntax value.now))) }
{
    match value {
        ProtobufConstant::String(string) => {
            let text = text_given(alloc, faults, place, "json_name", string)?;
            Ok(Name::from(text))
        }
        _ => no_name(alloc, faults, place),
    }
}

/// No name, where a JSON name was to be a string: E10.
fn no_name(alloc: Global, faults: &mut Vec<ElabError>, place: Place) -> Result<Name, AllocError>
    ensures value { IfOk result (λ n. name_bytes n ≡ []) }
    ensures faults { Tells result faults.old faults.new
        (placed place (fault WrongOptionType (codes "json_name"))) }
{
    let kind = ElabErrorKind::WrongOptionType;
    tell(alloc, faults, place, kind, "json_name")?;
    Name::new(alloc, "")
}
