//! The fields that the names of options lead through.

ghost use Rattle.std.specs.Prelude.{◌≡◌, map, option_map, IfOk};
ghost use Rattle.protobuf_parse_syntax.specs.Trees.{option_name_syntax, option_part_syntax};
ghost use Rattle.protobuf_parse_model.specs.Descriptors.{field_view, file_view};
ghost use Rattle.protobuf_parse_model.specs.SeenFiles.{name_texts};
ghost use Rattle.protobuf_parse_option_paths.specs.InnerViews.{field_found, field_of_declared};
ghost use Rattle.protobuf_parse_option_paths.specs.InnerViews.{under_full_name};
ghost use Rattle.protobuf_parse_option_paths.specs.Views.{steps_seen};
ghost use Rattle.protobuf_parse_option_paths.specs.Names as spec;
ghost use Rattle.protobuf_parse_option_paths.specs.Numbers as numbers;
ghost use Rattle.protobuf_parse_option_paths.specs.Views.{files_view};

use crate::numbers::builtin_number;
use protobuf_parse_index::Index;
use protobuf_parse_model::{Construct, FieldDescriptorProto, Label, Outward};
use protobuf_parse_syntax::{ProtobufOptionName, ProtobufOptionNamePart};
use std::alloc::{AllocError, Global};
use std::collections::BTreeSet;

/// The files that the names of a file's options are looked up in.
#[derive(Clone, Copy)]
pub struct OptionFiles<'i, 'a> {
    /// Of all files that it reaches, itself among them: the messages that fields hold are of these.
    pub reached: &'i Index<'a>,
    /// The proto paths of those that it sees: itself, those that it imports, and what these import
    /// publicly. Names of extensions mean extensions of these.
    pub seen: &'i BTreeSet<&'a str>,
}

/// A field that the name of an option leads through.
#[derive(Clone, Copy, Debug, PartialEq, Eq)]
pub struct Step {
    /// The field's number.
    pub number: u32,
    /// Whether it is repeated, as a map is too.
    pub repeated: bool,
}

/// The fields that the name of an option leads through, part by part, from the options message of
/// the construct: none where a part means no field. The scope is the names of the package and of
/// the messages around the construct, the outermost first; names of extensions are looked up from
/// there. The one error is that memory is short.
///
/// ```text
/// // option (shop.owner).teams = "web";
/// option_steps(alloc, &files, Construct::Message, &["shop"], &option.name)? // [50000, 2]
/// ```
pub fn option_steps(
    alloc: Global,
    files: &OptionFiles<'_, '_>,
    construct: Construct,
    scope: &[&str],
    name: &ProtobufOptionName,
) -> Result<Option<Vec<Step>>, AllocError>
    ensures { IfOk result (λ s. steps_seen s ≡ spec.option_steps (files_view files.now) construct
        (name_texts scope.now) (option_name_syntax name.now)) }
{
    match name {
        ProtobufOptionName::Builtin(name) => builtin_steps(alloc, construct, name),
        ProtobufOptionName::Custom(parts) => {
            steps(alloc, files, scope, options_message(construct), parts)
        }
    }
}

/// The one field of a built-in option.
fn builtin_steps(
    alloc: Global,
    construct: Construct,
    name: &str,
) -> Result<Option<Vec<Step>>, AllocError>
    ensures { IfOk result (λ s. steps_seen s
        ≡ option_map spec.builtin_step (numbers.builtin_number construct name.now)) }
{
    let Some(number) = builtin_number(construct, name) else {
        return Ok(None);
    };
    let mut steps = Vec::new(alloc);
    steps.push(Step {
        number,
        repeated: false,
    })?;
    Ok(Some(steps))
}

/// The fields that the parts mean one after another, from the message on.
fn steps(
    alloc: Global,
    files: &OptionFiles<'_, '_>,
    scope: &[&str],
    message: &str,
    parts: &[ProtobufOptionNamePart],
) -> Result<Option<Vec<Step>>, AllocError>
    ensures { IfOk result (λ s. steps_seen s ≡ spec.steps (files_view files.now)
        (name_texts scope.now) message.now (map option_part_syntax parts.now)) }
{
    let mut steps = Vec::new(alloc);
    let mut holder = message;
    'each: for part in parts {
        let Some(field) = part_field(alloc, files, scope, holder, part)? else {
            return Ok(None);
        };
        steps.push(step_of(field))?;
        holder = type_name_of(field);
    }
    Ok(Some(steps))
}

fn step_of(field: &FieldDescriptorProto) -> Step
    ensures { result ≡ spec.step_of (field_view field.now) }
{
    Step {
        number: field.number.unsigned_abs(),
        repeated: matches!(field.label, Label::Repeated),
    }
}

/// The full name of the message that the field holds.
fn type_name_of(field: &FieldDescriptorProto) -> &str
    ensures { result.now ≡ spec.type_name_of (field_view field.now) }
{
    match &field.type_name {
        Some(name) => name,
        None => "",
    }
}

// ---- one part

/// The field of the message that the part means.
fn part_field<'a>(
    alloc: Global,
    files: &OptionFiles<'_, 'a>,
    scope: &[&str],
    message: &str,
    part: &ProtobufOptionNamePart,
) -> Result<Option<&'a FieldDescriptorProto>, AllocError>
    ensures { IfOk result (λ f. field_found f ≡ spec.part_field (files_view files.now)
        (name_texts scope.now) message.now (option_part_syntax part.now)) }
{
    match part {
        ProtobufOptionNamePart::Direct(name) => Ok(field_named(files.reached, message, name)),
        ProtobufOptionNamePart::Ext(name) => {
            match extension_meant(alloc, files, scope, name)? {
                Some(field) => Ok(if_extends(message, field)),
                None => Ok(None),
            }
        }
    }
}

/// The field of that name of the message of that full name.
fn field_named<'a>(
    reached: &Index<'a>,
    message: &str,
    name: &str,
) -> Option<&'a FieldDescriptorProto>
    ensures { field_found result
        ≡ spec.field_named (map file_view reached.now) message.now name.now }
{
    match reached.message(message) {
        Some(message) => field_called(name, &message.descriptor.field),
        None => None,
    }
}

/// The first of the fields that has the name.
fn field_called<'f>(
    name: &str,
    fields: &'f [FieldDescriptorProto],
) -> Option<&'f FieldDescriptorProto>
    ensures { field_found result ≡ spec.field_called name.now (map field_view fields.now) }
{
    'each: for field in fields {
        if name == field.name.as_str() {
            return Some(field);
        }
    }
    None
}

/// The extension that the name means in the scope.
fn extension_meant<'a>(
    alloc: Global,
    files: &OptionFiles<'_, 'a>,
    scope: &[&str],
    name: &str,
) -> Result<Option<&'a FieldDescriptorProto>, AllocError>
    ensures { IfOk result (λ f. field_found f ≡ field_of_declared
        (spec.extension_meant (files_view files.now) (name_texts scope.now) name.now)) }
{
    let mut names = Outward::new(alloc, scope, name)?;
    'names: loop {
        if let Some(field) = declared(files, names.first()) {
            return Ok(Some(field));
        }
        match names.rest()? {
            Some(rest) => names = rest,
            None => return Ok(None),
        }
    }
}

/// The extension of that full name, if its file is seen.
fn declared<'a>(files: &OptionFiles<'_, 'a>, name: &str) -> Option<&'a FieldDescriptorProto>
    ensures { option_map (under_full_name name.now) result
        ≡ spec.extensions (files_view files.now) name.now }
{
    let extension = files.reached.extension_by_name(name)?;
    if files.seen.contains(extension.file) {
        Some(extension.descriptor)
    } else {
        None
    }
}

/// The extension, if it is one of the message.
fn if_extends<'a>(
    message: &str,
    field: &'a FieldDescriptorProto,
) -> Option<&'a FieldDescriptorProto>
    ensures { field_found result ≡ spec.if_extends message.now (field_view field.now) }
{
    match &field.extendee {
        Some(extendee) if extendee.as_str() == message => Some(field),
        _ => None,
    }
}

/// The full name of the options message of the construct.
fn options_message(construct: Construct) -> &'static str
    ensures { result.now ≡ spec.options_message construct }
{
    match construct {
        Construct::File => ".google.protobuf.FileOptions",
        Construct::Message => ".google.protobuf.MessageOptions",
        Construct::Field => ".google.protobuf.FieldOptions",
        Construct::Oneof => ".google.protobuf.OneofOptions",
        Construct::Enum => ".google.protobuf.EnumOptions",
        Construct::EnumValue => ".google.protobuf.EnumValueOptions",
        Construct::Service => ".google.protobuf.ServiceOptions",
        Construct::Method => ".google.protobuf.MethodOptions",
    }
}
