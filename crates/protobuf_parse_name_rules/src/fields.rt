//! The fields that names in options mean.

ghost use Rattle.std.specs.Prelude.{◌≡◌, IfOk, map, option_map, option_to_list};
ghost use Rattle.protobuf_parse_syntax.specs.Trees.{constant_name_syntax, option_part_syntax};
ghost use Rattle.protobuf_parse_model.specs.Descriptors.{field_view, file_view};
ghost use Rattle.protobuf_parse_option_paths.specs.InnerViews.{field_found, field_of_declared};
ghost use Rattle.protobuf_parse_option_paths.specs.InnerViews.{under_full_name};
ghost use Rattle.protobuf_parse_option_paths.specs.Names as names;
ghost use Rattle.protobuf_parse_name_rules.specs.Fields as spec;
ghost use Rattle.protobuf_parse_name_rules.specs.InnerViews.{fields_seen, fields_view, sight_view};
ghost use Rattle.protobuf_parse_name_rules.specs.InnerViews.{viewpoint_view};
ghost use Rattle.protobuf_parse_name_rules.specs.Lookups as lookups;
ghost use Rattle.protobuf_parse_name_rules.specs.Options as options;

use crate::files::{NameSight, NameViewpoint};
use protobuf_parse_index::Index;
use protobuf_parse_model::{FieldDescriptorProto, Outward};
use protobuf_parse_syntax::{ConstantFieldName, ProtobufOptionNamePart};
use std::alloc::AllocError;

/// The full name of the message that the field holds.
pub fn type_name_of(field: &FieldDescriptorProto) -> &str
    ensures { result.now ≡ names.type_name_of (field_view field.now) }
{
    match &field.type_name {
        Some(name) => name,
        None => "",
    }
}

/// The field of that name of the message of that full name.
fn field_named<'a>(
    reached: &Index<'a>,
    message: &str,
    name: &str,
) -> Option<&'a FieldDescriptorProto>
    ensures { field_found result
        ≡ names.field_named (map file_view reached.now) message.now name.now }
{
    match reached.message(message) {
        Some(message) => field_called(name, &message.descriptor.field),
        None => None,
    }
}

/// The first of the fields that has the name.
fn field_called<'f>(
    name: &str,
    fields: &'f [FieldDescriptorProto],
) -> Option<&'f FieldDescriptorProto>
    ensures { field_found result ≡ names.field_called name.now (map field_view fields.now) }
{
    'each: for field in fields {
        if name == field.name.as_str() {
            return Some(field);
        }
    }
    None
}

/// The extension of the message that the name means.
fn extension_of<'a>(
    at: &NameViewpoint<'_, '_, 'a>,
    message: &str,
    name: &str,
) -> Result<Option<&'a FieldDescriptorProto>, AllocError>
    ensures { IfOk result (λ f. field_found f
        ≡ spec.extension_of (viewpoint_view at.now) message.now name.now) }
{
    match extension_meant(at, name)? {
        Some(field) => Ok(if_extends(message, field)),
        None => Ok(None),
    }
}

/// The extension that the name means.
fn extension_meant<'a>(
    at: &NameViewpoint<'_, '_, 'a>,
    name: &str,
) -> Result<Option<&'a FieldDescriptorProto>, AllocError>
    ensures { IfOk result (λ f. field_found f
        ≡ field_of_declared (spec.extension_meant (viewpoint_view at.now) name.now)) }
{
    let mut names = Outward::new(at.alloc, at.scope, name)?;
    'names: loop {
        if let Some(field) = declared(at.sight, names.first()) {
            return Ok(Some(field));
        }
        match names.rest()? {
            Some(rest) => names = rest,
            None => return Ok(None),
        }
    }
}

/// The extension of that full name.
fn declared<'a>(sight: &NameSight<'_, 'a>, name: &str) -> Option<&'a FieldDescriptorProto>
    ensures { option_map (under_full_name name.now) result
        ≡ lookups.extensions (sight_view sight.now) name.now }
{
    match sight.index.extension_by_name(name) {
        Some(extension) if sight.paths.contains(extension.file) => Some(extension.descriptor),
        _ => None,
    }
}

/// The extension, if it is one of the message.
fn if_extends<'a>(
    message: &str,
    field: &'a FieldDescriptorProto,
) -> Option<&'a FieldDescriptorProto>
    ensures { field_found result ≡ names.if_extends message.now (field_view field.now) }
{
    match &field.extendee {
        Some(extendee) if extendee.as_str() == message => Some(field),
        _ => None,
    }
}

/// The field of the message that a part of an option's name means.
fn part_field<'a>(
    at: &NameViewpoint<'_, '_, 'a>,
    message: &str,
    part: &ProtobufOptionNamePart,
) -> Result<Option<&'a FieldDescriptorProto>, AllocError>
    ensures { IfOk result (λ f. field_found f
        ≡ spec.part_field (viewpoint_view at.now) message.now (option_part_syntax part.now)) }
{
    match part {
        ProtobufOptionNamePart::Direct(name) => Ok(field_named(at.sight.index, message, name)),
        ProtobufOptionNamePart::Ext(name) => extension_of(at, message, name),
    }
}

/// The field of the message that a name in a constant for it means.
pub fn constant_field<'a>(
    at: &NameViewpoint<'_, '_, 'a>,
    message: &str,
    name: &ConstantFieldName,
) -> Result<Option<&'a FieldDescriptorProto>, AllocError>
    ensures { IfOk result (λ f. field_found f
        ≡ spec.constant_field (viewpoint_view at.now) message.now
        (constant_name_syntax name.now)) }
{
    match name {
        ConstantFieldName::Regular(name) => Ok(field_named(at.sight.index, message, name)),
        ConstantFieldName::Extension(name) => extension_of(at, message, name),
        ConstantFieldName::AnyUrl(_) => Ok(None),
    }
}

/// The fields that the parts lead through, from the message on.
pub fn fields_through<'a>(
    at: &NameViewpoint<'_, '_, 'a>,
    message: &str,
    parts: &[ProtobufOptionNamePart],
) -> Result<Option<Vec<&'a FieldDescriptorProto>>, AllocError>
    ensures { IfOk result (λ fs. fields_seen fs
        ≡ spec.fields_through (viewpoint_view at.now) message.now
        (map option_part_syntax parts.now)) }
{
    let mut fields = Vec::new(at.alloc);
    let mut holder = message;
    'each: for part in parts {
        let Some(field) = part_field(at, holder, part)? else {
            return Ok(None);
        };
        fields.push(field)?;
        holder = type_name_of(field);
    }
    Ok(Some(fields))
}

/// The last of the fields.
pub fn last_field<'a>(fields: &[&'a FieldDescriptorProto]) -> Option<&'a FieldDescriptorProto>
    ensures { option_to_list (field_found result) ≡ options.last_of (fields_view fields.now) }
{
    match fields.last() {
        Some(field) => Some(*field),
        None => None,
    }
}
