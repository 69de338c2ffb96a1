//! The fields that names in options mean.

ghost use Rattle.std.specs.Prelude.{◌≡◌, Some, string_bytes, IfOk};
ghost use Rattle.protobuf_parse_syntax.specs.Trees.{constant_name_syntax, option_part_syntax};
ghost use Rattle.protobuf_parse_model.specs.Descriptors.{field_view};
ghost use Rattle.protobuf_parse_options.specs.CustomFaults.{bracketed, constant_name_faults};
ghost use Rattle.protobuf_parse_options.specs.CustomFaults.{extension_name_faults};
ghost use Rattle.protobuf_parse_options.specs.CustomFaults.{field_name_faults};
ghost use Rattle.protobuf_parse_options.specs.CustomFaults.{part_faults};
ghost use Rattle.protobuf_parse_options.specs.Given.{option_scope_view};
ghost use Rattle.protobuf_parse_options.specs.Holding.{files_seen};
ghost use Rattle.protobuf_parse_options.specs.Views.{field_seen};
ghost use Rattle.protobuf_parse_options.specs.OptionFields.{constant_field, extends_message};
ghost use Rattle.protobuf_parse_options.specs.OptionFields.{extension_meant, extension_named};
ghost use Rattle.protobuf_parse_options.specs.OptionFields.{field_named, part_field, type_name_of};
ghost use Rattle.protobuf_parse_options.specs.Refusals.{Gives};

use crate::lookup;
use crate::refuse::{OptionFailure, wrong};
use crate::viewpoint::OptionViewpoint;
use protobuf_parse_model::{ElabErrorKind, FieldDescriptorProto};
use protobuf_parse_syntax::{ConstantFieldName, ProtobufOptionNamePart};
use std::alloc::{AllocError, Global};

/// The full name of the field's message or enum.
pub fn type_name_of(field: &FieldDescriptorProto) -> &str
    ensures { result.now ≡ type_name_of (field_view field.now) }
{
    match &field.type_name {
        Some(name) => name,
        None => "",
    }
}

/// The field of that name of the message. E17 where it has none.
fn named_field<'a>(
    alloc: Global,
    at: &OptionViewpoint<'_, 'a>,
    message: &str,
    name: &str,
) -> Result<&'a FieldDescriptorProto, OptionFailure>
    ensures { let s = option_scope_view at.now in
        Gives (λ f. Some (field_seen f)) result (field_name_faults s message.now name.now)
        (field_named s.files message.now name.now) }
{
    match lookup::field_named(at.customs, message, name) {
        Some(field) => Ok(field),
        None => Err(wrong(alloc, ElabErrorKind::UnknownFieldName, name)),
    }
}

/// The extension of the message that the name means. E14 where it means none, E15 where it extends
/// no such message.
fn named_extension<'a>(
    alloc: Global,
    at: &OptionViewpoint<'_, 'a>,
    message: &str,
    name: &str,
) -> Result<&'a FieldDescriptorProto, OptionFailure>
    ensures { let s = option_scope_view at.now in
        Gives (λ f. Some (field_seen f)) result
        (extension_name_faults s.files message.now name.now (extension_meant s name.now))
        (extension_named s message.now name.now) }
{
    let Some(field) = lookup::extension_meant(alloc, at.customs, at.scope, name)? else {
        return Err(wrong(alloc, ElabErrorKind::ExtensionNotFound, name));
    };
    if !extends_message(at, message, field) {
        return Err(wrong(alloc, ElabErrorKind::WrongExtensionType, name));
    }
    Ok(field)
}

/// Whether the field extends the message of that full name.
fn extends_message(
    at: &OptionViewpoint<'_, '_>,
    message: &str,
    field: &FieldDescriptorProto,
) -> bool
    ensures { result ≡ extends_message (files_seen at.now.customs.now.reach) message.now
        (field_view field.now) }
{
    let Some(extendee) = &field.extendee else {
        return false;
    };
    message == extendee.as_str() && at.is_message(message)
}

/// The field of the message that a part of an option's name means.
pub fn part_field<'a>(
    alloc: Global,
    at: &OptionViewpoint<'_, 'a>,
    message: &str,
    part: &ProtobufOptionNamePart,
) -> Result<&'a FieldDescriptorProto, OptionFailure>
    ensures { let s = option_scope_view at.now in let p = option_part_syntax part.now in
        Gives (λ f. Some (field_seen f)) result (part_faults s message.now p)
        (part_field s message.now p) }
{
    match part {
        ProtobufOptionNamePart::Direct(name) => named_field(alloc, at, message, name),
        ProtobufOptionNamePart::Ext(name) => named_extension(alloc, at, message, name),
    }
}

/// The field of the message that a name in a constant for it means. E26 for a type URL.
pub fn constant_field<'a>(
    alloc: Global,
    at: &OptionViewpoint<'_, 'a>,
    message: &str,
    name: &ConstantFieldName,
) -> Result<&'a FieldDescriptorProto, OptionFailure>
    ensures { let s = option_scope_view at.now in let n = constant_name_syntax name.now in
        Gives (λ f. Some (field_seen f)) result (constant_name_faults s message.now n)
        (constant_field s message.now n) }
{
    match name {
        ConstantFieldName::Regular(name) => named_field(alloc, at, message, name),
        ConstantFieldName::Extension(name) => named_extension(alloc, at, message, name),
        ConstantFieldName::AnyUrl(name) => {
            let name = bracketed(alloc, name)?;
            Err(wrong(alloc, ElabErrorKind::TypeUrlInConstant, &name))
        }
    }
}

fn bracketed(alloc: Global, name: &str) -> Result<String, AllocError>
    ensures { IfOk result (λ s. string_bytes s ≡ bracketed name.now) }
{
    format!(in alloc; "[{name}]")
}
