//! Fields and extensions.

ghost use Rattle.std.specs.Prelude.{◌≡◌, ◌++◌, [], OnOk, flat_map, map, option_map};
ghost use Rattle.std.specs.Prelude.{string_bytes, unwrap_or};
ghost use Rattle.protobuf_parse_model.specs.Descriptors.{field_view};
ghost use Rattle.protobuf_parse_set_rules.specs.Rules as spec;
ghost use Rattle.protobuf_parse_set_rules.specs.Held.{sight_view, site_of};
ghost use Rattle.protobuf_parse_set_rules.specs.Views.{told};

use crate::names::check_name;
use crate::positions::is_position;
use crate::rule::SetRule;
use crate::sight::FileSight;
use crate::violation::{SetViolation, Spot, tell_if};
use protobuf_parse_model::{FieldDescriptorProto, FieldType, TypeKind};
use std::alloc::{AllocError, Global};

/// Tells what is wrong with the fields of a message that has so many oneofs.
pub fn check_fields(
    alloc: Global,
    found: &mut Vec<SetViolation>,
    sight: &FileSight<'_, '_>,
    file: &str,
    scope: &str,
    oneofs: usize,
    fields: &[FieldDescriptorProto],
) -> Result<(), AllocError>
    ensures { OnOk result (told found.new ≡ told found.old
        ++ flat_map (spec.field_breaches (sight_view sight.now) file.now scope.now oneofs)
        (map field_view fields.now)) }
{
    'fields: for field in fields {
        check_field(alloc, found, sight, file, scope, oneofs, field)?;
    }
    Ok(())
}

fn check_field(
    alloc: Global,
    found: &mut Vec<SetViolation>,
    sight: &FileSight<'_, '_>,
    file: &str,
    scope: &str,
    oneofs: usize,
    field: &FieldDescriptorProto,
) -> Result<(), AllocError>
    ensures { OnOk result (told found.new ≡ told found.old
        ++ spec.field_breaches (sight_view sight.now) file.now scope.now oneofs
        (field_view field.now)) }
{
    let at = Spot {
        file,
        scope,
        name: Some(&field.name),
    };
    check_both(alloc, found, sight, at, oneofs, field)?;
    let extends = field.extendee.is_some();
    let extendee = text_or_nothing(&field.extendee);
    tell_if(
        alloc,
        found,
        extends,
        at,
        SetRule::ExtendeeOfField,
        extendee,
    )
}

/// Tells what is wrong with extensions.
pub fn check_extensions(
    alloc: Global,
    found: &mut Vec<SetViolation>,
    sight: &FileSight<'_, '_>,
    file: &str,
    scope: &str,
    extensions: &[FieldDescriptorProto],
) -> Result<(), AllocError>
    ensures { OnOk result (told found.new ≡ told found.old
        ++ flat_map (spec.extension_breaches (sight_view sight.now) file.now scope.now)
        (map field_view extensions.now)) }
{
    'extensions: for extension in extensions {
        check_extension(alloc, found, sight, file, scope, extension)?;
    }
    Ok(())
}

fn check_extension(
    alloc: Global,
    found: &mut Vec<SetViolation>,
    sight: &FileSight<'_, '_>,
    file: &str,
    scope: &str,
    extension: &FieldDescriptorProto,
) -> Result<(), AllocError>
    ensures { OnOk result (told found.new ≡ told found.old
        ++ spec.extension_breaches (sight_view sight.now) file.now scope.now
        (field_view extension.now)) }
{
    let at = Spot {
        file,
        scope,
        name: Some(&extension.name),
    };
    check_both(alloc, found, sight, at, 0, extension)?;
    let unseen = meaning(sight, &extension.extendee).is_none();
    let extendee = text_or_nothing(&extension.extendee);
    tell_if(alloc, found, unseen, at, SetRule::ExtendeeNotSeen, extendee)
}

/// Tells what fields and extensions have in common.
fn check_both(
    alloc: Global,
    found: &mut Vec<SetViolation>,
    sight: &FileSight<'_, '_>,
    at: Spot<'_>,
    oneofs: usize,
    field: &FieldDescriptorProto,
) -> Result<(), AllocError>
    ensures { OnOk result (told found.new ≡ told found.old
        ++ spec.both_breaches (sight_view sight.now) (site_of at.entry) oneofs
        (field_view field.now)) }
{
    check_name(alloc, found, at, &field.name)?;
    check_type(alloc, found, sight, at, field.type_, &field.type_name)?;
    check_oneof_index(alloc, found, at, oneofs, &field.oneof_index)
}

fn check_type(
    alloc: Global,
    found: &mut Vec<SetViolation>,
    sight: &FileSight<'_, '_>,
    at: Spot<'_>,
    type_: FieldType,
    name: &Option<String>,
) -> Result<(), AllocError>
    ensures { OnOk result (told found.new ≡ told found.old
        ++ spec.type_breaches (sight_view sight.now) (site_of at.entry) type_
        (option_map string_bytes name.now)) }
{
    let wrong = !type_stands(sight, type_, name);
    let text = text_or_nothing(name);
    tell_if(alloc, found, wrong, at, SetRule::TypeNotSeen, text)
}

/// Whether a field of that type has the name of such a type.
fn type_stands(sight: &FileSight<'_, '_>, type_: FieldType, name: &Option<String>) -> bool
    ensures { result ≡ spec.type_stands (sight_view sight.now) type_
        (option_map string_bytes name.now) }
{
    match type_ {
        FieldType::Message | FieldType::Group => is_message(meaning(sight, name)),
        FieldType::Enum => is_enum(meaning(sight, name)),
        _ => true,
    }
}

fn is_message(kind: Option<TypeKind>) -> bool
    ensures { result ≡ spec.is_message kind }
{
    match kind {
        Some(TypeKind::Message) => true,
        _ => false,
    }
}

fn is_enum(kind: Option<TypeKind>) -> bool
    ensures { result ≡ spec.is_enum kind }
{
    match kind {
        Some(TypeKind::Enum) => true,
        _ => false,
    }
}

/// What the name means, if there is one.
fn meaning(sight: &FileSight<'_, '_>, name: &Option<String>) -> Option<TypeKind>
    ensures { result ≡ spec.meaning (sight_view sight.now) (option_map string_bytes name.now) }
{
    match name {
        Some(name) => sight.meaning(name),
        None => None,
    }
}

/// The text, or an empty one.
fn text_or_nothing(text: &Option<String>) -> &str
    ensures { result.now ≡ unwrap_or (option_map string_bytes text.now) [] }
{
    match text {
        Some(text) => text,
        None => "",
    }
}

fn check_oneof_index(
    alloc: Global,
    found: &mut Vec<SetViolation>,
    at: Spot<'_>,
    oneofs: usize,
    index: &Option<i32>,
) -> Result<(), AllocError>
    ensures { OnOk result (told found.new ≡ told found.old
        ++ spec.oneof_breaches (site_of at.entry) oneofs index.now) }
{
    match index {
        Some(index) => {
            let wrong = !is_position(oneofs, index);
            let rule = SetRule::NoSuchOneof { index: *index };
            tell_if(alloc, found, wrong, at, rule, "")
        }
        None => Ok(()),
    }
}
