//! Message constants: T15 to T18.

ghost use Rattle.std.specs.Prelude.{◌≡◌, ◌++◌, flat_map, map, OnOk};
ghost use Rattle.protobuf_parse_syntax.specs.InnerViews.{constant_field_syntax};
ghost use Rattle.protobuf_parse_syntax.specs.Trees.{constant_syntax};
ghost use Rattle.protobuf_parse_model.specs.Descriptors.{field_view};
ghost use Rattle.protobuf_parse_text_rules.specs.Options.{is_list};
ghost use Rattle.protobuf_parse_text_rules.specs.Views.{told};
ghost use Rattle.protobuf_parse_name_rules.specs.Constants as spec;
ghost use Rattle.protobuf_parse_name_rules.specs.InnerViews.{member_breaches, message_breaches};
ghost use Rattle.protobuf_parse_name_rules.specs.InnerViews.{viewpoint_view};

use crate::fields::{constant_field, type_name_of};
use crate::files::NameViewpoint;
use crate::given::{check_own, is_repeated, name_text};
use protobuf_parse_lexer::Place;
use protobuf_parse_model::FieldDescriptorProto;
use protobuf_parse_syntax::{ConstantField, ProtobufConstant};
use protobuf_parse_text_rules::{TextRule, TextViolation, tell_if};
use std::alloc::AllocError;

/// Tells what is wrong with a constant that the field has, at the place of its option.
#[cycle(constant)]
pub fn check_value(
    at: &NameViewpoint<'_, '_, '_>,
    found: &mut Vec<TextViolation>,
    place: Place,
    field: &FieldDescriptorProto,
    value: &ProtobufConstant,
) -> Result<(), AllocError>
    ensures { OnOk result (told found.new ≡ told found.old
        ++ spec.value_breaches (viewpoint_view at.now) place (field_view field.now)
        (constant_syntax value.now)) }
{
    match value {
        ProtobufConstant::List(items) => check_items(at, found, place, field, items),
        ProtobufConstant::Message(fields) => {
            check_message(at, found, place, type_name_of(field), fields)
        }
        _ => Ok(()),
    }
}

#[cycle(constant)]
fn check_items(
    at: &NameViewpoint<'_, '_, '_>,
    found: &mut Vec<TextViolation>,
    place: Place,
    field: &FieldDescriptorProto,
    items: &[ProtobufConstant],
) -> Result<(), AllocError>
    ensures { OnOk result (told found.new ≡ told found.old
        ++ flat_map (spec.value_breaches (viewpoint_view at.now) place (field_view field.now))
        (map constant_syntax items.now)) }
{
    'items: for item in items {
        check_value(at, found, place, field, item)?;
    }
    Ok(())
}

/// Tells what is wrong with a constant for the message, if some file declares that.
#[cycle(constant)]
fn check_message(
    at: &NameViewpoint<'_, '_, '_>,
    found: &mut Vec<TextViolation>,
    place: Place,
    message: &str,
    fields: &[ConstantField],
) -> Result<(), AllocError>
    ensures { OnOk result (told found.new ≡ told found.old
        ++ message_breaches (viewpoint_view at.now) place message.now
        (map constant_field_syntax fields.now)) }
{
    let Some(declared) = at.sight.index.message(message) else {
        return Ok(());
    };
    check_own(at, found, place, message, declared.descriptor, fields)?;
    check_members(at, found, place, message, fields)
}

#[cycle(constant)]
fn check_members(
    at: &NameViewpoint<'_, '_, '_>,
    found: &mut Vec<TextViolation>,
    place: Place,
    message: &str,
    fields: &[ConstantField],
) -> Result<(), AllocError>
    ensures { OnOk result (told found.new ≡ told found.old
        ++ flat_map (member_breaches (viewpoint_view at.now) place message.now)
        (map constant_field_syntax fields.now)) }
{
    'fields: for field in fields {
        check_member(at, found, place, message, field)?;
    }
    Ok(())
}

/// Tells what is wrong with the value of a field of a constant for the message.
#[cycle(constant)]
fn check_member(
    at: &NameViewpoint<'_, '_, '_>,
    found: &mut Vec<TextViolation>,
    place: Place,
    message: &str,
    field: &ConstantField,
) -> Result<(), AllocError>
    ensures { OnOk result (told found.new ≡ told found.old
        ++ member_breaches (viewpoint_view at.now) place message.now
        (constant_field_syntax field.now)) }
{
    let Some(meant) = constant_field(at, message, &field.name)? else {
        return Ok(());
    };
    let listed = is_list(&field.value) && !is_repeated(meant);
    let rule = TextRule::ListForSingular;
    tell_if(at.alloc, found, listed, rule, place, name_text(&field.name))?;
    check_value(at, found, place, meant, &field.value)
}

fn is_list(constant: &ProtobufConstant) -> bool
    ensures { result ≡ is_list (constant_syntax constant.now) }
{
    matches!(constant, ProtobufConstant::List(_))
}
