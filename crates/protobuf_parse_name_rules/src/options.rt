//! Options of lists and bodies: T14, and their constants.

ghost use Rattle.std.specs.Prelude.{◌≡◌, ◌++◌, flat_map, map, IfOk, OnOk};
ghost use Rattle.protobuf_parse_syntax.specs.Trees.{option_part_syntax, option_syntax};
ghost use Rattle.protobuf_parse_model.specs.declared.customs.Construct.{Construct};
ghost use Rattle.protobuf_parse_option_paths.specs.Names as names;
ghost use Rattle.protobuf_parse_text_rules.specs.OptionViews.{options_view};
ghost use Rattle.protobuf_parse_text_rules.specs.Views.{told};
ghost use Rattle.protobuf_parse_name_rules.specs.Fields as fields;
ghost use Rattle.protobuf_parse_name_rules.specs.InnerViews.{custom_view, custom_of};
ghost use Rattle.protobuf_parse_name_rules.specs.InnerViews.{viewpoint_view};
ghost use Rattle.protobuf_parse_name_rules.specs.Options as spec;

use crate::again::tell_set_again;
use crate::constants::check_value;
use crate::fields::{fields_through, last_field};
use crate::files::NameViewpoint;
use crate::names::check_option_names;
use protobuf_parse_model::{Construct, FieldDescriptorProto};
use protobuf_parse_syntax::{ProtobufOption, ProtobufOptionName, ProtobufOptionNamePart};
use protobuf_parse_text_rules::TextViolation;
use std::alloc::{AllocError, Global};

/// A custom option whose name leads somewhere.
#[derive(Drop)]
pub struct CustomOption<'t, 'a> {
    pub option: &'t ProtobufOption,
    /// Its name.
    pub parts: &'t [ProtobufOptionNamePart],
    /// The fields that its name leads through.
    pub fields: Vec<&'a FieldDescriptorProto>,
}

/// Tells what is wrong with the options of brackets.
pub fn check_list(
    at: &NameViewpoint<'_, '_, '_>,
    found: &mut Vec<TextViolation>,
    construct: Construct,
    options: &[ProtobufOption],
) -> Result<(), AllocError>
    ensures { OnOk result (told found.new ≡ told found.old
        ++ spec.option_breaches (viewpoint_view at.now) construct
        (map option_syntax options.now)) }
{
    if options.is_empty() {
        return Ok(());
    }
    let listed = references(at.alloc, options)?;
    check_options(at, found, construct, &listed)
}

fn references<'a>(
    alloc: Global,
    options: &'a [ProtobufOption],
) -> Result<Vec<&'a ProtobufOption>, AllocError>
    ensures { IfOk result (λ v. options_view v.items ≡ map option_syntax options.now) }
{
    let mut listed = Vec::with_capacity(alloc, options.len())?;
    'options: for option in options {
        listed.push(option)?;
    }
    Ok(listed)
}

/// Tells what is wrong with the options of a list or a body.
pub fn check_options(
    at: &NameViewpoint<'_, '_, '_>,
    found: &mut Vec<TextViolation>,
    construct: Construct,
    options: &[&ProtobufOption],
) -> Result<(), AllocError>
    ensures { OnOk result (told found.new ≡ told found.old
        ++ spec.option_breaches (viewpoint_view at.now) construct (options_view options.now)) }
{
    check_option_names(at, found, options)?;
    let customs = custom_options(at, construct, options)?;
    tell_set_again(at, found, &customs)?;
    check_constants(at, found, &customs)
}

/// The custom ones whose names lead somewhere, in order.
fn custom_options<'t, 'a>(
    at: &NameViewpoint<'_, '_, 'a>,
    construct: Construct,
    options: &[&'t ProtobufOption],
) -> Result<Vec<CustomOption<'t, 'a>>, AllocError>
    ensures { IfOk result (λ v. map custom_view v.items
        ≡ fields.custom_options (viewpoint_view at.now) construct (options_view options.now)) }
{
    let mut customs = Vec::new(at.alloc);
    'options: for option in options {
        add_custom(at, construct, &mut customs, option)?;
    }
    Ok(customs)
}

fn add_custom<'t, 'a>(
    at: &NameViewpoint<'_, '_, 'a>,
    construct: Construct,
    customs: &mut Vec<CustomOption<'t, 'a>>,
    option: &'t ProtobufOption,
) -> Result<(), AllocError>
    ensures { OnOk result (map custom_view customs.new.items ≡ map custom_view customs.old.items
        ++ custom_of (viewpoint_view at.now) construct (option_syntax option.now)) }
{
    let ProtobufOptionName::Custom(parts) = &option.name else {
        return Ok(());
    };
    match fields_through(at, options_message(construct), parts)? {
        Some(fields) => {
            customs.push(CustomOption {
                option,
                parts,
                fields,
            })?;
            Ok(())
        }
        None => Ok(()),
    }
}

/// The full name of the options message of the construct.
fn options_message(construct: Construct) -> &'static str
    ensures { result.now ≡ names.options_message construct }
{
    match construct {
        Construct::File => ".google.protobuf.FileOptions",
        Construct::Message => ".google.protobuf.MessageOptions",
        Construct::Field => ".google.protobuf.FieldOptions",
        Construct::Oneof => ".google.protobuf.OneofOptions",
        Construct::Enum => ".google.protobuf.EnumOptions",
        Construct::EnumValue => ".google.protobuf.EnumValueOptions",
        Construct::Service => ".google.protobuf.ServiceOptions",
        Construct::Method => ".google.protobuf.MethodOptions",
    }
}

// ---- constants

/// Tells what is wrong with the constants of the options.
fn check_constants(
    at: &NameViewpoint<'_, '_, '_>,
    found: &mut Vec<TextViolation>,
    customs: &[CustomOption<'_, '_>],
) -> Result<(), AllocError>
    ensures { OnOk result (told found.new ≡ told found.old
        ++ flat_map (spec.constant_breaches (viewpoint_view at.now))
        (map custom_view customs.now)) }
{
    'customs: for custom in customs {
        check_constant(at, found, custom)?;
    }
    Ok(())
}

fn check_constant(
    at: &NameViewpoint<'_, '_, '_>,
    found: &mut Vec<TextViolation>,
    custom: &CustomOption<'_, '_>,
) -> Result<(), AllocError>
    ensures { OnOk result (told found.new ≡ told found.old
        ++ spec.constant_breaches (viewpoint_view at.now) (custom_view custom.now)) }
{
    match last_field(&custom.fields) {
        Some(field) => check_value(at, found, custom.option.place, field, &custom.option.value),
        None => Ok(()),
    }
}
