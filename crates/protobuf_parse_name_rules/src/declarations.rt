//! Fields, oneofs, enums and services.

ghost use Rattle.std.specs.Prelude.{◌≡◌, ◌++◌, flat_map, map, IfOk, OnOk};
ghost use Rattle.protobuf_parse_syntax.specs.Trees.{enum_statement_syntax, enum_syntax};
ghost use Rattle.protobuf_parse_syntax.specs.Trees.{extend_syntax, field_statement_syntax};
ghost use Rattle.protobuf_parse_syntax.specs.Trees.{field_syntax, oneof_statement_syntax};
ghost use Rattle.protobuf_parse_syntax.specs.Trees.{oneof_syntax};
ghost use Rattle.protobuf_parse_text_rules.specs.Files as bodies;
ghost use Rattle.protobuf_parse_text_rules.specs.OptionViews.{options_view};
ghost use Rattle.protobuf_parse_text_rules.specs.Views.{told};
ghost use Rattle.protobuf_parse_name_rules.specs.Files as spec;
ghost use Rattle.protobuf_parse_name_rules.specs.InnerViews.{viewpoint_view};

use crate::files::{NameViewpoint, scope_within};
use crate::names::{check_type, check_type_name};
use crate::options::{check_list, check_options};
use protobuf_parse_model::Construct;
use protobuf_parse_syntax::{
    EnumStatement, Enumeration, Extend, Field, FieldStatement, OneOf, OneOfStatement,
    ProtobufOption,
};
use protobuf_parse_text_rules::TextViolation;
use std::alloc::{AllocError, Global};

// ---- fields

/// Tells what is wrong with the field, or with those of the group.
#[cycle(statement)]
pub fn check_statement<'t>(
    at: &NameViewpoint<'t, '_, '_>,
    found: &mut Vec<TextViolation>,
    statement: &'t FieldStatement,
) -> Result<(), AllocError>
    ensures { OnOk result (told found.new ≡ told found.old
        ++ spec.statement_breaches (viewpoint_view at.now)
        (field_statement_syntax statement.now)) }
{
    match statement {
        FieldStatement::Field(field) => check_field(at, found, field),
        FieldStatement::Group(group) => {
            let scope = scope_within(at, group.name.as_str())?;
            let inside = NameViewpoint {
                alloc: at.alloc,
                sight: at.sight,
                scope: &scope,
            };
            check_statements(&inside, found, &group.fields)
        }
    }
}

#[cycle(statement)]
fn check_statements<'t>(
    at: &NameViewpoint<'t, '_, '_>,
    found: &mut Vec<TextViolation>,
    statements: &'t [FieldStatement],
) -> Result<(), AllocError>
    ensures { OnOk result (told found.new ≡ told found.old
        ++ flat_map (spec.statement_breaches (viewpoint_view at.now))
        (map field_statement_syntax statements.now)) }
{
    'statements: for statement in statements {
        check_statement(at, found, statement)?;
    }
    Ok(())
}

fn check_field(
    at: &NameViewpoint<'_, '_, '_>,
    found: &mut Vec<TextViolation>,
    field: &Field,
) -> Result<(), AllocError>
    ensures { OnOk result (told found.new ≡ told found.old
        ++ spec.field_breaches (viewpoint_view at.now) (field_syntax field.now)) }
{
    check_type(at, found, field.place, &field.type_)?;
    check_list(at, found, Construct::Field, &field.options)
}

/// Tells what is wrong with the `extend`.
pub fn check_extend(
    at: &NameViewpoint<'_, '_, '_>,
    found: &mut Vec<TextViolation>,
    extend: &Extend,
) -> Result<(), AllocError>
    ensures { OnOk result (told found.new ≡ told found.old
        ++ spec.extend_breaches (viewpoint_view at.now) (extend_syntax extend.now)) }
{
    check_type_name(at, found, extend.place, &extend.extendee)?;
    check_statements(at, found, &extend.fields)
}

// ---- oneofs

/// Tells what is wrong with the oneof.
pub fn check_oneof(
    at: &NameViewpoint<'_, '_, '_>,
    found: &mut Vec<TextViolation>,
    oneof: &OneOf,
) -> Result<(), AllocError>
    ensures { OnOk result (told found.new ≡ told found.old
        ++ spec.oneof_breaches (viewpoint_view at.now) (oneof_syntax oneof.now)) }
{
    let options = options_of_oneof(at.alloc, &oneof.body)?;
    check_options(at, found, Construct::Oneof, &options)?;
    check_oneof_body(at, found, &oneof.body)
}

fn options_of_oneof<'a>(
    alloc: Global,
    body: &'a [OneOfStatement],
) -> Result<Vec<&'a ProtobufOption>, AllocError>
    ensures { IfOk result (λ v. options_view v.items
        ≡ flat_map bodies.option_in_oneof (map oneof_statement_syntax body.now)) }
{
    let mut options = Vec::new(alloc);
    'body: for statement in body {
        if let OneOfStatement::Option(statement) = statement {
            options.push(&statement.option)?;
        }
    }
    Ok(options)
}

fn check_oneof_body<'t>(
    at: &NameViewpoint<'t, '_, '_>,
    found: &mut Vec<TextViolation>,
    body: &'t [OneOfStatement],
) -> Result<(), AllocError>
    ensures { OnOk result (told found.new ≡ told found.old
        ++ flat_map (spec.inside_oneof (viewpoint_view at.now))
        (map oneof_statement_syntax body.now)) }
{
    'body: for statement in body {
        if let OneOfStatement::Field(field) = statement {
            check_statement(at, found, field)?;
        }
    }
    Ok(())
}

// ---- enums

/// Tells what is wrong with the enum.
pub fn check_enum(
    at: &NameViewpoint<'_, '_, '_>,
    found: &mut Vec<TextViolation>,
    each: &Enumeration,
) -> Result<(), AllocError>
    ensures { OnOk result (told found.new ≡ told found.old
        ++ spec.enum_breaches (viewpoint_view at.now) (enum_syntax each.now)) }
{
    let options = options_of_enum(at.alloc, &each.body)?;
    check_options(at, found, Construct::Enum, &options)?;
    check_enum_body(at, found, &each.body)
}

fn options_of_enum<'a>(
    alloc: Global,
    body: &'a [EnumStatement],
) -> Result<Vec<&'a ProtobufOption>, AllocError>
    ensures { IfOk result (λ v. options_view v.items
        ≡ flat_map bodies.option_in_enum (map enum_statement_syntax body.now)) }
{
    let mut options = Vec::new(alloc);
    'body: for statement in body {
        if let EnumStatement::Option(statement) = statement {
            options.push(&statement.option)?;
        }
    }
    Ok(options)
}

fn check_enum_body(
    at: &NameViewpoint<'_, '_, '_>,
    found: &mut Vec<TextViolation>,
    body: &[EnumStatement],
) -> Result<(), AllocError>
    ensures { OnOk result (told found.new ≡ told found.old
        ++ flat_map (spec.inside_enum (viewpoint_view at.now))
        (map enum_statement_syntax body.now)) }
{
    'body: for statement in body {
        if let EnumStatement::Value(value) = statement {
            check_list(at, found, Construct::EnumValue, &value.options)?;
        }
    }
    Ok(())
}
