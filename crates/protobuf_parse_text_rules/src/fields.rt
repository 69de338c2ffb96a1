//! Fields, groups and extensions.

ghost use Rattle.std.specs.Prelude.{◌≡◌, ◌++◌, flat_map, map, OnOk};
ghost use Rattle.protobuf_parse_syntax.specs.Trees.{extend_syntax, field_statement_syntax};
ghost use Rattle.protobuf_parse_syntax.specs.Trees.{field_syntax, type_syntax};
ghost use Rattle.protobuf_parse_text_rules.specs.Fields as spec;
ghost use Rattle.protobuf_parse_text_rules.specs.Options.{json_breaches};
ghost use Rattle.protobuf_parse_syntax.specs.Trees.{option_syntax};
ghost use Rattle.protobuf_parse_text_rules.specs.Views.{told};

use crate::options::{check_list, references, tell_named};
use crate::rule::TextRule;
use crate::violation::{TextViolation, tell, tell_if};
use protobuf_parse_syntax::{Extend, Field, FieldStatement, ProtobufOption, Type};
use std::alloc::{AllocError, Global};

/// Tells what is wrong with the field, or with those of the group.
#[cycle(statement)]
pub fn check_statement(
    alloc: Global,
    found: &mut Vec<TextViolation>,
    statement: &FieldStatement,
) -> Result<(), AllocError>
    ensures { OnOk result (told found.new ≡ told found.old
        ++ spec.statement_breaches (field_statement_syntax statement.now)) }
{
    match statement {
        FieldStatement::Field(field) => check_field(alloc, found, field),
        FieldStatement::Group(group) => check_statements(alloc, found, &group.fields),
    }
}

#[cycle(statement)]
fn check_statements(
    alloc: Global,
    found: &mut Vec<TextViolation>,
    statements: &[FieldStatement],
) -> Result<(), AllocError>
    ensures { OnOk result (told found.new ≡ told found.old
        ++ flat_map spec.statement_breaches (map field_statement_syntax statements.now)) }
{
    'statements: for statement in statements {
        check_statement(alloc, found, statement)?;
    }
    Ok(())
}

fn check_field(
    alloc: Global,
    found: &mut Vec<TextViolation>,
    field: &Field,
) -> Result<(), AllocError>
    ensures { OnOk result (told found.new ≡ told found.old
        ++ spec.field_breaches (field_syntax field.now)) }
{
    let labelled = is_map(&field.type_) && field.label.is_some();
    tell_if(
        alloc,
        found,
        labelled,
        TextRule::LabelOfMap,
        field.place,
        field.name.as_str(),
    )?;
    check_list(alloc, found, &field.options)
}

fn is_map(type_: &Type) -> bool
    ensures { result ≡ spec.is_map (type_syntax type_.now) }
{
    matches!(type_, Type::Map(_, _))
}

/// Tells what is wrong with the `extend`.
pub fn check_extend(
    alloc: Global,
    found: &mut Vec<TextViolation>,
    extend: &Extend,
) -> Result<(), AllocError>
    ensures { OnOk result (told found.new ≡ told found.old
        ++ spec.extend_breaches (extend_syntax extend.now)) }
{
    let rule = TextRule::SemicolonAlone;
    tell(alloc, found, rule, extend.place, &extend.extendee)?;
    tell_if(
        alloc,
        found,
        extend.fields.is_empty(),
        TextRule::ExtendWithoutFields,
        extend.place,
        &extend.extendee,
    )?;
    check_extensions(alloc, found, &extend.fields)
}

fn check_extensions(
    alloc: Global,
    found: &mut Vec<TextViolation>,
    extensions: &[FieldStatement],
) -> Result<(), AllocError>
    ensures { OnOk result (told found.new ≡ told found.old
        ++ flat_map spec.extension_breaches (map field_statement_syntax extensions.now)) }
{
    'extensions: for extension in extensions {
        check_extension(alloc, found, extension)?;
    }
    Ok(())
}

fn check_extension(
    alloc: Global,
    found: &mut Vec<TextViolation>,
    extension: &FieldStatement,
) -> Result<(), AllocError>
    ensures { OnOk result (told found.new ≡ told found.old
        ++ spec.extension_breaches (field_statement_syntax extension.now)) }
{
    match extension {
        FieldStatement::Field(field) => {
            check_json_name(alloc, found, &field.options)?;
            check_field(alloc, found, field)
        }
        FieldStatement::Group(group) => check_statements(alloc, found, &group.fields),
    }
}

fn check_json_name(
    alloc: Global,
    found: &mut Vec<TextViolation>,
    options: &[ProtobufOption],
) -> Result<(), AllocError>
    ensures { OnOk result (told found.new ≡ told found.old
        ++ json_breaches (map option_syntax options.now)) }
{
    let listed = references(alloc, options)?;
    let rule = TextRule::JsonNameOfExtension;
    tell_named(alloc, found, rule, "json_name", &listed)
}
