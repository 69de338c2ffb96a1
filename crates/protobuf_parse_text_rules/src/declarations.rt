//! Oneofs, enums and services.

ghost use Rattle.std.specs.Prelude.{◌≡◌, ◌++◌, flat_map, map, IfOk, OnOk};
ghost use Rattle.protobuf_parse_syntax.specs.Trees.{enum_statement_syntax, enum_syntax};
ghost use Rattle.protobuf_parse_syntax.specs.Trees.{oneof_statement_syntax, oneof_syntax};
ghost use Rattle.protobuf_parse_syntax.specs.Trees.{method_syntax, option_statement_syntax};
ghost use Rattle.protobuf_parse_syntax.specs.Trees.{service_statement_syntax, service_syntax};
ghost use Rattle.protobuf_parse_text_rules.specs.Files as spec;
ghost use Rattle.protobuf_parse_text_rules.specs.OptionViews.{options_view};
ghost use Rattle.protobuf_parse_text_rules.specs.Views.{told};

use crate::fields::check_statement;
use crate::options::{check_list, check_options};
use crate::rule::TextRule;
use crate::violation::{TextViolation, tell};
use protobuf_parse_syntax::{
    EnumStatement, Enumeration, Method, OneOf, OneOfStatement, OptionStatement, ProtobufOption,
    Service, ServiceStatement,
};
use std::alloc::{AllocError, Global};

/// Tells what is wrong with the oneof.
pub fn check_oneof(
    alloc: Global,
    found: &mut Vec<TextViolation>,
    oneof: &OneOf,
) -> Result<(), AllocError>
    ensures { OnOk result (told found.new ≡ told found.old
        ++ spec.oneof_breaches (oneof_syntax oneof.now)) }
{
    let rule = TextRule::SemicolonAlone;
    tell(alloc, found, rule, oneof.place, &oneof.name)?;
    let options = options_of_oneof(alloc, &oneof.body)?;
    check_options(alloc, found, &options)?;
    check_oneof_body(alloc, found, &oneof.body)
}

fn options_of_oneof<'a>(
    alloc: Global,
    body: &'a [OneOfStatement],
) -> Result<Vec<&'a ProtobufOption>, AllocError>
    ensures { IfOk result (λ v. options_view v.items
        ≡ flat_map spec.option_in_oneof (map oneof_statement_syntax body.now)) }
{
    let mut options = Vec::new(alloc);
    'body: for statement in body {
        if let OneOfStatement::Option(statement) = statement {
            options.push(&statement.option)?;
        }
    }
    Ok(options)
}

fn check_oneof_body(
    alloc: Global,
    found: &mut Vec<TextViolation>,
    body: &[OneOfStatement],
) -> Result<(), AllocError>
    ensures { OnOk result (told found.new ≡ told found.old
        ++ flat_map spec.inside_oneof (map oneof_statement_syntax body.now)) }
{
    'body: for statement in body {
        if let OneOfStatement::Field(field) = statement {
            check_statement(alloc, found, field)?;
        }
    }
    Ok(())
}

/// Tells what is wrong with the enum, and how its values end is asked.
pub fn check_enum(
    alloc: Global,
    found: &mut Vec<TextViolation>,
    each: &Enumeration,
) -> Result<(), AllocError>
    ensures { OnOk result (told found.new ≡ told found.old
        ++ spec.enum_breaches (enum_syntax each.now)) }
{
    let options = options_of_enum(alloc, &each.body)?;
    check_options(alloc, found, &options)?;
    check_enum_body(alloc, found, &each.body)
}

fn options_of_enum<'a>(
    alloc: Global,
    body: &'a [EnumStatement],
) -> Result<Vec<&'a ProtobufOption>, AllocError>
    ensures { IfOk result (λ v. options_view v.items
        ≡ flat_map spec.option_in_enum (map enum_statement_syntax body.now)) }
{
    let mut options = Vec::new(alloc);
    'body: for statement in body {
        if let EnumStatement::Option(statement) = statement {
            options.push(&statement.option)?;
        }
    }
    Ok(options)
}

fn check_enum_body(
    alloc: Global,
    found: &mut Vec<TextViolation>,
    body: &[EnumStatement],
) -> Result<(), AllocError>
    ensures { OnOk result (told found.new ≡ told found.old
        ++ flat_map spec.inside_enum (map enum_statement_syntax body.now)) }
{
    'body: for statement in body {
        check_enum_statement(alloc, found, statement)?;
    }
    Ok(())
}

fn check_enum_statement(
    alloc: Global,
    found: &mut Vec<TextViolation>,
    statement: &EnumStatement,
) -> Result<(), AllocError>
    ensures { OnOk result (told found.new ≡ told found.old
        ++ spec.inside_enum (enum_statement_syntax statement.now)) }
{
    match statement {
        EnumStatement::Value(value) => {
            let rule = TextRule::StatementWithoutSemicolon;
            tell(alloc, found, rule, value.place, value.name.as_str())?;
            check_list(alloc, found, &value.options)
        }
        EnumStatement::Reserved(_) | EnumStatement::Option(_) => Ok(()),
    }
}

/// Tells what is wrong with the service, and how its methods begin is asked.
pub fn check_service(
    alloc: Global,
    found: &mut Vec<TextViolation>,
    service: &Service,
) -> Result<(), AllocError>
    ensures { OnOk result (told found.new ≡ told found.old
        ++ spec.service_breaches (service_syntax service.now)) }
{
    let options = options_of_service(alloc, &service.body)?;
    check_options(alloc, found, &options)?;
    check_service_body(alloc, found, &service.body)
}

fn options_of_service<'a>(
    alloc: Global,
    body: &'a [ServiceStatement],
) -> Result<Vec<&'a ProtobufOption>, AllocError>
    ensures { IfOk result (λ v. options_view v.items
        ≡ flat_map spec.option_in_service (map service_statement_syntax body.now)) }
{
    let mut options = Vec::new(alloc);
    'body: for statement in body {
        if let ServiceStatement::Option(statement) = statement {
            options.push(&statement.option)?;
        }
    }
    Ok(options)
}

fn check_service_body(
    alloc: Global,
    found: &mut Vec<TextViolation>,
    body: &[ServiceStatement],
) -> Result<(), AllocError>
    ensures { OnOk result (told found.new ≡ told found.old
        ++ flat_map spec.inside_service (map service_statement_syntax body.now)) }
{
    'body: for statement in body {
        if let ServiceStatement::Method(method) = statement {
            check_method(alloc, found, method)?;
        }
    }
    Ok(())
}

fn check_method(
    alloc: Global,
    found: &mut Vec<TextViolation>,
    method: &Method,
) -> Result<(), AllocError>
    ensures { OnOk result (told found.new ≡ told found.old
        ++ spec.method_breaches (method_syntax method.now)) }
{
    let rule = TextRule::MethodWithoutRpc;
    tell(alloc, found, rule, method.place, method.name.as_str())?;
    let options = options_in(alloc, &method.options)?;
    check_options(alloc, found, &options)
}

/// The options that the statements set.
fn options_in<'a>(
    alloc: Global,
    statements: &'a [OptionStatement],
) -> Result<Vec<&'a ProtobufOption>, AllocError>
    ensures { IfOk result (λ v. options_view v.items
        ≡ map spec.option_of (map option_statement_syntax statements.now)) }
{
    let mut options = Vec::with_capacity(alloc, statements.len())?;
    'statements: for statement in statements {
        options.push(&statement.option)?;
    }
    Ok(options)
}
