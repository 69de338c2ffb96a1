//! Services and their methods.

ghost use Rattle.std.specs.Prelude.{◌≡◌, ◌++◌, ◌||◌, flat_map, map, IfOk, OnOk};
ghost use Rattle.protobuf_parse_model.specs.Descriptors.{Text};
ghost use Rattle.protobuf_parse_syntax.specs.Trees.{method_syntax, option_statement_syntax};
ghost use Rattle.protobuf_parse_syntax.specs.Trees.{service_statement_syntax, service_syntax};
ghost use Rattle.protobuf_parse_text_rules.specs.Files as bodies;
ghost use Rattle.protobuf_parse_text_rules.specs.Options.{stands_in};
ghost use Rattle.protobuf_parse_text_rules.specs.OptionViews.{options_view};
ghost use Rattle.protobuf_parse_text_rules.specs.Views.{told};
ghost use Rattle.protobuf_parse_name_rules.specs.Files as spec;
ghost use Rattle.protobuf_parse_name_rules.specs.InnerViews.{has_text, viewpoint_view};
ghost use Rattle.protobuf_parse_name_rules.specs.Lookups.{is_type};
ghost use Rattle.protobuf_parse_name_rules.specs.Names as names;

use crate::files::{NameViewpoint, scope_within};
use crate::names::{Wanted, is_resolved_inside};
use crate::options::check_options;
use protobuf_parse_lexer::Place;
use protobuf_parse_model::Construct;
use protobuf_parse_syntax::{Method, OptionStatement, ProtobufOption, Service, ServiceStatement};
use protobuf_parse_text_rules::{TextRule, TextViolation, tell_if};
use std::alloc::{AllocError, Global};
use std::collections::BTreeSet;

/// Tells what is wrong with the service.
pub fn check_service<'t>(
    at: &NameViewpoint<'t, '_, '_>,
    found: &mut Vec<TextViolation>,
    service: &'t Service,
) -> Result<(), AllocError>
    ensures { OnOk result (told found.new ≡ told found.old
        ++ spec.service_breaches (viewpoint_view at.now) (service_syntax service.now)) }
{
    let options = options_of_service(at.alloc, &service.body)?;
    check_options(at, found, Construct::Service, &options)?;
    let methods = methods_of(at.alloc, &service.body)?;
    let scope = scope_within(at, service.name.as_str())?;
    let inside = NameViewpoint {
        alloc: at.alloc,
        sight: at.sight,
        scope: &scope,
    };
    check_service_body(at, &inside, &methods, found, &service.body)
}

fn options_of_service<'a>(
    alloc: Global,
    body: &'a [ServiceStatement],
) -> Result<Vec<&'a ProtobufOption>, AllocError>
    ensures { IfOk result (λ v. options_view v.items
        ≡ flat_map bodies.option_in_service (map service_statement_syntax body.now)) }
{
    let mut options = Vec::new(alloc);
    'body: for statement in body {
        if let ServiceStatement::Option(statement) = statement {
            options.push(&statement.option)?;
        }
    }
    Ok(options)
}

/// The names of the methods.
fn methods_of(alloc: Global, body: &[ServiceStatement]) -> Result<BTreeSet<&str>, AllocError>
    ensures { IfOk result (λ s. (name : Text) → has_text s name
        ≡ stands_in name (flat_map names.method_name (map service_statement_syntax body.now))) }
{
    let mut methods = BTreeSet::new(alloc);
    'body: for statement in body {
        add_method(&mut methods, statement)?;
    }
    Ok(methods)
}

fn add_method<'a>(
    methods: &mut BTreeSet<&'a str>,
    statement: &'a ServiceStatement,
) -> Result<(), AllocError>
    ensures { OnOk result ((name : Text) → has_text methods.new name
        ≡ (has_text methods.old name
        || stands_in name (names.method_name (service_statement_syntax statement.now)))) }
{
    match statement {
        ServiceStatement::Method(method) => {
            methods.insert(method.name.as_str())?;
            Ok(())
        }
        ServiceStatement::Option(_) => Ok(()),
    }
}

fn check_service_body(
    at: &NameViewpoint<'_, '_, '_>,
    inside: &NameViewpoint<'_, '_, '_>,
    methods: &BTreeSet<&str>,
    found: &mut Vec<TextViolation>,
    body: &[ServiceStatement],
) -> Result<(), AllocError>
    ensures { OnOk result (told found.new ≡ told found.old
        ++ flat_map (spec.inside_service (viewpoint_view at.now) (viewpoint_view inside.now)
        (has_text methods.now))
        (map service_statement_syntax body.now)) }
{
    'body: for statement in body {
        if let ServiceStatement::Method(method) = statement {
            check_method(at, inside, methods, found, method)?;
        }
    }
    Ok(())
}

fn check_method(
    at: &NameViewpoint<'_, '_, '_>,
    inside: &NameViewpoint<'_, '_, '_>,
    methods: &BTreeSet<&str>,
    found: &mut Vec<TextViolation>,
    method: &Method,
) -> Result<(), AllocError>
    ensures { OnOk result (told found.new ≡ told found.old
        ++ spec.method_breaches (viewpoint_view at.now) (viewpoint_view inside.now)
        (has_text methods.now) (method_syntax method.now)) }
{
    check_method_type(inside, methods, found, method.place, &method.input)?;
    check_method_type(inside, methods, found, method.place, &method.output)?;
    let options = options_in(at.alloc, &method.options)?;
    check_options(at, found, Construct::Method, &options)
}

/// Tells what is wrong with the name of what a method takes or returns.
fn check_method_type(
    at: &NameViewpoint<'_, '_, '_>,
    methods: &BTreeSet<&str>,
    found: &mut Vec<TextViolation>,
    place: Place,
    name: &str,
) -> Result<(), AllocError>
    ensures { OnOk result (told found.new ≡ told found.old
        ++ names.method_type_breaches (viewpoint_view at.now) (has_text methods.now) place
        name.now) }
{
    let broken = is_broken(at, methods, name)?;
    let rule = TextRule::NameResolvedInside;
    tell_if(at.alloc, found, broken, rule, place, name)
}

/// Whether the name means a method of the service, or is resolved inside of something else.
fn is_broken(
    at: &NameViewpoint<'_, '_, '_>,
    methods: &BTreeSet<&str>,
    name: &str,
) -> Result<bool, AllocError>
    ensures { let v = viewpoint_view at.now in
        IfOk result (λ b. b ≡ (has_text methods.now name.now
        || names.is_resolved_inside v (is_type v.sight) name.now)) }
{
    if methods.contains(name) {
        return Ok(true);
    }
    is_resolved_inside(at, Wanted::Type, name)
}

/// The options that the statements set.
fn options_in<'a>(
    alloc: Global,
    statements: &'a [OptionStatement],
) -> Result<Vec<&'a ProtobufOption>, AllocError>
    ensures { IfOk result (λ v. options_view v.items
        ≡ map bodies.option_of (map option_statement_syntax statements.now)) }
{
    let mut options = Vec::with_capacity(alloc, statements.len())?;
    'statements: for statement in statements {
        options.push(&statement.option)?;
    }
    Ok(options)
}
