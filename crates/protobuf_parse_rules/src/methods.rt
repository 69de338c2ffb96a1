//! What methods take and give.

ghost use Rattle.std.specs.Prelude.{◌≡◌, ◌++◌, List, flat_map, map, OnOk, option_map};
ghost use Rattle.protobuf_parse_model.specs.Descriptors.{method_view, service_view};
ghost use Rattle.protobuf_parse_rules.specs.Bodies.{BodyParts};
ghost use Rattle.protobuf_parse_rules.specs.BodyViews.{body_view};
ghost use Rattle.protobuf_parse_rules.specs.Findings.{finding_view};
ghost use Rattle.protobuf_parse_rules.specs.KnownTables.{Knows};
ghost use Rattle.protobuf_parse_rules.specs.Methods as spec;
ghost use Rattle.protobuf_parse_rules.specs.Rules.{breaches_told};

use crate::bodies::Body;
use crate::finding::{Finding, Spot, found_by};
use crate::rule::Rule;
use crate::tables::Tables;
use crate::tell::tell_each;
use crate::violation::Violation;
use protobuf_parse_model::{MethodDescriptorProto, ServiceDescriptorProto};
use protobuf_parse_wire::name_within;
use std::alloc::{AllocError, Global};

/// Tells each type of a method of the body's services that is no message.
pub fn check_methods<'a>(
    alloc: Global,
    told: &mut Vec<Violation>,
    tables: &Tables<'a>,
    body: &'a Body<'a>,
) -> Result<(), AllocError>
    ensures { OnOk result ((all : List BodyParts) → Knows tables.now all →
        breaches_told told.new ≡ breaches_told told.old
        ++ spec.methods_breaches all (body_view body.now)) }
{
    check_services(alloc, told, tables, body, body.holds.services())
}

fn check_services<'a>(
    alloc: Global,
    told: &mut Vec<Violation>,
    tables: &Tables<'a>,
    body: &'a Body<'a>,
    services: &'a [ServiceDescriptorProto],
) -> Result<(), AllocError>
    ensures { OnOk result ((all : List BodyParts) → Knows tables.now all →
        breaches_told told.new ≡ breaches_told told.old
        ++ flat_map (spec.service_breaches all (body_view body.now).file (body_view body.now).scope)
        (map service_view services.now)) }
{
    'services: for service in services {
        check_service(alloc, told, tables, body, service)?;
    }
    Ok(())
}

fn check_service<'a>(
    alloc: Global,
    told: &mut Vec<Violation>,
    tables: &Tables<'a>,
    body: &'a Body<'a>,
    service: &'a ServiceDescriptorProto,
) -> Result<(), AllocError>
    ensures { OnOk result ((all : List BodyParts) → Knows tables.now all →
        breaches_told told.new ≡ breaches_told told.old
        ++ spec.service_breaches all (body_view body.now).file (body_view body.now).scope
        (service_view service.now)) }
{
    let scope = name_within(alloc, &body.scope, &service.name)?;
    check_each(alloc, told, tables, body.file, &scope, &service.method)
}

fn check_each<'a>(
    alloc: Global,
    told: &mut Vec<Violation>,
    tables: &Tables<'a>,
    file: &str,
    scope: &str,
    methods: &'a [MethodDescriptorProto],
) -> Result<(), AllocError>
    ensures { OnOk result ((all : List BodyParts) → Knows tables.now all →
        breaches_told told.new ≡ breaches_told told.old
        ++ flat_map (spec.method_breaches all file.now scope.now) (map method_view methods.now)) }
{
    'methods: for method in methods {
        check_method(alloc, told, tables, file, scope, method)?;
    }
    Ok(())
}

fn check_method<'a>(
    alloc: Global,
    told: &mut Vec<Violation>,
    tables: &Tables<'a>,
    file: &str,
    scope: &str,
    method: &'a MethodDescriptorProto,
) -> Result<(), AllocError>
    ensures { OnOk result ((all : List BodyParts) → Knows tables.now all →
        breaches_told told.new ≡ breaches_told told.old
        ++ spec.method_breaches all file.now scope.now (method_view method.now)) }
{
    let found = [
        type_of_method(tables, &method.input_type),
        type_of_method(tables, &method.output_type),
    ];
    let at = Spot {
        file,
        scope,
        name: Some(&method.name),
    };
    tell_each(alloc, told, at, &found)
}

/// A type of a method that is an enum.
fn type_of_method<'a>(tables: &Tables<'a>, name: &'a str) -> Option<Finding<'a>>
    ensures { (all : List BodyParts) → Knows tables.now all → option_map finding_view result
        ≡ spec.type_of_method all name.now }
{
    if is_enum_alone(tables, name) {
        found_by(Rule::MethodTypeNotMessage, name)
    } else {
        None
    }
}

/// Whether an enum has the full name, and no message.
pub fn is_enum_alone<'a>(tables: &Tables<'a>, name: &'a str) -> bool
    ensures { (all : List BodyParts) → Knows tables.now all →
        result ≡ spec.is_enum_alone all name.now }
{
    tables.enumeration(name).is_some() && tables.message(name).is_none()
}
