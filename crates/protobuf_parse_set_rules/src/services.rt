//! Services.

ghost use Rattle.std.specs.Prelude.{◌≡◌, ◌++◌, OnOk, flat_map, map};
ghost use Rattle.protobuf_parse_model.specs.Descriptors.{method_view, service_view};
ghost use Rattle.protobuf_parse_set_rules.specs.Rules as spec;
ghost use Rattle.protobuf_parse_set_rules.specs.Held.{sight_view, site_of};
ghost use Rattle.protobuf_parse_set_rules.specs.Views.{told};

use crate::declared::check_named;
use crate::names::{check_name, within};
use crate::rule::SetRule;
use crate::sight::FileSight;
use crate::violation::{SetViolation, Spot, tell_if};
use protobuf_parse_model::{MethodDescriptorProto, ServiceDescriptorProto};
use std::alloc::{AllocError, Global};

/// Tells what is wrong with services and their methods.
pub fn check_services(
    alloc: Global,
    found: &mut Vec<SetViolation>,
    sight: &FileSight<'_, '_>,
    file: &str,
    scope: &str,
    services: &[ServiceDescriptorProto],
) -> Result<(), AllocError>
    ensures { OnOk result (told found.new ≡ told found.old
        ++ flat_map (spec.service_breaches (sight_view sight.now) file.now scope.now)
        (map service_view services.now)) }
{
    'services: for service in services {
        check_service(alloc, found, sight, file, scope, service)?;
    }
    Ok(())
}

fn check_service(
    alloc: Global,
    found: &mut Vec<SetViolation>,
    sight: &FileSight<'_, '_>,
    file: &str,
    scope: &str,
    service: &ServiceDescriptorProto,
) -> Result<(), AllocError>
    ensures { OnOk result (told found.new ≡ told found.old
        ++ spec.service_breaches (sight_view sight.now) file.now scope.now
        (service_view service.now)) }
{
    check_named(alloc, found, file, scope, &service.name)?;
    let inside = within(alloc, scope, &service.name)?;
    check_methods(alloc, found, sight, file, &inside, &service.method)
}

fn check_methods(
    alloc: Global,
    found: &mut Vec<SetViolation>,
    sight: &FileSight<'_, '_>,
    file: &str,
    scope: &str,
    methods: &[MethodDescriptorProto],
) -> Result<(), AllocError>
    ensures { OnOk result (told found.new ≡ told found.old
        ++ flat_map (spec.method_breaches (sight_view sight.now) file.now scope.now)
        (map method_view methods.now)) }
{
    'methods: for method in methods {
        check_method(alloc, found, sight, file, scope, method)?;
    }
    Ok(())
}

fn check_method(
    alloc: Global,
    found: &mut Vec<SetViolation>,
    sight: &FileSight<'_, '_>,
    file: &str,
    scope: &str,
    method: &MethodDescriptorProto,
) -> Result<(), AllocError>
    ensures { OnOk result (told found.new ≡ told found.old
        ++ spec.method_breaches (sight_view sight.now) file.now scope.now
        (method_view method.now)) }
{
    let at = Spot {
        file,
        scope,
        name: Some(&method.name),
    };
    check_name(alloc, found, at, &method.name)?;
    check_type(alloc, found, sight, at, &method.input_type)?;
    check_type(alloc, found, sight, at, &method.output_type)
}

fn check_type(
    alloc: Global,
    found: &mut Vec<SetViolation>,
    sight: &FileSight<'_, '_>,
    at: Spot<'_>,
    name: &str,
) -> Result<(), AllocError>
    ensures { OnOk result (told found.new ≡ told found.old
        ++ spec.method_type_breaches (sight_view sight.now) (site_of at.entry) name.now) }
{
    let unseen = sight.meaning(name).is_none();
    tell_if(alloc, found, unseen, at, SetRule::MethodTypeNotSeen, name)
}
