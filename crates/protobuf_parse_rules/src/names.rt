//! Full names, and what has them.

ghost use Rattle.std.specs.Prelude.{◌≡◌, ◌++◌, [], ◌∷◌, map, flat_map, OnOk, IfOk, option_map};
ghost use Rattle.std.specs.Prelude.{string_bytes};
ghost use Rattle.protobuf_parse_base.specs.Names.{dotted_parts};
ghost use Rattle.protobuf_parse_model.specs.Descriptors.{enum_value_view, enum_view, field_view};
ghost use Rattle.protobuf_parse_model.specs.Descriptors.{method_view, oneof_view, service_view};
ghost use Rattle.protobuf_parse_rules.specs.Claims.{conflicts};
ghost use Rattle.protobuf_parse_rules.specs.ClaimsKept.{Claims, Knows};
ghost use Rattle.protobuf_parse_rules.specs.Keys as keys;
ghost use Rattle.protobuf_parse_rules.specs.KnownNames.{named_view};
ghost use Rattle.protobuf_parse_rules.specs.Names as spec;
ghost use Rattle.protobuf_parse_rules.specs.Names.{name_claim, name_rule, names_at};
ghost use Rattle.protobuf_parse_rules.specs.Names.{named_in};
ghost use Rattle.protobuf_parse_rules.specs.BodyViews.{body_view, content_view};
ghost use Rattle.protobuf_parse_rules.specs.Rules.{breaches_told};
ghost use Rattle.protobuf_parse_rules.specs.declared.kind.NamedKind.TheVariants as kind;

use crate::bodies::{Body, Holds};
use crate::claims::{Held, Holder, Holders, Thing, check_claim};
use crate::kind::NamedKind;
use crate::violation::Violation;
use protobuf_parse_model::{
    EnumDescriptorProto, EnumValueDescriptorProto, FieldDescriptorProto, MethodDescriptorProto,
    OneofDescriptorProto, ServiceDescriptorProto,
};
use protobuf_parse_wire::name_within;
use std::alloc::{AllocError, Global};
use std::collections::BTreeMap;

/// Something with a full name, and the file in which it stands.
#[derive(Drop)]
pub struct Named<'a> {
    pub file: &'a str,
    pub kind: NamedKind,
    pub name: String,
}

/// Tells each thing that has the full name of one before it, and gives the first of each name.
pub fn check_names<'b>(
    alloc: Global,
    told: &mut Vec<Violation>,
    names: &'b [Named<'b>],
) -> Result<Holders<'b>, AllocError>
    ensures { IfOk result (λ holders. Knows holders (map name_claim (map named_view names.now))
        × (breaches_told told.new ≡ breaches_told told.old
        ++ conflicts name_rule [] (map name_claim (map named_view names.now)))) }
{
    let mut holders: Holders<'_> = BTreeMap::new(alloc);
    'names: for named in names {
        check_name(alloc, &mut holders, told, named)?;
    }
    Ok(holders)
}

fn check_name<'a>(
    alloc: Global,
    holders: &mut Holders<'a>,
    told: &mut Vec<Violation>,
    named: &'a Named<'a>,
) -> Result<(), AllocError>
    ensures { OnOk result (Claims name_rule holders.old holders.new told.old told.new
        (name_claim (named_view named.now) ∷ [])) }
{
    let thing = Thing {
        number: 0,
        name: &named.name,
        scope: "",
    };
    let by = Holder {
        file: named.file,
        scope: &named.name,
        name: None,
        number: 0,
        kind: Some(named.kind),
    };
    check_claim(alloc, Held::Name, holders, told, thing, by)
}

/// What has a full name in the body.
pub fn add_names<'a>(
    alloc: Global,
    names: &mut Vec<Named<'a>>,
    body: &Body<'a>,
) -> Result<(), AllocError>
    ensures { OnOk result (map named_view names.new.items ≡ map named_view names.old.items
        ++ names_at (body_view body.now)) }
{
    add_own(alloc, names, body.file, &body.scope, body.holds)?;
    add_inner(alloc, names, body.file, &body.scope, body.holds)
}

/// A message, its fields and its oneofs; or a file's package.
fn add_own<'a>(
    alloc: Global,
    names: &mut Vec<Named<'a>>,
    file: &'a str,
    scope: &str,
    holds: Holds<'_>,
) -> Result<(), AllocError>
    ensures { OnOk result (map named_view names.new.items ≡ map named_view names.old.items
        ++ spec.own_named file.now scope.now (content_view holds.entry)) }
{
    match holds {
        Holds::Message(message) => {
            add_message(alloc, names, file, scope)?;
            add_fields(alloc, names, file, scope, NamedKind::Field, &message.field)?;
            add_oneofs(alloc, names, file, scope, &message.oneof_decl)
        }
        Holds::File(each) => add_package(alloc, names, file, &each.package),
    }
}

/// What stands in it: enums, services and extensions.
fn add_inner<'a>(
    alloc: Global,
    names: &mut Vec<Named<'a>>,
    file: &'a str,
    scope: &str,
    holds: Holds<'_>,
) -> Result<(), AllocError>
    ensures { OnOk result (map named_view names.new.items ≡ map named_view names.old.items
        ++ spec.inner_named file.now scope.now (content_view holds.entry)) }
{
    add_enums(alloc, names, file, scope, holds.enums())?;
    add_services(alloc, names, file, scope, holds.services())?;
    add_fields(
        alloc,
        names,
        file,
        scope,
        NamedKind::Extension,
        holds.extensions(),
    )
}

/// What has the name in the scope.
fn add<'a>(
    alloc: Global,
    names: &mut Vec<Named<'a>>,
    file: &'a str,
    scope: &str,
    kind: NamedKind,
    name: &str,
) -> Result<(), AllocError>
    ensures { OnOk result (map named_view names.new.items ≡ map named_view names.old.items
        ++ named_in file.now scope.now kind name.now ∷ []) }
{
    let name = name_within(alloc, scope, name)?;
    names.push(Named { file, kind, name })?;
    Ok(())
}

/// The message of that full name.
fn add_message<'a>(
    alloc: Global,
    names: &mut Vec<Named<'a>>,
    file: &'a str,
    full: &str,
) -> Result<(), AllocError>
    ensures { OnOk result (map named_view names.new.items ≡ map named_view names.old.items
        ++ record { file = file.now; kind = kind.Message; name = full.now } ∷ []) }
{
    let name = String::from_str(alloc, full)?;
    names.push(Named {
        file,
        kind: NamedKind::Message,
        name,
    })?;
    Ok(())
}

/// Fields, or extensions.
fn add_fields<'a>(
    alloc: Global,
    names: &mut Vec<Named<'a>>,
    file: &'a str,
    scope: &str,
    kind: NamedKind,
    fields: &[FieldDescriptorProto],
) -> Result<(), AllocError>
    ensures { OnOk result (map named_view names.new.items ≡ map named_view names.old.items
        ++ spec.fields_named file.now scope.now kind (map field_view fields.now)) }
{
    'fields: for field in fields {
        add(alloc, names, file, scope, kind, &field.name)?;
    }
    Ok(())
}

fn add_oneofs<'a>(
    alloc: Global,
    names: &mut Vec<Named<'a>>,
    file: &'a str,
    scope: &str,
    oneofs: &[OneofDescriptorProto],
) -> Result<(), AllocError>
    ensures { OnOk result (map named_view names.new.items ≡ map named_view names.old.items
        ++ spec.oneofs_named file.now scope.now (map oneof_view oneofs.now)) }
{
    'oneofs: for oneof in oneofs {
        add(alloc, names, file, scope, NamedKind::Oneof, &oneof.name)?;
    }
    Ok(())
}

fn add_enums<'a>(
    alloc: Global,
    names: &mut Vec<Named<'a>>,
    file: &'a str,
    scope: &str,
    enums: &[EnumDescriptorProto],
) -> Result<(), AllocError>
    ensures { OnOk result (map named_view names.new.items ≡ map named_view names.old.items
        ++ flat_map (spec.enum_named file.now scope.now) (map enum_view enums.now)) }
{
    'enums: for each in enums {
        add_enum(alloc, names, file, scope, each)?;
    }
    Ok(())
}

/// The enum, and its values beside it.
fn add_enum<'a>(
    alloc: Global,
    names: &mut Vec<Named<'a>>,
    file: &'a str,
    scope: &str,
    each: &EnumDescriptorProto,
) -> Result<(), AllocError>
    ensures { OnOk result (map named_view names.new.items ≡ map named_view names.old.items
        ++ spec.enum_named file.now scope.now (enum_view each.now)) }
{
    add(alloc, names, file, scope, NamedKind::Enum, &each.name)?;
    add_values(alloc, names, file, scope, &each.value)
}

fn add_values<'a>(
    alloc: Global,
    names: &mut Vec<Named<'a>>,
    file: &'a str,
    scope: &str,
    values: &[EnumValueDescriptorProto],
) -> Result<(), AllocError>
    ensures { OnOk result (map named_view names.new.items ≡ map named_view names.old.items
        ++ spec.values_named file.now scope.now (map enum_value_view values.now)) }
{
    'values: for value in values {
        add(alloc, names, file, scope, NamedKind::EnumValue, &value.name)?;
    }
    Ok(())
}

fn add_services<'a>(
    alloc: Global,
    names: &mut Vec<Named<'a>>,
    file: &'a str,
    scope: &str,
    services: &[ServiceDescriptorProto],
) -> Result<(), AllocError>
    ensures { OnOk result (map named_view names.new.items ≡ map named_view names.old.items
        ++ flat_map (spec.service_named file.now scope.now) (map service_view services.now)) }
{
    'services: for service in services {
        add_service(alloc, names, file, scope, service)?;
    }
    Ok(())
}

/// The service, and its methods inside it.
fn add_service<'a>(
    alloc: Global,
    names: &mut Vec<Named<'a>>,
    file: &'a str,
    scope: &str,
    service: &ServiceDescriptorProto,
) -> Result<(), AllocError>
    ensures { OnOk result (map named_view names.new.items ≡ map named_view names.old.items
        ++ spec.service_named file.now scope.now (service_view service.now)) }
{
    add(alloc, names, file, scope, NamedKind::Service, &service.name)?;
    let inside = name_within(alloc, scope, &service.name)?;
    add_methods(alloc, names, file, &inside, &service.method)
}

fn add_methods<'a>(
    alloc: Global,
    names: &mut Vec<Named<'a>>,
    file: &'a str,
    scope: &str,
    methods: &[MethodDescriptorProto],
) -> Result<(), AllocError>
    ensures { OnOk result (map named_view names.new.items ≡ map named_view names.old.items
        ++ spec.methods_named file.now scope.now (map method_view methods.now)) }
{
    'methods: for method in methods {
        add(alloc, names, file, scope, NamedKind::Method, &method.name)?;
    }
    Ok(())
}

/// The packages of the bodies, in order.
pub fn packages_of<'a>(alloc: Global, bodies: &[Body<'a>]) -> Result<Vec<Named<'a>>, AllocError>
    ensures { IfOk result (λ v. map named_view v.items
        ≡ flat_map keys.packages_at (map body_view bodies.now)) }
{
    let mut names = Vec::new(alloc);
    'bodies: for body in bodies {
        add_packages(alloc, &mut names, body.file, body.holds)?;
    }
    Ok(names)
}

/// The packages of the body.
pub fn packages_in<'a>(alloc: Global, body: &Body<'a>) -> Result<Vec<Named<'a>>, AllocError>
    ensures { IfOk result (λ v. map named_view v.items ≡ keys.packages_at (body_view body.now)) }
{
    let mut names = Vec::new(alloc);
    add_packages(alloc, &mut names, body.file, body.holds)?;
    Ok(names)
}

fn add_packages<'a>(
    alloc: Global,
    names: &mut Vec<Named<'a>>,
    file: &'a str,
    holds: Holds<'_>,
) -> Result<(), AllocError>
    ensures { OnOk result (map named_view names.new.items ≡ map named_view names.old.items
        ++ keys.packages_in file.now (content_view holds.entry)) }
{
    match holds {
        Holds::File(each) => add_package(alloc, names, file, &each.package),
        Holds::Message(_) => Ok(()),
    }
}

/// The package and its fronts, if there is one.
fn add_package<'a>(
    alloc: Global,
    names: &mut Vec<Named<'a>>,
    file: &'a str,
    package: &Option<String>,
) -> Result<(), AllocError>
    ensures { OnOk result (map named_view names.new.items ≡ map named_view names.old.items
        ++ spec.package_named file.now (option_map string_bytes «package».now)) }
{
    match package {
        Some(package) => add_fronts(alloc, names, file, package),
        None => Ok(()),
    }
}

/// The package of that name and its fronts, the shortest first.
fn add_fronts<'a>(
    alloc: Global,
    names: &mut Vec<Named<'a>>,
    file: &'a str,
    package: &str,
) -> Result<(), AllocError>
    ensures { OnOk result (map named_view names.new.items ≡ map named_view names.old.items
        ++ spec.packages_named file.now [] (dotted_parts «package».now)) }
{
    let mut scope = String::new(alloc);
    'parts: for part in package.split('.') {
        add(alloc, names, file, &scope, NamedKind::Package, part)?;
        let inside = name_within(alloc, &scope, part)?;
        scope = inside;
    }
    Ok(())
}
