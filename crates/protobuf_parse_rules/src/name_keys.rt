//! Which full names two things may have, by a key of each: no full name is made for it, since the
//! key of a name goes on from that of the scope.

ghost use Rattle.std.specs.Prelude.{◌≡◌, ◌++◌, map, flat_map, OnOk, IfOk};
ghost use Rattle.protobuf_parse_model.specs.Descriptors.{enum_value_view, enum_view, field_view};
ghost use Rattle.protobuf_parse_model.specs.Descriptors.{method_view, oneof_view, service_view};
ghost use Rattle.protobuf_parse_rules.specs.Keys as spec;
ghost use Rattle.protobuf_parse_rules.specs.Keys.{inside, name_key, packages_at};
ghost use Rattle.protobuf_parse_rules.specs.KnownNames.{named_view};
ghost use Rattle.protobuf_parse_rules.specs.BodyViews.{body_view, content_view};
ghost use Rattle.protobuf_parse_rules.specs.Wanted.{AreLone};

use crate::bodies::{Body, Holds};
use crate::crowds::twice_among;
use crate::keys::{NO_TEXT, text_key};
use crate::names::{Named, packages_of};
use protobuf_parse_model::{
    EnumDescriptorProto, EnumValueDescriptorProto, FieldDescriptorProto, MethodDescriptorProto,
    OneofDescriptorProto, ServiceDescriptorProto,
};
use std::alloc::{AllocError, Global};

/// Keys among which those of full names stand that two things in the bodies have, other than
/// packages: none where no two have one.
pub fn doubled_names(alloc: Global, bodies: &[Body<'_>]) -> Result<Vec<u64>, AllocError>
    ensures { IfOk result (λ found. AreLone found.items (map body_view bodies.now)) }
{
    let mut packages = package_keys(alloc, bodies)?;
    packages.sort_unstable();
    packages.dedup();
    let mut keys = other_keys(alloc, bodies)?;
    keys.append(&mut packages)?;
    let found = twice_among(alloc, &keys)?;
    Ok(found)
}

/// The keys of packages.
fn package_keys(alloc: Global, bodies: &[Body<'_>]) -> Result<Vec<u64>, AllocError>
    ensures { IfOk result (λ keys. keys.items
        ≡ map name_key (flat_map packages_at (map body_view bodies.now))) }
{
    let names = packages_of(alloc, bodies)?;
    keys_of(alloc, &names)
}

/// The keys of the names.
pub fn keys_of(alloc: Global, names: &[Named<'_>]) -> Result<Vec<u64>, AllocError>
    ensures { IfOk result (λ keys. keys.items ≡ map name_key (map named_view names.now)) }
{
    let mut keys = Vec::new(alloc);
    'names: for named in names {
        keys.push(text_key(NO_TEXT, &named.name))?;
    }
    Ok(keys)
}

/// The keys of all that are no packages.
fn other_keys(alloc: Global, bodies: &[Body<'_>]) -> Result<Vec<u64>, AllocError>
    ensures { IfOk result (λ keys. keys.items
        ≡ flat_map spec.other_keys (map body_view bodies.now)) }
{
    let mut keys = Vec::with_capacity(alloc, fields_in(bodies))?;
    'bodies: for body in bodies {
        add_keys(&mut keys, body)?;
    }
    Ok(keys)
}

/// How many fields the bodies have: room for most of the keys.
fn fields_in(bodies: &[Body<'_>]) -> usize {
    let mut count = 0_usize;
    for body in bodies {
        count = count.saturating_add(body.holds.fields().len());
    }
    count
}

/// The keys of all in the body that are no packages.
pub fn add_keys(keys: &mut Vec<u64>, body: &Body<'_>) -> Result<(), AllocError>
    ensures { OnOk result (keys.new.items
        ≡ keys.old.items ++ spec.other_keys (body_view body.now)) }
{
    let itself = text_key(NO_TEXT, &body.scope);
    let inside = text_key(itself, ".");
    add_own(keys, itself, inside, body.holds)?;
    add_inner(keys, inside, body.holds)
}

/// A message, its fields and its oneofs; a file has none of its own.
fn add_own(
    keys: &mut Vec<u64>,
    itself: u64,
    inside: u64,
    holds: Holds<'_>,
) -> Result<(), AllocError>
    ensures { OnOk result (keys.new.items
        ≡ keys.old.items ++ spec.own_keys itself inside (content_view holds.entry)) }
{
    match holds {
        Holds::Message(message) => {
            keys.push(itself)?;
            add_fields(keys, inside, &message.field)?;
            add_oneofs(keys, inside, &message.oneof_decl)
        }
        Holds::File(_) => Ok(()),
    }
}

/// What stands in it: enums, services and extensions.
fn add_inner(keys: &mut Vec<u64>, inside: u64, holds: Holds<'_>) -> Result<(), AllocError>
    ensures { OnOk result (keys.new.items
        ≡ keys.old.items ++ spec.inner_keys inside (content_view holds.entry)) }
{
    add_enums(keys, inside, holds.enums())?;
    add_services(keys, inside, holds.services())?;
    add_fields(keys, inside, holds.extensions())
}

/// Fields, or extensions.
fn add_fields(
    keys: &mut Vec<u64>,
    inside: u64,
    fields: &[FieldDescriptorProto],
) -> Result<(), AllocError>
    ensures { OnOk result (keys.new.items
        ≡ keys.old.items ++ spec.field_keys inside (map field_view fields.now)) }
{
    'fields: for field in fields {
        keys.push(text_key(inside, &field.name))?;
    }
    Ok(())
}

fn add_oneofs(
    keys: &mut Vec<u64>,
    inside: u64,
    oneofs: &[OneofDescriptorProto],
) -> Result<(), AllocError>
    ensures { OnOk result (keys.new.items
        ≡ keys.old.items ++ spec.oneof_keys inside (map oneof_view oneofs.now)) }
{
    'oneofs: for oneof in oneofs {
        keys.push(text_key(inside, &oneof.name))?;
    }
    Ok(())
}

fn add_enums(
    keys: &mut Vec<u64>,
    inside: u64,
    enums: &[EnumDescriptorProto],
) -> Result<(), AllocError>
    ensures { OnOk result (keys.new.items
        ≡ keys.old.items ++ flat_map (spec.enum_keys inside) (map enum_view enums.now)) }
{
    'enums: for each in enums {
        add_enum(keys, inside, each)?;
    }
    Ok(())
}

/// The enum, and its values beside it.
fn add_enum(keys: &mut Vec<u64>, inside: u64, each: &EnumDescriptorProto) -> Result<(), AllocError>
    ensures { OnOk result (keys.new.items
        ≡ keys.old.items ++ spec.enum_keys inside (enum_view each.now)) }
{
    keys.push(text_key(inside, &each.name))?;
    add_values(keys, inside, &each.value)
}

fn add_values(
    keys: &mut Vec<u64>,
    inside: u64,
    values: &[EnumValueDescriptorProto],
) -> Result<(), AllocError>
    ensures { OnOk result (keys.new.items
        ≡ keys.old.items ++ spec.value_keys inside (map enum_value_view values.now)) }
{
    'values: for value in values {
        keys.push(text_key(inside, &value.name))?;
    }
    Ok(())
}

fn add_services(
    keys: &mut Vec<u64>,
    inside: u64,
    services: &[ServiceDescriptorProto],
) -> Result<(), AllocError>
    ensures { OnOk result (keys.new.items
        ≡ keys.old.items ++ flat_map (spec.service_keys inside) (map service_view services.now)) }
{
    'services: for service in services {
        add_service(keys, inside, service)?;
    }
    Ok(())
}

/// The service, and its methods inside it.
fn add_service(
    keys: &mut Vec<u64>,
    inside: u64,
    service: &ServiceDescriptorProto,
) -> Result<(), AllocError>
    ensures { OnOk result (keys.new.items
        ≡ keys.old.items ++ spec.service_keys inside (service_view service.now)) }
{
    let itself = text_key(inside, &service.name);
    keys.push(itself)?;
    add_methods(keys, text_key(itself, "."), &service.method)
}

fn add_methods(
    keys: &mut Vec<u64>,
    inside: u64,
    methods: &[MethodDescriptorProto],
) -> Result<(), AllocError>
    ensures { OnOk result (keys.new.items
        ≡ keys.old.items ++ spec.method_keys inside (map method_view methods.now)) }
{
    'methods: for method in methods {
        keys.push(text_key(inside, &method.name))?;
    }
    Ok(())
}
