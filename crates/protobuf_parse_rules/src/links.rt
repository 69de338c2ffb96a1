//! Which files name types of which others.

ghost use Rattle.std.specs.Prelude.{◌≡◌, ◌&&◌, [], ◌∷◌, ℕ, Bool, List, flat_map, map, OnOk, IfOk};
ghost use Rattle.std.specs.Prelude.{bytes_eq, option_map, option_to_list, string_bytes};
ghost use Rattle.std.specs.List.{list_any};
ghost use Rattle.protobuf_parse_model.specs.Descriptors.{field_view, method_view, service_view};
ghost use Rattle.protobuf_parse_rules.specs.Imports as spec;
ghost use Rattle.protobuf_parse_rules.specs.Imports.{field_types, method_types, body_names};
ghost use Rattle.protobuf_parse_rules.specs.Imports.{service_types};
ghost use Rattle.protobuf_parse_rules.specs.Known.{KnowsTypes};
ghost use Rattle.protobuf_parse_rules.specs.KnownUses.{Adds, AddsNames, Link, has_link};
ghost use Rattle.protobuf_parse_rules.specs.KnownUses.{keyed_link};
ghost use Rattle.protobuf_parse_rules.specs.Bodies.{BodyParts};
ghost use Rattle.protobuf_parse_rules.specs.BodyViews.{body_view};

use crate::bodies::Body;
use crate::tables::Types;
use protobuf_parse_model::{FieldDescriptorProto, MethodDescriptorProto, ServiceDescriptorProto};
use std::alloc::{AllocError, Global};
use std::collections::BTreeSet;
use std::hash::{FoldHasher, Hasher};

/// The paths of files that name types, each with that of a file that declares one of these, behind
/// a hash of both.
pub type Links<'a> = BTreeSet<(u64, (&'a str, &'a str))>;

/// Whether the one is linked to the other.
pub fn has_link<'a>(links: &Links<'a>, from: &'a str, to: &'a str) -> bool
    ensures { (test : List ℕ → List ℕ → Bool)
        → ((k : Link) → has_link links.now k ≡ test k.0.now k.1.now)
        → result ≡ test from.now to.now }
{
    links.contains(&keyed_link(from, to))
}

/// The link behind a hash of its paths: these have long fronts in common, and comparing them was a
/// third of a check of 10,000 files.
fn keyed_link<'a>(from: &'a str, to: &'a str) -> (u64, (&'a str, &'a str))
    ensures { result ≡ keyed_link (from.entry, to.entry) }
{
    let mut hasher = FoldHasher::default();
    hasher.write(from.as_bytes());
    hasher.write(to.as_bytes());
    (hasher.finish(), (from, to))
}

/// Those of the bodies.
pub fn links_of<'a>(
    alloc: Global,
    types: &Types<'a>,
    bodies: &'a [Body<'a>],
) -> Result<Links<'a>, AllocError>
    ensures { IfOk result (λ links. (all : List BodyParts) → KnowsTypes types.now all → (k : Link)
        → has_link links k
        ≡ list_any (body_names all k.0.now k.1.now) (map body_view bodies.now)) }
{
    let mut links: Links<'a> = BTreeSet::new(alloc);
    'bodies: for body in bodies {
        add_body(&mut links, types, body)?;
    }
    Ok(links)
}

fn add_body<'a>(
    links: &mut Links<'a>,
    types: &Types<'a>,
    body: &'a Body<'a>,
) -> Result<(), AllocError>
    ensures { OnOk result
        ((all : List BodyParts) → KnowsTypes types.now all → Adds links.old links.new
        (λ (k : Link). body_names all k.0.now k.1.now (body_view body.now))) }
{
    add_fields(links, types, body.file, body.holds.fields())?;
    add_fields(links, types, body.file, body.holds.extensions())?;
    add_services(links, types, body.file, body.holds.services())
}

/// The types of fields, or those of extensions and what these extend.
fn add_fields<'a>(
    links: &mut Links<'a>,
    types: &Types<'a>,
    from: &'a str,
    fields: &'a [FieldDescriptorProto],
) -> Result<(), AllocError>
    ensures { OnOk result ((all : List BodyParts) → KnowsTypes types.now all →
        AddsNames all links.old links.new from.now
        (flat_map field_types (map field_view fields.now))) }
{
    'fields: for field in fields {
        add_field(links, types, from, field)?;
    }
    Ok(())
}

fn add_field<'a>(
    links: &mut Links<'a>,
    types: &Types<'a>,
    from: &'a str,
    field: &'a FieldDescriptorProto,
) -> Result<(), AllocError>
    ensures { OnOk result ((all : List BodyParts) → KnowsTypes types.now all →
        AddsNames all links.old links.new from.now (field_types (field_view field.now))) }
{
    add_named(links, types, from, &field.type_name)?;
    add_named(links, types, from, &field.extendee)
}

fn add_named<'a>(
    links: &mut Links<'a>,
    types: &Types<'a>,
    from: &'a str,
    name: &'a Option<String>,
) -> Result<(), AllocError>
    ensures { OnOk result ((all : List BodyParts) → KnowsTypes types.now all →
        AddsNames all links.old links.new from.now
        (option_to_list (option_map string_bytes name.now))) }
{
    match name {
        Some(name) => add_type(links, types, from, name),
        None => Ok(()),
    }
}

/// The types that methods take and give.
fn add_services<'a>(
    links: &mut Links<'a>,
    types: &Types<'a>,
    from: &'a str,
    services: &'a [ServiceDescriptorProto],
) -> Result<(), AllocError>
    ensures { OnOk result ((all : List BodyParts) → KnowsTypes types.now all →
        AddsNames all links.old links.new from.now
        (flat_map service_types (map service_view services.now))) }
{
    'services: for service in services {
        add_methods(links, types, from, &service.method)?;
    }
    Ok(())
}

fn add_methods<'a>(
    links: &mut Links<'a>,
    types: &Types<'a>,
    from: &'a str,
    methods: &'a [MethodDescriptorProto],
) -> Result<(), AllocError>
    ensures { OnOk result ((all : List BodyParts) → KnowsTypes types.now all →
        AddsNames all links.old links.new from.now
        (flat_map method_types (map method_view methods.now))) }
{
    'methods: for method in methods {
        add_method(links, types, from, method)?;
    }
    Ok(())
}

fn add_method<'a>(
    links: &mut Links<'a>,
    types: &Types<'a>,
    from: &'a str,
    method: &'a MethodDescriptorProto,
) -> Result<(), AllocError>
    ensures { OnOk result ((all : List BodyParts) → KnowsTypes types.now all →
        AddsNames all links.old links.new from.now (method_types (method_view method.now))) }
{
    add_type(links, types, from, &method.input_type)?;
    add_type(links, types, from, &method.output_type)
}

/// The files of the message and of the enum that have the name.
fn add_type<'a>(
    links: &mut Links<'a>,
    types: &Types<'a>,
    from: &'a str,
    name: &'a str,
) -> Result<(), AllocError>
    ensures { OnOk result ((all : List BodyParts) → KnowsTypes types.now all →
        AddsNames all links.old links.new from.now (name.now ∷ [])) }
{
    add_message(links, types, from, name)?;
    add_enum(links, types, from, name)
}

fn add_message<'a>(
    links: &mut Links<'a>,
    types: &Types<'a>,
    from: &'a str,
    name: &'a str,
) -> Result<(), AllocError>
    ensures { OnOk result
        ((all : List BodyParts) → KnowsTypes types.now all → Adds links.old links.new
        (λ (k : Link). bytes_eq from.now k.0.now && spec.is_message_of all k.1.now name.now)) }
{
    match types.message(name) {
        Some(message) => add_link(links, from, message.file),
        None => Ok(()),
    }
}

fn add_enum<'a>(
    links: &mut Links<'a>,
    types: &Types<'a>,
    from: &'a str,
    name: &'a str,
) -> Result<(), AllocError>
    ensures { OnOk result
        ((all : List BodyParts) → KnowsTypes types.now all → Adds links.old links.new
        (λ (k : Link). bytes_eq from.now k.0.now && spec.is_enum_of all k.1.now name.now)) }
{
    match types.enumeration(name) {
        Some(each) => add_link(links, from, each.file),
        None => Ok(()),
    }
}

fn add_link<'a>(links: &mut Links<'a>, from: &'a str, to: &'a str) -> Result<(), AllocError>
    ensures { OnOk result (Adds links.old links.new
        (λ (k : Link). bytes_eq from.now k.0.now && bytes_eq to.now k.1.now)) }
{
    links.insert(keyed_link(from, to))?;
    Ok(())
}
