//! Custom options that are set again: T14.

ghost use Rattle.std.specs.Prelude.{◌≡◌, ◌++◌, ◌||◌, ◌&&◌, [], bytes_eq, map, flat_map, IfOk, OnOk};
ghost use Rattle.std.specs.Prelude.{nat_abs};
ghost use Rattle.protobuf_parse_base.specs.Names.{fronts};
ghost use Rattle.protobuf_parse_syntax.specs.InnerViews.{constant_field_syntax};
ghost use Rattle.protobuf_parse_syntax.specs.Trees.{constant_syntax};
ghost use Rattle.protobuf_parse_model.specs.Descriptors.{field_view};
ghost use Rattle.protobuf_parse_text_rules.specs.Options.{stands_in};
ghost use Rattle.protobuf_parse_text_rules.specs.Views.{told};
ghost use Rattle.protobuf_parse_name_rules.specs.InnerViews.{custom_view, fields_view, has_path};
ghost use Rattle.protobuf_parse_name_rules.specs.InnerViews.{paths_by, viewpoint_view};
ghost use Rattle.protobuf_parse_name_rules.specs.Options as spec;

use crate::fields::{constant_field, last_field, type_name_of};
use crate::files::NameViewpoint;
use crate::given::is_repeated;
use crate::options::CustomOption;
use protobuf_parse_model::{FieldDescriptorProto, path_text};
use protobuf_parse_syntax::{ConstantField, ProtobufConstant};
use protobuf_parse_text_rules::{TextRule, TextViolation, tell};
use std::alloc::{AllocError, Global};
use std::collections::BTreeSet;

/// The paths of fields that options set.
pub type Paths = BTreeSet<Vec<u32>>;

/// Tells each option whose path is set by those before it.
pub fn tell_set_again(
    at: &NameViewpoint<'_, '_, '_>,
    found: &mut Vec<TextViolation>,
    customs: &[CustomOption<'_, '_>],
) -> Result<(), AllocError>
    ensures { OnOk result (told found.new ≡ told found.old
        ++ spec.set_again (viewpoint_view at.now) [] (map custom_view customs.now)) }
{
    let mut paths: Paths = BTreeSet::new(at.alloc);
    'customs: for custom in customs {
        tell_again(at.alloc, found, &paths, custom)?;
        add_paths(at, &mut paths, custom)?;
    }
    Ok(())
}

fn tell_again(
    alloc: Global,
    found: &mut Vec<TextViolation>,
    paths: &Paths,
    custom: &CustomOption<'_, '_>,
) -> Result<(), AllocError>
    ensures { OnOk result (told found.new ≡ told found.old
        ++ spec.again_breaches (has_path paths.now) (custom_view custom.now)) }
{
    if !is_set(alloc, paths, custom)? {
        return Ok(());
    }
    let name = path_text(alloc, custom.parts)?;
    let rule = TextRule::CustomOptionTwice;
    tell(alloc, found, rule, custom.option.place, &name)
}

/// Whether the field of the option isn't repeated, and its path is among these.
fn is_set(alloc: Global, paths: &Paths, custom: &CustomOption<'_, '_>) -> Result<bool, AllocError>
    ensures { let o = custom_view custom.now in
        IfOk result (λ b. b ≡ (spec.is_single o && has_path paths.now (spec.path_of o.fields))) }
{
    if !is_single(custom) {
        return Ok(false);
    }
    has_path_of(alloc, paths, &custom.fields)
}

fn has_path_of(
    alloc: Global,
    paths: &Paths,
    fields: &[&FieldDescriptorProto],
) -> Result<bool, AllocError>
    ensures { IfOk result
        (λ b. b ≡ has_path paths.now (spec.path_of (fields_view fields.now))) }
{
    let path = path_of(alloc, fields)?;
    Ok(has_path(paths, &path))
}

fn has_path(paths: &Paths, path: &[u32]) -> bool
    ensures { result ≡ has_path paths.now path.now }
{
    paths.contains(path)
}

/// Whether the field of the option isn't repeated.
fn is_single(custom: &CustomOption<'_, '_>) -> bool
    ensures { result ≡ spec.is_single (custom_view custom.now) }
{
    match last_field(&custom.fields) {
        Some(field) => !is_repeated(field),
        None => false,
    }
}

/// The numbers of the fields.
fn path_of(alloc: Global, fields: &[&FieldDescriptorProto]) -> Result<Vec<u32>, AllocError>
    ensures { IfOk result (λ v. v.items ≡ spec.path_of (fields_view fields.now)) }
{
    let mut path = Vec::with_capacity(alloc, fields.len())?;
    'fields: for field in fields {
        path.push(number_of(field))?;
    }
    Ok(path)
}

fn number_of(field: &FieldDescriptorProto) -> u32
    ensures { result ≡ nat_abs (field_view field.now).number }
{
    field.number.unsigned_abs()
}

// ---- what an option sets

/// The paths that the option sets, too.
fn add_paths(
    at: &NameViewpoint<'_, '_, '_>,
    paths: &mut Paths,
    custom: &CustomOption<'_, '_>,
) -> Result<(), AllocError>
    ensures { OnOk result ((p : spec.Path) → has_path paths.new p ≡ (has_path paths.old p
        || stands_in p (spec.paths_set (viewpoint_view at.now) (custom_view custom.now)))) }
{
    add_fronts(at.alloc, paths, &custom.fields)?;
    let Some(field) = last_field(&custom.fields) else {
        return Ok(());
    };
    let path = path_of(at.alloc, &custom.fields)?;
    add_paths_in(at, paths, &path, field, &custom.option.value)
}

/// Those of the fields, from the options message on.
fn add_fronts(
    alloc: Global,
    paths: &mut Paths,
    fields: &[&FieldDescriptorProto],
) -> Result<(), AllocError>
    ensures { OnOk result ((p : spec.Path) → has_path paths.new p ≡ (has_path paths.old p
        || stands_in p (fronts (spec.path_of (fields_view fields.now))))) }
{
    let mut front = Vec::new(alloc);
    add_path(paths, &front)?;
    'fields: for field in fields {
        front.push(number_of(field))?;
        add_path(paths, &front)?;
    }
    Ok(())
}

fn add_path(paths: &mut Paths, path: &Vec<u32>) -> Result<(), AllocError>
    ensures { OnOk result ((p : spec.Path) → has_path paths.new p
        ≡ (bytes_eq path.now.items p || has_path paths.old p)) }
{
    paths.insert(path.clone()?)?;
    Ok(())
}

/// Those that the constant sets in the field at the path.
#[cycle(constant)]
fn add_paths_in(
    at: &NameViewpoint<'_, '_, '_>,
    paths: &mut Paths,
    path: &[u32],
    field: &FieldDescriptorProto,
    value: &ProtobufConstant,
) -> Result<(), AllocError>
    ensures { OnOk result ((p : spec.Path) → has_path paths.new p ≡ (has_path paths.old p
        || stands_in p (spec.paths_in (viewpoint_view at.now) path.now (field_view field.now)
        (constant_syntax value.now)))) }
{
    match value {
        ProtobufConstant::Message(fields) => {
            add_paths_among(at, paths, path, type_name_of(field), fields)
        }
        _ => Ok(()),
    }
}

#[cycle(constant)]
fn add_paths_among(
    at: &NameViewpoint<'_, '_, '_>,
    paths: &mut Paths,
    path: &[u32],
    message: &str,
    fields: &[ConstantField],
) -> Result<(), AllocError>
    ensures { OnOk result ((p : spec.Path) → has_path paths.new p ≡ (has_path paths.old p
        || stands_in p (flat_map (paths_by (viewpoint_view at.now) path.now message.now)
        (map constant_field_syntax fields.now)))) }
{
    'fields: for field in fields {
        add_paths_by(at, paths, path, message, field)?;
    }
    Ok(())
}

/// Those that a field of a constant for the message sets.
#[cycle(constant)]
fn add_paths_by(
    at: &NameViewpoint<'_, '_, '_>,
    paths: &mut Paths,
    path: &[u32],
    message: &str,
    field: &ConstantField,
) -> Result<(), AllocError>
    ensures { OnOk result ((p : spec.Path) → has_path paths.new p ≡ (has_path paths.old p
        || stands_in p (paths_by (viewpoint_view at.now) path.now message.now
        (constant_field_syntax field.now)))) }
{
    let Some(meant) = constant_field(at, message, &field.name)? else {
        return Ok(());
    };
    let inner = path_to(at.alloc, path, meant)?;
    add_path(paths, &inner)?;
    add_paths_in(at, paths, &inner, meant, &field.value)
}

/// Behind the path, the field.
fn path_to(
    alloc: Global,
    path: &[u32],
    field: &FieldDescriptorProto,
) -> Result<Vec<u32>, AllocError>
    ensures { IfOk result (λ v. v.items ≡ spec.path_to path.now (field_view field.now)) }
{
    let mut inner = Vec::with_capacity(alloc, path.len().saturating_add(1))?;
    'path: for number in path {
        inner.push(*number)?;
    }
    inner.push(number_of(field))?;
    Ok(inner)
}
