//! Fields and groups.
//!
//! What describes a field stands in its callers (`#[inline(always)]`), so that a descriptor of 240
//! bytes is not handed up from call to call: docs/PERFORMANCE.md.

ghost use Rattle.std.specs.Prelude.{◌≡◌, ◌++◌, map, IfOk};
ghost use Rattle.protobuf_parse_syntax.specs.Trees.{field_syntax, option_syntax};
ghost use Rattle.protobuf_parse_syntax.specs.InnerViews.{group_syntax};
ghost use Rattle.protobuf_parse_syntax.specs.Trees.{type_syntax};
ghost use Rattle.protobuf_parse_model.specs.BuiltinOptions.{options_seen};
ghost use Rattle.protobuf_parse_model.specs.Descriptors as described;
ghost use Rattle.protobuf_parse_model.specs.Faults.{placed};
ghost use Rattle.protobuf_parse_model.specs.Statements as statements;
ghost use Rattle.protobuf_parse_elaboration.specs.Parts.{field_owner_view, resolved_view, said_by};
ghost use Rattle.protobuf_parse_elaboration.specs.Parts.{said_view};
ghost use Rattle.protobuf_parse_elaboration.specs.Fields as fields;
ghost use Rattle.protobuf_parse_elaboration.specs.Viewpoints.{seen_from};
ghost use Rattle.protobuf_parse_elaboration.specs.Telling.{Tells};

use crate::constructs::options::{
    custom_field_bytes, default_value, field_options, json_name_of, options_of,
};
use crate::constructs::owner::FieldOwner;
use crate::constructs::types::{ResolvedType, resolved_type};
use crate::constructs::viewpoint::Viewpoint;
use protobuf_parse_base::Name;
use protobuf_parse_base::text::json_name;
use protobuf_parse_model::{
    Construct, CustomOptions, ElabError, ElabErrorKind, FieldDescriptorProto, FieldOptions,
    FieldType, Label, full_name, group_field_name, tell,
};
use protobuf_parse_syntax::{Field, Group, ProtobufOption, Syntax, Type};
use std::alloc::{AllocError, Global};

/// The descriptor of a field that stands there among oneofs and extensions.
// Inlined: 5.0 % of the instructions for scalars.
#[inline(always)]
pub fn field_descriptor<C: CustomOptions>(
    at: &Viewpoint<'_, '_, C>,
    faults: &mut Vec<ElabError>,
    owner: &FieldOwner<'_>,
    field: &Field,
) -> Result<FieldDescriptorProto, AllocError>
    ensures value { let env = seen_from C.customs at.now in
        IfOk result (λ d. described.field_view d
        ≡ fields.field_of env (field_owner_view owner.now) (field_syntax field.now)) }
    ensures faults { let env = seen_from C.customs at.now in
        Tells result faults.old faults.new (fields.field_faults env (field_syntax field.now)) }
{
    let resolved = resolved_type(at, faults, field.place, &field.name, &field.type_)?;
    field_with(at, faults, owner, field, resolved)
}

/// The descriptor of a field of that type.
// Inlined: 4.6 % of the instructions for scalars.
#[inline(always)]
pub fn field_with<C: CustomOptions>(
    at: &Viewpoint<'_, '_, C>,
    faults: &mut Vec<ElabError>,
    owner: &FieldOwner<'_>,
    field: &Field,
    resolved: ResolvedType,
) -> Result<FieldDescriptorProto, AllocError>
    ensures value { let env = seen_from C.customs at.now in
        IfOk result (λ d. described.field_view d ≡ fields.field_with env
        (field_owner_view owner.now) (field_syntax field.now) (resolved_view resolved)) }
    ensures faults { let env = seen_from C.customs at.now in
        let f = field_syntax field.now in Tells result faults.old faults.new
        (fields.faults_of_options env resolved.kind f.name f.options) }
{
    let name = field.name.clone()?;
    let extendee = owner.extendee(at.alloc)?;
    let said = field_said(at, faults, resolved.kind, &field.name, &field.options)?;
    Ok(FieldDescriptorProto {
        name,
        number: field.number,
        label: label_of(field.label, &field.type_),
        type_: resolved.kind,
        type_name: resolved.name,
        extendee,
        default_value: said.default_value,
        oneof_index: owner.oneof_index(),
        json_name: said.json_name,
        proto3_optional: !is_map(&field.type_) && says_optional(at.context.syntax, field.label),
        options: said.options,
    })
}

/// What the options of a field say.
#[derive(Drop)]
pub struct FieldSaid {
    pub default_value: Option<String>,
    pub json_name: Name,
    pub options: Option<FieldOptions>,
}

/// What the options of a field of that type and name say.
// Inlined: 0.6 % of the instructions for scalars, with five more of this crate.
#[inline(always)]
fn field_said<C: CustomOptions>(
    at: &Viewpoint<'_, '_, C>,
    faults: &mut Vec<ElabError>,
    kind: FieldType,
    name: &str,
    options: &[ProtobufOption],
) -> Result<FieldSaid, AllocError>
    ensures value { let env = seen_from C.customs at.now in
        IfOk result (λ s. said_view s ≡ said_by env kind name.now (map option_syntax options.now)) }
    ensures faults { let env = seen_from C.customs at.now in
        Tells result faults.old faults.new
        (fields.faults_of_options env kind name.now (map option_syntax options.now)) }
{
    if options.is_empty() {
        at.custom
            .bytes(at.alloc, faults, Construct::Field, at.context.scope, &[])?;
        return Ok(FieldSaid {
            default_value: None,
            json_name: json_name(at.alloc, name)?,
            options: None,
        });
    }
    said_by_list(at, faults, kind, name, options)
}

/// What the options of this list say of a field of that type and name. For one alone, as most lists
/// have, no memory is asked for.
fn said_by_list<C: CustomOptions>(
    at: &Viewpoint<'_, '_, C>,
    faults: &mut Vec<ElabError>,
    kind: FieldType,
    name: &str,
    options: &[ProtobufOption],
) -> Result<FieldSaid, AllocError>
    ensures value { let env = seen_from C.customs at.now in
        IfOk result (λ s. said_view s ≡ said_by env kind name.now (map option_syntax options.now)) }
    ensures faults { let env = seen_from C.customs at.now in
        Tells result faults.old faults.new
        (fields.faults_of_options env kind name.now (map option_syntax options.now)) }
{
    if let [only] = options {
        return said_by_options(at, faults, kind, name, &[only]);
    }
    let options = options_of(at.alloc, options)?;
    said_by_options(at, faults, kind, name, &options)
}

/// What these options of a field of that type and name say.
fn said_by_options<C: CustomOptions>(
    at: &Viewpoint<'_, '_, C>,
    faults: &mut Vec<ElabError>,
    kind: FieldType,
    name: &str,
    options: &[&ProtobufOption],
) -> Result<FieldSaid, AllocError>
    ensures value { let env = seen_from C.customs at.now in
        IfOk result (λ s. said_view s ≡ said_by env kind name.now (options_seen options.now)) }
    ensures faults { let env = seen_from C.customs at.now in
        Tells result faults.old faults.new
        (fields.faults_of_options env kind name.now (options_seen options.now)) }
{
    let default_value = default_value(at.alloc, faults, kind, name, options)?;
    let json_name = json_name_of(at.alloc, faults, name, options)?;
    let bytes = custom_field_bytes(at, faults, options)?;
    let options = field_options(options, bytes);
    Ok(FieldSaid {
        default_value,
        json_name,
        options,
    })
}

/// The descriptor of a group's field. The group's message stands apart from it.
pub fn group_field<C: CustomOptions>(
    at: &Viewpoint<'_, '_, C>,
    owner: &FieldOwner<'_>,
    group: &Group,
) -> Result<FieldDescriptorProto, AllocError>
    ensures { let env = seen_from C.customs at.now in
        IfOk result (λ d. let g = group_syntax group.now in described.field_view d
        ≡ fields.group_field env (field_owner_view owner.now) g.label g.name g.number) }
{
    let name = Name::from(group_field_name(at.alloc, &group.name)?);
    let json_name = json_name(at.alloc, &name)?;
    let type_name = full_name(at.alloc, at.context.scope, &group.name)?;
    let extendee = owner.extendee(at.alloc)?;
    Ok(FieldDescriptorProto {
        name,
        number: group.number,
        label: group.label.unwrap_or(Label::Optional),
        type_: FieldType::Group,
        type_name: Some(type_name),
        extendee,
        default_value: None,
        oneof_index: owner.oneof_index(),
        json_name,
        proto3_optional: says_optional(at.context.syntax, group.label),
        options: None,
    })
}

/// Whether the type is a map's.
pub fn is_map(type_: &Type) -> bool
    ensures { result ≡ statements.is_map (type_syntax type_.now) }
{
    match type_ {
        Type::Map(_, _) => true,
        Type::Scalar(_) => false,
        Type::Named(_) => false,
    }
}

/// E4 for a map.
pub fn tell_map(alloc: Global, faults: &mut Vec<ElabError>, field: &Field) -> Result<(), AllocError>
    ensures { let f = field_syntax field.now in Tells result faults.old faults.new
        (placed f.place (fields.map_faults f)) }
{
    if is_map(&field.type_) {
        let kind = ElabErrorKind::DanglingTypeName;
        return tell(alloc, faults, field.place, kind, &field.name);
    }
    Ok(())
}

/// A map is repeated; any other field without a label is optional.
fn label_of(label: Option<Label>, type_: &Type) -> Label
    ensures { result ≡ fields.label_of label (type_syntax type_.now) }
{
    match type_ {
        Type::Map(_, _) => Label::Repeated,
        Type::Scalar(_) => label.unwrap_or(Label::Optional),
        Type::Named(_) => label.unwrap_or(Label::Optional),
    }
}

/// Whether the label `optional` stands there in proto3.
pub fn says_optional(syntax: Syntax, label: Option<Label>) -> bool
    ensures { result ≡ fields.says_optional syntax label }
{
    match (syntax, label) {
        (Syntax::Proto3, Some(Label::Optional)) => true,
        _ => false,
    }
}
