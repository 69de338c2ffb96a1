//! The messages that stand behind maps and groups.

ghost use Rattle.std.specs.Prelude.{◌≡◌, ◌++◌, map, flat_map, option_map, IfOk};
ghost use Rattle.protobuf_parse_base.specs.DeclaredNames.{name_bytes};
ghost use Rattle.protobuf_parse_syntax.specs.Trees.{field_statement_syntax};
ghost use Rattle.protobuf_parse_syntax.specs.InnerViews.{group_syntax};
ghost use Rattle.protobuf_parse_syntax.specs.Trees.{map_of, type_syntax};
ghost use Rattle.protobuf_parse_model.specs.Descriptors as described;
ghost use Rattle.protobuf_parse_model.specs.Duplicates.{duplicates, fault};
ghost use Rattle.protobuf_parse_model.specs.Faults.{placed};
ghost use Rattle.protobuf_parse_model.specs.Options.{message_options_view};
ghost use Rattle.protobuf_parse_model.specs.Statements.{group_field_name};
ghost use Rattle.protobuf_parse_model.specs.declared.error.ElabErrorKind.TheVariants.{DanglingTypeName};
ghost use Rattle.protobuf_parse_elaboration.specs.Parts.{resolved_view};
ghost use Rattle.protobuf_parse_elaboration.specs.Fields as fields;
ghost use Rattle.protobuf_parse_elaboration.specs.Messages as messages;
ghost use Rattle.protobuf_parse_elaboration.specs.Viewpoints.{seen_from};
ghost use Rattle.protobuf_parse_elaboration.specs.Telling.{Tells};

use crate::constructs::declared::DeclaredAs;
use crate::constructs::field::{field_descriptor, group_field, tell_map};
use crate::constructs::owner::FieldOwner;
use crate::constructs::told::tell_names;
use crate::constructs::types::{ResolvedType, entry_types};
use crate::constructs::viewpoint::Viewpoint;
use protobuf_parse_base::Name;
use protobuf_parse_lexer::Place;
use protobuf_parse_model::{
    CustomOptions, DescriptorProto, ElabError, ElabErrorKind, FieldDescriptorProto, Label,
    MessageOptions, entry_name, group_field_name, tell,
};
use protobuf_parse_syntax::{FieldStatement, Group, Type};
use std::alloc::{AllocError, Global};

/// The message in memory of its own.
pub fn boxed(alloc: Global, message: DescriptorProto) -> Result<Box<DescriptorProto>, AllocError>
    ensures { IfOk result (λ b. b.value ≡ message) }
{
    Ok(Box::new(alloc, message)?)
}

/// The message of the entries of the map of that name.
///
/// Told at the place, each once: E2 or E3 where the name of its key's or its value's type means
/// none; E4 for a map.
pub fn map_entry<C: CustomOptions>(
    at: &Viewpoint<'_, '_, C>,
    faults: &mut Vec<ElabError>,
    place: Place,
    name: &str,
    key: &Type,
    value: &Type,
) -> Result<DescriptorProto, AllocError>
    ensures value { let env = seen_from C.customs at.now in
        IfOk result (λ m. described.message_view m
        ≡ messages.entry_of env name.now (type_syntax key.now) (type_syntax value.now)) }
    ensures faults { let env = seen_from C.customs at.now in
        let map = map_of (type_syntax key.now) (type_syntax value.now) in
        Tells result faults.old faults.new (placed place (fields.type_faults env name.now map)) }
{
    let (key, value) = entry_types(at, faults, place, name, key, value)?;
    entry_message(at.alloc, name, key, value)
}

fn entry_message(
    alloc: Global,
    name: &str,
    key: ResolvedType,
    value: ResolvedType,
) -> Result<DescriptorProto, AllocError>
    ensures { IfOk result
        (λ m. described.message_view m
        ≡ messages.entry_message name.now (resolved_view key) (resolved_view value)) }
{
    let mut field = Vec::with_capacity(alloc, 2)?;
    field.push(entry_field(alloc, "key", 1, key)?)?;
    field.push(entry_field(alloc, "value", 2, value)?)?;
    let name = Name::from(entry_name(alloc, name)?);
    let options = MessageOptions {
        message_set_wire_format: None,
        no_standard_descriptor_accessor: None,
        deprecated: None,
        map_entry: Some(true),
        custom: Vec::new(alloc),
    };
    Ok(message_with(alloc, name, field, Some(options)))
}

fn entry_field(
    alloc: Global,
    name: &str,
    number: i32,
    type_: ResolvedType,
) -> Result<FieldDescriptorProto, AllocError>
    ensures { IfOk result
        (λ f. described.field_view f ≡ messages.entry_field name.now number (resolved_view type_)) }
{
    Ok(FieldDescriptorProto {
        name: Name::new(alloc, name)?,
        number,
        label: Label::Optional,
        type_: type_.kind,
        type_name: type_.name,
        extendee: None,
        default_value: None,
        oneof_index: None,
        json_name: Name::new(alloc, name)?,
        proto3_optional: false,
        options: None,
    })
}

/// A message with fields and options alone.
fn message_with(
    alloc: Global,
    name: Name,
    field: Vec<FieldDescriptorProto>,
    options: Option<MessageOptions>,
) -> DescriptorProto
    ensures { described.message_view result
        ≡ messages.message_with (name_bytes name) (map described.field_view field.items)
        (option_map message_options_view options) }
{
    DescriptorProto {
        name,
        field,
        oneof_decl: Vec::new(alloc),
        nested_type: Vec::new(alloc),
        enum_type: Vec::new(alloc),
        extension: Vec::new(alloc),
        extension_range: Vec::new(alloc),
        reserved_range: Vec::new(alloc),
        reserved_name: Vec::new(alloc),
        options,
    }
}

/// The message of a group.
///
/// E1 where two of its fields have one name; E4 where a map or a group stands in it.
pub fn group_message<C: CustomOptions>(
    at: &Viewpoint<'_, '_, C>,
    faults: &mut Vec<ElabError>,
    group: &Group,
) -> Result<DescriptorProto, AllocError>
    ensures value { let env = seen_from C.customs at.now in
        let g = group_syntax group.now in IfOk result
        (λ m. described.message_view m ≡ messages.group_message env g.name g.fields) }
    ensures faults { let env = seen_from C.customs at.now in
        Tells result faults.old faults.new
        (fields.group_faults env (group_syntax group.now).fields) }
{
    let field = grouped_fields(at, faults, &group.fields)?;
    tell_group_names(at, faults, &group.fields, &field)?;
    Ok(message_with(at.alloc, group.name.clone()?, field, None))
}

/// E1 where two fields of a group have one name.
fn tell_group_names<C: CustomOptions>(
    at: &Viewpoint<'_, '_, C>,
    faults: &mut Vec<ElabError>,
    statements: &[FieldStatement],
    items: &[FieldDescriptorProto],
) -> Result<(), AllocError>
    requires { let env = seen_from C.customs at.now in
        map described.field_view items.now
        ≡ fields.fields_of_group env (map field_statement_syntax statements.now) }
    ensures { Tells result faults.old faults.new
        (duplicates (map fields.field_named (map field_statement_syntax statements.now))) }
{
    let syntax = at.context.syntax;
    tell_names(
        at.alloc,
        faults,
        DeclaredAs::Field,
        syntax,
        statements,
        items,
    )
}

/// The fields of a group.
fn grouped_fields<C: CustomOptions>(
    at: &Viewpoint<'_, '_, C>,
    faults: &mut Vec<ElabError>,
    statements: &[FieldStatement],
) -> Result<Vec<FieldDescriptorProto>, AllocError>
    ensures value { let env = seen_from C.customs at.now in
        IfOk result (λ v. map described.field_view v.items
        ≡ fields.fields_of_group env (map field_statement_syntax statements.now)) }
    ensures faults { let env = seen_from C.customs at.now in
        Tells result faults.old faults.new
        (flat_map (fields.grouped_faults env) (map field_statement_syntax statements.now)) }
{
    let mut fields = Vec::new(at.alloc);
    for statement in statements {
        fields.push(grouped_field(at, faults, statement)?)?;
    }
    Ok(fields)
}

/// A field of a group. E4 for a map and for a group.
fn grouped_field<C: CustomOptions>(
    at: &Viewpoint<'_, '_, C>,
    faults: &mut Vec<ElabError>,
    statement: &FieldStatement,
) -> Result<FieldDescriptorProto, AllocError>
    ensures value { let env = seen_from C.customs at.now in
        IfOk result (λ d. described.field_view d
        ≡ fields.field_statement_of env fields.of_message (field_statement_syntax statement.now)) }
    ensures faults { let env = seen_from C.customs at.now in
        Tells result faults.old faults.new
        (fields.grouped_faults env (field_statement_syntax statement.now)) }
{
    let owner = FieldOwner {
        extendee: None,
        oneof_index: None,
    };
    match statement {
        FieldStatement::Field(field) => {
            tell_map(at.alloc, faults, field)?;
            field_descriptor(at, faults, &owner, field)
        }
        FieldStatement::Group(group) => {
            tell_group(at.alloc, faults, group)?;
            group_field(at, &owner, group)
        }
    }
}

/// E4 for a group.
fn tell_group(alloc: Global, faults: &mut Vec<ElabError>, group: &Group) -> Result<(), AllocError>
    ensures { let g = group_syntax group.now in Tells result faults.old faults.new
        (placed g.place (fault DanglingTypeName (group_field_name g.name))) }
{
    let name = group_field_name(alloc, &group.name)?;
    let kind = ElabErrorKind::DanglingTypeName;
    tell(alloc, faults, group.place, kind, &name)
}
