//! What the statements of a message's body declare.

ghost use Rattle.std.specs.Prelude.{◌≡◌, ◌++◌, ◌<◌, ◌^◌, true, false, length, OnOk};
ghost use Rattle.protobuf_parse_base.specs.DeclaredNames.{name_bytes};
ghost use Rattle.protobuf_parse_syntax.specs.Trees as tree;
ghost use Rattle.protobuf_parse_model.specs.SeenFiles.{environment_in};
ghost use Rattle.protobuf_parse_model.specs.Descriptors as described;
ghost use Rattle.protobuf_parse_model.specs.Statements as statements;
ghost use Rattle.protobuf_parse_elaboration.specs.Parts.{body_view, message_of_both, rest_view};
ghost use Rattle.protobuf_parse_elaboration.specs.Parts.{with_body_statement};
ghost use Rattle.protobuf_parse_elaboration.specs.Enums.{enum_faults};
ghost use Rattle.protobuf_parse_elaboration.specs.Fields.{field_faults, field_statement_faults};
ghost use Rattle.protobuf_parse_elaboration.specs.Messages.{extend_faults, has_own_oneof};
ghost use Rattle.protobuf_parse_elaboration.specs.Messages.{oneof_faults};
ghost use Rattle.protobuf_parse_elaboration.specs.Viewpoints.{seen_from};
ghost use Rattle.protobuf_parse_elaboration.specs.Telling.{Tells};

use crate::constructs::enumeration::enum_descriptor;
use crate::constructs::field::{field_descriptor, is_map};
use crate::constructs::lists::{append_declared, fields_of_extend, push_fields_of_oneof, shrunk};
use crate::constructs::oneof::{has_own_oneof, oneof_descriptor, own_oneof};
use crate::constructs::owner::FieldOwner;
use crate::constructs::rest::Rest;
use crate::constructs::statement::declared_field;
use crate::constructs::viewpoint::Viewpoint;
use protobuf_parse_base::Name;
use protobuf_parse_model::{
    CustomOptions, DescriptorProto, ElabError, EnumDescriptorProto, FieldDescriptorProto,
    OneofDescriptorProto,
};
use protobuf_parse_syntax::{Enumeration, Extend, Field, FieldStatement, OneOf};
use std::alloc::AllocError;

/// What the statements of a message's body declare, each list in source order.
pub struct Body {
    pub field: Vec<FieldDescriptorProto>,
    pub oneof_decl: Vec<OneofDescriptorProto>,
    pub nested_type: Vec<DescriptorProto>,
    pub enum_type: Vec<EnumDescriptorProto>,
    pub extension: Vec<FieldDescriptorProto>,
}

// Written out: what drops it calls this, and need not prove anew how each list is dropped.
impl Drop for Body {
    fn drop(self) {
        let Body {
            field: _,
            oneof_decl: _,
            nested_type: _,
            enum_type: _,
            extension: _,
        } = self;
    }
}

impl Body {
    /// The message of that name with this body.
    pub fn into_message(self, name: Name, rest: Rest) -> DescriptorProto
        ensures { described.message_view result ≡ message_of_both (name_bytes name)
            (body_view self) (rest_view rest) }
    {
        let Body {
            field,
            oneof_decl,
            nested_type,
            enum_type,
            extension,
        } = self;
        DescriptorProto {
            name,
            field: shrunk(field),
            oneof_decl: shrunk(oneof_decl),
            nested_type: shrunk(nested_type),
            enum_type: shrunk(enum_type),
            extension: shrunk(extension),
            extension_range: rest.extension_range,
            reserved_range: rest.reserved_range,
            reserved_name: rest.reserved_name,
            options: rest.options,
        }
    }
}

/// Adds a field, with the oneof of its own and the message behind it, where there are any.
pub fn add_field<C: CustomOptions>(
    at: &Viewpoint<'_, '_, C>,
    faults: &mut Vec<ElabError>,
    body: &mut Body,
    statement: &FieldStatement,
) -> Result<(), AllocError>
    requires { length body.old.oneof_decl.items < 2 ^ 31 }
    ensures value { let env = seen_from C.customs at.now in
        let s = tree.message_field (tree.field_statement_syntax statement.now) in
        OnOk result (body_view body.new ≡ with_body_statement env (body_view body.old) s) }
    ensures faults { let env = seen_from C.customs at.now in
        Tells result faults.old faults.new
        (field_statement_faults env (tree.field_statement_syntax statement.now)) }
{
    if has_own_oneof(at.context.syntax, statement) {
        add_in_own_oneof(at, faults, body, statement)
    } else {
        add_normal(at, faults, body, statement)
    }
}

/// Adds a field that is in no oneof.
fn add_normal<C: CustomOptions>(
    at: &Viewpoint<'_, '_, C>,
    faults: &mut Vec<ElabError>,
    body: &mut Body,
    statement: &FieldStatement,
) -> Result<(), AllocError>
    requires { has_own_oneof (environment_in (C.customs at.now.custom.now) at.now.context)
        (tree.field_statement_syntax statement.now) ≡ false }
    ensures value { let env = seen_from C.customs at.now in
        let s = tree.message_field (tree.field_statement_syntax statement.now) in
        OnOk result (body_view body.new ≡ with_body_statement env (body_view body.old) s) }
    ensures faults { let env = seen_from C.customs at.now in
        Tells result faults.old faults.new
        (field_statement_faults env (tree.field_statement_syntax statement.now)) }
{
    match statement {
        FieldStatement::Field(field) if !is_map(&field.type_) => {
            add_without_message(at, faults, body, field)
        }
        _ => add_with_message(at, faults, body, statement),
    }
}

/// Adds a field that is in no oneof, and behind which no message stands.
// Inlined: 0.6 % of the instructions for scalars, with five more of this crate.
#[inline(always)]
#[tactic(auto, using(crate::proofs::Bodies::no_entries))]
fn add_without_message<C: CustomOptions>(
    at: &Viewpoint<'_, '_, C>,
    faults: &mut Vec<ElabError>,
    body: &mut Body,
    field: &Field,
) -> Result<(), AllocError>
    requires normal { statements.is_map (tree.type_syntax field.now.type_) ≡ false }
    requires own { has_own_oneof (environment_in (C.customs at.now.custom.now) at.now.context)
        (tree.field (tree.field_syntax field.now)) ≡ false }
    ensures value { let env = seen_from C.customs at.now in
        let s = tree.message_field (tree.field (tree.field_syntax field.now)) in
        OnOk result (body_view body.new ≡ with_body_statement env (body_view body.old) s) }
    ensures faults { let env = seen_from C.customs at.now in
        Tells result faults.old faults.new (field_faults env (tree.field_syntax field.now)) }
{
    let owner = FieldOwner {
        extendee: None,
        oneof_index: None,
    };
    let descriptor = field_descriptor(at, faults, &owner, field)?;
    body.field.push(descriptor)?;
    Ok(())
}

/// Adds a field that is in no oneof, and the message behind it, if one stands there.
fn add_with_message<C: CustomOptions>(
    at: &Viewpoint<'_, '_, C>,
    faults: &mut Vec<ElabError>,
    body: &mut Body,
    statement: &FieldStatement,
) -> Result<(), AllocError>
    requires { has_own_oneof (environment_in (C.customs at.now.custom.now) at.now.context)
        (tree.field_statement_syntax statement.now) ≡ false }
    ensures value { let env = seen_from C.customs at.now in
        let s = tree.message_field (tree.field_statement_syntax statement.now) in
        OnOk result (body_view body.new ≡ with_body_statement env (body_view body.old) s) }
    ensures faults { let env = seen_from C.customs at.now in
        Tells result faults.old faults.new
        (field_statement_faults env (tree.field_statement_syntax statement.now)) }
{
    let owner = FieldOwner {
        extendee: None,
        oneof_index: None,
    };
    let declared = declared_field(at, faults, &owner, statement)?;
    declared.push_to(&mut body.field, &mut body.nested_type)?;
    Ok(())
}

/// Adds a field that is alone in a oneof.
fn add_in_own_oneof<C: CustomOptions>(
    at: &Viewpoint<'_, '_, C>,
    faults: &mut Vec<ElabError>,
    body: &mut Body,
    statement: &FieldStatement,
) -> Result<(), AllocError>
    requires few { length body.old.oneof_decl.items < 2 ^ 31 }
    requires own { has_own_oneof (environment_in (C.customs at.now.custom.now) at.now.context)
        (tree.field_statement_syntax statement.now) ≡ true }
    ensures value { let env = seen_from C.customs at.now in
        let s = tree.message_field (tree.field_statement_syntax statement.now) in
        OnOk result (body_view body.new ≡ with_body_statement env (body_view body.old) s) }
    ensures faults { let env = seen_from C.customs at.now in
        Tells result faults.old faults.new
        (field_statement_faults env (tree.field_statement_syntax statement.now)) }
{
    let owner = FieldOwner {
        extendee: None,
        oneof_index: Some(body.oneof_decl.len()),
    };
    let declared = declared_field(at, faults, &owner, statement)?;
    let own = own_oneof(at.alloc, &declared)?;
    body.oneof_decl.push(own)?;
    declared.push_to(&mut body.field, &mut body.nested_type)?;
    Ok(())
}

/// Adds a oneof, its fields and the messages behind them.
pub fn add_oneof<C: CustomOptions>(
    at: &Viewpoint<'_, '_, C>,
    faults: &mut Vec<ElabError>,
    body: &mut Body,
    oneof: &OneOf,
) -> Result<(), AllocError>
    requires { length body.old.oneof_decl.items < 2 ^ 31 }
    ensures value { let env = seen_from C.customs at.now in
        let s = tree.message_oneof (tree.oneof_syntax oneof.now) in
        OnOk result (body_view body.new ≡ with_body_statement env (body_view body.old) s) }
    ensures faults { let env = seen_from C.customs at.now in
        Tells result faults.old faults.new (oneof_faults env (tree.oneof_syntax oneof.now)) }
{
    let owner = FieldOwner {
        extendee: None,
        oneof_index: Some(body.oneof_decl.len()),
    };
    let (fields, messages) = (&mut body.field, &mut body.nested_type);
    push_fields_of_oneof(at, faults, &owner, oneof, fields, messages)?;
    let descriptor = oneof_descriptor(at, faults, oneof)?;
    body.oneof_decl.push(descriptor)?;
    Ok(())
}

/// Adds the extensions of an `extend`, and the messages behind their groups.
pub fn add_extend<C: CustomOptions>(
    at: &Viewpoint<'_, '_, C>,
    faults: &mut Vec<ElabError>,
    body: &mut Body,
    extend: &Extend,
) -> Result<(), AllocError>
    ensures value { let env = seen_from C.customs at.now in
        let s = tree.message_extend (tree.extend_syntax extend.now) in
        OnOk result (body_view body.new ≡ with_body_statement env (body_view body.old) s) }
    ensures faults { let env = seen_from C.customs at.now in
        Tells result faults.old faults.new (extend_faults env (tree.extend_syntax extend.now)) }
{
    let declared = fields_of_extend(at, faults, extend.place, &extend.extendee, &extend.fields)?;
    append_declared(&mut body.extension, &mut body.nested_type, declared)
}

/// Adds an enum.
pub fn add_enum<C: CustomOptions>(
    at: &Viewpoint<'_, '_, C>,
    faults: &mut Vec<ElabError>,
    body: &mut Body,
    enumeration: &Enumeration,
) -> Result<(), AllocError>
    ensures value { let env = seen_from C.customs at.now in
        let s = tree.message_enum (tree.enum_syntax enumeration.now) in
        OnOk result (body_view body.new ≡ with_body_statement env (body_view body.old) s) }
    ensures faults { let env = seen_from C.customs at.now in
        Tells result faults.old faults.new (enum_faults env (tree.enum_syntax enumeration.now)) }
{
    let descriptor = enum_descriptor(at, faults, enumeration)?;
    body.enum_type.push(descriptor)?;
    Ok(())
}
