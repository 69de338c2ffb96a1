//! The statements that declare fields: fields with the messages behind maps, and groups.

ghost use Rattle.std.specs.Prelude.{◌≡◌, [], ◌∷◌, ◌++◌, IfOk, OnOk};
ghost use Rattle.protobuf_parse_syntax.specs.Trees as tree;
ghost use Rattle.protobuf_parse_syntax.specs.Trees.{field_syntax, field_statement_syntax, group_of};
ghost use Rattle.protobuf_parse_syntax.specs.InnerViews.{group_syntax};
ghost use Rattle.protobuf_parse_elaboration.specs.Parts.{behind_seen, declared_view};
ghost use Rattle.protobuf_parse_elaboration.specs.Parts.{field_declared_by, extension_declared_by};
ghost use Rattle.protobuf_parse_elaboration.specs.Parts.{field_owner_view};
ghost use Rattle.protobuf_parse_elaboration.specs.Fields as fields;
ghost use Rattle.protobuf_parse_elaboration.specs.Viewpoints.{seen_from};
ghost use Rattle.protobuf_parse_elaboration.specs.Telling.{Tells};

use crate::constructs::field::{field_descriptor, field_with, group_field, tell_map};
use crate::constructs::generated::{boxed, group_message, map_entry};
use crate::constructs::owner::FieldOwner;
use crate::constructs::types::map_type;
use crate::constructs::viewpoint::Viewpoint;
use protobuf_parse_model::{CustomOptions, DescriptorProto, ElabError, FieldDescriptorProto};
use protobuf_parse_syntax::{Field, FieldStatement, Group, Type};
use std::alloc::AllocError;

/// The field that a statement declares.
pub struct DeclaredField {
    pub field: FieldDescriptorProto,
    /// The message of a map's entries, or that of a group. Most fields have none, so it lies in
    /// memory of its own.
    pub behind: Option<Box<DescriptorProto>>,
}

// Written out: what drops it calls this, and need not prove anew how a field is dropped.
impl Drop for DeclaredField {
    fn drop(self) {
        let DeclaredField {
            field: _,
            behind: _,
        } = self;
    }
}

impl DeclaredField {
    /// Adds the field, and the message behind it, if one stands there.
    // Inlined: 0.6 % of the instructions for scalars.
    #[inline(always)]
    pub fn push_to(
        self,
        fields: &mut Vec<FieldDescriptorProto>,
        messages: &mut Vec<DescriptorProto>,
    ) -> Result<(), AllocError>
        ensures fields { OnOk result (fields.new.items ≡ fields.old.items ++ self.field ∷ []) }
        ensures messages { OnOk result
            (messages.new.items ≡ messages.old.items ++ behind_seen self.behind) }
    {
        let DeclaredField { field, behind } = self;
        fields.push(field)?;
        push_behind(messages, behind)
    }
}

/// Adds the message behind a field, if one stands there.
// Inlined: 0.6 % of the instructions for scalars, with five more of this crate.
#[inline(always)]
fn push_behind(
    messages: &mut Vec<DescriptorProto>,
    behind: Option<Box<DescriptorProto>>,
) -> Result<(), AllocError>
    ensures { OnOk result (messages.new.items ≡ messages.old.items ++ behind_seen behind) }
{
    if let Some(message) = behind {
        messages.push(Box::into_inner(message))?;
    }
    Ok(())
}

/// What a statement of a message or a oneof declares.
///
/// Besides the faults of a field: E1 where two fields of a group have one name; E4 where a map or a
/// group stands in a group.
// Inlined: 0.6 % of the instructions for scalars, with five more of this crate.
#[inline(always)]
pub fn declared_field<C: CustomOptions>(
    at: &Viewpoint<'_, '_, C>,
    faults: &mut Vec<ElabError>,
    owner: &FieldOwner<'_>,
    statement: &FieldStatement,
) -> Result<DeclaredField, AllocError>
    ensures value { let env = seen_from C.customs at.now in
        IfOk result (λ d. declared_view d ≡ field_declared_by env (field_owner_view owner.now)
        (field_statement_syntax statement.now)) }
    ensures faults { let env = seen_from C.customs at.now in
        Tells result faults.old faults.new
        (fields.field_statement_faults env (field_statement_syntax statement.now)) }
{
    match statement {
        FieldStatement::Field(field) => declared_normal(at, faults, owner, field),
        FieldStatement::Group(group) => declared_group(at, faults, owner, group),
    }
}

/// What a statement of an `extend` declares. E4 for a map.
pub fn declared_extension<C: CustomOptions>(
    at: &Viewpoint<'_, '_, C>,
    faults: &mut Vec<ElabError>,
    owner: &FieldOwner<'_>,
    statement: &FieldStatement,
) -> Result<DeclaredField, AllocError>
    ensures value { let env = seen_from C.customs at.now in
        IfOk result (λ d. declared_view d ≡ extension_declared_by env (field_owner_view owner.now)
        (field_statement_syntax statement.now)) }
    ensures faults { let env = seen_from C.customs at.now in
        Tells result faults.old faults.new
        (fields.extension_faults env (field_statement_syntax statement.now)) }
{
    match statement {
        FieldStatement::Field(field) => declared_without_entry(at, faults, owner, field),
        FieldStatement::Group(group) => declared_group(at, faults, owner, group),
    }
}

/// A field that is no group.
// Inlined: 0.6 % of the instructions for scalars, with five more of this crate.
#[inline(always)]
fn declared_normal<C: CustomOptions>(
    at: &Viewpoint<'_, '_, C>,
    faults: &mut Vec<ElabError>,
    owner: &FieldOwner<'_>,
    field: &Field,
) -> Result<DeclaredField, AllocError>
    ensures value { let env = seen_from C.customs at.now in
        IfOk result (λ d. declared_view d ≡ field_declared_by env (field_owner_view owner.now)
        (tree.field (field_syntax field.now))) }
    ensures faults { let env = seen_from C.customs at.now in
        Tells result faults.old faults.new (fields.field_faults env (field_syntax field.now)) }
{
    match &field.type_ {
        Type::Map(key, value) => declared_map(at, faults, owner, field, key, value),
        Type::Scalar(_) | Type::Named(_) => {
            let field = field_descriptor(at, faults, owner, field)?;
            Ok(DeclaredField {
                field,
                behind: None,
            })
        }
    }
}

/// A map with these types, and the message of its entries.
fn declared_map<C: CustomOptions>(
    at: &Viewpoint<'_, '_, C>,
    faults: &mut Vec<ElabError>,
    owner: &FieldOwner<'_>,
    field: &Field,
    key: &Type,
    value: &Type,
) -> Result<DeclaredField, AllocError>
    requires { tree.type_syntax field.now.type_
        ≡ tree.map_of (tree.type_syntax key.now) (tree.type_syntax value.now) }
    ensures value { let env = seen_from C.customs at.now in
        IfOk result (λ d. declared_view d ≡ field_declared_by env (field_owner_view owner.now)
        (tree.field (field_syntax field.now))) }
    ensures faults { let env = seen_from C.customs at.now in
        Tells result faults.old faults.new (fields.field_faults env (field_syntax field.now)) }
{
    let entry = map_entry(at, faults, field.place, &field.name, key, value)?;
    let behind = boxed(at.alloc, entry)?;
    let resolved = map_type(at, &field.name)?;
    let field = field_with(at, faults, owner, field, resolved)?;
    Ok(DeclaredField {
        field,
        behind: Some(behind),
    })
}

/// A field that is no group, and E4 where it is a map: no message stands behind it.
fn declared_without_entry<C: CustomOptions>(
    at: &Viewpoint<'_, '_, C>,
    faults: &mut Vec<ElabError>,
    owner: &FieldOwner<'_>,
    field: &Field,
) -> Result<DeclaredField, AllocError>
    ensures value { let env = seen_from C.customs at.now in
        IfOk result (λ d. declared_view d ≡ extension_declared_by env (field_owner_view owner.now)
        (tree.field (field_syntax field.now))) }
    ensures faults { let env = seen_from C.customs at.now in
        Tells result faults.old faults.new
        (fields.extension_faults env (tree.field (field_syntax field.now))) }
{
    tell_map(at.alloc, faults, field)?;
    let field = field_descriptor(at, faults, owner, field)?;
    Ok(DeclaredField {
        field,
        behind: None,
    })
}

/// A group.
#[tactic(auto, using(protobuf_parse_model::proofs::Levels::group_body_is))]
fn declared_group<C: CustomOptions>(
    at: &Viewpoint<'_, '_, C>,
    faults: &mut Vec<ElabError>,
    owner: &FieldOwner<'_>,
    group: &Group,
) -> Result<DeclaredField, AllocError>
    ensures value { let env = seen_from C.customs at.now in
        IfOk result (λ d. declared_view d ≡ field_declared_by env (field_owner_view owner.now)
        (group_of (group_syntax group.now))) }
    ensures faults { let env = seen_from C.customs at.now in
        Tells result faults.old faults.new
        (fields.field_statement_faults env (group_of (group_syntax group.now))) }
{
    let message = group_message(at, faults, group)?;
    let message = boxed(at.alloc, message)?;
    let field = group_field(at, owner, group)?;
    Ok(DeclaredField {
        field,
        behind: Some(message),
    })
}
