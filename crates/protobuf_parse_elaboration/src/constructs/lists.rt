//! Several fields: those of a oneof, and those of an `extend`.

ghost use Rattle.std.specs.Prelude.{◌≡◌, ◌++◌, map, flat_map, IfOk, OnOk};
ghost use Rattle.protobuf_parse_syntax.specs.Trees.{field_statement_syntax, oneof_syntax};
ghost use Rattle.protobuf_parse_model.specs.Descriptors as described;
ghost use Rattle.protobuf_parse_model.specs.Faults.{placed};
ghost use Rattle.protobuf_parse_model.specs.Statements.{oneof_fields};
ghost use Rattle.protobuf_parse_elaboration.specs.Parts.{extensions_declared, field_owner_view};
ghost use Rattle.protobuf_parse_elaboration.specs.Parts.{fields_view};
ghost use Rattle.protobuf_parse_elaboration.specs.Fields.{extension_faults, field_statement_faults};
ghost use Rattle.protobuf_parse_elaboration.specs.Fields.{field_statement_of};
ghost use Rattle.protobuf_parse_elaboration.specs.Messages.{extendee_faults, extending};
ghost use Rattle.protobuf_parse_elaboration.specs.Messages.{messages_behind};
ghost use Rattle.protobuf_parse_elaboration.specs.Viewpoints.{seen_from};
ghost use Rattle.protobuf_parse_elaboration.specs.Telling.{Tells};

use crate::constructs::owner::FieldOwner;
use crate::constructs::statement::{declared_extension, declared_field};
use crate::constructs::types::type_full_name;
use crate::constructs::viewpoint::Viewpoint;
use protobuf_parse_lexer::Place;
use protobuf_parse_model::{CustomOptions, DescriptorProto, ElabError, FieldDescriptorProto};
use protobuf_parse_syntax::{FieldStatement, OneOf, OneOfStatement};
use std::alloc::AllocError;

/// Fields, and the messages behind maps and groups among them, each in source order.
#[derive(Drop)]
pub struct DeclaredFields {
    pub fields: Vec<FieldDescriptorProto>,
    pub behind: Vec<DescriptorProto>,
}

/// The list, in no more room than its items take.
pub fn shrunk<T: Drop>(list: Vec<T>) -> Vec<T>
    ensures { result.items ≡ list.items }
{
    let mut shrunk = list;
    shrunk.shrink_to_fit();
    shrunk
}

/// Adds the fields of a oneof, which has that number among the oneofs, and the messages behind
/// them.
pub fn push_fields_of_oneof<C: CustomOptions>(
    at: &Viewpoint<'_, '_, C>,
    faults: &mut Vec<ElabError>,
    owner: &FieldOwner<'_>,
    oneof: &OneOf,
    fields: &mut Vec<FieldDescriptorProto>,
    messages: &mut Vec<DescriptorProto>,
) -> Result<(), AllocError>
    ensures fields { let env = seen_from C.customs at.now in
        let ss = flat_map oneof_fields (oneof_syntax oneof.now).body in
        OnOk result (map described.field_view fields.new.items
        ≡ map described.field_view fields.old.items
        ++ map (field_statement_of env (field_owner_view owner.now)) ss) }
    ensures messages { let env = seen_from C.customs at.now in
        let ss = flat_map oneof_fields (oneof_syntax oneof.now).body in
        OnOk result (map described.message_view messages.new.items
        ≡ map described.message_view messages.old.items ++ flat_map (messages_behind env) ss) }
    ensures faults { let env = seen_from C.customs at.now in
        Tells result faults.old faults.new
        (flat_map (field_statement_faults env)
        (flat_map oneof_fields (oneof_syntax oneof.now).body)) }
{
    for statement in &oneof.body {
        if let OneOfStatement::Field(field) = statement {
            let declared = declared_field(at, faults, owner, field)?;
            declared.push_to(fields, messages)?;
        }
    }
    Ok(())
}

/// What an `extend` declares. E2 or E3 where the name of the message that is extended means none,
/// and something extends it.
pub fn fields_of_extend<C: CustomOptions>(
    at: &Viewpoint<'_, '_, C>,
    faults: &mut Vec<ElabError>,
    place: Place,
    extendee: &str,
    statements: &[FieldStatement],
) -> Result<DeclaredFields, AllocError>
    ensures value { let env = seen_from C.customs at.now in
        let ss = map field_statement_syntax statements.now in IfOk result
        (λ d. fields_view d ≡ extensions_declared env (extending env extendee.now) ss) }
    ensures faults { let env = seen_from C.customs at.now in
        let ss = map field_statement_syntax statements.now in
        Tells result faults.old faults.new
        (placed place (extendee_faults env extendee.now ss) ++ flat_map (extension_faults env) ss) }
{
    if statements.is_empty() {
        return Ok(DeclaredFields {
            fields: Vec::new(at.alloc),
            behind: Vec::new(at.alloc),
        });
    }
    let extendee = type_full_name(at, faults, place, extendee)?;
    let owner = FieldOwner {
        extendee: extendee.as_deref(),
        oneof_index: None,
    };
    declared_extensions(at, faults, &owner, statements)
}

/// What these statements of an `extend` declare, which stands there.
fn declared_extensions<C: CustomOptions>(
    at: &Viewpoint<'_, '_, C>,
    faults: &mut Vec<ElabError>,
    owner: &FieldOwner<'_>,
    statements: &[FieldStatement],
) -> Result<DeclaredFields, AllocError>
    ensures value { let env = seen_from C.customs at.now in
        let ss = map field_statement_syntax statements.now in IfOk result
        (λ d. fields_view d ≡ extensions_declared env (field_owner_view owner.now) ss) }
    ensures faults { let env = seen_from C.customs at.now in
        Tells result faults.old faults.new
        (flat_map (extension_faults env) (map field_statement_syntax statements.now)) }
{
    let mut fields = Vec::new(at.alloc);
    let mut behind = Vec::new(at.alloc);
    for statement in statements {
        let declared = declared_extension(at, faults, owner, statement)?;
        declared.push_to(&mut fields, &mut behind)?;
    }
    Ok(DeclaredFields { fields, behind })
}

/// Adds these fields, and the messages behind them.
pub fn append_declared(
    fields: &mut Vec<FieldDescriptorProto>,
    messages: &mut Vec<DescriptorProto>,
    mut declared: DeclaredFields,
) -> Result<(), AllocError>
    ensures fields { OnOk result
        (fields.new.items ≡ fields.old.items ++ declared.fields.items) }
    ensures messages { OnOk result
        (messages.new.items ≡ messages.old.items ++ declared.behind.items) }
{
    fields.append(&mut declared.fields)?;
    messages.append(&mut declared.behind)
}
