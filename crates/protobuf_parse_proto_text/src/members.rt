//! Fields and extensions, with the messages that they make, as entries of maps and groups, and the
//! braces around them.

ghost use Rattle.std.specs.Prelude.{◌≡◌, [], ◌∷◌, ◌++◌, ℕ, List, IfOk, OnOk, map, slice_get};
ghost use Rattle.std.specs.Prelude.{unwrap_or};
ghost use Rattle.std.specs.Prelude.{option_map, bytes_eq};
ghost use Rattle.std.specs.BTreeMap.{get_by_text};
ghost use Rattle.std.specs.Option.{option_and_then};
ghost use Rattle.std.specs.String.{string_bytes};
ghost use Rattle.protobuf_parse_model.specs.Descriptors.{field_view, oneof_view};
ghost use Rattle.protobuf_parse_model.specs.MessageParts.{message_parts};
ghost use Rattle.protobuf_parse_index.specs.Kept.{first_at};
ghost use Rattle.protobuf_parse_index.specs.Puts.{PutsPosition};
ghost use Rattle.protobuf_parse_wire.specs.Declarations.{name_within};
ghost use Rattle.protobuf_parse_proto_text.specs.Order as spec;
ghost use Rattle.protobuf_parse_proto_text.specs.OrderViews.{all_parts, block_view, member_view};

use protobuf_parse_model::{
    DescriptorProto, FieldDescriptorProto, FieldType, Label, OneofDescriptorProto,
};
use protobuf_parse_wire::name_within;
use std::alloc::{AllocError, Global};
use std::collections::BTreeMap;

/// A field or an extension: the position of the nested message that it makes, if it makes one, and
/// the block that it stands in.
#[derive(Clone, Copy)]
pub struct Member<'a> {
    pub field: &'a FieldDescriptorProto,
    pub made: Option<usize>,
    pub block: Block<'a>,
}

/// What braces around fields are of.
#[derive(Clone, Copy)]
pub enum Block<'a> {
    /// The field stands in no braces.
    Alone,
    /// A oneof, and its index.
    Oneof(i32, &'a OneofDescriptorProto),
    /// `extend` of the message that has the name.
    Extend(&'a str),
}

/// The fields of a message that has the full name, and then its extensions.
pub fn message_members<'a>(
    alloc: Global,
    scope: &str,
    message: &'a DescriptorProto,
    nested: &'a [DescriptorProto],
) -> Result<Vec<Member<'a>>, AllocError>
    ensures { IfOk result (λ v. map member_view v.items
        ≡ spec.message_members scope.now (all_parts nested.now) (message_parts message.now)) }
{
    let positions = positions_of(alloc, scope, nested)?;
    let mut members = Vec::new(alloc);
    add_fields(
        &mut members,
        &positions,
        nested,
        &message.oneof_decl,
        &message.field,
    )?;
    add_extensions(&mut members, &positions, nested, &message.extension)?;
    Ok(members)
}

/// Extensions in that scope, beside which these messages stand.
pub fn extension_members<'a>(
    alloc: Global,
    scope: &str,
    extensions: &'a [FieldDescriptorProto],
    nested: &'a [DescriptorProto],
) -> Result<Vec<Member<'a>>, AllocError>
    ensures { IfOk result (λ v. map member_view v.items
        ≡ spec.extension_members scope.now (all_parts nested.now)
        (map field_view extensions.now)) }
{
    let positions = positions_of(alloc, scope, nested)?;
    let mut members = Vec::new(alloc);
    add_extensions(&mut members, &positions, nested, extensions)?;
    Ok(members)
}

/// The positions of messages by their full names, of several with one name the first.
fn positions_of(
    alloc: Global,
    scope: &str,
    nested: &[DescriptorProto],
) -> Result<BTreeMap<String, usize>, AllocError>
    ensures { IfOk result (λ m. (q : List ℕ) → get_by_text m q
        ≡ spec.position_named scope.now q (all_parts nested.now)) }
{
    let mut positions = BTreeMap::new(alloc);
    'nested: for (at, message) in nested.iter().enumerate() {
        let name = name_within(alloc, scope, &message.name)?;
        put_position(&mut positions, name, at)?;
    }
    Ok(positions)
}

/// The name has the position, unless it has one already.
fn put_position(
    positions: &mut BTreeMap<String, usize>,
    name: String,
    at: usize,
) -> Result<(), AllocError>
    ensures { OnOk result (PutsPosition positions.old positions.new (string_bytes name) at) }
{
    match positions.get(name.as_str()) {
        Some(_first) => Ok(()),
        None => {
            positions.insert(name, at)?;
            Ok(())
        }
    }
}

fn add_fields<'a>(
    members: &mut Vec<Member<'a>>,
    positions: &BTreeMap<String, usize>,
    nested: &[DescriptorProto],
    oneofs: &'a [OneofDescriptorProto],
    fields: &'a [FieldDescriptorProto],
) -> Result<(), AllocError>
    ensures { OnOk result (map member_view members.new.items
        ≡ map member_view members.old.items
        ++ map (spec.field_member (get_by_text positions.now) (all_parts nested.now)
        (map oneof_view oneofs.now)) (map field_view fields.now)) }
{
    for field in fields {
        let made = made_by(positions, nested, field);
        let block = oneof_block(oneofs, field);
        members.push(Member { field, made, block })?;
    }
    Ok(())
}

fn add_extensions<'a>(
    members: &mut Vec<Member<'a>>,
    positions: &BTreeMap<String, usize>,
    nested: &[DescriptorProto],
    extensions: &'a [FieldDescriptorProto],
) -> Result<(), AllocError>
    ensures { OnOk result (map member_view members.new.items
        ≡ map member_view members.old.items
        ++ map (spec.extension_member (get_by_text positions.now) (all_parts nested.now))
        (map field_view extensions.now)) }
{
    for field in extensions {
        let made = made_by(positions, nested, field);
        let block = Block::Extend(extendee_of(field));
        members.push(Member { field, made, block })?;
    }
    Ok(())
}

/// The position of the message that the field makes, as a map's entry or a group.
fn made_by(
    positions: &BTreeMap<String, usize>,
    nested: &[DescriptorProto],
    field: &FieldDescriptorProto,
) -> Option<usize>
    ensures { result
        ≡ spec.made_by (get_by_text positions.now) (all_parts nested.now) (field_view field.now) }
{
    match &field.type_name {
        None => None,
        Some(name) => match positions.get(name.as_str()).copied() {
            None => None,
            Some(at) => if_made(nested, field, at),
        },
    }
}

fn if_made(nested: &[DescriptorProto], field: &FieldDescriptorProto, at: usize) -> Option<usize>
    ensures { result
        ≡ spec.if_made (field_view field.now) at (slice_get (all_parts nested.now) at) }
{
    match nested.get(at) {
        None => None,
        Some(message) => {
            if makes(field, message) {
                Some(at)
            } else {
                None
            }
        }
    }
}

/// Whether the message of the field's type name is its group or the entry of its map.
fn makes(field: &FieldDescriptorProto, message: &DescriptorProto) -> bool
    ensures { result ≡ spec.makes field.now.type_ field.now.label (message_parts message.now) }
{
    match field.type_ {
        FieldType::Group => true,
        FieldType::Message => is_repeated(field.label) && is_entry(message),
        _ => false,
    }
}

/// Whether the label is `repeated`.
pub fn is_repeated(label: Label) -> bool
    ensures { result ≡ spec.is_repeated label }
{
    match label {
        Label::Repeated => true,
        Label::Optional => false,
        Label::Required => false,
    }
}

/// Whether the message has a key and a value, and is said to be a map's.
fn is_entry(message: &DescriptorProto) -> bool
    ensures { result ≡ spec.is_entry (message_parts message.now) }
{
    says_entry(message) && message.field.len() == 2
}

fn says_entry(message: &DescriptorProto) -> bool
    ensures { result ≡ spec.says_entry (message_parts message.now).options }
{
    match &message.options {
        None => false,
        Some(options) => options.map_entry.unwrap_or(false),
    }
}

/// The oneof that the field stands in, unless it was made for the field alone.
fn oneof_block<'a>(oneofs: &'a [OneofDescriptorProto], field: &FieldDescriptorProto) -> Block<'a>
    ensures { block_view result
        ≡ spec.oneof_block (map oneof_view oneofs.now) (field_view field.now) }
{
    if field.proto3_optional {
        return Block::Alone;
    }
    match field.oneof_index {
        None => Block::Alone,
        Some(index) => block_at(oneofs, index),
    }
}

fn block_at(oneofs: &[OneofDescriptorProto], index: i32) -> Block<'_>
    ensures { block_view result ≡ spec.block_at (map oneof_view oneofs.now) index }
{
    match usize::try_from(index) {
        Err(_) => Block::Alone,
        Ok(at) => match oneofs.get(at) {
            None => Block::Alone,
            Some(oneof) => Block::Oneof(index, oneof),
        },
    }
}

fn extendee_of(field: &FieldDescriptorProto) -> &str
    ensures { result.now ≡ unwrap_or (field_view field.now).extendee [] }
{
    match &field.extendee {
        Some(extendee) => extendee,
        None => "",
    }
}
