//! What constants give to fields.

ghost use Rattle.std.specs.Prelude.{◌++◌, map, flat_map, unwrap_or, []};
ghost use Rattle.protobuf_parse_lexer.specs.Decoder.{decode};
ghost use Rattle.protobuf_parse_syntax.specs.Trees.{constant_syntax, dotted};
ghost use Rattle.protobuf_parse_syntax.specs.InnerViews.{constant_field_syntax};
ghost use Rattle.protobuf_parse_syntax.specs.Trees.{pieces_of};
ghost use Rattle.protobuf_parse_model.specs.Descriptors.{field_view};
ghost use Rattle.protobuf_parse_wire.specs.Trees as trees;
ghost use Rattle.protobuf_parse_options.specs.CustomFaults.{integer_faults, message_value_faults};
ghost use Rattle.protobuf_parse_options.specs.CustomFaults.{string_value_faults, truth_faults};
ghost use Rattle.protobuf_parse_options.specs.CustomFaults.{constant_faults};
ghost use Rattle.protobuf_parse_options.specs.CustomOptions.{item_of, item_of_message};
ghost use Rattle.protobuf_parse_options.specs.Given.{bytes_of_items, field_faults_of};
ghost use Rattle.protobuf_parse_options.specs.Given.{given_faults, given_field_bytes};
ghost use Rattle.protobuf_parse_options.specs.Given.{given_field_items, value_bytes};
ghost use Rattle.protobuf_parse_options.specs.Given.{option_scope_view, path_said};
ghost use Rattle.protobuf_parse_options.specs.OptionFields.{type_takes, type_name_of};
ghost use Rattle.protobuf_parse_options.specs.Refusals.{Gives};

use crate::fields::{constant_field, type_name_of};
use crate::lookup;
use crate::refuse::{OptionFailure, wrong};
use crate::strings::bytes_given;
use crate::values::{
    check_integer, check_number, check_truth, check_value_name, push_inside, push_item,
};
use crate::viewpoint::OptionViewpoint;
use protobuf_parse_model::{ElabErrorKind, FieldDescriptorProto, FieldType};
use protobuf_parse_syntax::{ConstantField, ProtobufConstant, ProtobufOptionNamePart, StrLit};
use protobuf_parse_wire::EntryValue;
use std::alloc::Global;

/// Adds the bytes of what the constant gives to the field, for the option of that name.
#[cycle(constant)]
pub fn push_value(
    value: &ProtobufConstant,
    alloc: Global,
    at: &OptionViewpoint<'_, '_>,
    option: &[ProtobufOptionNamePart],
    field: &FieldDescriptorProto,
    out: &mut Vec<u8>,
) -> Result<(), OptionFailure>
    ensures { let s = option_scope_view at.now in let f = field_view field.now in
        let c = constant_syntax value.now in
        Gives (λ u. out.new.items) result
        (constant_faults s (path_said option.now) f c)
        (out.old.items ++ value_bytes s f c) }
{
    match value {
        ProtobufConstant::U64(number) => push_integer(alloc, field, i128::from(*number), out),
        ProtobufConstant::I64(number) => push_integer(alloc, field, i128::from(*number), out),
        ProtobufConstant::Bool(truth) => push_truth(alloc, field, *truth, out),
        ProtobufConstant::Ident(name) => push_value_name(alloc, at, option, field, name, out),
        ProtobufConstant::String(string) => push_string(alloc, option, field, string, out),
        ProtobufConstant::List(items) => push_list(items, alloc, at, option, field, out),
        ProtobufConstant::Message(fields) => { push_message(fields, alloc, at, option, field, out) }
    }
}

#[tactic(auto, using(crate::proofs::Refusing::refuses_left))]
fn push_integer(
    alloc: Global,
    field: &FieldDescriptorProto,
    number: i128,
    out: &mut Vec<u8>,
) -> Result<(), OptionFailure>
    ensures { let f = field_view field.now in
        Gives (λ u. out.new.items) result
        (integer_faults f.name (type_takes f.type_) number)
        (out.old.items ++ bytes_of_items (item_of f (trees.number number))) }
{
    check_integer(alloc, field, number)?;
    push_item(alloc, out, field, EntryValue::Number(number))?;
    Ok(())
}

fn push_truth(
    alloc: Global,
    field: &FieldDescriptorProto,
    truth: bool,
    out: &mut Vec<u8>,
) -> Result<(), OptionFailure>
    ensures { let f = field_view field.now in
        Gives (λ u. out.new.items) result
        (truth_faults f.name (type_takes f.type_))
        (out.old.items ++ bytes_of_items (item_of f (trees.truth truth))) }
{
    check_truth(alloc, field)?;
    push_item(alloc, out, field, EntryValue::Bool(truth))?;
    Ok(())
}

fn push_value_name(
    alloc: Global,
    at: &OptionViewpoint<'_, '_>,
    option: &[ProtobufOptionNamePart],
    field: &FieldDescriptorProto,
    name: &str,
    out: &mut Vec<u8>,
) -> Result<(), OptionFailure>
    ensures { let s = option_scope_view at.now in let f = field_view field.now in
        let c = dotted name.now in
        Gives (λ u. out.new.items) result
        (constant_faults s (path_said option.now) f c)
        (out.old.items ++ value_bytes s f c) }
{
    let number = lookup::number_of_value(at.customs, type_name_of(field), name);
    check_value_name(alloc, field, name, number)?;
    if let Some(number) = number {
        push_item(alloc, out, field, EntryValue::Number(i128::from(number)))?;
    }
    Ok(())
}

fn push_string(
    alloc: Global,
    option: &[ProtobufOptionNamePart],
    field: &FieldDescriptorProto,
    string: &StrLit,
    out: &mut Vec<u8>,
) -> Result<(), OptionFailure>
    ensures { let f = field_view field.now in let pieces = pieces_of string.now in
        Gives (λ u. out.new.items) result
        (string_value_faults (path_said option.now) f.name (type_takes f.type_) pieces)
        (out.old.items ++ bytes_of_items (item_of f
        (trees.bytes (unwrap_or (decode pieces) [])))) }
{
    let bytes = bytes_given(alloc, option, field, string)?;
    push_item(alloc, out, field, EntryValue::Bytes(bytes))?;
    Ok(())
}

/// Adds the bytes of what the items of a list give, one by one.
#[cycle(constant)]
#[tactic(auto, using(crate::proofs::Refusing::refuses_at))]
fn push_list(
    items: &[ProtobufConstant],
    alloc: Global,
    at: &OptionViewpoint<'_, '_>,
    option: &[ProtobufOptionNamePart],
    field: &FieldDescriptorProto,
    out: &mut Vec<u8>,
) -> Result<(), OptionFailure>
    ensures { let s = option_scope_view at.now in let f = field_view field.now in
        let cs = map constant_syntax items.now in
        Gives (λ u. out.new.items) result
        (flat_map (constant_faults s (path_said option.now) f) cs)
        (out.old.items ++ flat_map (value_bytes s f) cs) }
{
    'items: for item in items {
        push_value(item, alloc, at, option, field, out)?;
    }
    Ok(())
}

/// Adds the bytes of the message that the fields give. E21 where the field is no message.
#[cycle(constant)]
fn push_message(
    fields: &[ConstantField],
    alloc: Global,
    at: &OptionViewpoint<'_, '_>,
    option: &[ProtobufOptionNamePart],
    field: &FieldDescriptorProto,
    out: &mut Vec<u8>,
) -> Result<(), OptionFailure>
    ensures { let s = option_scope_view at.now in let f = field_view field.now in
        let fs = map constant_field_syntax fields.now in
        Gives (λ u. out.new.items) result
        (message_value_faults f.name (type_takes f.type_)
        (flat_map (field_faults_of s (path_said option.now) (type_name_of f)) fs))
        (out.old.items ++ bytes_of_items (item_of_message f
        (flat_map (given_field_items s (type_name_of f)) fs))) }
{
    match field.type_ {
        FieldType::Message => {
            let mut inside = Vec::new(alloc);
            push_fields(fields, alloc, at, option, type_name_of(field), &mut inside)?;
            push_inside(out, field, &inside)?;
            Ok(())
        }
        _ => {
            let kind = ElabErrorKind::MessageFieldRequiresMessageConstant;
            Err(wrong(alloc, kind, &field.name))
        }
    }
}

/// Adds the bytes of what the fields of a constant for the message give.
#[cycle(constant)]
#[tactic(auto, using(crate::proofs::Refusing::refuses_at))]
fn push_fields(
    fields: &[ConstantField],
    alloc: Global,
    at: &OptionViewpoint<'_, '_>,
    option: &[ProtobufOptionNamePart],
    message: &str,
    out: &mut Vec<u8>,
) -> Result<(), OptionFailure>
    ensures { let s = option_scope_view at.now in let fs = map constant_field_syntax fields.now in
        Gives (λ u. out.new.items) result
        (flat_map (field_faults_of s (path_said option.now) message.now) fs)
        (out.old.items ++ flat_map (given_field_bytes s message.now) fs) }
{
    'fields: for field in fields {
        push_field(field, alloc, at, option, message, out)?;
    }
    Ok(())
}

#[cycle(constant)]
#[tactic(auto, using(crate::proofs::Refusing::refuses_left))]
fn push_field(
    field: &ConstantField,
    alloc: Global,
    at: &OptionViewpoint<'_, '_>,
    option: &[ProtobufOptionNamePart],
    message: &str,
    out: &mut Vec<u8>,
) -> Result<(), OptionFailure>
    ensures { let s = option_scope_view at.now in let f = constant_field_syntax field.now in
        Gives (λ u. out.new.items) result
        (field_faults_of s (path_said option.now) message.now f)
        (out.old.items ++ given_field_bytes s message.now f) }
{
    let named = constant_field(alloc, at, message, &field.name)?;
    push_given(&field.value, alloc, at, option, named, out)
}

/// As [`push_value`]. E23 where the field's number can't stand in a tag.
#[cycle(constant)]
#[tactic(auto, using(crate::proofs::Refusing::refuses_left, crate::proofs::Refusing::refuses_right))]
pub fn push_given(
    value: &ProtobufConstant,
    alloc: Global,
    at: &OptionViewpoint<'_, '_>,
    option: &[ProtobufOptionNamePart],
    field: &FieldDescriptorProto,
    out: &mut Vec<u8>,
) -> Result<(), OptionFailure>
    ensures { let s = option_scope_view at.now in let f = field_view field.now in
        let c = constant_syntax value.now in
        Gives (λ u. out.new.items) result
        (given_faults s (path_said option.now) c f)
        (out.old.items ++ value_bytes s f c) }
{
    check_number(alloc, field)?;
    push_value(value, alloc, at, option, field, out)
}
