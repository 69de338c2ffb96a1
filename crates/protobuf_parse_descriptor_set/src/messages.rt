//! Messages and their fields.

ghost use Rattle.std.specs.Prelude.{◌≡◌, ◌++◌, OnOk, flat_map, length, map};
ghost use Rattle.protobuf_parse_model.specs.Descriptors as model;
ghost use Rattle.protobuf_parse_model.specs.MessageParts.{message_parts};
ghost use Rattle.protobuf_parse_descriptor_set.specs.Items.{choice, part};
ghost use Rattle.protobuf_parse_descriptor_set.specs.Writing.{Writes};
ghost use Rattle.protobuf_parse_descriptor_set.specs.Numbers as numbers;
ghost use Rattle.protobuf_parse_descriptor_set.specs.OneofOrder as order;
ghost use Rattle.protobuf_parse_descriptor_set.specs.Told.{index_by, of_kind};
ghost use Rattle.protobuf_parse_descriptor_set.specs.DescriptorItems as spec;

use crate::numbers::{label_number, type_number};
use crate::oneofs::{index_in_set, new_indices, synthetic_oneofs};
use crate::options::put_options_of_field;
use crate::parts::{Described, begin_message, end_message, put_options, put_part, put_parts};
use crate::ranges::{is_message_set, put_ranges};
use crate::records::{
    put_choice, put_flag_if, put_int, put_int_if_some, put_text, put_text_if_some, put_texts,
};
use protobuf_parse_model::{
    DescriptorProto, FieldDescriptorProto, FieldType, Label, OneofDescriptorProto,
};
use std::alloc::{AllocError, Global};

/// Writes each message with that field number.
#[cycle(message_items)]
pub fn put_messages(
    alloc: Global,
    out: &mut Vec<u8>,
    number: u32,
    messages: &[DescriptorProto],
) -> Result<(), AllocError>
    ensures { OnOk result (Writes (flat_map (λ m. part number (spec.message_items m))
        (map model.message_view messages.now)) out.old.items out.new.items) }
{
    for message in messages {
        let start = begin_message(out, number)?;
        put_inside(alloc, out, message)?;
        end_message(out, start)?;
    }
    Ok(())
}

/// Writes the fields of a message.
#[cycle(message_items)]
fn put_inside(alloc: Global, out: &mut Vec<u8>, message: &DescriptorProto) -> Result<(), AllocError>
    ensures { OnOk result
        (Writes (spec.message_items (model.message_view message.now))
        out.old.items out.new.items) }
{
    let synthetic = synthetic_oneofs(alloc, &message.field, message.oneof_decl.len())?;
    put_message_front(alloc, out, message, &synthetic)?;
    put_messages(alloc, out, 3, &message.nested_type)?;
    put_message_back(alloc, out, message, &synthetic)
}

fn put_message_front(
    alloc: Global,
    out: &mut Vec<u8>,
    message: &DescriptorProto,
    synthetic: &[bool],
) -> Result<(), AllocError>
    requires { synthetic.now ≡ order.synthetic (message_parts message.now) }
    ensures { OnOk result
        (Writes (spec.message_front (message_parts message.now))
        out.old.items out.new.items) }
{
    put_text(out, 1, message.name.as_str())?;
    put_fields(alloc, out, &message.field, synthetic)
}

/// Writes the fields, each with the new index of its oneof.
fn put_fields(
    alloc: Global,
    out: &mut Vec<u8>,
    fields: &[FieldDescriptorProto],
    synthetic: &[bool],
) -> Result<(), AllocError>
    ensures { OnOk result
        (Writes (flat_map (λ f. part 2 (spec.field_items f))
        (map (order.field_in_set synthetic.now) (map model.field_view fields.now)))
        out.old.items out.new.items) }
{
    let indices = new_indices(alloc, synthetic)?;
    for field in fields {
        let start = begin_message(out, 2)?;
        put_field_in_set(out, field, &indices)?;
        end_message(out, start)?;
    }
    Ok(())
}

/// Writes a field with the new index of its oneof.
fn put_field_in_set(
    out: &mut Vec<u8>,
    field: &FieldDescriptorProto,
    indices: &[usize],
) -> Result<(), AllocError>
    ensures { OnOk result
        (Writes (spec.field_items (order.field_at (model.field_view field.now)
        (index_by indices.now (model.field_view field.now).oneof_index)))
        out.old.items out.new.items) }
{
    let index = index_in_set(indices, &field.oneof_index)?;
    put_field(out, field, &index)
}

fn put_message_back(
    alloc: Global,
    out: &mut Vec<u8>,
    message: &DescriptorProto,
    synthetic: &[bool],
) -> Result<(), AllocError>
    requires { synthetic.now ≡ order.synthetic (message_parts message.now) }
    ensures { OnOk result
        (Writes (spec.message_back (message_parts message.now))
        out.old.items out.new.items) }
{
    let message_set = is_message_set(message);
    put_parts(alloc, out, 4, &message.enum_type)?;
    put_ranges(out, 5, &message.extension_range, message_set)?;
    put_parts(alloc, out, 6, &message.extension)?;
    put_options(out, 7, &message.options)?;
    put_oneofs(alloc, out, &message.oneof_decl, synthetic)?;
    put_ranges(out, 9, &message.reserved_range, message_set)?;
    put_texts(out, 10, &message.reserved_name)
}

/// Writes the oneofs, the synthetic ones last.
fn put_oneofs(
    alloc: Global,
    out: &mut Vec<u8>,
    oneofs: &[OneofDescriptorProto],
    synthetic: &[bool],
) -> Result<(), AllocError>
    requires { length synthetic.now ≡ length oneofs.now }
    ensures { OnOk result
        (Writes (flat_map (λ o. part 8 (spec.oneof_items o))
        (order.unmarked synthetic.now (map model.oneof_view oneofs.now)
        ++ order.marked synthetic.now (map model.oneof_view oneofs.now)))
        out.old.items out.new.items) }
{
    put_oneofs_of_kind(alloc, out, oneofs, synthetic, false)?;
    put_oneofs_of_kind(alloc, out, oneofs, synthetic, true)
}

/// Writes the oneofs that are of this kind, synthetic or not.
fn put_oneofs_of_kind(
    alloc: Global,
    out: &mut Vec<u8>,
    oneofs: &[OneofDescriptorProto],
    synthetic: &[bool],
    kind: bool,
) -> Result<(), AllocError>
    requires { length synthetic.now ≡ length oneofs.now }
    ensures { OnOk result
        (Writes (flat_map (λ o. part 8 (spec.oneof_items o))
        (of_kind kind synthetic.now (map model.oneof_view oneofs.now)))
        out.old.items out.new.items) }
{
    for (index, oneof) in oneofs.iter().enumerate() {
        if synthetic[index] == kind {
            put_part(alloc, out, 8, oneof)?;
        }
    }
    Ok(())
}

// An extension, which is in no oneof.
impl Described for FieldDescriptorProto {
    ghost View = { model.FieldDescriptor };

    ghost view = { model.field_view };

    ghost items = { spec.field_items };

    fn put(&self, _alloc: Global, out: &mut Vec<u8>) -> Result<(), AllocError> {
        put_field(out, self, &self.oneof_index)
    }
}

/// Writes a field with this index of its oneof.
#[tactic(auto, unfolding(crate::specs::DescriptorItems::field_items))]
fn put_field(
    out: &mut Vec<u8>,
    field: &FieldDescriptorProto,
    oneof_index: &Option<i32>,
) -> Result<(), AllocError>
    ensures { OnOk result
        (Writes (spec.field_items (order.field_at (model.field_view field.now) oneof_index.now))
        out.old.items out.new.items) }
{
    put_text(out, 1, field.name.as_str())?;
    put_text_if_some(out, 2, &field.extendee)?;
    put_int(out, 3, &field.number)?;
    put_label(out, 4, field.label)?;
    put_type(out, 5, field.type_)?;
    put_text_if_some(out, 6, &field.type_name)?;
    put_text_if_some(out, 7, &field.default_value)?;
    put_options_of_field(out, 8, field)?;
    put_int_if_some(out, 9, oneof_index)?;
    put_text(out, 10, field.json_name.as_str())?;
    put_flag_if(out, 17, field.proto3_optional)
}

fn put_label(out: &mut Vec<u8>, number: u32, label: Label) -> Result<(), AllocError>
    ensures { OnOk result
        (Writes (choice number (numbers.label_number label)) out.old.items out.new.items) }
{
    put_choice(out, number, label_number(label))
}

fn put_type(out: &mut Vec<u8>, number: u32, type_: FieldType) -> Result<(), AllocError>
    ensures { OnOk result
        (Writes (choice number (numbers.type_number type_)) out.old.items out.new.items) }
{
    put_choice(out, number, type_number(type_))
}

impl Described for OneofDescriptorProto {
    ghost View = { model.OneofDescriptor };

    ghost view = { model.oneof_view };

    ghost items = { spec.oneof_items };

    #[tactic(auto, unfolding(crate::specs::DescriptorItems::oneof_items))]
    fn put(&self, _alloc: Global, out: &mut Vec<u8>) -> Result<(), AllocError> {
        put_text(out, 1, self.name.as_str())?;
        put_options(out, 2, &self.options)
    }
}
