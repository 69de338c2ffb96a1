//! Values that are no lists, of messages those whose bytes are there.

ghost use Rattle.std.specs.Prelude.{◌≡◌, ◌++◌, List, OnOk};
ghost use Rattle.protobuf_parse_model.specs.declared.descriptor.FieldType.TheVariants.{Message};
ghost use Rattle.protobuf_parse_model.specs.Descriptors.{field_view};
ghost use Rattle.protobuf_parse_options.specs.CustomFaults.{integer_faults, truth_faults};
ghost use Rattle.protobuf_parse_options.specs.CustomFaults.{value_name_faults, number_faults};
ghost use Rattle.protobuf_parse_options.specs.CustomOptions.{item_of, item_of_message};
ghost use Rattle.protobuf_parse_options.specs.Given.{AreFit, bytes_of_items};
ghost use Rattle.protobuf_parse_options.specs.OptionFields.{type_takes};
ghost use Rattle.protobuf_parse_options.specs.IntegerKinds.{integer_kind};
ghost use Rattle.protobuf_parse_options.specs.Refusals.{Gives, Refuses};
ghost use Rattle.protobuf_parse_wire.specs.Views.{WireItem};
ghost use Rattle.protobuf_parse_wire.specs.ViewParts.{entry_value_view};

use crate::refuse::{OptionFailure, not_taken, wrong};
use protobuf_parse_model::{ElabErrorKind, FieldDescriptorProto, FieldType};
use protobuf_parse_wire::{Entry, EntryValue, Kind, encode_into, put_message};
use std::alloc::{AllocError, Global};
use std::slice;

/// Adds the bytes of the field with the value, which is one of the field's type.
pub fn push_item(
    alloc: Global,
    out: &mut Vec<u8>,
    field: &FieldDescriptorProto,
    value: EntryValue,
) -> Result<(), AllocError>
    requires { AreFit (item_of (field_view field.now) (entry_value_view value)) }
    ensures { OnOk result (out.new.items ≡ out.old.items
        ++ bytes_of_items (item_of (field_view field.now) (entry_value_view value))) }
{
    if let Some(kind) = Kind::of(field.type_) {
        let number = field.number.unsigned_abs();
        let entry = Entry {
            number,
            kind,
            value,
        };
        encode_into(alloc, out, slice::from_ref(&entry))?;
    }
    Ok(())
}

/// Adds the bytes of the field with the message whose bytes are these.
pub fn push_inside(
    out: &mut Vec<u8>,
    field: &FieldDescriptorProto,
    inside: &[u8],
) -> Result<(), AllocError>
    requires { (field_view field.now).type_ ≡ Message }
    ensures { OnOk result ((items : List WireItem) → inside.now ≡ bytes_of_items items
        → out.new.items ≡ out.old.items
        ++ bytes_of_items (item_of_message (field_view field.now) items)) }
{
    put_message(out, field.number.unsigned_abs(), inside)
}

/// The kind of the integers that a field of the type takes.
fn integer_kind(field_type: FieldType) -> Option<Kind>
    ensures { result ≡ integer_kind (type_takes field_type) }
{
    match field_type {
        FieldType::Int32 => Some(Kind::Int32),
        FieldType::Int64 => Some(Kind::Int64),
        FieldType::Uint32 => Some(Kind::Uint32),
        FieldType::Uint64 => Some(Kind::Uint64),
        FieldType::Sint32 => Some(Kind::Sint32),
        FieldType::Sint64 => Some(Kind::Sint64),
        FieldType::Fixed32 => Some(Kind::Fixed32),
        FieldType::Sfixed32 => Some(Kind::Sfixed32),
        FieldType::Fixed64 => Some(Kind::Fixed64),
        FieldType::Sfixed64 => Some(Kind::Sfixed64),
        _ => None,
    }
}

/// Refuses an integer that the field doesn't take: E20 for one that is out of range.
pub fn check_integer(
    alloc: Global,
    field: &FieldDescriptorProto,
    number: i128,
) -> Result<(), OptionFailure>
    ensures { let f = field_view field.now in
        Gives (λ u. u) result (integer_faults f.name (type_takes f.type_) number) tt }
{
    let Some(kind) = integer_kind(field.type_) else {
        return Err(not_taken(alloc, field));
    };
    if !kind.has_number(number) {
        return Err(wrong(alloc, ElabErrorKind::IntegerOutOfRange, &field.name));
    }
    Ok(())
}

/// Refuses a truth value that the field doesn't take.
pub fn check_truth(alloc: Global, field: &FieldDescriptorProto) -> Result<(), OptionFailure>
    ensures { let f = field_view field.now in
        Gives (λ u. u) result (truth_faults f.name (type_takes f.type_)) tt }
{
    match field.type_ {
        FieldType::Bool => Ok(()),
        _ => Err(not_taken(alloc, field)),
    }
}

/// Refuses the name of a value that the field doesn't take, where the name has that number. E18
/// where it has none.
pub fn check_value_name(
    alloc: Global,
    field: &FieldDescriptorProto,
    name: &str,
    number: Option<i32>,
) -> Result<(), OptionFailure>
    ensures { let f = field_view field.now in
        Gives (λ u. u) result
        (value_name_faults f.name (type_takes f.type_) name.now number) tt }
{
    match field.type_ {
        FieldType::Enum => match number {
            Some(_) => Ok(()),
            None => Err(wrong(alloc, ElabErrorKind::UnknownEnumValue, name)),
        },
        _ => Err(not_taken(alloc, field)),
    }
}

/// Refuses a field whose number can't stand in a tag: E23.
pub fn check_number(alloc: Global, field: &FieldDescriptorProto) -> Result<(), OptionFailure>
    ensures { Gives (λ u. u) result (number_faults (field_view field.now)) tt }
{
    if 1 <= field.number && field.number <= 536_870_911 {
        Ok(())
    } else {
        Err(wrong(alloc, ElabErrorKind::OptionFieldNumber, &field.name))
    }
}
