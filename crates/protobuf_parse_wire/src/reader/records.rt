//! Records of messages, from left to right.

ghost use Rattle.std.specs.Prelude.{◌≡◌, Option, ◌<◌, ◌≤◌, ◌/◌, ◌%◌, ◌^◌, length, map, IfOk, OnOk};
ghost use Rattle.std.specs.Prelude.{IsSome, option_map};
ghost use Rattle.std.specs.Option.{option_copied};
ghost use Rattle.protobuf_parse_model.specs.Descriptors.{Text, field_view};
ghost use Rattle.protobuf_parse_wire.specs.Kinds.{shape_of_type, wire_type};
ghost use Rattle.protobuf_parse_wire.specs.Reading.{ReaderGives, Inner, message_at, record_at};
ghost use Rattle.protobuf_parse_wire.specs.Reading.{records, value_at};
ghost use Rattle.protobuf_parse_wire.specs.Indexed.{Remembers, entered_by, numbered};
ghost use Rattle.protobuf_parse_wire.specs.ViewParts.{HasNumber, number_said, payload_of_type};
ghost use Rattle.protobuf_parse_wire.specs.Views.{read_field_view, read_value_view};

use super::index::Index;
use super::numbers::{self, ByNumber};
use super::visited::{self, Visited};
use super::words;
use crate::fault::ReadFault;
use crate::field::{ReadField, ReadValue};
use protobuf_parse_model::{FieldDescriptorProto, FieldType};
use std::alloc::Global;

/// The fields of the message of that name, if at most so many levels of messages are in it, itself
/// one.
#[cycle(message)]
pub fn message_of<'a>(
    alloc: Global,
    index: &Index<'a>,
    visited: &mut Visited<'a>,
    levels: u32,
    name: Option<&str>,
    bytes: &[u8],
) -> Result<Vec<ReadField>, ReadFault>
    requires { Remembers index.now visited.old }
    ensures gives { ReaderGives (λ v. map read_field_view v.items) result
        (message_at (entered_by index.now) levels (option_copied name.entry) bytes.now) }
    ensures kept { OnOk result (Remembers index.now visited.new) }
{
    if levels == 0 {
        return Err(ReadFault::TooDeep);
    }
    let numbers = visited::enter(alloc, index, visited, name)?;
    records_of(alloc, index, visited, levels - 1, &numbers, bytes)
}

#[cycle(message)]
fn records_of<'a>(
    alloc: Global,
    index: &Index<'a>,
    visited: &mut Visited<'a>,
    levels: u32,
    numbers: &ByNumber<'_>,
    bytes: &[u8],
) -> Result<Vec<ReadField>, ReadFault>
    requires { Remembers index.now visited.old }
    ensures gives { ReaderGives (λ v. map read_field_view v.items) result
        (records (message_at (entered_by index.now) levels) (numbered numbers.now)
        (length bytes.now) bytes.now) }
    ensures kept { OnOk result (Remembers index.now visited.new) }
{
    let mut fields = Vec::new(alloc);
    let mut rest = bytes;
    'records: while !rest.is_empty() {
        let (field, after) = record_of(alloc, index, visited, levels, numbers, rest)?;
        fields.push(field)?;
        rest = after;
    }
    Ok(fields)
}

#[cycle(message)]
#[tactic(auto, unfolding(crate::specs::Reading::record_at))]
fn record_of<'a, 'b>(
    alloc: Global,
    index: &Index<'a>,
    visited: &mut Visited<'a>,
    levels: u32,
    numbers: &ByNumber<'_>,
    bytes: &'b [u8],
) -> Result<(ReadField, &'b [u8]), ReadFault>
    requires { Remembers index.now visited.old }
    ensures gives { ReaderGives (λ x. (read_field_view x.0, x.1.now)) result
        (record_at (message_at (entered_by index.now) levels) (numbered numbers.now) bytes.now) }
    ensures shorter { IfOk result (λ x. length x.1.now < length bytes.now) }
    ensures kept { OnOk result (Remembers index.now visited.new) }
{
    let (tag, rest) = words::varint_of(bytes, 10)?;
    let (value, rest) = value_of(
        alloc,
        index,
        visited,
        levels,
        numbers,
        tag / 8,
        tag % 8,
        rest,
    )?;
    let number = (tag / 8) as u32;
    Ok((ReadField { number, value }, rest))
}

#[cycle(message)]
#[tactic(auto, unfolding(crate::specs::Reading::value_at, crate::specs::Reading::typed_at))]
fn value_of<'a, 'b>(
    alloc: Global,
    index: &Index<'a>,
    visited: &mut Visited<'a>,
    levels: u32,
    numbers: &ByNumber<'_>,
    number: u64,
    wire_type: u64,
    bytes: &'b [u8],
) -> Result<(ReadValue, &'b [u8]), ReadFault>
    requires { Remembers index.now visited.old }
    ensures gives { ReaderGives (λ x. (read_value_view x.0, x.1.now)) result
        (value_at (message_at (entered_by index.now) levels)
        (numbered numbers.now number) wire_type bytes.now) }
    ensures small { IfOk result (λ x. number < 2 ^ 31) }
    ensures shorter { IfOk result (λ x. length x.1.now ≤ length bytes.now) }
    ensures kept { OnOk result (Remembers index.now visited.new) }
{
    let Some(field) = numbers::field_numbered(numbers, number) else {
        return Err(ReadFault::UnknownNumber);
    };
    let Some(expected) = wire_type_of(field.type_) else {
        return Err(ReadFault::FloatOrGroup);
    };
    if expected != wire_type {
        return Err(ReadFault::WrongWireType);
    }
    payload_of(
        alloc,
        index,
        visited,
        levels,
        type_name_of(field),
        field.type_,
        bytes,
    )
}

/// The wire type of values of a field's type, if they are read.
fn wire_type_of(field_type: FieldType) -> Option<u64>
    ensures { result ≡ option_map wire_type (shape_of_type field_type) }
{
    match field_type {
        FieldType::Int32
        | FieldType::Int64
        | FieldType::Uint32
        | FieldType::Uint64
        | FieldType::Sint32
        | FieldType::Sint64
        | FieldType::Bool
        | FieldType::Enum => Some(0),
        FieldType::Fixed64 | FieldType::Sfixed64 => Some(1),
        FieldType::String | FieldType::Bytes | FieldType::Message => Some(2),
        FieldType::Fixed32 | FieldType::Sfixed32 => Some(5),
        FieldType::Float | FieldType::Double | FieldType::Group => None,
    }
}

fn type_name_of(field: &FieldDescriptorProto) -> Option<&str>
    ensures { option_copied result ≡ (field_view field.now).type_name }
{
    field.type_name.as_deref()
}

/// What the unsigned number of an integer type or an enum says.
fn number_of(field_type: FieldType, word: u64) -> i128
    requires { HasNumber (shape_of_type field_type) }
    ensures { result ≡ number_said (shape_of_type field_type) word }
{
    match field_type {
        FieldType::Int32 | FieldType::Sfixed32 | FieldType::Enum => {
            i128::from(words::low_half(word).cast_signed())
        }
        FieldType::Int64 | FieldType::Sfixed64 => i128::from(word.cast_signed()),
        FieldType::Uint32 | FieldType::Fixed32 => i128::from(words::low_half(word)),
        FieldType::Uint64 | FieldType::Fixed64 => i128::from(word),
        FieldType::Sint32 => words::unzigzag_of(u64::from(words::low_half(word))),
        FieldType::Sint64 => words::unzigzag_of(word),
        FieldType::Bool
        | FieldType::String
        | FieldType::Bytes
        | FieldType::Message
        | FieldType::Float
        | FieldType::Double
        | FieldType::Group => unreachable!(),
    }
}

/// The value of an integer type or an enum, and the bytes after it.
#[tactic(auto, unfolding(crate::specs::Reading::payload_at))]
fn number_payload_of(field_type: FieldType, bytes: &[u8]) -> Result<(ReadValue, &[u8]), ReadFault>
    requires { HasNumber (shape_of_type field_type) }
    ensures gives { (inner : Inner) (name : Option Text)
        → ReaderGives (λ x. (read_value_view x.0, x.1.now)) result
        (payload_of_type inner name (shape_of_type field_type) bytes.now) }
    ensures shorter { IfOk result (λ x. length x.1.now ≤ length bytes.now) }
{
    let (word, rest) = match field_type {
        FieldType::Fixed32 | FieldType::Sfixed32 => words::four_of(bytes)?,
        FieldType::Fixed64 | FieldType::Sfixed64 => words::eight_of(bytes)?,
        _ => words::varint_of(bytes, 10)?,
    };
    Ok((ReadValue::Number(number_of(field_type, word)), rest))
}

/// The value of a field's type, which isn't float, double or group, and the bytes after it; a
/// message's by its name.
#[cycle(message)]
#[tactic(auto, unfolding(crate::specs::Reading::payload_at))]
fn payload_of<'a, 'b>(
    alloc: Global,
    index: &Index<'a>,
    visited: &mut Visited<'a>,
    levels: u32,
    name: Option<&str>,
    field_type: FieldType,
    bytes: &'b [u8],
) -> Result<(ReadValue, &'b [u8]), ReadFault>
    requires known { Remembers index.now visited.old }
    requires is_read { IsSome (shape_of_type field_type) }
    ensures gives { ReaderGives (λ x. (read_value_view x.0, x.1.now)) result
        (payload_of_type (message_at (entered_by index.now) levels) (option_copied name.entry)
        (shape_of_type field_type) bytes.now) }
    ensures shorter { IfOk result (λ x. length x.1.now ≤ length bytes.now) }
    ensures kept { OnOk result (Remembers index.now visited.new) }
{
    match field_type {
        FieldType::Bool => {
            let (word, rest) = words::varint_of(bytes, 10)?;
            Ok((ReadValue::Bool(word > 0), rest))
        }
        FieldType::String => {
            let (text, rest) = words::delimited_of(bytes)?;
            if !words::is_text(text) {
                return Err(ReadFault::BadUtf8);
            }
            Ok((ReadValue::Bytes(Vec::from_slice(alloc, text)?), rest))
        }
        FieldType::Bytes => {
            let (inside, rest) = words::delimited_of(bytes)?;
            Ok((ReadValue::Bytes(Vec::from_slice(alloc, inside)?), rest))
        }
        FieldType::Message => {
            let (inside, rest) = words::delimited_of(bytes)?;
            let fields = message_of(alloc, index, visited, levels, name, inside)?;
            Ok((ReadValue::Message(fields), rest))
        }
        _ => number_payload_of(field_type, bytes),
    }
}
