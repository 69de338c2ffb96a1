//! What stands for the key and for the value that an entry of a map doesn't have.

ghost use Rattle.std.specs.Prelude.{◌≡◌, ◌<◌, ◌^◌, ◌++◌, [], pos, map, unwrap_or, IfOk, OnOk};
ghost use Rattle.protobuf_parse_index.specs.Lookups.{field_numbered};
ghost use Rattle.protobuf_parse_model.specs.Descriptors.{enum_value_view, field_view, file_view};
ghost use Rattle.protobuf_parse_merged.specs.Defaults as spec;
ghost use Rattle.protobuf_parse_merged.specs.Inside.{held_view, occurrence_view, scalar_view};

use crate::declared::{is_entry_named, is_in_proto3};
use crate::maps::ENTRY_KEY;
use crate::occurrences::{Held, Occurrence, Scalar};
use crate::strays::ENTRY_VALUE;
use protobuf_parse_index::Index;
use protobuf_parse_model::{EnumValueDescriptorProto, FieldDescriptorProto, FieldType};
use std::alloc::{AllocError, Global};

/// The defaults of the key and of the value where that is the entry of a map, and else nothing.
pub fn defaults_of<'r, 'a>(
    alloc: Global,
    index: &Index<'_>,
    message: &str,
) -> Result<Vec<Occurrence<'r, 'a>>, AllocError>
    ensures { IfOk result (λ v. map occurrence_view v.items
        ≡ spec.defaults (map file_view index.now) message.now) }
{
    let mut values = Vec::new(alloc);
    if !is_entry_named(index, message) {
        return Ok(values);
    }
    put_default(index, message, ENTRY_KEY, &mut values)?;
    put_default(index, message, ENTRY_VALUE, &mut values)?;
    Ok(values)
}

/// Puts the default of the entry's field with that number behind the others.
fn put_default<'r, 'a>(
    index: &Index<'_>,
    entry: &str,
    number: u32,
    values: &mut Vec<Occurrence<'r, 'a>>,
) -> Result<(), AllocError>
    requires { number < 2 ^ 31 }
    ensures { OnOk result (map occurrence_view values.new.items
        ≡ map occurrence_view values.old.items
        ++ spec.default_at (map file_view index.now) entry.now number
        (field_numbered (map file_view index.now) entry.now (pos number))) }
{
    match index.field(entry, number as i32) {
        None => Ok(()),
        Some(field) => {
            values.push(Occurrence {
                number,
                oneof: None,
                held: default_of(index, entry, field),
            })?;
            Ok(())
        }
    }
}

fn default_of<'r, 'a>(index: &Index<'_>, entry: &str, field: &FieldDescriptorProto) -> Held<'r, 'a>
    ensures { held_view result ≡ spec.default_of (map file_view index.now) entry.now
        (unwrap_or (field_view field.now).type_name []) field.now.type_ }
{
    match field.type_ {
        FieldType::Bool => Held::Plain(Scalar::Bool(false)),
        FieldType::Float => Held::Plain(Scalar::Float(0)),
        FieldType::Double => Held::Plain(Scalar::Double(0)),
        FieldType::String => Held::Plain(empty_string(is_in_proto3(index, entry))),
        FieldType::Bytes => Held::Plain(Scalar::Bytes(&[])),
        FieldType::Enum => {
            let type_name = field.type_name.as_deref().unwrap_or("");
            Held::Plain(first_value(index, type_name))
        }
        FieldType::Message | FieldType::Group => Held::Inside(&[]),
        _ => Held::Plain(Scalar::Number { word: 0, number: 0 }),
    }
}

fn empty_string<'a>(is_text: bool) -> Scalar<'a>
    ensures { scalar_view result ≡ spec.empty_string is_text }
{
    if is_text {
        Scalar::Text("")
    } else {
        Scalar::Bytes(&[])
    }
}

/// The first value of the enum of that name.
fn first_value<'a>(index: &Index<'_>, name: &str) -> Scalar<'a>
    ensures { scalar_view result
        ≡ spec.enum_number (spec.first_of (spec.values_named (map file_view index.now) name.now)) }
{
    match index.enumeration(name) {
        Some(enumeration) => first_of(&enumeration.descriptor.value),
        None => Scalar::Number { word: 0, number: 0 },
    }
}

fn first_of<'a>(values: &[EnumValueDescriptorProto]) -> Scalar<'a>
    ensures { scalar_view result
        ≡ spec.enum_number (spec.first_of (map enum_value_view values.now)) }
{
    match values.first() {
        Some(value) => Scalar::Number {
            word: i64::from(value.number).cast_unsigned(),
            number: i128::from(value.number),
        },
        None => Scalar::Number { word: 0, number: 0 },
    }
}
