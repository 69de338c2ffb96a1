//! The values of a message's fields where they stand.

ghost use Rattle.std.specs.Prelude.{◌≡◌, ◌++◌, map, IfOk, OnOk};
ghost use Rattle.std.specs.Option.{option_to_list};
ghost use Rattle.protobuf_parse_model.specs.Descriptors.{file_view};
ghost use Rattle.protobuf_parse_decode.specs.Inside.{value_view, values_view};
ghost use Rattle.protobuf_parse_decode.specs.Views.{field_view, fields_view};
ghost use Rattle.protobuf_parse_merged.specs.Declarations.{declared_in};
ghost use Rattle.protobuf_parse_merged.specs.Defaults.{defaults};
ghost use Rattle.protobuf_parse_merged.specs.Occurrences as spec;
ghost use Rattle.protobuf_parse_merged.specs.Inside.{IsTold, declared_view, fields_in, held_in};
ghost use Rattle.protobuf_parse_merged.specs.Inside.{held_view, occurrence_of, occurrence_view};
ghost use Rattle.protobuf_parse_merged.specs.Merging.{joined};
ghost use Rattle.protobuf_parse_merged.specs.Views.{unknown_view};

use crate::declared::{Declared, declaration_of};
use crate::defaults::defaults_of;
use crate::message::Unknown;
use crate::runs::by_number;
use crate::strays::stray;
use protobuf_parse_decode::{DecodedField, Meaning, Value};
use protobuf_parse_index::Index;
use std::alloc::{AllocError, Global};

/// A value that holds no message.
#[derive(Clone, Copy)]
pub enum Scalar<'a> {
    Number { word: u64, number: i128 },
    Float(u32),
    Double(u64),
    Bool(bool),
    Text(&'a str),
    Bytes(&'a [u8]),
}

/// What stands there.
#[derive(Clone, Copy)]
pub enum Held<'r, 'a> {
    Plain(Scalar<'a>),
    /// The fields of a message that is to be merged.
    Inside(&'r [DecodedField<'a>]),
}

/// A value of the field of that number.
#[derive(Clone, Copy)]
pub struct Occurrence<'r, 'a> {
    pub number: u32,
    /// The position of the field's oneof.
    pub oneof: Option<u32>,
    pub held: Held<'r, 'a>,
}

/// Puts the values of these fields behind the others, and what is no value behind what else is
/// unknown.
pub fn tell_fields<'r, 'a>(
    index: &Index<'_>,
    message: &str,
    fields: &'r [DecodedField<'a>],
    occurrences: &mut Vec<Occurrence<'r, 'a>>,
    unknown: &mut Vec<Unknown<'a>>,
) -> Result<(), AllocError>
    ensures occurrences { OnOk result (map occurrence_view occurrences.new.items
        ≡ map occurrence_view occurrences.old.items
        ++ spec.occurrences (map file_view index.now)
        (declared_in (map file_view index.now) message.now)
        (fields_view fields.now)) }
    ensures unknown { OnOk result (map unknown_view unknown.new.items
        ≡ map unknown_view unknown.old.items
        ++ spec.unknown_among (map file_view index.now)
        (declared_in (map file_view index.now) message.now)
        (fields_view fields.now)) }
{
    'fields: for field in fields {
        tell_field(index, message, field, occurrences, unknown)?;
    }
    Ok(())
}

/// The same of one field.
fn tell_field<'r, 'a>(
    index: &Index<'_>,
    message: &str,
    field: &'r DecodedField<'a>,
    occurrences: &mut Vec<Occurrence<'r, 'a>>,
    unknown: &mut Vec<Unknown<'a>>,
) -> Result<(), AllocError>
    ensures occurrences { OnOk result (map occurrence_view occurrences.new.items
        ≡ map occurrence_view occurrences.old.items
        ++ spec.occurrences_of (map file_view index.now) (declared_in (map file_view index.now) message.now
        (field_view field.now).number) (field_view field.now).number (field_view field.now).whole
        (field_view field.now).meaning) }
    ensures unknown { OnOk result (map unknown_view unknown.new.items
        ≡ map unknown_view unknown.old.items
        ++ spec.unknown_of (map file_view index.now) (declared_in (map file_view index.now) message.now
        (field_view field.now).number) (field_view field.now).number (field_view field.now).whole
        (field_view field.now).meaning) }
{
    match &field.meaning {
        Meaning::Unknown => put_unknown(field, unknown),
        Meaning::Known(values) => match declaration_of(index, message, field.number) {
            None => put_unknown(field, unknown),
            Some(declared) => { tell_values(index, declared, field, values, occurrences, unknown) }
        },
    }
}

fn put_unknown<'a>(
    field: &DecodedField<'a>,
    unknown: &mut Vec<Unknown<'a>>,
) -> Result<(), AllocError>
    ensures { OnOk result (map unknown_view unknown.new.items
        ≡ map unknown_view unknown.old.items
        ++ spec.record_unknown (field_view field.now).number (field_view field.now).whole) }
{
    unknown.push(Unknown::Record {
        number: field.number,
        bytes: field.bytes,
    })?;
    Ok(())
}

/// The same of values of the field.
fn tell_values<'r, 'a>(
    index: &Index<'_>,
    declared: Declared<'_>,
    field: &DecodedField<'a>,
    values: &'r [Value<'a>],
    occurrences: &mut Vec<Occurrence<'r, 'a>>,
    unknown: &mut Vec<Unknown<'a>>,
) -> Result<(), AllocError>
    ensures occurrences { OnOk result (map occurrence_view occurrences.new.items
        ≡ map occurrence_view occurrences.old.items
        ++ spec.occurrences_in (map file_view index.now) (declared_view declared.entry)
        (field_view field.now).number (field_view field.now).whole (values_view values.now)) }
    ensures unknown { OnOk result (map unknown_view unknown.new.items
        ≡ map unknown_view unknown.old.items
        ++ spec.strays_in (map file_view index.now) (declared_view declared.entry)
        (field_view field.now).number (field_view field.now).whole (values_view values.now)) }
{
    'values: for value in values {
        tell_value(index, declared, field, value, occurrences, unknown)?;
    }
    Ok(())
}

fn tell_value<'r, 'a>(
    index: &Index<'_>,
    declared: Declared<'_>,
    field: &DecodedField<'a>,
    value: &'r Value<'a>,
    occurrences: &mut Vec<Occurrence<'r, 'a>>,
    unknown: &mut Vec<Unknown<'a>>,
) -> Result<(), AllocError>
    ensures occurrences { OnOk result (map occurrence_view occurrences.new.items
        ≡ map occurrence_view occurrences.old.items
        ++ occurrence_of (map file_view index.now) (declared_view declared.entry)
        (field_view field.now).number (field_view field.now).whole (value_view value.now)) }
    ensures unknown { OnOk result (map unknown_view unknown.new.items
        ≡ map unknown_view unknown.old.items
        ++ option_to_list (spec.stray (map file_view index.now) (declared_view declared.entry)
        (field_view field.now).number (field_view field.now).whole (value_view value.now))) }
{
    match stray(index, declared, field, value) {
        Some(other) => {
            unknown.push(other)?;
            Ok(())
        }
        None => {
            occurrences.push(Occurrence {
                number: field.number,
                oneof: declared.oneof,
                held: held_of(value),
            })?;
            Ok(())
        }
    }
}

fn held_of<'r, 'a>(value: &'r Value<'a>) -> Held<'r, 'a>
    ensures { held_view result ≡ spec.held_of (value_view value.now) }
{
    let scalar = match value {
        Value::Number { word, number } => Scalar::Number {
            word: *word,
            number: *number,
        },
        Value::Float(bits) => Scalar::Float(*bits),
        Value::Double(bits) => Scalar::Double(*bits),
        Value::Bool { value, .. } => Scalar::Bool(*value),
        Value::Text(text) => Scalar::Text(text),
        Value::Bytes(bytes) => Scalar::Bytes(bytes),
        Value::Message(fields) => return Held::Inside(fields),
    };
    Held::Plain(scalar)
}

/// What the fields of a message hold: values, in ascending order of the numbers of their fields, and
/// what is unknown.
#[derive(Drop)]
pub struct Told<'r, 'a> {
    pub occurrences: Vec<Occurrence<'r, 'a>>,
    pub unknown: Vec<Unknown<'a>>,
}

/// What the fields of a message hold.
pub fn told_of<'r, 'a>(
    alloc: Global,
    index: &Index<'_>,
    message: &str,
    fields: &'r [DecodedField<'a>],
) -> Result<Told<'r, 'a>, AllocError>
    ensures { IfOk result (λ told. IsTold (map file_view index.now)
        (declared_in (map file_view index.now) message.now)
        (defaults (map file_view index.now) message.now)
        (fields_view fields.now) (map occurrence_view told.occurrences.items)
        (map unknown_view told.unknown.items)) }
{
    let mut all = defaults_of(alloc, index, message)?;
    let mut unknown = Vec::new(alloc);
    tell_fields(index, message, fields, &mut all, &mut unknown)?;
    let occurrences = by_number(alloc, &all)?;
    Ok(Told {
        occurrences,
        unknown,
    })
}

/// What the fields of all messages that stand there hold, one message behind the other.
pub fn told_of_all<'r, 'a>(
    alloc: Global,
    index: &Index<'_>,
    message: &str,
    run: &[Occurrence<'r, 'a>],
) -> Result<Told<'r, 'a>, AllocError>
    ensures { IfOk result (λ told. IsTold (map file_view index.now)
        (declared_in (map file_view index.now) message.now)
        (defaults (map file_view index.now) message.now)
        (joined (held_in (map occurrence_view run.now)))
        (map occurrence_view told.occurrences.items) (map unknown_view told.unknown.items)) }
{
    let mut all = defaults_of(alloc, index, message)?;
    let mut unknown = Vec::new(alloc);
    'run: for occurrence in run {
        tell_held(index, message, occurrence.held, &mut all, &mut unknown)?;
    }
    let occurrences = by_number(alloc, &all)?;
    Ok(Told {
        occurrences,
        unknown,
    })
}

/// The same of what stands somewhere, if it is a message.
fn tell_held<'r, 'a>(
    index: &Index<'_>,
    message: &str,
    held: Held<'r, 'a>,
    occurrences: &mut Vec<Occurrence<'r, 'a>>,
    unknown: &mut Vec<Unknown<'a>>,
) -> Result<(), AllocError>
    ensures occurrences { OnOk result (map occurrence_view occurrences.new.items
        ≡ map occurrence_view occurrences.old.items
        ++ spec.occurrences (map file_view index.now)
        (declared_in (map file_view index.now) message.now)
        (fields_in (held_view held.entry))) }
    ensures unknown { OnOk result (map unknown_view unknown.new.items
        ≡ map unknown_view unknown.old.items
        ++ spec.unknown_among (map file_view index.now)
        (declared_in (map file_view index.now) message.now)
        (fields_in (held_view held.entry))) }
{
    match held {
        Held::Plain(_) => Ok(()),
        Held::Inside(fields) => tell_fields(index, message, fields, occurrences, unknown),
    }
}
