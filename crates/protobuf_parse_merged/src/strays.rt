//! Values that are none of their fields: numbers that closed enums don't declare.

ghost use Rattle.std.specs.Prelude.{◌≡◌, map, option_map};
ghost use Rattle.protobuf_parse_model.specs.Descriptors.{file_view};
ghost use Rattle.protobuf_parse_decode.specs.Inside.{meaning_view, value_view, values_view};
ghost use Rattle.protobuf_parse_decode.specs.Views.{field_view, fields_view};
ghost use Rattle.protobuf_parse_merged.specs.Declarations.{declared_in};
ghost use Rattle.protobuf_parse_merged.specs.Occurrences as spec;
ghost use Rattle.protobuf_parse_merged.specs.Inside.{declared_view};
ghost use Rattle.protobuf_parse_merged.specs.Views.{unknown_view};

use crate::declared::{Declared, declaration_of, is_declared};
use crate::message::Unknown;
use protobuf_parse_decode::{DecodedField, Meaning, Value};
use protobuf_parse_index::Index;

/// The number of the field of a map's entry that holds the value.
pub const ENTRY_VALUE: u32 = 2;

/// What the value is if it is none of the field.
pub fn stray<'a>(
    index: &Index<'_>,
    declared: Declared<'_>,
    field: &DecodedField<'a>,
    value: &Value<'a>,
) -> Option<Unknown<'a>>
    ensures { option_map unknown_view result
        ≡ spec.stray (map file_view index.now) (declared_view declared.entry)
        (field_view field.now).number (field_view field.now).whole (value_view value.now) }
{
    match value {
        Value::Number { word, number } => {
            stray_number(index, declared, field.number, *word, *number)
        }
        Value::Message(fields) => stray_entry(index, declared, field, fields),
        Value::Float(_) => None,
        Value::Double(_) => None,
        Value::Bool { .. } => None,
        Value::Text(_) => None,
        Value::Bytes(_) => None,
    }
}

fn stray_number<'a>(
    index: &Index<'_>,
    declared: Declared<'_>,
    field: u32,
    word: u64,
    number: i128,
) -> Option<Unknown<'a>>
    ensures { option_map unknown_view result
        ≡ spec.stray_number (map file_view index.now) (declared_view declared.entry) field word number }
{
    if declared.closed && !is_declared(index, declared.type_name, number) {
        Some(Unknown::Word {
            number: field,
            word,
        })
    } else {
        None
    }
}

fn stray_entry<'a>(
    index: &Index<'_>,
    declared: Declared<'_>,
    field: &DecodedField<'a>,
    fields: &[DecodedField<'a>],
) -> Option<Unknown<'a>>
    ensures { option_map unknown_view result
        ≡ spec.stray_entry (map file_view index.now) (declared_view declared.entry)
        (field_view field.now).number (field_view field.now).whole (fields_view fields.now) }
{
    if declared.is_map && is_undeclared_entry(index, declared.type_name, fields) {
        Some(Unknown::Record {
            number: field.number,
            bytes: field.bytes,
        })
    } else {
        None
    }
}

/// Whether the entry of that name has a value that its closed enum doesn't declare.
fn is_undeclared_entry(index: &Index<'_>, entry: &str, fields: &[DecodedField<'_>]) -> bool
    ensures { result ≡ spec.is_undeclared_entry (map file_view index.now)
        (declared_in (map file_view index.now) entry.now 2) (fields_view fields.now) }
{
    match declaration_of(index, entry, ENTRY_VALUE) {
        Some(declared) => holds_undeclared(index, declared, fields),
        None => false,
    }
}

fn holds_undeclared(index: &Index<'_>, declared: Declared<'_>, fields: &[DecodedField<'_>]) -> bool
    ensures { result ≡ spec.holds_undeclared (map file_view index.now)
        (declared_view declared.entry) 2 (fields_view fields.now) }
{
    'fields: for field in fields {
        if field.number == ENTRY_VALUE && means_undeclared(index, declared, &field.meaning) {
            return true;
        }
    }
    false
}

fn means_undeclared(index: &Index<'_>, declared: Declared<'_>, meaning: &Meaning<'_>) -> bool
    ensures { result ≡ spec.means_undeclared (map file_view index.now)
        (declared_view declared.entry) (meaning_view meaning.now) }
{
    match meaning {
        Meaning::Unknown => false,
        Meaning::Known(values) => any_undeclared(index, declared, values),
    }
}

fn any_undeclared(index: &Index<'_>, declared: Declared<'_>, values: &[Value<'_>]) -> bool
    ensures { result ≡ spec.any_undeclared (map file_view index.now)
        (declared_view declared.entry) (values_view values.now) }
{
    'values: for value in values {
        if is_undeclared(index, declared, value) {
            return true;
        }
    }
    false
}

fn is_undeclared(index: &Index<'_>, declared: Declared<'_>, value: &Value<'_>) -> bool
    ensures { result ≡ spec.is_undeclared (map file_view index.now)
        (declared_view declared.entry) (value_view value.now) }
{
    match value {
        Value::Number { number, .. } => {
            declared.closed && !is_declared(index, declared.type_name, *number)
        }
        _ => false,
    }
}
