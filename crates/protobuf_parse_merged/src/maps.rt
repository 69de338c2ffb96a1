//! The entries of a map: of each key the last, in ascending order of keys.

ghost use Rattle.std.specs.Prelude.{◌≡◌, Some, map, IfOk, OnOk};
ghost use Rattle.std.specs.BTreeMap.{insert_entry};
ghost use Rattle.protobuf_parse_merged.specs.Answers.{Gives};
ghost use Rattle.protobuf_parse_merged.specs.Maps as spec;
ghost use Rattle.protobuf_parse_merged.specs.Merged.{fields_of, values_of};
ghost use Rattle.protobuf_parse_merged.specs.Inside.{field_view, value_view};
ghost use Rattle.protobuf_parse_merged.specs.Keyed.{entries_seen, key_view};

use crate::fault::MergeError;
use crate::message::{Field, FieldValue};
use std::alloc::{AllocError, Global};
use std::collections::BTreeMap;

/// The number of the field of an entry that holds the key.
pub const ENTRY_KEY: u32 = 1;

/// A number, and the bytes of a text.
pub type Key<'a> = (i128, &'a [u8]);

/// Values, those of a map by their keys.
pub fn arranged<'a>(
    alloc: Global,
    is_map: bool,
    values: Vec<FieldValue<'a>>,
) -> Result<Vec<FieldValue<'a>>, MergeError>
    ensures { Gives (λ v. map value_view v.items) result
        (Some (spec.arranged is_map (map value_view values.entry.items))) }
{
    if is_map {
        let sorted = by_keys(alloc, values)?;
        Ok(sorted)
    } else {
        Ok(values)
    }
}

fn by_keys<'a>(
    alloc: Global,
    values: Vec<FieldValue<'a>>,
) -> Result<Vec<FieldValue<'a>>, AllocError>
    ensures { IfOk result (λ v. map value_view v.items
        ≡ spec.by_keys (map value_view values.entry.items)) }
{
    let mut entries = BTreeMap::new(alloc);
    'values: for value in values {
        put(&mut entries, value)?;
    }
    let mut sorted = Vec::new(alloc);
    'entries: for value in entries.into_values() {
        sorted.push(value)?;
    }
    Ok(sorted)
}

/// Puts the entry where its key belongs, in place of one that has the key.
fn put<'a>(
    entries: &mut BTreeMap<Key<'a>, FieldValue<'a>>,
    value: FieldValue<'a>,
) -> Result<(), AllocError>
    ensures { OnOk result (entries_seen entries.new.entries
        ≡ insert_entry spec.key_cmp (entries_seen entries.old.entries)
        (spec.key_of (value_view value.entry)) (value_view value.entry)) }
{
    let key = key_of(&value);
    entries.insert(key, value)?;
    Ok(())
}

/// The key of an entry.
fn key_of<'a>(value: &FieldValue<'a>) -> Key<'a>
    ensures { key_view result ≡ spec.key_of (value_view value.now) }
{
    match value {
        FieldValue::Message(message) => key_in(&message.fields),
        FieldValue::Number { .. } => (0, &[]),
        FieldValue::Float(_) => (0, &[]),
        FieldValue::Double(_) => (0, &[]),
        FieldValue::Bool(_) => (0, &[]),
        FieldValue::Text(_) => (0, &[]),
        FieldValue::Bytes(_) => (0, &[]),
    }
}

fn key_in<'a>(fields: &[Field<'a>]) -> Key<'a>
    ensures { key_view result ≡ spec.key_in (fields_of (map field_view fields.now)) }
{
    'fields: for field in fields {
        if field.number == ENTRY_KEY {
            return first_key(&field.values);
        }
    }
    (0, &[])
}

fn first_key<'a>(values: &[FieldValue<'a>]) -> Key<'a>
    ensures { key_view result ≡ spec.key_of_values (values_of (map value_view values.now)) }
{
    match values.first() {
        Some(value) => scalar_key(value),
        None => (0, &[]),
    }
}

fn scalar_key<'a>(value: &FieldValue<'a>) -> Key<'a>
    ensures { key_view result ≡ spec.key_of_value (value_view value.now) }
{
    match value {
        FieldValue::Number { number, .. } => (*number, &[]),
        FieldValue::Float(_) => (0, &[]),
        FieldValue::Double(_) => (0, &[]),
        FieldValue::Bool(value) => (i128::from(*value), &[]),
        FieldValue::Text(text) => (0, text.as_bytes()),
        FieldValue::Bytes(bytes) => (0, bytes),
        FieldValue::Message(_) => (0, &[]),
    }
}
