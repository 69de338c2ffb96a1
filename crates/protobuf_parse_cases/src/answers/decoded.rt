//! What the bytes of a message mean.

use super::bytes::files_of_run;
use crate::cases::Case;
use anyhow::{Context, Result};
use protobuf_parse_base::text::escape_bytes;
use protobuf_parse_decode::{DecodedField, Meaning, Value, decode};
use protobuf_parse_index::Index;
use std::alloc::{AllocError, Global};

/// The fields that the bytes, in hexadecimal digits, have as the message of that full name, or the
/// fault. Behind the verb stands the name, and behind ` over ` the inputs of a run over the files of
/// the case.
pub fn decoded(alloc: Global, case: &Case, given: &[u8]) -> Result<String> {
    let bytes = hex::decode(alloc, given)?;
    let (name, inputs) = case.argument.split_once(" over ").context("no inputs")?;
    let files = files_of_run(alloc, inputs, case)?;
    let index = Index::of(alloc, &files)?;
    Ok(match decode(alloc, &index, name, &bytes) {
        Ok(fields) => fields_text(alloc, &fields)?,
        Err(error) => format!(in alloc; "{error}")?,
    })
}

fn fields_text(alloc: Global, fields: &[DecodedField<'_>]) -> Result<String, AllocError> {
    let mut text = String::new(alloc);
    put_fields(&mut text, fields)?;
    Ok(text)
}

#[cycle(decoded_text)]
fn put_fields(text: &mut String, fields: &[DecodedField<'_>]) -> Result<(), AllocError> {
    text.push('{')?;
    for (i, field) in fields.iter().enumerate() {
        if i > 0 {
            text.push_str(", ")?;
        }
        put_field(text, field)?;
    }
    text.push('}')
}

/// A field with its values, or one that is unknown with the bytes of its record.
#[cycle(decoded_text)]
fn put_field(text: &mut String, field: &DecodedField<'_>) -> Result<(), AllocError> {
    let number = field.number;
    match &field.meaning {
        Meaning::Unknown => {
            let bytes = hex::encode(*text.allocator(), field.bytes)?;
            write!(text, "{number} ? {bytes}")
        }
        Meaning::Known(values) => {
            write!(text, "{number} =")?;
            for value in values {
                text.push(' ')?;
                put_value(text, value)?;
            }
            Ok(())
        }
    }
}

/// A value. Behind one that isn't the number on the wire stands that number.
#[cycle(decoded_text)]
fn put_value(text: &mut String, value: &Value<'_>) -> Result<(), AllocError> {
    match value {
        Value::Number { word, number } if *number == i128::from(*word) => write!(text, "{number}"),
        Value::Number { word, number } => write!(text, "{number}@{word}"),
        Value::Float(bits) => write!(text, "float {bits}"),
        Value::Double(bits) => write!(text, "double {bits}"),
        Value::Bool { word, value } => write!(text, "{value}@{word}"),
        Value::Text(said) => put_quoted(text, "", said.as_bytes()),
        Value::Bytes(bytes) => put_quoted(text, "b", bytes),
        Value::Message(fields) => put_fields(text, fields),
    }
}

fn put_quoted(text: &mut String, front: &str, bytes: &[u8]) -> Result<(), AllocError> {
    let escaped = escape_bytes(*text.allocator(), bytes)?;
    write!(text, "{front}\"{escaped}\"")
}
