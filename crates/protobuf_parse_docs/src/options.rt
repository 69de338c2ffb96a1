//! Custom options as text.

use anyhow::{Context, Result};
use protobuf_parse::{FieldDescriptorProto, FieldType, ProtobufAbsPathRef, ReadField, ReadValue};
use protobuf_parse_index::{Index, custom_options};
use std::alloc::AllocError;

/// Adds what these bytes of an options message say, as `(owner) = "stock"` with commas between.
pub fn put_options(
    text: &mut String,
    index: &Index<'_>,
    message: &str,
    custom: &[u8],
) -> Result<()> {
    let path = ProtobufAbsPathRef::try_new(message).context("no absolute name")?;
    let options = custom_options(*text.allocator(), index, path, custom)?;
    for (i, option) in options.iter().enumerate() {
        if i > 0 {
            text.push_str(", ")?;
        }
        write!(text, "`{}` = ", option.name)?;
        put_value(text, index, option.field, &option.value)?;
    }
    Ok(())
}

#[cycle(value_text)]
fn put_value(
    text: &mut String,
    index: &Index<'_>,
    field: &FieldDescriptorProto,
    value: &ReadValue,
) -> Result<(), AllocError> {
    let type_name = field.type_name.as_deref().unwrap_or("");
    match value {
        ReadValue::Number(number) => match index.value_read(type_name, value) {
            Some(name) => text.push_str(name),
            None => write!(text, "{number}"),
        },
        ReadValue::Bool(truth) => write!(text, "{truth}"),
        ReadValue::Bytes(bytes) => put_bytes(text, field.type_, bytes),
        ReadValue::Message(fields) => {
            text.push_str("{ ")?;
            put_fields(text, index, type_name, fields)?;
            text.push_str(" }")
        }
    }
}

/// The fields of a message inside an option.
#[cycle(value_text)]
fn put_fields(
    text: &mut String,
    index: &Index<'_>,
    message: &str,
    fields: &[ReadField],
) -> Result<(), AllocError> {
    for (i, read) in fields.iter().enumerate() {
        if i > 0 {
            text.push_str(", ")?;
        }
        let name = index.field_name(*text.allocator(), message, read)?;
        if let (Some(name), Some(field)) = (name, index.field_read(message, read)) {
            write!(text, "`{name}` = ")?;
            put_value(text, index, field, &read.value)?;
        }
    }
    Ok(())
}

/// A string in quotes, with what means something in Markdown escaped; or bytes as numbers.
fn put_bytes(text: &mut String, type_: FieldType, bytes: &[u8]) -> Result<(), AllocError> {
    let (FieldType::String, Ok(string)) = (type_, str::from_utf8(bytes)) else {
        return write!(text, "{bytes:?}");
    };
    let quoted = format!(in *text.allocator(); "{string:?}")?;
    for c in quoted.chars() {
        if matches!(
            c,
            '\\' | '`' | '*' | '_' | '<' | '>' | '[' | ']' | '|' | '&'
        ) {
            text.push('\\')?;
        }
        text.push(c)?;
    }
    Ok(())
}
