//! Option bytes: what they say by descriptors that are made by hand, and what is written.

mod schemas;

use self::schemas::schema;
use super::runs::checked;
use crate::cases::Case;
use crate::notation::text_of;
use anyhow::{Context, Result, bail};
use protobuf_parse::{FileDescriptorProto, ProtobufAbsPathRef, ReadField, ReadValue, read_custom};
use protobuf_parse_base::text::escape_bytes;
use protobuf_parse_wire::{Entry, EntryValue, Kind, encode};
use std::alloc::{AllocError, Global};
use std::slice;

/// The fields that the bytes of a message say, or the fault. Behind the verb stand the message's
/// absolute name, or `root`, and behind ` in ` the descriptors, or behind ` over ` the inputs of a
/// run over the files of the case.
pub fn read(alloc: Global, case: &Case, given: &[u8]) -> Result<String> {
    let bytes = hex::decode(alloc, given)?;
    let (name, files) = match case.argument.split_once(" over ") {
        Some((name, words)) => (name, files_of_run(alloc, words, case)?),
        None => {
            let (name, words) = case.argument.split_once(" in ").context("no descriptors")?;
            (name, schemas_of(alloc, words)?)
        }
    };
    let message = message_of(name).context("no absolute name")?;
    read_told(alloc, &files, message, &bytes)
}

pub fn files_of_run(alloc: Global, words: &str, case: &Case) -> Result<Vec<FileDescriptorProto>> {
    match checked(alloc, words, &case.files)? {
        Ok(files) => Ok(files),
        Err(fault) => bail!("{fault}"),
    }
}

fn message_of(name: &str) -> Option<ProtobufAbsPathRef<'_>> {
    ProtobufAbsPathRef::try_new(if name == "root" { "" } else { name })
}

fn schemas_of(alloc: Global, words: &str) -> Result<Vec<FileDescriptorProto>> {
    let mut files = Vec::new(alloc);
    for word in words.split_whitespace() {
        files.push(schema(alloc, word)?)?;
    }
    Ok(files)
}

/// What the bytes of the message say by the descriptors, or the fault.
pub fn read_told(
    alloc: Global,
    files: &[FileDescriptorProto],
    message: ProtobufAbsPathRef<'_>,
    bytes: &[u8],
) -> Result<String> {
    Ok(match read_custom(alloc, files, message, bytes) {
        Ok(fields) => fields_text(alloc, &fields)?,
        Err(fault) => format!(in alloc; "{fault}")?,
    })
}

fn fields_text(alloc: Global, fields: &[ReadField]) -> Result<String, AllocError> {
    let mut text = String::new(alloc);
    put_fields(&mut text, fields)?;
    Ok(text)
}

#[cycle(read_text)]
fn put_fields(text: &mut String, fields: &[ReadField]) -> Result<(), AllocError> {
    text.push('{')?;
    for (i, field) in fields.iter().enumerate() {
        if i > 0 {
            text.push_str(", ")?;
        }
        let number = field.number;
        write!(text, "{number} = ")?;
        put_value(text, &field.value)?;
    }
    text.push('}')
}

#[cycle(read_text)]
fn put_value(text: &mut String, value: &ReadValue) -> Result<(), AllocError> {
    match value {
        ReadValue::Number(number) => write!(text, "{number}"),
        ReadValue::Bool(truth) => write!(text, "{truth}"),
        ReadValue::Bytes(bytes) => put_bytes(text, bytes),
        ReadValue::Message(fields) => put_fields(text, fields),
    }
}

fn put_bytes(text: &mut String, bytes: &[u8]) -> Result<(), AllocError> {
    let escaped = escape_bytes(*text.allocator(), bytes)?;
    write!(text, "\"{escaped}\"")
}

/// The kinds of numbers by their words.
const KINDS: &[(&str, Kind)] = &[
    ("int32", Kind::Int32),
    ("int64", Kind::Int64),
    ("uint32", Kind::Uint32),
    ("uint64", Kind::Uint64),
    ("sint32", Kind::Sint32),
    ("sint64", Kind::Sint64),
    ("fixed32", Kind::Fixed32),
    ("sfixed32", Kind::Sfixed32),
    ("fixed64", Kind::Fixed64),
    ("sfixed64", Kind::Sfixed64),
    ("bool", Kind::Bool),
    ("enum", Kind::Enum),
];

fn kind_of(word: &str) -> Option<Kind> {
    for (name, kind) in KINDS {
        if *name == word {
            return Some(*kind);
        }
    }
    None
}

fn number_of(text: &str) -> Option<i128> {
    text.parse().ok()
}

/// The bytes of the number as field 1 of the kind, or `no number of the kind`.
pub fn write(alloc: Global, case: &Case, given: &[u8]) -> Result<String> {
    let kind = kind_of(&case.argument).context("no kind")?;
    let number = number_of(text_of(given)?).context("no number")?;
    if !kind.has_number(number) {
        return Ok(String::from_str(alloc, "no number of the kind")?);
    }
    let value = EntryValue::Number(number);
    let entry = Entry {
        number: 1,
        kind,
        value,
    };
    Ok(hex::encode(alloc, encode(alloc, slice::from_ref(&entry))?)?)
}
