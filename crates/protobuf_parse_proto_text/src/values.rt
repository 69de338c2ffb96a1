//! The values of custom options.

ghost use Rattle.std.specs.Prelude.{◌≡◌, ◌++◌, codes, map, pos};
ghost use Rattle.protobuf_parse_model.specs.Descriptors.{field_view, file_view};
ghost use Rattle.protobuf_parse_wire.specs.Trees.{fields_of_list};
ghost use Rattle.protobuf_parse_wire.specs.Views.{read_field_view, read_value_view};
ghost use Rattle.protobuf_parse_index.specs.Lookups.{extension_numbered};
ghost use Rattle.protobuf_parse_index.specs.Options.{without_dot};
ghost use Rattle.protobuf_parse_index.specs.Views.{text_found};
ghost use Rattle.protobuf_parse_listing.specs.Listing.{listed_truth};
ghost use Rattle.protobuf_parse_proto_text.specs.Items as spec;
ghost use Rattle.protobuf_parse_proto_text.specs.Puts.{Puts};

use crate::pieces::{put_number, put_quoted};
use protobuf_parse_index::Index;
use protobuf_parse_model::FieldDescriptorProto;
use protobuf_parse_wire::{ReadField, ReadValue};
use std::alloc::{AllocError, Global};

/// A value whose enum or message has the name.
#[cycle(values)]
pub fn put_value(
    alloc: Global,
    text: &mut String,
    index: &Index<'_>,
    type_name: &str,
    value: &ReadValue,
) -> Result<(), AllocError>
    ensures { Puts result text.old text.new
        (spec.value_text (map file_view index.now) type_name.now (read_value_view value.now)) }
{
    match value {
        ReadValue::Number(number) => {
            put_named_number(text, index.value_read(type_name, value), *number)
        }
        ReadValue::Bool(truth) => text.push_str(truth_word(*truth)),
        ReadValue::Bytes(bytes) => put_quoted(alloc, text, bytes),
        ReadValue::Message(fields) => put_message(alloc, text, index, type_name, fields),
    }
}

/// A message of that name.
#[cycle(values)]
fn put_message(
    alloc: Global,
    text: &mut String,
    index: &Index<'_>,
    type_name: &str,
    fields: &[ReadField],
) -> Result<(), AllocError>
    ensures { Puts result text.old text.new
        (codes "{" ++ spec.inner_text (map file_view index.now) type_name.now
        (fields_of_list (map read_field_view fields.now)) ++ codes " }") }
{
    text.push('{')?;
    put_inner(alloc, text, index, type_name, fields)?;
    text.push_str(" }")
}

/// The fields of a message of that name.
#[cycle(values)]
fn put_inner(
    alloc: Global,
    text: &mut String,
    index: &Index<'_>,
    message: &str,
    fields: &[ReadField],
) -> Result<(), AllocError>
    ensures { Puts result text.old text.new
        (spec.inner_text (map file_view index.now) message.now
        (fields_of_list (map read_field_view fields.now))) }
{
    'fields: for read in fields {
        put_inner_name(text, index, message, read)?;
        let type_name = inner_type(index, message, read);
        put_value(alloc, text, index, type_name, &read.value)?;
    }
    Ok(())
}

/// A number, or the name of the value of an enum.
fn put_named_number(text: &mut String, name: Option<&str>, number: i128) -> Result<(), AllocError>
    ensures { Puts result text.old text.new (spec.number_words (text_found name.entry) number) }
{
    match name {
        Some(name) => text.push_str(name),
        None => put_number(text, number),
    }
}

/// ` NAME: `.
fn put_inner_name(
    text: &mut String,
    index: &Index<'_>,
    message: &str,
    read: &ReadField,
) -> Result<(), AllocError>
    ensures { Puts result text.old text.new
        (codes " " ++ spec.inner_name (map file_view index.now) message.now
        (read_field_view read.now).number ++ codes ": ") }
{
    text.push(' ')?;
    put_name(text, index, message, read)?;
    text.push_str(": ")
}

/// A field by its name, and an extension by its full name in brackets.
fn put_name(
    text: &mut String,
    index: &Index<'_>,
    message: &str,
    read: &ReadField,
) -> Result<(), AllocError>
    ensures { Puts result text.old text.new
        (spec.inner_name (map file_view index.now) message.now
        (read_field_view read.now).number) }
{
    match index.field_read(message, read) {
        Some(field) => match &field.extendee {
            None => text.push_str(&field.name),
            Some(_) => put_extension_name(text, index, message, read),
        },
        None => put_number(text, i128::from(read.number)),
    }
}

fn put_extension_name(
    text: &mut String,
    index: &Index<'_>,
    message: &str,
    read: &ReadField,
) -> Result<(), AllocError>
    ensures { Puts result text.old text.new
        (spec.extension_inside (extension_numbered (map file_view index.now) message.now
        (pos (read_field_view read.now).number)) (pos (read_field_view read.now).number)) }
{
    match index.extension_read(message, read) {
        Some(extension) => {
            text.push('[')?;
            text.push_str(after_dot(&extension.full_name))?;
            text.push(']')
        }
        None => put_number(text, i128::from(read.number)),
    }
}

/// The name of the enum or the message that the field of the message holds, or no text.
fn inner_type<'a>(index: &Index<'a>, message: &str, read: &ReadField) -> &'a str
    ensures { result.now ≡ spec.inner_type (map file_view index.now) message.now
        (read_field_view read.now).number }
{
    match index.field_read(message, read) {
        Some(field) => type_name_of(field),
        None => "",
    }
}

/// The name of a field's type where it is declared elsewhere, or no text.
pub fn type_name_of(field: &FieldDescriptorProto) -> &str
    ensures { result.now ≡ spec.type_name_of (field_view field.now) }
{
    match &field.type_name {
        Some(name) => name,
        None => "",
    }
}

/// A full name without its first dot.
fn after_dot(full_name: &str) -> &str
    ensures { result.now ≡ without_dot full_name.now }
{
    match full_name.strip_prefix('.') {
        Some(name) => name,
        None => full_name,
    }
}

/// A truth value.
fn truth_word(truth: bool) -> &'static str
    ensures { result.now ≡ listed_truth truth }
{
    if truth { "true" } else { "false" }
}
