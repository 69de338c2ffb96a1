//! Labels and types of fields.

use crate::page::{Page, page_name};
use protobuf_parse::{DescriptorProto, FieldDescriptorProto};
use protobuf_parse_index::{label_word, type_word};
use std::alloc::AllocError;

/// Whether a package or a type comes with the library. No page has a section for it.
pub fn is_shipped(name: &str) -> bool {
    name == "google.protobuf" || name.starts_with("google.protobuf.")
}

/// The full name of a message or an enum, with a link to its section on the page of its file.
pub fn put_link(
    text: &mut String,
    page: &Page<'_, '_, '_>,
    type_name: &str,
) -> Result<(), AllocError> {
    let name = type_name.trim_start_matches('.');
    if is_shipped(name) {
        return write!(text, "`{name}`");
    }
    let file = match (
        page.index.message(type_name),
        page.index.enumeration(type_name),
    ) {
        (Some(message), _) => message.file,
        (None, Some(each)) => each.file,
        (None, None) => return write!(text, "`{name}`"),
    };
    let target = page_name(*text.allocator(), file)?;
    write!(text, "[{name}]({target}#{name})")
}

/// The type of a field that is no map.
pub fn put_type(
    text: &mut String,
    page: &Page<'_, '_, '_>,
    field: &FieldDescriptorProto,
) -> Result<(), AllocError> {
    match &field.type_name {
        Some(name) => put_link(text, page, name),
        None => text.push_str(type_word(field.type_)),
    }
}

/// The label and the type of a field of this message, which has this full name.
pub fn put_label_and_type(
    text: &mut String,
    page: &Page<'_, '_, '_>,
    scope: &str,
    message: &DescriptorProto,
    field: &FieldDescriptorProto,
) -> Result<(), AllocError> {
    if let Some([key, value]) = entry_of(scope, message, field) {
        text.push_str("map | ")?;
        put_type(text, page, key)?;
        text.push_str(" to ")?;
        return put_type(text, page, value);
    }
    put_label(text, message, field)?;
    text.push_str(" | ")?;
    put_type(text, page, field)
}

fn put_label(
    text: &mut String,
    message: &DescriptorProto,
    field: &FieldDescriptorProto,
) -> Result<(), AllocError> {
    for (i, oneof) in message.oneof_decl.iter().enumerate() {
        if field.oneof_index == i32::try_from(i).ok() && !field.proto3_optional {
            return write!(text, "one of `{}`", oneof.name);
        }
    }
    text.push_str(label_word(field.label))
}

/// The key and the value of a map: the fields of the message that stands behind it.
fn entry_of<'a>(
    scope: &str,
    message: &'a DescriptorProto,
    field: &FieldDescriptorProto,
) -> Option<&'a [FieldDescriptorProto]> {
    let type_name = field.type_name.as_deref()?;
    let name = type_name.strip_prefix(scope)?.strip_prefix('.')?;
    for nested in &message.nested_type {
        if is_map_entry(nested) && nested.name.as_str() == name {
            return Some(&nested.field);
        }
    }
    None
}

/// Whether the message stands behind a map.
pub fn is_map_entry(message: &DescriptorProto) -> bool {
    match &message.options {
        Some(options) => options.map_entry == Some(true),
        None => false,
    }
}
