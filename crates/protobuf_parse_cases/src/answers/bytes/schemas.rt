//! Descriptors made by hand, by their words.

use anyhow::{Result, bail};
use protobuf_parse_base::Name;
use protobuf_parse_model::{
    DescriptorProto, FieldDescriptorProto, FieldType, FileDescriptorProto, Label,
};
use std::alloc::{AllocError, Global};

/// The descriptor of a file, by its word.
pub fn schema(alloc: Global, word: &str) -> Result<FileDescriptorProto> {
    Ok(match word {
        "options" => options_file(alloc)?,
        "custom" => custom_file(alloc)?,
        "twice" => twice_file(alloc)?,
        "kinds" => kinds_file(alloc)?,
        _ => bail!("no descriptor {word:?}"),
    })
}

fn owned(alloc: Global, text: Option<&str>) -> Result<Option<String>, AllocError> {
    match text {
        Some(text) => Ok(Some(String::from_str(alloc, text)?)),
        None => Ok(None),
    }
}

fn field(
    alloc: Global,
    number: i32,
    type_: FieldType,
    type_name: Option<&str>,
    extendee: Option<&str>,
) -> Result<FieldDescriptorProto, AllocError> {
    Ok(FieldDescriptorProto {
        name: Name::new(alloc, "f")?,
        number,
        label: Label::Optional,
        type_,
        type_name: owned(alloc, type_name)?,
        extendee: owned(alloc, extendee)?,
        default_value: None,
        oneof_index: None,
        json_name: Name::new(alloc, "f")?,
        proto3_optional: false,
        options: None,
    })
}

fn message(
    alloc: Global,
    name: &str,
    field: Vec<FieldDescriptorProto>,
    extension: Vec<FieldDescriptorProto>,
) -> Result<DescriptorProto, AllocError> {
    Ok(DescriptorProto {
        name: Name::new(alloc, name)?,
        field,
        oneof_decl: Vec::new(alloc),
        nested_type: Vec::new(alloc),
        enum_type: Vec::new(alloc),
        extension,
        extension_range: Vec::new(alloc),
        reserved_range: Vec::new(alloc),
        reserved_name: Vec::new(alloc),
        options: None,
    })
}

fn file(
    alloc: Global,
    package: Option<&str>,
    message_type: Vec<DescriptorProto>,
    extension: Vec<FieldDescriptorProto>,
) -> Result<FileDescriptorProto, AllocError> {
    Ok(FileDescriptorProto {
        name: None,
        package: owned(alloc, package)?,
        syntax: None,
        dependency: Vec::new(alloc),
        public_dependency: Vec::new(alloc),
        weak_dependency: Vec::new(alloc),
        message_type,
        enum_type: Vec::new(alloc),
        service: Vec::new(alloc),
        extension,
        options: None,
    })
}

/// The options messages, without fields of their own.
fn options_file(alloc: Global) -> Result<FileDescriptorProto, AllocError> {
    let mut messages = Vec::new(alloc);
    for name in ["FileOptions", "MessageOptions"] {
        messages.push(message(alloc, name, Vec::new(alloc), Vec::new(alloc))?)?;
    }
    file(alloc, Some("google.protobuf"), messages, Vec::new(alloc))
}

/// `extend FileOptions { optional sint32 o = 50001; }`, and a message `M` with
/// `repeated int32 a = 1; optional string s = 2;` and
/// `extend MessageOptions { optional M m = 50003; }` inside it.
fn custom_file(alloc: Global) -> Result<FileDescriptorProto, AllocError> {
    let mut fields = Vec::new(alloc);
    fields.push(field(alloc, 1, FieldType::Int32, None, None)?)?;
    fields.push(field(alloc, 2, FieldType::String, None, None)?)?;
    let mut inside = Vec::new(alloc);
    let extendee = Some(".google.protobuf.MessageOptions");
    inside.push(field(alloc, 50003, FieldType::Message, Some(".M"), extendee)?)?;
    let mut messages = Vec::new(alloc);
    messages.push(message(alloc, "M", fields, inside)?)?;
    let mut extensions = Vec::new(alloc);
    let extendee = Some(".google.protobuf.FileOptions");
    extensions.push(field(alloc, 50001, FieldType::Sint32, None, extendee)?)?;
    file(alloc, None, messages, extensions)
}

/// `extend FileOptions { optional sint32 o = 50001; }`, twice.
fn twice_file(alloc: Global) -> Result<FileDescriptorProto, AllocError> {
    let mut extensions = Vec::new(alloc);
    for _ in 0..2 {
        let extendee = Some(".google.protobuf.FileOptions");
        extensions.push(field(alloc, 50001, FieldType::Sint32, None, extendee)?)?;
    }
    file(alloc, None, Vec::new(alloc), extensions)
}

/// The types of the fields of `K`, by their numbers from 1 on.
const TYPES: &[FieldType] = &[
    FieldType::Int32,
    FieldType::Int64,
    FieldType::Uint32,
    FieldType::Uint64,
    FieldType::Sint32,
    FieldType::Sint64,
    FieldType::Fixed32,
    FieldType::Sfixed32,
    FieldType::Fixed64,
    FieldType::Sfixed64,
    FieldType::Bool,
    FieldType::String,
    FieldType::Bytes,
    FieldType::Enum,
    FieldType::Message,
    FieldType::Float,
    FieldType::Double,
    FieldType::Group,
];

/// A message `K` whose fields have, from 1 on, each of the types, a message being `K` again.
fn kinds_file(alloc: Global) -> Result<FileDescriptorProto, AllocError> {
    let mut fields = Vec::new(alloc);
    let mut number = 1i32;
    for type_ in TYPES {
        fields.push(field(alloc, number, *type_, Some(".p.K"), None)?)?;
        number = number.saturating_add(1);
    }
    let mut messages = Vec::new(alloc);
    messages.push(message(alloc, "K", fields, Vec::new(alloc))?)?;
    file(alloc, Some("p"), messages, Vec::new(alloc))
}
