//! The custom options of the files that a run describes: whose they are, their bytes, and what
//! these say.

use super::bytes::read_told;
use super::runs::{checked, files_with};
use crate::cases::{Case, CaseFile, Row};
use anyhow::{Context, Result};
use protobuf_parse::{
    DescriptorProto, EnumDescriptorProto, FieldDescriptorProto, FileDescriptorProto,
    OneofDescriptorProto, ProtobufAbsPathRef, ServiceDescriptorProto,
};
use std::alloc::Global;

/// For each construct with custom options its name, their bytes and what `read_custom` reads from
/// them, by all descriptors of the run; or the fault of the run. The library's own files are known.
/// A row's text is the file `f.proto`, which is then the input.
pub fn customs(alloc: Global, case: &Case, row: &Row) -> Result<String> {
    match &row.given {
        Some(content) => customs_of(alloc, "f.proto", &files_with(alloc, case, content)?),
        None => customs_of(alloc, &case.argument, &case.files),
    }
}

fn customs_of(alloc: Global, words: &str, files: &[CaseFile]) -> Result<String> {
    let files = match checked(alloc, words, files)? {
        Ok(files) => files,
        Err(fault) => return Ok(format!(in alloc; "{fault}")?),
    };
    let mut text = String::new(alloc);
    for file in &files {
        put_file(alloc, &mut text, &files, file)?;
    }
    match text.strip_suffix('\n') {
        Some(lines) => Ok(String::from_str(alloc, lines)?),
        None => Ok(String::from_str(alloc, "no custom options")?),
    }
}

/// The line of a construct whose options have these custom bytes, if they have any.
fn put_options(
    text: &mut String,
    files: &[FileDescriptorProto],
    construct: &str,
    message: &str,
    custom: &[u8],
) -> Result<()> {
    if custom.is_empty() {
        return Ok(());
    }
    let alloc = *text.allocator();
    let message = ProtobufAbsPathRef::try_new(message).context("no absolute name")?;
    let bytes = hex::encode(alloc, custom)?;
    let said = read_told(alloc, files, message, custom)?;
    write!(text, "{construct} {bytes} {said}\n")?;
    Ok(())
}

fn put_file(
    alloc: Global,
    text: &mut String,
    files: &[FileDescriptorProto],
    file: &FileDescriptorProto,
) -> Result<()> {
    let name = file.name.as_deref().unwrap_or("?");
    if let Some(options) = &file.options {
        let message = ".google.protobuf.FileOptions";
        put_options(text, files, name, message, &options.custom)?;
    }
    let scope = match &file.package {
        Some(package) => format!(in alloc; ".{package}")?,
        None => String::new(alloc),
    };
    put_messages(alloc, text, files, &scope, &file.message_type)?;
    put_enums(alloc, text, files, &scope, &file.enum_type)?;
    put_fields(alloc, text, files, &scope, &file.extension)?;
    put_services(alloc, text, files, &scope, &file.service)
}

#[cycle(custom_lines)]
fn put_messages(
    alloc: Global,
    text: &mut String,
    files: &[FileDescriptorProto],
    scope: &str,
    messages: &[DescriptorProto],
) -> Result<()> {
    for message in messages {
        put_message(alloc, text, files, scope, message)?;
    }
    Ok(())
}

#[cycle(custom_lines)]
fn put_message(
    alloc: Global,
    text: &mut String,
    files: &[FileDescriptorProto],
    scope: &str,
    message: &DescriptorProto,
) -> Result<()> {
    let scope = format!(in alloc; "{scope}.{}", message.name)?;
    if let Some(options) = &message.options {
        let of = ".google.protobuf.MessageOptions";
        put_options(text, files, &scope, of, &options.custom)?;
    }
    put_fields(alloc, text, files, &scope, &message.field)?;
    put_oneofs(alloc, text, files, &scope, &message.oneof_decl)?;
    put_messages(alloc, text, files, &scope, &message.nested_type)?;
    put_enums(alloc, text, files, &scope, &message.enum_type)?;
    put_fields(alloc, text, files, &scope, &message.extension)
}

/// Those of fields and of extensions.
fn put_fields(
    alloc: Global,
    text: &mut String,
    files: &[FileDescriptorProto],
    scope: &str,
    fields: &[FieldDescriptorProto],
) -> Result<()> {
    for field in fields {
        if let Some(options) = &field.options {
            let name = format!(in alloc; "{scope}.{}", field.name)?;
            let message = ".google.protobuf.FieldOptions";
            put_options(text, files, &name, message, &options.custom)?;
        }
    }
    Ok(())
}

fn put_oneofs(
    alloc: Global,
    text: &mut String,
    files: &[FileDescriptorProto],
    scope: &str,
    oneofs: &[OneofDescriptorProto],
) -> Result<()> {
    for oneof in oneofs {
        if let Some(options) = &oneof.options {
            let name = format!(in alloc; "{scope}.{}", oneof.name)?;
            let message = ".google.protobuf.OneofOptions";
            put_options(text, files, &name, message, &options.custom)?;
        }
    }
    Ok(())
}

fn put_enums(
    alloc: Global,
    text: &mut String,
    files: &[FileDescriptorProto],
    scope: &str,
    enums: &[EnumDescriptorProto],
) -> Result<()> {
    for each in enums {
        let name = format!(in alloc; "{scope}.{}", each.name)?;
        if let Some(options) = &each.options {
            let message = ".google.protobuf.EnumOptions";
            put_options(text, files, &name, message, &options.custom)?;
        }
        put_enum_values(alloc, text, files, &name, each)?;
    }
    Ok(())
}

fn put_enum_values(
    alloc: Global,
    text: &mut String,
    files: &[FileDescriptorProto],
    scope: &str,
    of: &EnumDescriptorProto,
) -> Result<()> {
    for value in &of.value {
        if let Some(options) = &value.options {
            let name = format!(in alloc; "{scope}.{}", value.name)?;
            let message = ".google.protobuf.EnumValueOptions";
            put_options(text, files, &name, message, &options.custom)?;
        }
    }
    Ok(())
}

fn put_services(
    alloc: Global,
    text: &mut String,
    files: &[FileDescriptorProto],
    scope: &str,
    services: &[ServiceDescriptorProto],
) -> Result<()> {
    for service in services {
        let name = format!(in alloc; "{scope}.{}", service.name)?;
        if let Some(options) = &service.options {
            let message = ".google.protobuf.ServiceOptions";
            put_options(text, files, &name, message, &options.custom)?;
        }
        put_methods(alloc, text, files, &name, service)?;
    }
    Ok(())
}

fn put_methods(
    alloc: Global,
    text: &mut String,
    files: &[FileDescriptorProto],
    scope: &str,
    of: &ServiceDescriptorProto,
) -> Result<()> {
    for method in &of.method {
        if let Some(options) = &method.options {
            let name = format!(in alloc; "{scope}.{}", method.name)?;
            let message = ".google.protobuf.MethodOptions";
            put_options(text, files, &name, message, &options.custom)?;
        }
    }
    Ok(())
}
