//! Pages: of each file one, and in it a section for each message, enum and service, with what
//! comments say of them.

use crate::comments::{put_said, put_said_in_cell};
use crate::options::put_options;
use crate::types::{is_map_entry, put_label_and_type, put_link, put_type};
use anyhow::Result;
use protobuf_parse::{
    DescriptorProto, EnumDescriptorProto, FieldDescriptorProto, FileDescriptorProto,
    MethodDescriptorProto, ServiceDescriptorProto,
};
use protobuf_parse_index::Index;
use protobuf_parse_locations::FileLocations;
use protobuf_parse_source_info::SourceCodeInfo;
use std::alloc::{AllocError, Global};

/// A page is made of one file, with links to those of others.
#[derive(Clone, Copy)]
pub struct Page<'p, 'i, 'l> {
    pub index: &'p Index<'i>,
    pub locations: &'p FileLocations<'l, 'static>,
}

/// The page of a file.
pub fn page_of(
    alloc: Global,
    index: &Index<'_>,
    file: &FileDescriptorProto,
    info: &SourceCodeInfo<'static>,
) -> Result<String> {
    let locations = FileLocations::of(alloc, file, info)?;
    let mut text = String::new(alloc);
    let page = Page {
        index,
        locations: &locations,
    };
    put_file(&mut text, &page, file)?;
    Ok(text)
}

/// The name of a file's page: `shop.order.md` of `shop/order.proto`.
pub fn page_name(alloc: Global, path: &str) -> Result<String, AllocError> {
    let mut name = String::new(alloc);
    for (i, part) in path.trim_end_matches(".proto").split('/').enumerate() {
        if i > 0 {
            name.push('.')?;
        }
        name.push_str(part)?;
    }
    name.push_str(".md")?;
    Ok(name)
}

fn put_file(text: &mut String, page: &Page<'_, '_, '_>, file: &FileDescriptorProto) -> Result<()> {
    write!(text, "# {}\n\n", file.name.as_deref().unwrap_or("?"))?;
    if let Some(package) = &file.package {
        write!(text, "- package `{package}`\n")?;
    }
    for path in &file.dependency {
        write!(text, "- imports `{path}`\n")?;
    }
    text.push('\n')?;
    let scope = package_scope(*text.allocator(), file)?;
    for message in &file.message_type {
        put_message(text, page, &scope, message)?;
    }
    for declared in &file.enum_type {
        put_enum(text, page, &scope, declared)?;
    }
    for service in &file.service {
        put_service(text, page, &scope, service)?;
    }
    put_extensions(text, page, &scope, &file.extension)?;
    Ok(())
}

/// What stands before the names of a file's declarations, with its first dot and without its last.
fn package_scope(alloc: Global, file: &FileDescriptorProto) -> Result<String, AllocError> {
    match &file.package {
        Some(package) => format!(in alloc; ".{package}"),
        None => Ok(String::new(alloc)),
    }
}

/// The head of a section, where links lead, and what is said of what it is of.
fn put_section(
    text: &mut String,
    page: &Page<'_, '_, '_>,
    kind: &str,
    scope: &str,
) -> Result<(), AllocError> {
    let name = scope.trim_start_matches('.');
    write!(text, "## <a id=\"{name}\"></a>{kind} {name}\n\n")?;
    put_said(text, page.locations, scope)
}

/// What is said of what has the name in the scope.
fn put_said_of(
    text: &mut String,
    page: &Page<'_, '_, '_>,
    scope: &str,
    name: &str,
) -> Result<(), AllocError> {
    let full_name = format!(in *text.allocator(); "{scope}.{name}")?;
    put_said_in_cell(text, page.locations, &full_name)
}

/// The section of a message, and those of what is declared in it.
fn put_message(
    text: &mut String,
    page: &Page<'_, '_, '_>,
    scope: &str,
    message: &DescriptorProto,
) -> Result<()> {
    let scope = format!(in *text.allocator(); "{scope}.{}", message.name)?;
    put_section(text, page, "message", &scope)?;
    if let Some(options) = &message.options {
        put_options(
            text,
            page.index,
            ".google.protobuf.MessageOptions",
            &options.custom,
        )?;
        text.push_str("\n\n")?;
    }
    put_fields(text, page, &scope, message)?;
    put_extensions(text, page, &scope, &message.extension)?;
    for nested in &message.nested_type {
        if !is_map_entry(nested) {
            put_message(text, page, &scope, nested)?;
        }
    }
    for declared in &message.enum_type {
        put_enum(text, page, &scope, declared)?;
    }
    Ok(())
}

fn put_fields(
    text: &mut String,
    page: &Page<'_, '_, '_>,
    scope: &str,
    message: &DescriptorProto,
) -> Result<()> {
    text.push_str(
        "| number | field | label | type | options | what it is |\n|---|---|---|---|---|---|\n",
    )?;
    for field in &message.field {
        write!(text, "| {} | `{}` | ", field.number, field.name)?;
        put_label_and_type(text, page, scope, message, field)?;
        text.push_str(" | ")?;
        if let Some(options) = &field.options {
            put_options(
                text,
                page.index,
                ".google.protobuf.FieldOptions",
                &options.custom,
            )?;
        }
        text.push_str(" | ")?;
        put_said_of(text, page, scope, &field.name)?;
        text.push_str(" |\n")?;
    }
    text.push('\n')?;
    Ok(())
}

fn put_extensions(
    text: &mut String,
    page: &Page<'_, '_, '_>,
    scope: &str,
    extensions: &[FieldDescriptorProto],
) -> Result<(), AllocError> {
    if extensions.is_empty() {
        return Ok(());
    }
    text.push_str("| number | extension | of | type | what it is |\n|---|---|---|---|---|\n")?;
    for field in extensions {
        write!(text, "| {} | `{}` | ", field.number, field.name)?;
        put_link(text, page, field.extendee.as_deref().unwrap_or("?"))?;
        text.push_str(" | ")?;
        put_type(text, page, field)?;
        text.push_str(" | ")?;
        put_said_of(text, page, scope, &field.name)?;
        text.push_str(" |\n")?;
    }
    text.push('\n')
}

fn put_enum(
    text: &mut String,
    page: &Page<'_, '_, '_>,
    around: &str,
    declared: &EnumDescriptorProto,
) -> Result<()> {
    let scope = format!(in *text.allocator(); "{around}.{}", declared.name)?;
    put_section(text, page, "enum", &scope)?;
    text.push_str("| number | value | options | what it is |\n|---|---|---|---|\n")?;
    for value in &declared.value {
        write!(text, "| {} | `{}` | ", value.number, value.name)?;
        if let Some(options) = &value.options {
            put_options(
                text,
                page.index,
                ".google.protobuf.EnumValueOptions",
                &options.custom,
            )?;
        }
        text.push_str(" | ")?;
        put_said_of(text, page, around, &value.name)?;
        text.push_str(" |\n")?;
    }
    text.push('\n')?;
    Ok(())
}

fn put_service(
    text: &mut String,
    page: &Page<'_, '_, '_>,
    scope: &str,
    service: &ServiceDescriptorProto,
) -> Result<()> {
    let scope = format!(in *text.allocator(); "{scope}.{}", service.name)?;
    put_section(text, page, "service", &scope)?;
    text.push_str(
        "| method | takes | returns | options | what it does |\n|---|---|---|---|---|\n",
    )?;
    for method in &service.method {
        put_method(text, page, &scope, method)?;
    }
    text.push('\n')?;
    Ok(())
}

fn put_method(
    text: &mut String,
    page: &Page<'_, '_, '_>,
    scope: &str,
    method: &MethodDescriptorProto,
) -> Result<()> {
    write!(text, "| `{}` | ", method.name)?;
    put_payload(text, page, method.client_streaming, &method.input_type)?;
    text.push_str(" | ")?;
    put_payload(text, page, method.server_streaming, &method.output_type)?;
    text.push_str(" | ")?;
    if let Some(options) = &method.options {
        put_options(
            text,
            page.index,
            ".google.protobuf.MethodOptions",
            &options.custom,
        )?;
    }
    text.push_str(" | ")?;
    put_said_of(text, page, scope, &method.name)?;
    text.push_str(" |\n")?;
    Ok(())
}

fn put_payload(
    text: &mut String,
    page: &Page<'_, '_, '_>,
    is_stream: bool,
    type_name: &str,
) -> Result<(), AllocError> {
    if is_stream {
        text.push_str("stream of ")?;
    }
    put_link(text, page, type_name)
}
