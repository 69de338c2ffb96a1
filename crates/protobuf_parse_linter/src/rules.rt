//! The linter's own rules.

use crate::linted::{Finding, tell};
use crate::texts::{Linted, Places};
use anyhow::{Context, Result};
use protobuf_parse::{DescriptorProto, FieldDescriptorProto, ProtobufAbsPathRef, camel_case};
use protobuf_parse_diagnostics::Diagnostic;
use protobuf_parse_index::{Declared, Index, custom_options, lower_snake_case};
use std::alloc::Global;

/// What the rules find in the files.
pub fn lint(alloc: Global, files: &Places<'_>, index: &Index<'_>) -> Result<Vec<Diagnostic>> {
    let mut told = Vec::new(alloc);
    for message in index.messages() {
        if let Some(file) = files.get(message.file) {
            if !is_map_entry(message.descriptor) {
                lint_message(alloc, &mut told, file, index, message)?;
            }
        }
    }
    Ok(told)
}

/// Whether the message stands behind a map, which makes its names.
fn is_map_entry(message: &DescriptorProto) -> bool {
    match &message.options {
        Some(options) => options.map_entry == Some(true),
        None => false,
    }
}

fn lint_message(
    alloc: Global,
    told: &mut Vec<Diagnostic>,
    file: &Linted<'_>,
    index: &Index<'_>,
    message: &Declared<'_, DescriptorProto>,
) -> Result<()> {
    let name = message.descriptor.name.as_str();
    let camel = camel_case(alloc, name)?;
    if camel.as_str() != name {
        let finding = Finding {
            rule: "message-name",
            message: format!(in alloc; "the name of `{name}` is not in CamelCase")?,
            help: format!(in alloc; "call it `{camel}`")?,
        };
        tell(alloc, told, file, &message.full_name, finding)?;
    }
    if !has_owner(alloc, index, message.descriptor)? {
        let finding = Finding {
            rule: "no-owner",
            message: format!(in alloc; "`{name}` has no owner")?,
            help: format!(in alloc; "set `option (shop.owner)`")?,
        };
        tell(alloc, told, file, &message.full_name, finding)?;
    }
    for field in &message.descriptor.field {
        lint_field(alloc, told, file, &message.full_name, field)?;
    }
    Ok(())
}

/// Whether the message has the option `(shop.owner)`.
fn has_owner(alloc: Global, index: &Index<'_>, message: &DescriptorProto) -> Result<bool> {
    let of = ProtobufAbsPathRef::try_new(".google.protobuf.MessageOptions").context("no name")?;
    if let Some(options) = &message.options {
        for option in &custom_options(alloc, index, of, &options.custom)? {
            if option.name.as_str() == "(shop.owner)" {
                return Ok(true);
            }
        }
    }
    Ok(false)
}

fn lint_field(
    alloc: Global,
    told: &mut Vec<Diagnostic>,
    file: &Linted<'_>,
    scope: &str,
    field: &FieldDescriptorProto,
) -> Result<()> {
    let name = field.name.as_str();
    let full_name = format!(in alloc; "{scope}.{name}")?;
    let snake = lower_snake_case(alloc, name)?;
    if snake.as_str() != name {
        let finding = Finding {
            rule: "field-name",
            message: format!(in alloc; "the name of `{name}` is not in snake_case")?,
            help: format!(in alloc; "call it `{snake}`")?,
        };
        tell(alloc, told, file, &full_name, finding)?;
    }
    if is_deprecated(field) {
        let number = field.number;
        let finding = Finding {
            rule: "deprecated",
            message: format!(in alloc; "`{name}` is deprecated")?,
            help: format!(in alloc;
                "once nobody sets it, write `reserved {number};` in its place"
            )?,
        };
        tell(alloc, told, file, &full_name, finding)?;
    }
    Ok(())
}

fn is_deprecated(field: &FieldDescriptorProto) -> bool {
    match &field.options {
        Some(options) => options.deprecated == Some(true),
        None => false,
    }
}
