//! Fields that change, messages that are renamed, and extensions.

use crate::{Strength, WireChange, reads_on, wire_changes};
use protobuf_parse_index::{Index, empty_field, empty_file, empty_message};
use protobuf_parse_model::{
    DescriptorProto, FieldDescriptorProto, FieldType, FileDescriptorProto, Label,
};
use std::alloc::{AllocError, Global};

/// A field that holds a message of that full name.
fn holding(
    alloc: Global,
    number: i32,
    type_name: &str,
) -> Result<FieldDescriptorProto, AllocError> {
    let mut field = empty_field(alloc, "f", number, FieldType::Message)?;
    field.type_name = Some(String::from_str(alloc, type_name)?);
    Ok(field)
}

/// `.M` with these fields, a message of that name whose field 1 is of that type, and an extension
/// of `.M` with the number 9, of that type too.
fn file(
    alloc: Global,
    fields: Vec<FieldDescriptorProto>,
    inner: &str,
    inner_type: FieldType,
) -> Result<FileDescriptorProto, AllocError> {
    let mut message = empty_message(alloc, "M")?;
    message.field = fields;
    let mut file = empty_file(alloc, "m.proto")?;
    file.message_type.push(message)?;
    let mut other: DescriptorProto = empty_message(alloc, inner)?;
    other.field.push(empty_field(alloc, "f", 1, inner_type)?)?;
    file.message_type.push(other)?;
    let mut extension = empty_field(alloc, "e", 9, inner_type)?;
    extension.extendee = Some(String::from_str(alloc, ".M")?);
    file.extension.push(extension)?;
    Ok(file)
}

fn old_file(alloc: Global) -> Result<FileDescriptorProto, AllocError> {
    let mut fields = Vec::new(alloc);
    let mut numbers = empty_field(alloc, "f", 1, FieldType::Int32)?;
    numbers.label = Label::Repeated;
    fields.push(numbers)?;
    fields.push(empty_field(alloc, "f", 2, FieldType::Bytes)?)?;
    fields.push(holding(alloc, 3, ".A")?)?;
    fields.push(holding(alloc, 4, ".A")?)?;
    fields.push(empty_field(alloc, "f", 5, FieldType::Sint32)?)?;
    file(alloc, fields, "A", FieldType::Int32)
}

/// `.A` is `.B` now, with wider numbers.
fn new_file(alloc: Global) -> Result<FileDescriptorProto, AllocError> {
    let mut fields = Vec::new(alloc);
    fields.push(empty_field(alloc, "f", 1, FieldType::Int64)?)?;
    fields.push(empty_field(alloc, "f", 2, FieldType::String)?)?;
    fields.push(holding(alloc, 3, ".B")?)?;
    fields.push(holding(alloc, 4, ".M")?)?;
    fields.push(empty_field(alloc, "f", 5, FieldType::Int32)?)?;
    let mut file = file(alloc, fields, "B", FieldType::Int64)?;
    file.syntax = Some(String::from_str(alloc, "proto3")?);
    Ok(file)
}

fn line(alloc: Global, change: &WireChange<'_>) -> Result<String, AllocError> {
    let from = change.old_message;
    let to = change.message;
    let number = change.number;
    let kind = change.kind;
    format!(in alloc; "{from} {to} {number} {kind:?}\n")
}

fn told(alloc: Global, strength: Strength) -> Result<String, AllocError> {
    let old_files = [old_file(alloc)?];
    let new_files = [new_file(alloc)?];
    let old = Index::of(alloc, &old_files)?;
    let new = Index::of(alloc, &new_files)?;
    let changes = wire_changes(alloc, strength, &old, &new)?;
    let mut text = String::new(alloc);
    for change in &changes {
        let told = line(alloc, change)?;
        text.push_str(&told)?;
    }
    Ok(text)
}

#[test]
fn changes_are_told(rt: HostRuntime) -> Result<(), AllocError> {
    let alloc = rt.alloc();
    let exact = ".M .M 1 OtherKind\n\
        .M .M 2 BytesBecameText\n\
        .M .M 4 OtherMessage\n\
        .M .M 5 OtherKind\n\
        .A .B 1 OtherKind\n\
        .M .M 9 OtherKind\n";
    let family = ".M .M 1 NotRepeated\n\
        .M .M 2 BytesBecameText\n\
        .M .M 4 OtherMessage\n\
        .M .M 5 OtherKind\n";
    assert_eq!(rt; told(alloc, Strength::Exact)?.as_str(), exact);
    assert_eq!(rt; told(alloc, Strength::Family)?.as_str(), family);
    Ok(())
}

#[test]
fn files_read_on_what_they_wrote(rt: HostRuntime) -> Result<(), AllocError> {
    let alloc = rt.alloc();
    let old_files = [old_file(alloc)?];
    let new_files = [new_file(alloc)?];
    let old = Index::of(alloc, &old_files)?;
    let new = Index::of(alloc, &new_files)?;
    assert!(rt; reads_on(alloc, Strength::Exact, &old, &old)?);
    assert!(rt; reads_on(alloc, Strength::Exact, &new, &new)?);
    assert!(rt; !reads_on(alloc, Strength::Family, &old, &new)?);
    Ok(())
}
