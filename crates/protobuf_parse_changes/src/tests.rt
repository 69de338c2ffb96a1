//! Small versions of a file, each with all that changed.

use crate::{Category, Change, ChangeKind, Place, changes};
use protobuf_parse_index::{
    Index, empty_enum, empty_field, empty_file, empty_message, empty_method, empty_oneof,
    empty_service, empty_value,
};
use protobuf_parse_model::{
    DescriptorProto, FieldDescriptorProto, FieldType, FileDescriptorProto, Label, ReservedRange,
};
use std::alloc::{AllocError, Global};

/// What has the name in `m.proto`, or a part of it.
fn told<'c>(
    kind: ChangeKind,
    name: &'c str,
    member: Option<&'c str>,
    number: Option<i32>,
) -> Change<'c> {
    Change {
        kind,
        place: Place {
            file: "m.proto",
            name,
            member,
            number,
        },
    }
}

/// A file with that message alone.
fn file_of(alloc: Global, message: DescriptorProto) -> Result<FileDescriptorProto, AllocError> {
    let mut file = empty_file(alloc, "m.proto")?;
    file.message_type.push(message)?;
    Ok(file)
}

/// A field of the first oneof.
fn member(alloc: Global, name: &str, number: i32) -> Result<FieldDescriptorProto, AllocError> {
    let mut field = empty_field(alloc, name, number, FieldType::Int32)?;
    field.oneof_index = Some(0);
    Ok(field)
}

fn old_message(alloc: Global) -> Result<DescriptorProto, AllocError> {
    let mut message = empty_message(alloc, "M")?;
    message.oneof_decl.push(empty_oneof(alloc, "choice")?)?;
    message.field.push(member(alloc, "a", 1)?)?;
    message.field.push(member(alloc, "b", 2)?)?;
    let c = empty_field(alloc, "c", 3, FieldType::Int32)?;
    message.field.push(c)?;
    message
        .reserved_range
        .push(ReservedRange { start: 4, end: 5 })?;
    Ok(message)
}

fn new_message(alloc: Global) -> Result<DescriptorProto, AllocError> {
    let mut message = empty_message(alloc, "M")?;
    message.oneof_decl.push(empty_oneof(alloc, "choice")?)?;
    message.field.push(member(alloc, "a", 1)?)?;
    let c = empty_field(alloc, "cc", 3, FieldType::Int64)?;
    message.field.push(c)?;
    let mut d = empty_field(alloc, "d", 4, FieldType::Int32)?;
    d.label = Label::Required;
    message.field.push(d)?;
    message.reserved_name.push(String::from_str(alloc, "b")?)?;
    Ok(message)
}

#[test]
fn fields_are_told_by_their_numbers(rt: HostRuntime) -> Result<(), AllocError> {
    let alloc = rt.alloc();
    let old = [file_of(alloc, old_message(alloc)?)?];
    let new = [file_of(alloc, new_message(alloc)?)?];
    let old = Index::of(alloc, &old)?;
    let new = Index::of(alloc, &new)?;
    let expected = [
        told(ChangeKind::FieldRemoved, ".M", Some("b"), Some(2)),
        told(ChangeKind::NumberNotReserved, ".M", Some("b"), Some(2)),
        told(ChangeKind::OneofMemberRemoved, ".M", Some("b"), Some(2)),
        told(ChangeKind::FieldRenamed, ".M", Some("c"), Some(3)),
        told(ChangeKind::JsonNameChanged, ".M", Some("c"), Some(3)),
        told(ChangeKind::TypeChanged, ".M", Some("c"), Some(3)),
        told(ChangeKind::ReservedNumberUsed, ".M", Some("d"), Some(4)),
        told(ChangeKind::RequiredFieldAdded, ".M", Some("d"), Some(4)),
    ];
    let found = changes(alloc, &old, &new)?;
    assert_eq!(rt; found.as_slice(), &expected[..]);
    assert_eq!(rt; expected[0].kind.breaks(), Category::Source);
    Ok(())
}

/// A file of that package with an enum, a service and nothing else.
fn declaring(
    alloc: Global,
    values: &[(&str, i32)],
    output: &str,
) -> Result<FileDescriptorProto, AllocError> {
    let mut declared = empty_enum(alloc, "E")?;
    for (name, number) in values {
        declared.value.push(empty_value(alloc, name, *number)?)?;
    }
    let mut service = empty_service(alloc, "S")?;
    service
        .method
        .push(empty_method(alloc, "Get", ".M", output)?)?;
    let mut file = empty_file(alloc, "m.proto")?;
    file.enum_type.push(declared)?;
    file.service.push(service)?;
    Ok(file)
}

#[test]
fn values_and_methods_are_told(rt: HostRuntime) -> Result<(), AllocError> {
    let alloc = rt.alloc();
    let old = [declaring(alloc, &[("A", 0), ("B", 1), ("C", 2)], ".M")?];
    let mut file = declaring(alloc, &[("Z", 0), ("A", 0), ("D", 1)], ".N")?;
    file.syntax = Some(String::from_str(alloc, "proto3")?);
    let new = [file];
    let old = Index::of(alloc, &old)?;
    let new = Index::of(alloc, &new)?;
    let expected = [
        told(ChangeKind::OpennessChanged, ".E", None, None),
        told(ChangeKind::EnumValueRenamed, ".E", Some("B"), Some(1)),
        told(ChangeKind::EnumValueRemoved, ".E", Some("C"), Some(2)),
        told(ChangeKind::NumberNotReserved, ".E", Some("C"), Some(2)),
        told(ChangeKind::NameNotReserved, ".E", Some("C"), Some(2)),
        told(ChangeKind::OutputChanged, ".S", Some("Get"), None),
    ];
    let found = changes(alloc, &old, &new)?;
    assert_eq!(rt; found.as_slice(), &expected[..]);
    Ok(())
}

#[test]
fn a_version_without_files_has_nothing(rt: HostRuntime) -> Result<(), AllocError> {
    let alloc = rt.alloc();
    let old = [file_of(alloc, old_message(alloc)?)?];
    let old = Index::of(alloc, &old)?;
    let new = Index::of(alloc, &[])?;
    let expected = [
        told(ChangeKind::FileRemoved, "", None, None),
        told(ChangeKind::MessageRemoved, ".M", None, None),
    ];
    let found = changes(alloc, &old, &new)?;
    assert_eq!(rt; found.as_slice(), &expected[..]);
    Ok(())
}
