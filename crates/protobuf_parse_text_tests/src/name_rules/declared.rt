//! Descriptors for the tests.

use protobuf_parse_index::{empty_field, empty_file, empty_message};
use protobuf_parse_model::{
    DescriptorProto, FieldDescriptorProto, FieldType, FileDescriptorProto, Label,
};
use std::alloc::{AllocError, Global};

/// A field that holds a number, or the message.
fn field(
    alloc: Global,
    label: Label,
    name: &str,
    number: i32,
    message: Option<&str>,
) -> Result<FieldDescriptorProto, AllocError> {
    let mut field = empty_field(alloc, name, number, FieldType::Int32)?;
    field.label = label;
    if let Some(message) = message {
        field.type_ = FieldType::Message;
        field.type_name = Some(String::from_str(alloc, message)?);
    }
    Ok(field)
}

/// An extension.
fn extension(
    alloc: Global,
    extendee: &str,
    field: FieldDescriptorProto,
) -> Result<FieldDescriptorProto, AllocError> {
    let mut field = field;
    field.extendee = Some(String::from_str(alloc, extendee)?);
    Ok(field)
}

/// `Foo`, with a oneof of `x` and `y`.
fn foo(alloc: Global) -> Result<DescriptorProto, AllocError> {
    let mut foo = empty_message(alloc, "Foo")?;
    let rows = [
        (Label::Optional, "a", 1, None),
        (Label::Optional, "b", 2, None),
        (Label::Repeated, "r", 3, None),
        (Label::Optional, "f", 4, Some(".p.Foo")),
        (Label::Repeated, "rf", 7, Some(".p.Foo")),
        (Label::Optional, "req", 8, Some(".p.Req")),
        (Label::Optional, "lost", 9, Some(".p.Lost")),
    ];
    for (label, name, number, message) in &rows {
        foo.field
            .push(field(alloc, *label, name, *number, *message)?)?;
    }
    for (name, number) in &[("x", 5), ("y", 6)] {
        let mut member = field(alloc, Label::Optional, name, *number, None)?;
        member.oneof_index = Some(0);
        foo.field.push(member)?;
    }
    Ok(foo)
}

/// `Req`, whose `q` is required.
fn req(alloc: Global) -> Result<DescriptorProto, AllocError> {
    let mut req = empty_message(alloc, "Req")?;
    req.field
        .push(field(alloc, Label::Required, "q", 1, None)?)?;
    req.field
        .push(field(alloc, Label::Optional, "z", 2, None)?)?;
    Ok(req)
}

/// `rules.proto`, with options of files, and extensions of `Foo`.
fn rules(alloc: Global) -> Result<FileDescriptorProto, AllocError> {
    let mut file = empty_file(alloc, "rules.proto")?;
    file.package = Some(String::from_str(alloc, "p")?);
    file.message_type.push(foo(alloc)?)?;
    file.message_type.push(req(alloc)?)?;
    let options = ".google.protobuf.FileOptions";
    let rows = [
        (options, Label::Optional, "foo", 50000, Some(".p.Foo")),
        (options, Label::Repeated, "rep", 50001, Some(".p.Foo")),
        (options, Label::Optional, "req", 50002, Some(".p.Req")),
        (options, Label::Optional, "num", 50003, None),
        (options, Label::Repeated, "nums", 50004, None),
        (".p.Foo", Label::Optional, "ext", 100, None),
        (".p.Foo", Label::Repeated, "rext", 101, None),
    ];
    for (extendee, label, name, number, message) in &rows {
        let field = field(alloc, *label, name, *number, *message)?;
        file.extension.push(extension(alloc, extendee, field)?)?;
    }
    Ok(file)
}

/// A message with messages of these names in it.
fn around(alloc: Global, name: &str, inside: &[&str]) -> Result<DescriptorProto, AllocError> {
    let mut message = empty_message(alloc, name)?;
    for inner in inside {
        message.nested_type.push(empty_message(alloc, inner)?)?;
    }
    Ok(message)
}

/// A file of the package that has messages, with messages inside.
fn file_of(
    alloc: Global,
    path: &str,
    package: &str,
    messages: &[(&str, &[&str])],
) -> Result<FileDescriptorProto, AllocError> {
    let mut file = empty_file(alloc, path)?;
    file.package = Some(String::from_str(alloc, package)?);
    for (name, inside) in messages {
        file.message_type.push(around(alloc, name, inside)?)?;
    }
    Ok(file)
}

/// `rules.proto`; `t.proto`, of the package `a.b`, with `M`, `M.X`, `N` and `N.M`; and
/// `other.proto`, of the package `a.b.q`, with `M`.
pub fn files_declared(alloc: Global) -> Result<Vec<FileDescriptorProto>, AllocError> {
    let mut files = Vec::new(alloc);
    files.push(rules(alloc)?)?;
    let messages: [(&str, &[&str]); 2] = [("M", &["X"]), ("N", &["M"])];
    files.push(file_of(alloc, "t.proto", "a.b", &messages)?)?;
    let messages: [(&str, &[&str]); 1] = [("M", &[])];
    files.push(file_of(alloc, "other.proto", "a.b.q", &messages)?)?;
    Ok(files)
}
