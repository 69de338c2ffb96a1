//! What is told of sets, worked out by hand from the rules: a line for each violation.

use protobuf_parse_base::Name;
use protobuf_parse_model::{
    DescriptorProto, EnumDescriptorProto, EnumValueDescriptorProto, FieldDescriptorProto,
    FieldType, FileDescriptorProto, Label, MethodDescriptorProto, OneofDescriptorProto,
    ServiceDescriptorProto,
};
use protobuf_parse_set_rules::check_set;
use std::alloc::{AllocError, Global};
use std::test::Fail;

/// `a.proto: .M.f: D4: ..: .N`, a line for each.
fn told(alloc: Global, files: &[FileDescriptorProto]) -> Result<String, AllocError> {
    let mut lines = String::new(alloc);
    for violation in &check_set(alloc, files)? {
        write!(lines, "{violation}\n")?;
    }
    Ok(lines)
}

/// A file that imports these, those at these positions publicly.
fn file(
    alloc: Global,
    path: &str,
    imports: &[&str],
    publics: &[i32],
) -> Result<FileDescriptorProto, AllocError> {
    let mut dependency = Vec::new(alloc);
    for import in imports {
        dependency.push(String::from_str(alloc, *import)?)?;
    }
    let mut public_dependency = Vec::new(alloc);
    for position in publics {
        public_dependency.push(*position)?;
    }
    Ok(FileDescriptorProto {
        name: Some(String::from_str(alloc, path)?),
        package: None,
        syntax: None,
        dependency,
        public_dependency,
        weak_dependency: Vec::new(alloc),
        message_type: Vec::new(alloc),
        enum_type: Vec::new(alloc),
        service: Vec::new(alloc),
        extension: Vec::new(alloc),
        options: None,
    })
}

fn message(alloc: Global, name: &str) -> Result<DescriptorProto, AllocError> {
    Ok(DescriptorProto {
        name: Name::new(alloc, name)?,
        field: Vec::new(alloc),
        oneof_decl: Vec::new(alloc),
        nested_type: Vec::new(alloc),
        enum_type: Vec::new(alloc),
        extension: Vec::new(alloc),
        extension_range: Vec::new(alloc),
        reserved_range: Vec::new(alloc),
        reserved_name: Vec::new(alloc),
        options: None,
    })
}

/// A field of that type, which has the name unless that is empty.
fn field(
    alloc: Global,
    name: &str,
    type_: FieldType,
    type_name: &str,
) -> Result<FieldDescriptorProto, AllocError> {
    let type_name = if type_name.is_empty() {
        None
    } else {
        Some(String::from_str(alloc, type_name)?)
    };
    Ok(FieldDescriptorProto {
        name: Name::new(alloc, name)?,
        number: 1,
        label: Label::Optional,
        type_,
        proto3_optional: false,
        type_name,
        extendee: None,
        default_value: None,
        oneof_index: None,
        json_name: Name::new(alloc, name)?,
        options: None,
    })
}

/// An extension of that message, which is an integer.
fn extension(
    alloc: Global,
    name: &str,
    extendee: &str,
) -> Result<FieldDescriptorProto, AllocError> {
    let mut made = field(alloc, name, FieldType::Int32, "")?;
    made.extendee = Some(String::from_str(alloc, extendee)?);
    Ok(made)
}

/// An enum with one value.
fn enumeration(alloc: Global, name: &str, value: &str) -> Result<EnumDescriptorProto, AllocError> {
    let mut values = Vec::new(alloc);
    values.push(EnumValueDescriptorProto {
        name: Name::new(alloc, value)?,
        number: 0,
        options: None,
    })?;
    Ok(EnumDescriptorProto {
        name: Name::new(alloc, name)?,
        value: values,
        reserved_range: Vec::new(alloc),
        reserved_name: Vec::new(alloc),
        options: None,
    })
}

/// A service with one method.
fn service(
    alloc: Global,
    name: &str,
    method: &str,
    input: &str,
    output: &str,
) -> Result<ServiceDescriptorProto, AllocError> {
    let mut methods = Vec::new(alloc);
    methods.push(MethodDescriptorProto {
        name: Name::new(alloc, method)?,
        input_type: String::from_str(alloc, input)?,
        output_type: String::from_str(alloc, output)?,
        client_streaming: false,
        server_streaming: false,
        options: None,
    })?;
    Ok(ServiceDescriptorProto {
        name: Name::new(alloc, name)?,
        method: methods,
        options: None,
    })
}

/// A file that declares `.p.M`, `.p.M.N`, `.p.M.E` and `.p.E`.
fn declaring(alloc: Global, path: &str) -> Result<FileDescriptorProto, AllocError> {
    let mut m = message(alloc, "M")?;
    m.field
        .push(field(alloc, "n", FieldType::Group, ".p.M.N")?)?;
    m.field.push(field(alloc, "e", FieldType::Enum, ".p.M.E")?)?;
    m.nested_type.push(message(alloc, "N")?)?;
    m.enum_type.push(enumeration(alloc, "E", "A")?)?;
    let mut made = file(alloc, path, &[], &[])?;
    made.package = Some(String::from_str(alloc, "p")?);
    made.message_type.push(m)?;
    made.enum_type.push(enumeration(alloc, "E", "_b1")?)?;
    Ok(made)
}

/// A file with a message `U` of one field.
fn using(
    alloc: Global,
    path: &str,
    imports: &[&str],
    publics: &[i32],
    type_: FieldType,
    name: &str,
) -> Result<FileDescriptorProto, AllocError> {
    let mut user = message(alloc, "U")?;
    user.field.push(field(alloc, "f", type_, name)?)?;
    let mut made = file(alloc, path, imports, publics)?;
    made.message_type.push(user)?;
    Ok(made)
}

#[test]
fn tells_nothing_of_what_protoc_writes(rt: HostRuntime) -> Result<(), Fail> {
    let alloc = rt.alloc();
    let mut files = Vec::new(alloc);
    files.push(declaring(alloc, "a.proto")?)?;
    files.push(file(alloc, "b.proto", &["a.proto"], &[0])?)?;
    files.push(file(alloc, "c.proto", &["b.proto"], &[0])?)?;
    let mut last = using(
        alloc,
        "d.proto",
        &["c.proto"],
        &[],
        FieldType::Message,
        ".p.M",
    )?;
    last.extension.push(extension(alloc, "x", ".p.M.N")?)?;
    last.service.push(service(alloc, "S", "F", ".U", ".p.M")?)?;
    last.weak_dependency.push(0)?;
    files.push(last)?;
    assert_eq!(rt; told(alloc, &files)?.as_str(), "");
    assert_eq!(rt; told(alloc, &[])?.as_str(), "");
    Ok(())
}

#[test]
fn tells_of_files_and_imports(rt: HostRuntime) -> Result<(), Fail> {
    let alloc = rt.alloc();
    let mut files = Vec::new(alloc);
    files.push(file(alloc, "a.proto", &["b.proto", "a.proto"], &[0, 2, -1])?)?;
    files.push(file(alloc, "b.proto", &["a.proto", "none.proto"], &[])?)?;
    let mut again = file(alloc, "a.proto", &["b.proto", "a.proto"], &[])?;
    again.package = Some(String::from_str(alloc, "p.2q")?);
    again.weak_dependency.push(2)?;
    files.push(again)?;
    let want = "a.proto: D2: no earlier file of the set has the path of the import: b.proto\n\
        a.proto: D2: no earlier file of the set has the path of the import: a.proto\n\
        a.proto: D3: no import has the position 2\n\
        a.proto: D3: no import has the position -1\n\
        b.proto: D2: no earlier file of the set has the path of the import: none.proto\n\
        a.proto: .p.2q: D1: an earlier file of the set has the path\n\
        a.proto: .p.2q: D3: no import has the position 2\n\
        a.proto: .p.2q: D9: a name is a letter or `_`, and then letters, digits and `_`: p.2q\n";
    assert_eq!(rt; told(alloc, &files)?.as_str(), want);
    Ok(())
}

#[test]
fn tells_of_types_that_are_not_seen(rt: HostRuntime) -> Result<(), Fail> {
    let alloc = rt.alloc();
    let mut files = Vec::new(alloc);
    files.push(using(
        alloc,
        "0.proto",
        &["a.proto"],
        &[],
        FieldType::Message,
        ".p.M",
    )?)?;
    files.push(declaring(alloc, "a.proto")?)?;
    files.push(file(alloc, "b.proto", &["a.proto"], &[])?)?;
    let message = FieldType::Message;
    files.push(using(alloc, "1.proto", &["b.proto"], &[], message, ".p.M")?)?;
    files.push(using(alloc, "2.proto", &["a.proto"], &[], message, ".p.X")?)?;
    files.push(using(alloc, "3.proto", &["a.proto"], &[], message, "p.M")?)?;
    files.push(using(alloc, "4.proto", &["a.proto"], &[], message, ".p.E")?)?;
    files.push(using(alloc, "5.proto", &["a.proto"], &[], FieldType::Enum, ".p.M")?)?;
    files.push(using(
        alloc,
        "6.proto",
        &["a.proto"],
        &[],
        FieldType::Enum,
        ".p.M.A",
    )?)?;
    files.push(using(alloc, "7.proto", &["a.proto"], &[], FieldType::Group, "")?)?;
    files.push(using(
        alloc,
        "8.proto",
        &["a.proto"],
        &[],
        FieldType::Int32,
        ".none",
    )?)?;
    let text = "D4: a field's type must be a message, or an enum, that the file sees";
    let want = format!(in alloc;
        "0.proto: D2: no earlier file of the set has the path of the import: a.proto\n\
        0.proto: .U.f: {text}: .p.M\n1.proto: .U.f: {text}: .p.M\n2.proto: .U.f: {text}: .p.X\n\
        3.proto: .U.f: {text}: p.M\n4.proto: .U.f: {text}: .p.E\n5.proto: .U.f: {text}: .p.M\n\
        6.proto: .U.f: {text}: .p.M.A\n7.proto: .U.f: {text}\n"
    )?;
    assert_eq!(rt; told(alloc, &files)?.as_str(), want.as_str());
    Ok(())
}

#[test]
fn tells_of_extensions_and_methods(rt: HostRuntime) -> Result<(), Fail> {
    let alloc = rt.alloc();
    let mut files = Vec::new(alloc);
    files.push(declaring(alloc, "a.proto")?)?;
    let mut user = message(alloc, "U")?;
    user.field.push(extension(alloc, "f", ".p.M")?)?;
    user.extension.push(extension(alloc, "x", ".M")?)?;
    user.extension
        .push(field(alloc, "y", FieldType::Enum, ".p.E")?)?;
    let mut placed = extension(alloc, "z", ".p.M")?;
    placed.oneof_index = Some(0);
    user.extension.push(placed)?;
    let mut last = file(alloc, "b.proto", &["a.proto"], &[])?;
    last.message_type.push(user)?;
    last.service.push(service(alloc, "S", "F", ".p", ".q.M")?)?;
    last.extension.push(extension(alloc, "e", ".p.E")?)?;
    files.push(last)?;
    let extendee = "D5: what is extended must be a message that the file sees";
    let method = "D7: what a method takes and gives must be messages that the file sees";
    let want = format!(in alloc;
        "b.proto: .U.f: D6: a field of a message extends none: .p.M\n\
        b.proto: .U.x: {extendee}: .M\nb.proto: .U.y: {extendee}\n\
        b.proto: .U.z: D8: no oneof of the message has the position 0\n\
        b.proto: .S.F: {method}: .p\nb.proto: .S.F: {method}: .q.M\n"
    )?;
    assert_eq!(rt; told(alloc, &files)?.as_str(), want.as_str());
    Ok(())
}

#[test]
fn tells_of_oneofs_and_names(rt: HostRuntime) -> Result<(), Fail> {
    let alloc = rt.alloc();
    let mut m = message(alloc, "")?;
    let oneof = OneofDescriptorProto {
        name: Name::new(alloc, "o-")?,
        options: None,
    };
    m.oneof_decl.push(oneof)?;
    let mut first = field(alloc, "1a", FieldType::Bool, "")?;
    first.oneof_index = Some(0);
    m.field.push(first)?;
    let mut second = field(alloc, "_", FieldType::Bool, "")?;
    second.oneof_index = Some(1);
    m.field.push(second)?;
    let mut third = field(alloc, "A_9", FieldType::Bool, "")?;
    third.oneof_index = Some(-1);
    m.field.push(third)?;
    m.nested_type.push(message(alloc, "n.n")?)?;
    m.enum_type.push(enumeration(alloc, "e e", "\u{e9}")?)?;
    let mut one = file(alloc, "a.proto", &[], &[])?;
    one.message_type.push(m)?;
    one.service.push(service(alloc, "s:", "m/", ".", ".")?)?;
    let mut files = Vec::new(alloc);
    files.push(one)?;
    let text = "D9: a name is a letter or `_`, and then letters, digits and `_`";
    let want = format!(in alloc;
        "a.proto: .: {text}\na.proto: ..1a: {text}: 1a\n\
        a.proto: .._: D8: no oneof of the message has the position 1\n\
        a.proto: ..A_9: D8: no oneof of the message has the position -1\n\
        a.proto: ..o-: {text}: o-\na.proto: ..e e: {text}: e e\n\
        a.proto: ..\u{e9}: {text}: \u{e9}\na.proto: ..n.n: {text}: n.n\n\
        a.proto: .s:: {text}: s:\na.proto: .s:.m/: {text}: m/\n"
    )?;
    assert_eq!(rt; told(alloc, &files)?.as_str(), want.as_str());
    Ok(())
}
