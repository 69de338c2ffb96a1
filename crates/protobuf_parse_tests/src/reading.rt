//! What `read_custom` reads by descriptors that no text becomes.

use protobuf_parse::{
    DescriptorProto, FieldDescriptorProto, FieldType, FileDescriptorProto, Label, Name,
    ProtobufAbsPathRef, ReadFault, ReadField, ReadValue, read_custom,
};
use protobuf_parse_wire::put_message;
use std::alloc::{AllocError, Global};
use std::test::Fail;

/// A field with the number, of the type; a message's by the name.
fn field(
    alloc: Global,
    number: i32,
    type_: FieldType,
    type_name: Option<&str>,
) -> Result<FieldDescriptorProto, AllocError> {
    let name = Name::new(alloc, "f")?;
    let json_name = Name::new(alloc, "f")?;
    let type_name = owned(alloc, type_name)?;
    Ok(FieldDescriptorProto {
        name,
        number,
        label: Label::Optional,
        type_,
        type_name,
        extendee: None,
        default_value: None,
        oneof_index: None,
        json_name,
        proto3_optional: false,
        options: None,
    })
}

fn owned(alloc: Global, text: Option<&str>) -> Result<Option<String>, AllocError> {
    match text {
        Some(text) => Ok(Some(String::from_str(alloc, text)?)),
        None => Ok(None),
    }
}

/// A message with the fields.
fn message(
    alloc: Global,
    name: &str,
    field: Vec<FieldDescriptorProto>,
) -> Result<DescriptorProto, AllocError> {
    Ok(DescriptorProto {
        name: Name::new(alloc, name)?,
        field,
        oneof_decl: Vec::new(alloc),
        nested_type: Vec::new(alloc),
        enum_type: Vec::new(alloc),
        extension: Vec::new(alloc),
        extension_range: Vec::new(alloc),
        reserved_range: Vec::new(alloc),
        reserved_name: Vec::new(alloc),
        options: None,
    })
}

/// A file with the messages and the extensions.
fn file(
    alloc: Global,
    message_type: Vec<DescriptorProto>,
    extension: Vec<FieldDescriptorProto>,
) -> Result<Vec<FileDescriptorProto>, AllocError> {
    Ok(vec![in alloc;
        FileDescriptorProto {
            name: None,
            package: None,
            syntax: None,
            dependency: Vec::new(alloc),
            public_dependency: Vec::new(alloc),
            weak_dependency: Vec::new(alloc),
            message_type,
            enum_type: Vec::new(alloc),
            service: Vec::new(alloc),
            extension,
            options: None,
        },
    ]?)
}

/// What the bytes of the message `M` say, which has the fields and the extensions.
fn read_m(
    alloc: Global,
    fields: Vec<FieldDescriptorProto>,
    extensions: Vec<FieldDescriptorProto>,
    bytes: &[u8],
) -> Result<Vec<ReadField>, ReadFault> {
    let messages = vec![in alloc; message(alloc, "M", fields)?]?;
    read(alloc, &file(alloc, messages, extensions)?, bytes)
}

fn read(
    alloc: Global,
    files: &[FileDescriptorProto],
    bytes: &[u8],
) -> Result<Vec<ReadField>, ReadFault> {
    match ProtobufAbsPathRef::try_new(".M") {
        Some(name) => read_custom(alloc, files, name, bytes),
        None => Err(ReadFault::UnknownMessage),
    }
}

/// One field of that number and value.
fn one(alloc: Global, number: u32, value: ReadValue) -> Result<Vec<ReadField>, AllocError> {
    Ok(vec![in alloc; ReadField { number, value }]?)
}

/// What a field 1 says that is a message of the type name, and has no records in it.
fn read_inside(alloc: Global, type_name: Option<&str>) -> Result<Vec<ReadField>, ReadFault> {
    let fields = vec![in alloc; field(alloc, 1, FieldType::Message, type_name)?]?;
    read_m(alloc, fields, Vec::new(alloc), &[0x0a, 0x00])
}

#[test]
fn finds_messages_by_their_dotted_names(rt: HostRuntime) -> Result<(), Fail> {
    let alloc = rt.alloc();
    let inside = one(alloc, 1, ReadValue::Message(Vec::new(alloc)))?;
    assert_eq!(rt; read_inside(alloc, Some(".M")), Ok(inside));
    assert_eq!(rt; read_inside(alloc, None), Err(ReadFault::UnknownMessage));
    assert_eq!(rt;
        read_inside(alloc, Some("M")),
        Err(ReadFault::UnknownMessage)
    );
    assert_eq!(rt;
        read_inside(alloc, Some("")),
        Err(ReadFault::UnknownMessage)
    );
    Ok(())
}

/// What a field says that has the number, and the bytes.
fn read_numbered(alloc: Global, number: i32, bytes: &[u8]) -> Result<Vec<ReadField>, ReadFault> {
    let fields = vec![in alloc; field(alloc, number, FieldType::Bool, None)?]?;
    read_m(alloc, fields, Vec::new(alloc), bytes)
}

#[test]
fn takes_numbers_as_they_are(rt: HostRuntime) -> Result<(), Fail> {
    let alloc = rt.alloc();
    let yes = one(alloc, 0, ReadValue::Bool(true))?;
    assert_eq!(rt; read_numbered(alloc, 0, &[0x00, 0x01]), Ok(yes));
    let yes = one(alloc, 2147483647, ReadValue::Bool(true))?;
    let last = [0xf8, 0xff, 0xff, 0xff, 0x3f, 0x01];
    assert_eq!(rt; read_numbered(alloc, 2147483647, &last), Ok(yes));
    // 4294967295 has the bits of -1, 2147483648 those of the least number, 4294967297 is 1 in 32.
    let minus_one = [0xf8, 0xff, 0xff, 0xff, 0x7f, 0x01];
    assert_eq!(rt;
        read_numbered(alloc, -1, &minus_one),
        Err(ReadFault::UnknownNumber)
    );
    let least = [0x80, 0x80, 0x80, 0x80, 0x40, 0x01];
    assert_eq!(rt;
        read_numbered(alloc, -2147483648, &least),
        Err(ReadFault::UnknownNumber)
    );
    let beyond = [0x88, 0x80, 0x80, 0x80, 0x80, 0x01, 0x01];
    assert_eq!(rt;
        read_numbered(alloc, 1, &beyond),
        Err(ReadFault::UnknownNumber)
    );
    Ok(())
}

/// What field 1 says if it is an extension of that message.
fn read_extension(alloc: Global, extendee: Option<&str>) -> Result<Vec<ReadField>, ReadFault> {
    let extendee = owned(alloc, extendee)?;
    let mut extension = field(alloc, 1, FieldType::Bool, None)?;
    extension.extendee = extendee;
    let extensions = vec![in alloc; extension]?;
    read_m(alloc, Vec::new(alloc), extensions, &[0x08, 0x01])
}

#[test]
fn finds_extensions_by_their_extendees(rt: HostRuntime) -> Result<(), Fail> {
    let alloc = rt.alloc();
    let yes = one(alloc, 1, ReadValue::Bool(true))?;
    assert_eq!(rt; read_extension(alloc, Some(".M")), Ok(yes));
    assert_eq!(rt; read_extension(alloc, None), Err(ReadFault::UnknownNumber));
    assert_eq!(rt;
        read_extension(alloc, Some("M")),
        Err(ReadFault::UnknownNumber)
    );
    Ok(())
}

/// A message with itself in field 1 and `N` in field 2.
fn message_m(alloc: Global) -> Result<DescriptorProto, AllocError> {
    let own = field(alloc, 1, FieldType::Message, Some(".M"))?;
    let other = field(alloc, 2, FieldType::Message, Some(".N"))?;
    let fields = vec![in alloc; own, other]?;
    message(alloc, "M", fields)
}

/// A message with two fields of one number.
fn message_n(alloc: Global) -> Result<DescriptorProto, AllocError> {
    let first = field(alloc, 1, FieldType::Bool, None)?;
    let second = field(alloc, 1, FieldType::Bool, None)?;
    let fields = vec![in alloc; first, second]?;
    message(alloc, "N", fields)
}

/// A file with both.
fn ambiguous(alloc: Global) -> Result<Vec<FileDescriptorProto>, AllocError> {
    let m = message_m(alloc)?;
    let n = message_n(alloc)?;
    let messages = vec![in alloc; m, n]?;
    file(alloc, messages, Vec::new(alloc))
}

/// The bytes of an `N` inside so many messages `M`, the outer one not counted.
fn inside(alloc: Global, levels: u32) -> Result<Vec<u8>, AllocError> {
    let mut bytes = vec![in alloc; 0x12, 0x00]?;
    for _ in 0..levels {
        let mut around = Vec::new(alloc);
        put_message(&mut around, 1, &bytes)?;
        bytes = around;
    }
    Ok(bytes)
}

#[test]
fn tells_the_depth_before_what_stands_in_it(rt: HostRuntime) -> Result<(), Fail> {
    let alloc = rt.alloc();
    let files = ambiguous(alloc)?;
    let deepest = inside(alloc, 254)?;
    assert_eq!(rt;
        read(alloc, &files, &deepest),
        Err(ReadFault::AmbiguousNumber)
    );
    let too_deep = inside(alloc, 255)?;
    assert_eq!(rt; read(alloc, &files, &too_deep), Err(ReadFault::TooDeep));
    Ok(())
}
