//! Descriptor sets of descriptors made by hand, as no schema gives them.

use crate::listed::{bool_field, no_file, no_message, one, text};
use protobuf_parse::{
    DescriptorProto, EnumDescriptorProto, EnumOptions, ExtensionRange, FieldDescriptorProto,
    FileDescriptorProto, Name, OneofDescriptorProto, descriptor_set,
};
use protobuf_parse_wire::put_message;
use std::alloc::{AllocError, Global};
use std::slice;
use std::test::Fail;

/// The bytes of the set of the file, in hexadecimal digits.
fn set_of(alloc: Global, file: &FileDescriptorProto) -> Result<String, AllocError> {
    hex::encode(alloc, descriptor_set(alloc, slice::from_ref(file))?)
}

fn file_with(alloc: Global, message: DescriptorProto) -> Result<FileDescriptorProto, AllocError> {
    let message_type = one(alloc, message)?;
    let mut file = no_file(alloc);
    file.message_type = message_type;
    Ok(file)
}

/// A file that has one of each text and list, with nothing in them.
fn of_empty_texts(alloc: Global) -> Result<FileDescriptorProto, AllocError> {
    let name = text(alloc, "")?;
    let package = text(alloc, "")?;
    let syntax = text(alloc, "")?;
    let dependency = one(alloc, text(alloc, "")?)?;
    let message_type = one(alloc, no_message(alloc, "")?)?;
    let mut file = no_file(alloc);
    file.name = Some(name);
    file.package = Some(package);
    file.syntax = Some(syntax);
    file.dependency = dependency;
    file.message_type = message_type;
    Ok(file)
}

#[test]
fn of_nothing(rt: HostRuntime) -> Result<(), Fail> {
    let alloc = rt.alloc();
    assert_eq!(rt; descriptor_set(alloc, &[])?.len(), 0);
    assert_eq!(rt; set_of(alloc, &no_file(alloc))?.as_str(), "0a00");
    let set = set_of(alloc, &of_empty_texts(alloc)?)?;
    assert_eq!(rt; set.as_str(), "0a0a0a0012001a0022020a00");
    Ok(())
}

fn least_field(alloc: Global) -> Result<Vec<FieldDescriptorProto>, AllocError> {
    let mut field = bool_field(alloc, "")?;
    field.number = i32::MIN;
    field.oneof_index = Some(i32::MAX);
    one(alloc, field)
}

fn widest_message(alloc: Global) -> Result<Vec<DescriptorProto>, AllocError> {
    let range = ExtensionRange {
        start: i32::MAX,
        end: i32::MIN,
    };
    let extension_range = one(alloc, range)?;
    let field = least_field(alloc)?;
    let mut message = no_message(alloc, "")?;
    message.field = field;
    message.extension_range = extension_range;
    one(alloc, message)
}

fn widest_file(alloc: Global) -> Result<FileDescriptorProto, AllocError> {
    let public_dependency = vec![in alloc; i32::MIN, -1, i32::MAX]?;
    let message_type = widest_message(alloc)?;
    let mut file = no_file(alloc);
    file.public_dependency = public_dependency;
    file.message_type = message_type;
    Ok(file)
}

#[test]
fn of_numbers_at_both_ends(rt: HostRuntime) -> Result<(), Fail> {
    let alloc = rt.alloc();
    let want = concat!(
        "0a4e22300a0012190a001880808080f8ffffffff012001280848ffffffff075200",
        "2a1108ffffffff071080808080f8ffffffff01",
        "5080808080f8ffffffff0150ffffffffffffffffff0150ffffffff07",
    );
    let set = set_of(alloc, &widest_file(alloc)?)?;
    assert_eq!(rt; set.as_str(), want);
    Ok(())
}

/// A message with fields in these oneofs, each `optional` in proto3 or not, and so many oneofs that
/// are called `a`, `b` and so on.
fn message_of(
    alloc: Global,
    fields: &[(i32, bool)],
    oneofs: &[&str],
) -> Result<DescriptorProto, AllocError> {
    let oneof_decl = oneofs_of(alloc, oneofs)?;
    let field = fields_of(alloc, fields)?;
    let mut message = no_message(alloc, "")?;
    message.field = field;
    message.oneof_decl = oneof_decl;
    Ok(message)
}

fn fields_of(
    alloc: Global,
    fields: &[(i32, bool)],
) -> Result<Vec<FieldDescriptorProto>, AllocError> {
    let mut made = Vec::new(alloc);
    for (index, proto3_optional) in fields {
        let mut field = bool_field(alloc, "")?;
        field.oneof_index = Some(*index);
        field.proto3_optional = *proto3_optional;
        made.push(field)?;
    }
    Ok(made)
}

fn oneofs_of(alloc: Global, names: &[&str]) -> Result<Vec<OneofDescriptorProto>, AllocError> {
    let mut made = Vec::new(alloc);
    for name in names {
        let name = Name::new(alloc, name)?;
        made.push(OneofDescriptorProto {
            name,
            options: None,
        })?;
    }
    Ok(made)
}

#[test]
fn of_oneofs_of_all_kinds(rt: HostRuntime) -> Result<(), Fail> {
    let alloc = rt.alloc();
    // a has one field, `optional`; b two of them; c none; d one that isn't; e one that is.
    let fields = [
        (4, true),
        (1, true),
        (0, true),
        (3, false),
        (1, true),
        (-1, true),
        (5, true),
    ];
    let message = message_of(alloc, &fields, &["a", "b", "c", "d", "e"])?;
    let want = concat!(
        "0a9b012298010a00",
        "120f0a0018012001280848045200880101",
        "120f0a0018012001280848005200880101",
        "120f0a0018012001280848035200880101",
        "120c0a0018012001280848025200",
        "120f0a0018012001280848005200880101",
        "12180a0018012001280848ffffffffffffffffff015200880101",
        "120f0a0018012001280848055200880101",
        "42030a016242030a016342030a016442030a016142030a0165",
    );
    assert_eq!(rt; set_of(alloc, &file_with(alloc, message)?)?.as_str(), want);
    Ok(())
}

/// A message with the other one in it.
fn around(alloc: Global, message: DescriptorProto) -> Result<DescriptorProto, AllocError> {
    let nested_type = one(alloc, message)?;
    let mut outer = no_message(alloc, "m")?;
    outer.nested_type = nested_type;
    Ok(outer)
}

/// So many messages, one inside the other.
fn deep(alloc: Global, levels: u32) -> Result<FileDescriptorProto, AllocError> {
    let mut message = no_message(alloc, "m")?;
    for _ in 1..levels {
        message = around(alloc, message)?;
    }
    file_with(alloc, message)
}

/// The bytes of the set of such a file.
fn deep_set(alloc: Global, levels: u32) -> Result<Vec<u8>, AllocError> {
    let mut message = vec![in alloc; 0x0a, 1, 0x6d]?;
    for _ in 1..levels {
        let mut outer = vec![in alloc; 0x0a, 1, 0x6d]?;
        put_message(&mut outer, 3, &message)?;
        message = outer;
    }
    let mut file = Vec::new(alloc);
    put_message(&mut file, 4, &message)?;
    let mut set = Vec::new(alloc);
    put_message(&mut set, 1, &file)?;
    Ok(set)
}

#[test]
fn of_messages_inside_one_another(rt: HostRuntime) -> Result<(), Fail> {
    let alloc = rt.alloc();
    let want = deep_set(alloc, 100)?;
    let file = deep(alloc, 100)?;
    let found = descriptor_set(alloc, slice::from_ref(&file))?;
    assert_eq!(rt; found.as_slice(), want.as_slice());
    Ok(())
}

/// A message of so many fields.
fn wide(alloc: Global, count: u32) -> Result<DescriptorProto, AllocError> {
    let mut message = no_message(alloc, "")?;
    for _ in 0..count {
        message.field.push(bool_field(alloc, "f")?)?;
    }
    Ok(message)
}

#[test]
fn of_many_fields(rt: HostRuntime) -> Result<(), Fail> {
    let alloc = rt.alloc();
    let file = file_with(alloc, wide(alloc, 100_000)?)?;
    let set = descriptor_set(alloc, slice::from_ref(&file))?;
    // 14 bytes a field, 2 of the name, and a tag with its length for the message and the file.
    assert_eq!(rt; set.len(), 1400010);
    Ok(())
}

fn odd_extension(alloc: Global) -> Result<Vec<FieldDescriptorProto>, AllocError> {
    let extendee = text(alloc, "")?;
    let mut field = bool_field(alloc, "")?;
    field.extendee = Some(extendee);
    one(alloc, field)
}

fn odd_enum(alloc: Global) -> Result<Vec<EnumDescriptorProto>, AllocError> {
    let name = Name::new(alloc, "")?;
    let custom = vec![in alloc; 0xff, 0x00]?;
    let options = EnumOptions {
        allow_alias: Some(false),
        deprecated: None,
        custom,
    };
    let described = EnumDescriptorProto {
        name,
        value: Vec::new(alloc),
        reserved_range: Vec::new(alloc),
        reserved_name: Vec::new(alloc),
        options: Some(options),
    };
    one(alloc, described)
}

fn odd_file(alloc: Global) -> Result<FileDescriptorProto, AllocError> {
    let enum_type = odd_enum(alloc)?;
    let extension = odd_extension(alloc)?;
    let mut file = no_file(alloc);
    file.extension = extension;
    file.enum_type = enum_type;
    Ok(file)
}

#[test]
fn of_custom_bytes_that_are_no_records(rt: HostRuntime) -> Result<(), Fail> {
    let alloc = rt.alloc();
    let set = set_of(alloc, &odd_file(alloc)?)?;
    assert_eq!(rt;
        set.as_str(),
        "0a182a080a001a041000ff003a0c0a0012001801200128085200"
    );
    Ok(())
}
