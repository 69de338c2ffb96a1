//! Messages from their bytes on, by examples of the format's rules.

use crate::{MergeError, merged};
use protobuf_parse_decode::{DecodedField, Meaning, Value, decode};
use protobuf_parse_index::{
    Index, empty_enum, empty_field, empty_file, empty_message, empty_message_options, empty_oneof,
    empty_value,
};
use protobuf_parse_model::{FieldDescriptorProto, FieldType, FileDescriptorProto, Label};
use std::alloc::{AllocError, Global};
use thiserror::Error;

#[derive(Clone, Copy, Debug, PartialEq, Eq, Error)]
enum TestError {
    #[error("out of memory")]
    Memory,
    #[error("not decoded")]
    Decode,
    #[error("{0}")]
    Merge(MergeError),
}

impl From<AllocError> for TestError {
    fn from(_error: AllocError) -> TestError {
        TestError::Memory
    }
}

fn typed(
    alloc: Global,
    number: i32,
    type_: FieldType,
    type_name: &str,
) -> Result<FieldDescriptorProto, AllocError> {
    let mut field = empty_field(alloc, "f", number, type_)?;
    field.type_name = Some(String::from_str(alloc, type_name)?);
    Ok(field)
}

/// `message M { int32 f1 = 1; repeated int32 f2 = 2; M f3 = 3; oneof o { int32 f4 = 4; int32 f5 = 5; }
/// E f6 = 6; }` and `enum E { A = 0; }`.
fn file(alloc: Global, syntax: &str) -> Result<FileDescriptorProto, AllocError> {
    let mut message = empty_message(alloc, "M")?;
    let number = empty_field(alloc, "f1", 1, FieldType::Int32)?;
    message.field.push(number)?;
    let mut repeated = empty_field(alloc, "f2", 2, FieldType::Int32)?;
    repeated.label = Label::Repeated;
    message.field.push(repeated)?;
    let inner = typed(alloc, 3, FieldType::Message, ".M")?;
    message.field.push(inner)?;
    let mut first = empty_field(alloc, "f4", 4, FieldType::Int32)?;
    first.oneof_index = Some(0);
    message.field.push(first)?;
    let mut second = empty_field(alloc, "f5", 5, FieldType::Int32)?;
    second.oneof_index = Some(0);
    message.field.push(second)?;
    let enumerated = typed(alloc, 6, FieldType::Enum, ".E")?;
    message.field.push(enumerated)?;
    let oneof = empty_oneof(alloc, "o")?;
    message.oneof_decl.push(oneof)?;
    let mut enumeration = empty_enum(alloc, "E")?;
    let value = empty_value(alloc, "A", 0)?;
    enumeration.value.push(value)?;
    let mut file = empty_file(alloc, "m.proto")?;
    file.syntax = Some(String::from_str(alloc, syntax)?);
    file.message_type.push(message)?;
    file.enum_type.push(enumeration)?;
    Ok(file)
}

/// What is left of the bytes of `.M`, as derived `Debug` writes it.
fn shown(alloc: Global, syntax: &str, bytes: &[u8]) -> Result<String, TestError> {
    shown_by(alloc, file(alloc, syntax)?, bytes)
}

/// The same, by the file that declares `.M`.
fn shown_by(alloc: Global, file: FileDescriptorProto, bytes: &[u8]) -> Result<String, TestError> {
    let files = [file];
    let index = Index::of(alloc, &files)?;
    let Ok(fields) = decode(alloc, &index, ".M", bytes) else {
        return Err(TestError::Decode);
    };
    match merged(alloc, &index, ".M", &fields) {
        Ok(message) => Ok(format!(in alloc; "{message:?}")?),
        Err(error) => Err(TestError::Merge(error)),
    }
}

#[test]
fn records_are_merged(rt: HostRuntime) -> Result<(), TestError> {
    let alloc = rt.alloc();
    // f1 twice, the last time 0; f2 alone and packed; f3 twice; f4 and then f5; a number of no field
    let bytes = [
        0x08, 0x05, 0x20, 0x01, 0x10, 0x01, 0x1a, 0x02, 0x10, 0x07, 0x12, 0x02, 0x02, 0x03, 0x28,
        0x02, 0x78, 0x09, 0x1a, 0x02, 0x10, 0x08, 0x08, 0x00,
    ];
    let expected = "Message { fields: [\
        Field { number: 2, values: [Number { word: 1, number: 1 }, \
        Number { word: 2, number: 2 }, Number { word: 3, number: 3 }] }, \
        Field { number: 3, values: [Message(Message { fields: [\
        Field { number: 2, values: [Number { word: 7, number: 7 }, \
        Number { word: 8, number: 8 }] }], unknown: [] })] }, \
        Field { number: 5, values: [Number { word: 2, number: 2 }] }], \
        unknown: [Record { number: 15, bytes: [120, 9] }] }";
    let shown = shown(alloc, "proto3", &bytes)?;
    assert_eq!(rt; shown.as_str(), expected);
    Ok(())
}

/// In proto2 a zero is a value, and a number that the enum doesn't declare isn't.
#[test]
fn enums_of_proto2_are_closed(rt: HostRuntime) -> Result<(), TestError> {
    let alloc = rt.alloc();
    let bytes = [0x30, 0x00, 0x30, 0x05];
    let closed = shown(alloc, "proto2", &bytes)?;
    assert_eq!(rt;
        closed.as_str(),
        "Message { fields: [\
        Field { number: 6, values: [Number { word: 0, number: 0 }] }], \
        unknown: [Word { number: 6, word: 5 }] }"
    );
    let open = shown(alloc, "proto3", &bytes)?;
    assert_eq!(rt;
        open.as_str(),
        "Message { fields: [\
        Field { number: 6, values: [Number { word: 5, number: 5 }] }], unknown: [] }"
    );
    Ok(())
}

/// `message M { map<int32, int32> f = 1; }`, the entry named `.E`.
fn map_file(alloc: Global) -> Result<FileDescriptorProto, AllocError> {
    let mut entry = empty_message(alloc, "E")?;
    let key = empty_field(alloc, "key", 1, FieldType::Int32)?;
    entry.field.push(key)?;
    let value = empty_field(alloc, "value", 2, FieldType::Int32)?;
    entry.field.push(value)?;
    let mut options = empty_message_options(alloc);
    options.map_entry = Some(true);
    entry.options = Some(options);
    let mut message = empty_message(alloc, "M")?;
    let mut field = typed(alloc, 1, FieldType::Message, ".E")?;
    field.label = Label::Repeated;
    message.field.push(field)?;
    let mut file = empty_file(alloc, "m.proto")?;
    file.message_type.push(entry)?;
    file.message_type.push(message)?;
    Ok(file)
}

/// Of the key 3 the last entry counts, which has no value, and entries stand by their keys.
#[test]
fn entries_of_maps_are_by_keys(rt: HostRuntime) -> Result<(), TestError> {
    let alloc = rt.alloc();
    let bytes = [
        0x0a, 0x04, 0x08, 0x03, 0x10, 0x05, 0x0a, 0x02, 0x10, 0x07, 0x0a, 0x02, 0x08, 0x03,
    ];
    let shown = shown_by(alloc, map_file(alloc)?, &bytes)?;
    assert_eq!(rt;
        shown.as_str(),
        "Message { fields: [Field { number: 1, values: [\
        Message(Message { fields: [Field { number: 1, values: [Number { word: 0, number: 0 }] }, \
        Field { number: 2, values: [Number { word: 7, number: 7 }] }], unknown: [] }), \
        Message(Message { fields: [Field { number: 1, values: [Number { word: 3, number: 3 }] }, \
        Field { number: 2, values: [Number { word: 0, number: 0 }] }], unknown: [] })] }], \
        unknown: [] }"
    );
    Ok(())
}

/// So many messages inside one another, in a message.
fn nested(alloc: Global, count: usize) -> Result<Vec<DecodedField<'static>>, AllocError> {
    let mut fields = Vec::new(alloc);
    for _ in 0..count {
        let mut values = Vec::new(alloc);
        values.push(Value::Message(fields))?;
        fields = Vec::new(alloc);
        fields.push(DecodedField {
            number: 3,
            bytes: &[],
            meaning: Meaning::Known(values),
        })?;
    }
    Ok(fields)
}

/// The outermost message is a level, too. One more than a hundred may be there.
#[test]
fn a_hundred_levels_and_one_are_merged(rt: HostRuntime) -> Result<(), TestError> {
    let alloc = rt.alloc();
    let files = [file(alloc, "proto3")?];
    let index = Index::of(alloc, &files)?;
    for (count, fits) in [(100, true), (101, false)] {
        let fields = nested(alloc, count)?;
        let result = merged(alloc, &index, ".M", &fields);
        assert_eq!(rt; result.is_ok(), fits, "{count}");
    }
    Ok(())
}
