//! What texts of files can't say: a field that doesn't say which message it holds, one whose message
//! no file declares, and a group inside itself.

use crate::{DecodeError, DecodeFault, DecodeFaultKind, decode};
use protobuf_parse_index::{Index, empty_field, empty_file, empty_message};
use protobuf_parse_model::{FieldType, FileDescriptorProto};
use std::alloc::{AllocError, Global};

/// A file with `.M`, whose field 1 is an `int32`, field 2 a message, field 3 a group, and field 4 the
/// message itself as a group.
fn file(alloc: Global) -> Result<FileDescriptorProto, AllocError> {
    let mut message = empty_message(alloc, "M")?;
    let number = empty_field(alloc, "f", 1, FieldType::Int32)?;
    message.field.push(number)?;
    let nameless = empty_field(alloc, "f", 2, FieldType::Message)?;
    message.field.push(nameless)?;
    let mut missing = empty_field(alloc, "f", 3, FieldType::Group)?;
    missing.type_name = Some(String::from_str(alloc, ".N")?);
    message.field.push(missing)?;
    let mut inner = empty_field(alloc, "f", 4, FieldType::Group)?;
    inner.type_name = Some(String::from_str(alloc, ".M")?);
    message.field.push(inner)?;
    let mut file = empty_file(alloc, "m.proto")?;
    file.message_type.push(message)?;
    Ok(file)
}

fn fault_of(alloc: Global, bytes: &[u8]) -> Result<Option<DecodeFault>, AllocError> {
    let files = [file(alloc)?];
    let index = Index::of(alloc, &files)?;
    match decode(alloc, &index, ".M", bytes) {
        Err(DecodeError::Fault(fault)) => Ok(Some(fault)),
        _ => Ok(None),
    }
}

#[test]
fn messages_that_nobody_declares_are_told(rt: HostRuntime) -> Result<(), DecodeError> {
    let alloc = rt.alloc();
    let missing = Some(DecodeFault {
        at: 2,
        kind: DecodeFaultKind::NoSuchMessage,
    });
    for (bytes, expected) in [
        (&[0x08, 0x05, 0x12, 0x00][..], missing),
        (&[0x08, 0x05, 0x1b, 0x1c][..], missing),
        // what stands in it isn't looked at
        (&[0x08, 0x05, 0x12, 0x01, 0x08][..], missing),
        // a payload of another sort is unknown, whatever the type
        (&[0x08, 0x05, 0x10, 0x00][..], None),
    ] {
        assert_eq!(rt; fault_of(alloc, bytes)?, expected, "{bytes:?}");
    }
    Ok(())
}

/// So many groups, one inside the other.
fn groups(alloc: Global, count: usize) -> Result<Vec<u8>, AllocError> {
    let mut bytes = Vec::new(alloc);
    for _ in 0..count {
        bytes.push(0x23)?;
    }
    for _ in 0..count {
        bytes.push(0x24)?;
    }
    Ok(bytes)
}

/// The outermost message is a level, too.
#[test]
fn a_hundred_levels_are_decoded(rt: HostRuntime) -> Result<(), DecodeError> {
    let alloc = rt.alloc();
    let too_deep = Some(DecodeFault {
        at: 99,
        kind: DecodeFaultKind::TooDeep,
    });
    assert_eq!(rt; fault_of(alloc, &groups(alloc, 99)?)?, None);
    assert_eq!(rt; fault_of(alloc, &groups(alloc, 100)?)?, too_deep);
    Ok(())
}
