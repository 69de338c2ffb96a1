//! What the encoder writes for values that are no numbers.

ghost use Rattle.protobuf_parse_wire.specs.Kinds.{shape_of_kind};
ghost use Rattle.protobuf_parse_wire.specs.ViewParts.{entry_value_view};
ghost use Rattle.protobuf_parse_wire.specs.Writing.{IsWritable};

use protobuf_parse_wire::{Entry, EntryValue, Kind, encode, put_message};
use std::alloc::{AllocError, Global};
use std::slice;
use std::test::Fail;

/// The bytes of one entry, in hexadecimal digits.
fn written(alloc: Global, number: u32, kind: Kind, value: EntryValue) -> Result<String, AllocError>
    requires { IsWritable (shape_of_kind kind) (entry_value_view value) }
{
    let entry = Entry {
        number,
        kind,
        value,
    };
    let bytes = encode(alloc, slice::from_ref(&entry))?;
    hex::encode(alloc, bytes.as_slice())
}

#[test]
fn writes_truth_values(rt: HostRuntime) -> Result<(), Fail> {
    let truth = written(rt.alloc(), 50009, Kind::Bool, EntryValue::Bool(true))?;
    assert_eq!(rt; truth.as_str(), "c8b51801");
    let falsehood = written(rt.alloc(), 50009, Kind::Bool, EntryValue::Bool(false))?;
    assert_eq!(rt; falsehood.as_str(), "c8b51800");
    Ok(())
}

#[test]
fn writes_strings_and_bytes(rt: HostRuntime) -> Result<(), Fail> {
    let alloc = rt.alloc();
    let empty = written(alloc, 1, Kind::String, EntryValue::Bytes(Vec::new(alloc)))?;
    assert_eq!(rt; empty.as_str(), "0a00");
    let octets = Vec::from_slice(alloc, &[0x00, 0xff])?;
    let bytes = written(alloc, 50008, Kind::Bytes, EntryValue::Bytes(octets))?;
    assert_eq!(rt; bytes.as_str(), "c2b5180200ff");
    Ok(())
}

#[test]
fn writes_messages(rt: HostRuntime) -> Result<(), Fail> {
    let alloc = rt.alloc();
    let inside = Vec::new(alloc);
    let message = written(alloc, 536870911, Kind::Message, EntryValue::Message(inside))?;
    assert_eq!(rt; message.as_str(), "faffffff0f00");
    let text = Vec::from_slice(alloc, b"x")?;
    let mut entries = Vec::new(alloc);
    entries.push(Entry {
        number: 2,
        kind: Kind::String,
        value: EntryValue::Bytes(text),
    })?;
    let nested = written(alloc, 50003, Kind::Message, EntryValue::Message(entries))?;
    assert_eq!(rt; nested.as_str(), "9ab51803120178");
    let mut bytes = Vec::new(alloc);
    put_message(&mut bytes, 50003, &[0x12, 0x01, 0x78])?;
    assert_eq!(rt;
        hex::encode(alloc, bytes.as_slice())?.as_str(),
        "9ab51803120178"
    );
    Ok(())
}
