//! Why option bytes can't be read: B1 to B9.

use protobuf_parse_wire::ReadFault;

/// The code of a fault of option bytes: B1 to B9. Want of memory has none.
pub fn wire_code(fault: ReadFault) -> &'static str {
    match fault {
        ReadFault::UnknownMessage => "B1",
        ReadFault::UnknownNumber => "B2",
        ReadFault::AmbiguousNumber => "B3",
        ReadFault::Truncated => "B4",
        ReadFault::WrongWireType => "B5",
        ReadFault::BadVarint => "B6",
        ReadFault::BadUtf8 => "B7",
        ReadFault::FloatOrGroup => "B8",
        ReadFault::TooDeep => "B9",
        ReadFault::Memory => "",
    }
}

/// What is wrong with the bytes, or with the descriptors by which they are read.
pub fn wire_sentence(fault: ReadFault) -> &'static str {
    match fault {
        ReadFault::UnknownMessage => {
            "the message of the bytes, or of a field in them, is declared by no file or by several"
        }
        ReadFault::UnknownNumber => "no field and no extension has the number of a record",
        ReadFault::AmbiguousNumber => "two fields or extensions of a message have one number",
        ReadFault::Truncated => "the bytes end inside a record",
        ReadFault::WrongWireType => "a record has another wire type than its field",
        ReadFault::BadVarint => "a varint has more than ten bytes, or is 2^64 or more",
        ReadFault::BadUtf8 => "a string is no UTF-8",
        ReadFault::FloatOrGroup => "floats and groups are not read",
        ReadFault::TooDeep => "more than 256 messages lie inside one another",
        ReadFault::Memory => "memory is short",
    }
}
