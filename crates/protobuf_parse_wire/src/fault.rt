//! Why bytes could not be read.

ghost use Rattle.std.specs.Prelude.{◌≡◌};
ghost use Rattle.protobuf_parse_wire.specs.declared.fault.ReadFault.TheVariants.{Memory};

use std::alloc::{AllocError, AllocFailed};
use thiserror::Error;

/// The first thing that is wrong with the bytes, from the left, or want of memory.
#[derive(Clone, Copy, Debug, PartialEq, Eq, Error)]
pub enum ReadFault {
    /// No message has the name, or several have, or a field of a message names none.
    #[error("B1 UnknownMessage")]
    UnknownMessage,
    /// No field or extension of the message has the record's number.
    #[error("B2 UnknownNumber")]
    UnknownNumber,
    /// Two fields or extensions of the message have one number.
    #[error("B3 AmbiguousNumber")]
    AmbiguousNumber,
    /// The bytes end inside a record.
    #[error("B4 Truncated")]
    Truncated,
    /// The record's wire type isn't that of its field.
    #[error("B5 WrongWireType")]
    WrongWireType,
    /// A varint of more than ten bytes, or from 2^64 on.
    #[error("B6 BadVarint")]
    BadVarint,
    /// A string that isn't UTF-8.
    #[error("B7 BadUtf8")]
    BadUtf8,
    /// A field of a type that isn't read: float, double or group.
    #[error("B8 FloatOrGroup")]
    FloatOrGroup,
    /// More than 256 messages inside one another.
    #[error("B9 TooDeep")]
    TooDeep,
    #[error("out of memory")]
    Memory,
}

impl From<AllocError> for ReadFault {
    ghost from_gives = { λ _ e. e ≡ Memory };

    fn from(_error: AllocError) -> ReadFault {
        ReadFault::Memory
    }
}

impl<T: Drop> From<AllocFailed<T>> for ReadFault {
    ghost from_gives = { λ _ e. e ≡ Memory };

    fn from(_error: AllocFailed<T>) -> ReadFault {
        ReadFault::Memory
    }
}
