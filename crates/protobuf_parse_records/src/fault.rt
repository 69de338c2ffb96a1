//! Why bytes are no records.

ghost use Rattle.std.specs.Prelude.{◌≡◌};
ghost use Rattle.protobuf_parse_records.specs.declared.fault.RecordsError.TheVariants.{Memory};

use std::alloc::{AllocError, AllocFailed};
use thiserror::Error;

/// What is wrong with the bytes.
#[derive(Clone, Copy, Debug, PartialEq, Eq, Error)]
pub enum FaultKind {
    /// The bytes end inside a record: in a number, in a payload or in a group.
    #[error("the bytes end inside a record")]
    Truncated,
    /// A varint of more than ten bytes, or of a number from 2^64 on.
    #[error("a varint has more than 64 bits")]
    VarintTooLarge,
    /// A tag with the field number 0 or one from 2^29 on.
    #[error("no field has this number")]
    BadFieldNumber,
    /// A tag with the wire type 6 or 7.
    #[error("there is no such wire type")]
    BadWireType,
    /// The tag that ends a group, where none is open or the innermost one has another number.
    #[error("a group ends that is not open")]
    UnmatchedGroupEnd,
    /// The tag that starts a group inside 100 others.
    #[error("more than 100 groups stand inside one another")]
    TooManyGroups,
}

/// What is wrong, and where.
#[derive(Clone, Copy, Debug, PartialEq, Eq, Error)]
#[error("byte {at}: {kind}")]
pub struct Fault {
    /// An offset in bytes: of a varint that is none or cut off, and of a payload that is cut off,
    /// that of its first byte; of a group that is never ended, that of the bytes' end; of all else,
    /// that of the tag's first byte.
    pub at: usize,
    pub kind: FaultKind,
}

/// The first thing that is wrong with the bytes, from the left, or want of memory.
#[derive(Clone, Copy, Debug, PartialEq, Eq, Error)]
pub enum RecordsError {
    #[error("out of memory")]
    Memory,
    #[error("{0}")]
    Fault(Fault),
}

impl From<AllocError> for RecordsError {
    ghost from_gives = { λ _ e. e ≡ Memory };

    fn from(_error: AllocError) -> RecordsError {
        RecordsError::Memory
    }
}

impl<T: Drop> From<AllocFailed<T>> for RecordsError {
    ghost from_gives = { λ _ e. e ≡ Memory };

    fn from(_error: AllocFailed<T>) -> RecordsError {
        RecordsError::Memory
    }
}
