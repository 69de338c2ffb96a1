//! Why bytes are no message.

ghost use Rattle.std.specs.Prelude.{◌≡◌};
ghost use Rattle.protobuf_parse_decode.specs.Answers.{error_of};
ghost use Rattle.protobuf_parse_decode.specs.declared.fault.DecodeError.TheVariants.{Memory};

use protobuf_parse_records::{FaultKind, RecordsError};
use std::alloc::{AllocError, AllocFailed};
use thiserror::Error;

/// What is wrong with the bytes.
#[derive(Clone, Copy, Debug, PartialEq, Eq, Error)]
pub enum DecodeFaultKind {
    /// The bytes of a message are no records, or those of packed numbers are no such numbers.
    #[error("{0}")]
    NoRecords(FaultKind),
    /// A `string` that a file with the syntax `proto3` declares is not UTF-8.
    #[error("a string is not UTF-8")]
    NotUtf8,
    /// A message or a group inside 100 others, the outermost one among them.
    #[error("more than 100 messages stand inside one another")]
    TooDeep,
    /// No file declares the message: the one that is asked for, or that of a field.
    #[error("no file declares the message")]
    NoSuchMessage,
}

/// What is wrong, and where.
#[derive(Clone, Copy, Debug, PartialEq, Eq, Error)]
#[error("byte {at}: {kind}")]
pub struct DecodeFault {
    /// An offset in bytes, in the bytes of the outermost message. Of `NoRecords` it is as
    /// `protobuf_parse_records` says it; of `NotUtf8`, that of the string's first byte; of
    /// `TooDeep` and `NoSuchMessage`, that of the tag of the record that holds the message, and 0
    /// where it is the outermost one.
    pub at: usize,
    pub kind: DecodeFaultKind,
}

/// The first thing that is wrong with the bytes, or want of memory.
#[derive(Clone, Copy, Debug, PartialEq, Eq, Error)]
pub enum DecodeError {
    #[error("out of memory")]
    Memory,
    #[error("{0}")]
    Fault(DecodeFault),
}

/// That kind of fault at that offset.
pub fn fault(at: usize, kind: DecodeFaultKind) -> DecodeError
    ensures { result ≡ DecodeError.Fault (record { at = at; kind = kind }) }
{
    DecodeError::Fault(DecodeFault { at, kind })
}

impl From<AllocError> for DecodeError {
    ghost from_gives = { λ _ e. e ≡ Memory };

    fn from(_error: AllocError) -> DecodeError {
        DecodeError::Memory
    }
}

impl<T: Drop> From<AllocFailed<T>> for DecodeError {
    ghost from_gives = { λ _ e. e ≡ Memory };

    fn from(_error: AllocFailed<T>) -> DecodeError {
        DecodeError::Memory
    }
}

impl From<RecordsError> for DecodeError {
    ghost from_gives = { λ of e. e ≡ error_of of };

    fn from(error: RecordsError) -> DecodeError {
        match error {
            RecordsError::Memory => DecodeError::Memory,
            RecordsError::Fault(wrong) => DecodeError::Fault(DecodeFault {
                at: wrong.at,
                kind: DecodeFaultKind::NoRecords(wrong.kind),
            }),
        }
    }
}
