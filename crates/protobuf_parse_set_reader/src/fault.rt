//! Why bytes are no descriptors.

ghost use Rattle.std.specs.Prelude.{◌≡◌};
ghost use Rattle.protobuf_parse_set_reader.specs.Answers.{error_of};
ghost use Rattle.protobuf_parse_set_reader.specs.declared.fault.SetError.TheVariants.{Memory};

use protobuf_parse_records::{FaultKind, RecordsError};
use std::alloc::{AllocError, AllocFailed};
use thiserror::Error;

/// What is wrong with the bytes.
#[derive(Clone, Copy, Debug, PartialEq, Eq, Error)]
pub enum SetFaultKind {
    /// The bytes of a message are no records, or packed numbers are no varints.
    #[error("{0}")]
    Wire(FaultKind),
    /// A record has the number of a field, and another wire type.
    #[error("the field has another wire type")]
    WrongWireType,
    /// A text that is not UTF-8.
    #[error("a text is not UTF-8")]
    NotUtf8,
    /// A message inside 100 others.
    #[error("more than 100 messages stand inside one another")]
    TooDeep,
    /// A file, or something that it declares, has no name.
    #[error("a name is missing")]
    NoName,
    /// A field has a label whose number is not 1, 2 or 3.
    #[error("no label has this number")]
    UnknownLabel,
    /// A field has a type whose number is not one from 1 to 18.
    #[error("no type has this number")]
    UnknownType,
    /// A field does not say its type, nor the full name of a message or an enum of the set.
    #[error("the type of a field is missing")]
    NoType,
    /// A method does not say which message it takes, or which one comes back.
    #[error("the type of a method is missing")]
    NoMethodType,
}

/// What is wrong, and where.
#[derive(Clone, Copy, Debug, PartialEq, Eq, Error)]
#[error("byte {at}: {kind}")]
pub struct SetFault {
    /// An offset in bytes. Of what is wrong with records, it is as `protobuf_parse_records` says
    /// it; of a text that is not UTF-8, that of the text; of other records, that of their tags; of
    /// what is missing or too deep, that of the message's first byte, behind its length.
    pub at: usize,
    pub kind: SetFaultKind,
}

/// The first thing that is wrong with the bytes, or want of memory.
#[derive(Clone, Copy, Debug, PartialEq, Eq, Error)]
pub enum SetError {
    #[error("out of memory")]
    Memory,
    #[error("{0}")]
    Fault(SetFault),
}

/// That kind of fault at that offset.
pub fn fault(at: usize, kind: SetFaultKind) -> SetError
    ensures { result ≡ SetError.Fault (record { at = at; kind = kind }) }
{
    SetError::Fault(SetFault { at, kind })
}

impl From<AllocError> for SetError {
    ghost from_gives = { λ _ e. e ≡ Memory };

    fn from(_error: AllocError) -> SetError {
        SetError::Memory
    }
}

impl<T: Drop> From<AllocFailed<T>> for SetError {
    ghost from_gives = { λ _ e. e ≡ Memory };

    fn from(_error: AllocFailed<T>) -> SetError {
        SetError::Memory
    }
}

impl From<RecordsError> for SetError {
    ghost from_gives = { λ of e. e ≡ error_of of };

    fn from(error: RecordsError) -> SetError {
        match error {
            RecordsError::Memory => SetError::Memory,
            RecordsError::Fault(wrong) => SetError::Fault(SetFault {
                at: wrong.at,
                kind: SetFaultKind::Wire(wrong.kind),
            }),
        }
    }
}
