//! Why a part of a text cannot be read.

ghost use Rattle.std.specs.Prelude.{◌≡◌};
ghost use Rattle.protobuf_parse_syntax.specs.declared.parser.refusal.Refusal.TheVariants.{Memory};

use protobuf_parse_lexer::{ParserError, ParserErrorWithLocation, Place};
use std::alloc::{AllocError, AllocFailed};

/// Why a part of a text cannot be read.
#[derive(Clone, Copy)]
pub enum Refusal {
    Memory,
    /// What stands next, a token or the end of the text, cannot stand there, or the part that
    /// begins there has this fault.
    Fault(ParserError),
    /// No statement of a message and no field of an `extend` begins with what stands next. With
    /// which fault depends on the version, and is told once for the whole file, as of the next two.
    NoField,
    /// No field of a group does.
    NoGroupField,
    /// No statement of a oneof does.
    NoOneofField,
}

impl From<AllocError> for Refusal {
    ghost from_gives = { λ _ e. e ≡ Memory };

    fn from(_error: AllocError) -> Refusal {
        Refusal::Memory
    }
}

impl<T: Drop> From<AllocFailed<T>> for Refusal {
    ghost from_gives = { λ _ e. e ≡ Memory };

    fn from(_error: AllocFailed<T>) -> Refusal {
        Refusal::Memory
    }
}

impl Refusal {
    ghost use Rattle.protobuf_parse_syntax.specs.Code.{error_at};

    /// The error, where the next token, or the end of the text, stands at this place.
    pub fn located(self, next: Place) -> ParserErrorWithLocation
        ensures { result ≡ error_at self next }
    {
        let error = match self {
            Refusal::Memory => return AllocError.into(),
            Refusal::Fault(error) => error,
            Refusal::NoField | Refusal::NoGroupField | Refusal::NoOneofField => {
                ParserError::IncorrectInput
            }
        };
        ParserErrorWithLocation {
            error,
            line: next.line,
            col: next.col,
        }
    }
}
