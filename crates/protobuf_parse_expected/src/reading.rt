//! What is known of a text that may go on.

ghost use Rattle.std.specs.Prelude.{◌≡◌, IfOk};
ghost use Rattle.protobuf_parse_expected.specs.Reading as spec;
ghost use Rattle.protobuf_parse_expected.specs.Reading.{IsReading};

use protobuf_parse_lexer::tokenize;
use protobuf_parse_syntax::{ParserError, ParserErrorWithLocation, Place, parse_file};
use std::alloc::{AllocError, Global};

/// What is known of a text that may go on.
#[derive(Clone, Copy, Debug, PartialEq, Eq)]
pub enum Probed {
    /// It has a tree.
    Whole,
    /// Nothing is wrong with it but that it ends.
    Open,
    /// No file begins with its tokens.
    Never,
    /// Something else is wrong with it.
    Other,
}

/// Reads the text. The one error is that memory is short.
pub fn read(alloc: Global, text: &str) -> Result<Probed, AllocError>
    ensures { IfOk result (IsReading text.now) }
{
    let error = match parse_file(alloc, text) {
        Ok(_) => return Ok(Probed::Whole),
        Err(error) => error,
    };
    if let ParserError::Memory = error.error {
        return Err(AllocError);
    }
    match tokenize(alloc, text) {
        Ok(stream) => Ok(reading_at(&error, stream.end)),
        Err(refused) => match refused.error {
            ParserError::Memory => Err(AllocError),
            _ => Ok(Probed::Other),
        },
    }
}

/// What the fault tells of a text with that end.
fn reading_at(error: &ParserErrorWithLocation, end: Place) -> Probed
    ensures { result ≡ spec.reading_at error.now end }
{
    if is_at(error, end) {
        Probed::Open
    } else if stops(error.error) {
        Probed::Never
    } else {
        Probed::Other
    }
}

fn is_at(error: &ParserErrorWithLocation, place: Place) -> bool
    ensures { result ≡ spec.is_at error.now place }
{
    error.line == place.line && error.col == place.col
}

/// Whether the fault says of the token at its place that no file has it behind those before it.
fn stops(error: ParserError) -> bool
    ensures { result ≡ spec.stops error }
{
    matches!(
        error,
        ParserError::IncorrectInput
            | ParserError::ExpectConstant
            | ParserError::LabelNotAllowed
            | ParserError::LabelRequired
            | ParserError::GroupNameShouldStartWithUpperCase
            | ParserError::MapFieldNotAllowed
            | ParserError::OneOfInGroup
            | ParserError::OnlyFieldsInGroup
    )
}
