//! Why a text is refused, and where.

ghost use Rattle.std.specs.Prelude.{◌≡◌};
ghost use Rattle.protobuf_parse_lexer.specs.declared.error.ParserError.TheVariants.{Memory};

use protobuf_parse_base::proto_path::PathError;
use std::alloc::{AllocError, AllocFailed};
use std::fmt;
use thiserror::Error;

/// What is wrong with a text.
#[derive(Clone, Copy, Debug, PartialEq, Eq, Error)]
pub enum ParserError {
    /// Memory ran out, and nothing is said of the text.
    Memory,
    /// S1: a character that begins no token, no comment and no blank.
    UnexpectedCharacter,
    /// S2: a comment that is not closed.
    UnterminatedComment,
    /// S3: a string that is not closed on its line, or holds a NUL.
    UnterminatedString,
    /// S4: a number that is none of the language's, or is followed by a letter, a digit or `_`.
    BadNumber,
    /// S5: an integer that is too large for a token, or for the place where it stands.
    IntegerOverflow,
    /// S6: the 101st of the brackets `{`, `[` and `<` inside one another.
    NestingTooDeep,
    /// S7: part 101 of an option's name.
    OptionNameTooLong,
    /// S8: a token that cannot stand there, or the end of the text where more must follow.
    IncorrectInput,
    /// S9: a token with which no constant begins, where one must stand.
    ExpectConstant,
    /// S10: a version that is neither `proto2` nor `proto3`.
    UnknownSyntax,
    /// S11: a label directly in a oneof, or `required` in proto3.
    LabelNotAllowed,
    /// S12: a field of proto2 that has no label.
    LabelRequired,
    /// S13: the name of a group, which begins with no capital.
    GroupNameShouldStartWithUpperCase,
    /// S14: a map directly in a oneof.
    MapFieldNotAllowed,
    /// S15: a string that stands for no text, where a text must stand.
    StrLitDecode,
    /// S16: a oneof in a group.
    OneOfInGroup,
    /// S17: another statement in a group that is no field.
    OnlyFieldsInGroup,
    /// S18: a float, or `inf` or `nan` behind a sign, as a constant.
    FloatConstant,
    /// S19: the path of an import, which is no proto path.
    BadImportPath(PathError),
    /// S20: a text of over 2147483647 bytes.
    TextTooLong,
}

impl ParserError {
    /// What is wrong, but for the fault of a path.
    fn text(&self) -> &'static str {
        match self {
            ParserError::Memory => "out of memory",
            ParserError::UnexpectedCharacter => "S1 UnexpectedCharacter",
            ParserError::UnterminatedComment => "S2 UnterminatedComment",
            ParserError::UnterminatedString => "S3 UnterminatedString",
            ParserError::BadNumber => "S4 BadNumber",
            ParserError::IntegerOverflow => "S5 IntegerOverflow",
            ParserError::NestingTooDeep => "S6 NestingTooDeep",
            ParserError::OptionNameTooLong => "S7 OptionNameTooLong",
            ParserError::IncorrectInput => "S8 IncorrectInput",
            ParserError::ExpectConstant => "S9 ExpectConstant",
            ParserError::UnknownSyntax => "S10 UnknownSyntax",
            ParserError::LabelNotAllowed => "S11 LabelNotAllowed",
            ParserError::LabelRequired => "S12 LabelRequired",
            ParserError::GroupNameShouldStartWithUpperCase =>
                "S13 GroupNameShouldStartWithUpperCase",
            ParserError::MapFieldNotAllowed => "S14 MapFieldNotAllowed",
            ParserError::StrLitDecode => "S15 StrLitDecode",
            ParserError::OneOfInGroup => "S16 OneOfInGroup",
            ParserError::OnlyFieldsInGroup => "S17 OnlyFieldsInGroup",
            ParserError::FloatConstant => "S18 FloatConstant",
            ParserError::BadImportPath(_) => "S19 BadImportPath",
            ParserError::TextTooLong => "S20 TextTooLong",
        }
    }
}

impl fmt::Display for ParserError {
    fn fmt<W: fmt::Write>(&self, f: &mut fmt::Formatter<W>) -> fmt::Result {
        let text = self.text();
        match self {
            ParserError::BadImportPath(fault) => write!(f, "{text}: {fault}"),
            _ => f.write_str(text),
        }
    }
}

/// What is wrong with a text, and at which line and column, both from 1; the column is counted in
/// characters. Want of memory is told at line 0, column 0.
#[derive(Clone, Copy, Debug, PartialEq, Eq, Error)]
#[error("at {line}:{col}: {error}")]
pub struct ParserErrorWithLocation {
    pub error: ParserError,
    pub line: u32,
    pub col: u32,
}

impl From<AllocError> for ParserErrorWithLocation {
    ghost from_gives = { λ _ e. e ≡ record { error = Memory; line = 0; col = 0 } };

    fn from(_error: AllocError) -> ParserErrorWithLocation {
        ParserErrorWithLocation {
            error: ParserError::Memory,
            line: 0,
            col: 0,
        }
    }
}

impl<T: Drop> From<AllocFailed<T>> for ParserErrorWithLocation {
    ghost from_gives = { λ _ e. e ≡ record { error = Memory; line = 0; col = 0 } };

    fn from(_error: AllocFailed<T>) -> ParserErrorWithLocation {
        ParserErrorWithLocation {
            error: ParserError::Memory,
            line: 0,
            col: 0,
        }
    }
}
