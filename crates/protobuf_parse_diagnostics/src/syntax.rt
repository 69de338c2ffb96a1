//! Faults of syntax as sentences: S1 to S20.

ghost use Rattle.std.specs.Prelude.{◌≡◌};
ghost use Rattle.protobuf_parse_diagnostics.specs.Codes.{syntax_code_of};

use crate::expected::expected_at;
use crate::fronts::help_with;
use crate::paths::{path_code, path_sentence};
use crate::scan::{Shown, character_at, token_at, word_at};
use protobuf_parse_syntax::{ParserError, Place};
use std::alloc::{AllocError, Global};

/// What is said of a fault.
#[derive(Drop)]
pub struct Sentence {
    pub message: String,
    pub help: Option<String>,
}

impl Sentence {
    /// A message alone.
    pub fn new(message: String) -> Self {
        Sentence {
            message,
            help: None,
        }
    }

    /// A message that is always the same.
    pub fn fixed(alloc: Global, message: &str) -> Result<Self, AllocError> {
        Ok(Sentence::new(String::from_str(alloc, message)?))
    }

    /// A message and what helps, which are always the same.
    pub fn with_help(alloc: Global, message: &str, help: &str) -> Result<Self, AllocError> {
        Ok(Sentence {
            message: String::from_str(alloc, message)?,
            help: Some(String::from_str(alloc, help)?),
        })
    }
}

/// The code of a fault of syntax: S1 to S20. Want of memory has none.
pub fn syntax_code(fault: ParserError) -> &'static str
    ensures { result.now ≡ syntax_code_of fault }
{
    match fault {
        ParserError::Memory => "",
        ParserError::UnexpectedCharacter => "S1",
        ParserError::UnterminatedComment => "S2",
        ParserError::UnterminatedString => "S3",
        ParserError::BadNumber => "S4",
        ParserError::IntegerOverflow => "S5",
        ParserError::NestingTooDeep => "S6",
        ParserError::OptionNameTooLong => "S7",
        ParserError::IncorrectInput => "S8",
        ParserError::ExpectConstant => "S9",
        ParserError::UnknownSyntax => "S10",
        ParserError::LabelNotAllowed => "S11",
        ParserError::LabelRequired => "S12",
        ParserError::GroupNameShouldStartWithUpperCase => "S13",
        ParserError::MapFieldNotAllowed => "S14",
        ParserError::StrLitDecode => "S15",
        ParserError::OneOfInGroup => "S16",
        ParserError::OnlyFieldsInGroup => "S17",
        ParserError::FloatConstant => "S18",
        ParserError::BadImportPath(_) => "S19",
        ParserError::TextTooLong => "S20",
    }
}

/// What is said of a fault of syntax that stands at this place of the text. The one error is that
/// memory is short.
pub fn syntax_sentence(
    alloc: Global,
    fault: ParserError,
    text: &str,
    place: Place,
) -> Result<Sentence, AllocError> {
    match fault {
        ParserError::UnexpectedCharacter
        | ParserError::UnterminatedComment
        | ParserError::UnterminatedString
        | ParserError::BadNumber
        | ParserError::IntegerOverflow => lexical_sentence(alloc, fault, text, place),
        ParserError::IncorrectInput => unexpected_sentence(alloc, text, place),
        ParserError::ExpectConstant
        | ParserError::UnknownSyntax
        | ParserError::LabelNotAllowed
        | ParserError::GroupNameShouldStartWithUpperCase
        | ParserError::StrLitDecode
        | ParserError::OnlyFieldsInGroup => { token_sentence(alloc, fault, token_at(text, place)) }
        ParserError::BadImportPath(why) => {
            let shown = Shown(token_at(text, place));
            let code = path_code(why);
            let why = path_sentence(why);
            let message = format!(in alloc; "{shown} is no path of a file: {why} ({code})")?;
            Ok(Sentence::new(message))
        }
        _ => fault_sentence(alloc, fault),
    }
}

/// Of faults that the characters show.
fn lexical_sentence(
    alloc: Global,
    fault: ParserError,
    text: &str,
    place: Place,
) -> Result<Sentence, AllocError> {
    match fault {
        ParserError::UnexpectedCharacter => {
            let character = character_at(text, place).unwrap_or(' ');
            let message = format!(in alloc; "unexpected character `{character}`")?;
            Ok(Sentence::new(message))
        }
        ParserError::UnterminatedComment => {
            Sentence::with_help(alloc, "the comment is not closed", "`*/` closes it")
        }
        ParserError::UnterminatedString => Sentence::with_help(
            alloc,
            "the string is not closed on its line",
            "a string of several lines is several strings",
        ),
        ParserError::BadNumber => {
            let word = word_at(text, place);
            Ok(Sentence::new(format!(in alloc; "`{word}` is no number")?))
        }
        _ => {
            let word = word_at(text, place);
            let message = format!(in alloc; "the integer `{word}` is too large here")?;
            Ok(Sentence::new(message))
        }
    }
}

/// Of faults that the token tells.
fn token_sentence(
    alloc: Global,
    fault: ParserError,
    token: Option<&str>,
) -> Result<Sentence, AllocError> {
    let shown = Shown(token);
    match fault {
        ParserError::ExpectConstant => {
            let message = format!(in alloc; "expected a constant, and not {shown}")?;
            Ok(Sentence::new(message))
        }
        ParserError::UnknownSyntax => {
            let message = format!(in alloc; "{shown} is no version of the language")?;
            let help = String::from_str(alloc, "it must be \"proto2\" or \"proto3\"")?;
            Ok(Sentence {
                message,
                help: Some(help),
            })
        }
        ParserError::LabelNotAllowed => label_sentence(alloc, token),
        ParserError::GroupNameShouldStartWithUpperCase => Ok(Sentence::new(format!(in alloc;
            "the name of a group must begin with a capital, and {shown} does not"
        )?)),
        ParserError::StrLitDecode => Ok(Sentence::new(format!(in alloc;
            "{shown} stands for no text: an escape means nothing, or it is no UTF-8"
        )?)),
        _ => Ok(Sentence::new(format!(in alloc;
            "only fields may stand in a group, and not {shown}"
        )?)),
    }
}

/// Of a token that can't stand there.
fn unexpected_sentence(alloc: Global, text: &str, place: Place) -> Result<Sentence, AllocError> {
    let token = token_at(text, place);
    let shown = Shown(token);
    let message = match expected_at(alloc, text, place)? {
        Some(expected) => format!(in alloc; "unexpected {shown}, {expected}")?,
        None => format!(in alloc; "unexpected {shown}")?,
    };
    let help = match help_with(text, place, token) {
        Some(help) => Some(String::from_str(alloc, help)?),
        None => None,
    };
    Ok(Sentence { message, help })
}

fn label_sentence(alloc: Global, token: Option<&str>) -> Result<Sentence, AllocError> {
    let shown = Shown(token);
    let message = format!(in alloc; "the label {shown} is not allowed here")?;
    let help = match token {
        Some("required") => "neither proto3 nor a oneof has required fields",
        _ => "the fields of a oneof have no labels",
    };
    Ok(Sentence {
        message,
        help: Some(String::from_str(alloc, help)?),
    })
}

/// Of faults that need not be looked up in the text.
fn fault_sentence(alloc: Global, fault: ParserError) -> Result<Sentence, AllocError> {
    match fault {
        ParserError::NestingTooDeep => {
            Sentence::fixed(alloc, "more than 100 brackets are open inside one another")
        }
        ParserError::OptionNameTooLong => {
            Sentence::fixed(alloc, "the name of an option has more than 100 parts")
        }
        ParserError::LabelRequired => Sentence::with_help(
            alloc,
            "a field of proto2 must have a label",
            "write `optional`, `required` or `repeated` before its type",
        ),
        ParserError::MapFieldNotAllowed => Sentence::with_help(
            alloc,
            "a map cannot stand in a oneof",
            "a message that has the map can",
        ),
        ParserError::OneOfInGroup => Sentence::fixed(alloc, "a oneof cannot stand in a group"),
        ParserError::FloatConstant => Sentence::fixed(
            alloc,
            "float constants are not read: this value can only be an integer, or be left out",
        ),
        ParserError::TextTooLong => Sentence::fixed(alloc, "the file has over 2147483647 bytes"),
        _ => Sentence::fixed(alloc, "memory is short"),
    }
}
