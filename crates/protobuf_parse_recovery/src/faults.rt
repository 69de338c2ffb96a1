//! The faults of a text, one after another.

ghost use Rattle.std.specs.Prelude.{IfOk, IfSome, string_bytes};
ghost use Rattle.protobuf_parse_syntax.specs.Parsing.{HasTree};
ghost use Rattle.protobuf_parse_syntax.specs.Trees.{file_syntax};
ghost use Rattle.protobuf_parse_recovery.specs.Recovery.{IsPart, ReadsOn};

use crate::masking::mask;
use crate::statement::{Part, rest_from, statement_at, torn_at};
use protobuf_parse_syntax::{FileTree, ParserError, ParserErrorWithLocation, Place, parse_file};
use std::alloc::{AllocError, Global};

/// How many faults of a text are told at most.
pub const MOST_FAULTS: usize = 20;

/// A text, read on behind its faults.
#[derive(Drop)]
pub struct Reading {
    /// The faults, one after another.
    pub faults: Vec<ParserErrorWithLocation>,
    /// The text without them, if that has a tree.
    pub rest: Option<Rest>,
}

/// A text with blanks in place of the parts that hold faults, and its tree. All that is left stands
/// where it stood.
#[derive(Drop)]
pub struct Rest {
    pub text: String,
    pub tree: FileTree,
}

/// The faults of syntax of a text, at most 20, none where it has a tree. The first is the one that
/// [`parse_file`] tells; each other stands in the text with parts as blanks that hold those before
/// it, at the same place. A fault of the tokens comes before any of the grammar, so the places need
/// not ascend.
///
/// A part is the innermost statement that holds the fault; with a character that begins no token, a
/// number or a string that is none, up to the end of that line. Nothing is told behind a fault at
/// the text's end, one in the statement that tells the version, S6 and S20.
///
/// The one error is that memory is short.
pub fn parse_faults(alloc: Global, text: &str) -> Result<Vec<ParserErrorWithLocation>, AllocError>
    ensures { IfOk result (λ v. ReadsOn 20 text.now v.items) }
{
    let Reading { faults, rest: _ } = read_on(alloc, text)?;
    Ok(faults)
}

/// The faults that [`parse_faults`] tells, and what is left of the text without them, where nothing
/// is wrong in that. The one error is that memory is short.
pub fn read_on(alloc: Global, text: &str) -> Result<Reading, AllocError>
    ensures faults { IfOk result (λ r. ReadsOn 20 text.now r.faults.items) }
    ensures rest { IfOk result (λ r. IfSome r.rest
        (λ left. HasTree (string_bytes left.text) (file_syntax left.tree))) }
{
    let mut faults = Vec::new(alloc);
    let mut left = String::from_str(alloc, text)?;
    for round in 0..MOST_FAULTS {
        let now = left.as_str();
        let error = match parse_file(alloc, now) {
            Ok(tree) => {
                return Ok(Reading {
                    faults,
                    rest: Some(Rest { text: left, tree }),
                });
            }
            Err(error) => error,
        };
        if let ParserError::Memory = error.error {
            return Err(AllocError);
        }
        faults.push(error)?;
        let Some(part) = part_with(now, &error) else {
            return Ok(Reading { faults, rest: None });
        };
        let Some(masked) = mask(alloc, now, part.from, part.to)? else {
            return Ok(Reading { faults, rest: None });
        };
        left = masked;
    }
    Ok(Reading { faults, rest: None })
}

/// The part of the text that holds the fault, and behind which others are looked for.
fn part_with(text: &str, error: &ParserErrorWithLocation) -> Option<Part>
    ensures { IfSome result (IsPart text.now) }
{
    let place = Place {
        line: error.line,
        col: error.col,
    };
    match error.error {
        ParserError::Memory
        | ParserError::NestingTooDeep
        | ParserError::TextTooLong
        | ParserError::UnknownSyntax => None,
        ParserError::UnexpectedCharacter
        | ParserError::UnterminatedString
        | ParserError::BadNumber => torn_at(text, place),
        ParserError::UnterminatedComment => rest_from(text, place),
        _ => statement_at(text, place),
    }
}
