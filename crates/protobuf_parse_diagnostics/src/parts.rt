//! Parts of statements, by the tokens of their text: the names and numbers that people look at.

use protobuf_parse_lexer::{Token, TokenKind, tokenize};
use protobuf_parse_syntax::{ParserError, Place};
use std::alloc::{AllocError, Global};

/// What is meant of a statement.
#[derive(Clone, Copy, Debug, PartialEq, Eq)]
pub enum Part {
    /// All of it, which stands where it begins.
    Whole,
    /// What it declares: the word before its `=`, or behind the one that it begins with.
    Name,
    /// The number behind its `=`.
    Number,
    /// The type of a field, behind the label.
    Type,
    /// The value of a field's option `default`.
    Default,
    /// The same without a sign before it.
    DefaultNumber,
    /// The first type in parentheses whose last word is that of the full name.
    MethodType,
    /// The first number of a statement's ranges that is this one, with its sign.
    RangeStart(i32),
}

/// The statements of a text, by the places where they begin.
#[derive(Drop)]
pub struct StatementParts<'a> {
    tokens: Vec<Token<'a>>,
}

impl<'a> StatementParts<'a> {
    /// Those of the text; none of one that is no tokens. The one error is that memory is short.
    pub fn of(alloc: Global, text: &'a str) -> Result<Self, AllocError> {
        match tokenize(alloc, text) {
            Ok(stream) => Ok(StatementParts {
                tokens: stream.tokens,
            }),
            Err(error) => match error.error {
                ParserError::Memory => Err(AllocError),
                _ => Ok(StatementParts {
                    tokens: Vec::new(alloc),
                }),
            },
        }
    }

    /// Where the part of the statement at the place stands, where the full name is that of a type;
    /// the place, if it has no such part.
    pub fn place(&self, at: Place, part: Part, name: &str) -> Place {
        self.part(at, part, name).unwrap_or(at)
    }

    fn part(&self, at: Place, part: Part, name: &str) -> Option<Place> {
        let first = self
            .tokens
            .partition_point(|token| is_before(&token.place, &at));
        let statement = self.tokens.get(first..)?;
        let token = match part {
            Part::Whole => statement.first()?,
            Part::Name => name_in(statement)?,
            Part::Number => statement.get(equals_sign(statement)?.checked_add(1)?)?,
            Part::Type => type_in(statement)?,
            Part::Default => default_in(statement)?.first()?,
            Part::DefaultNumber => number_of(default_in(statement)?)?,
            Part::MethodType => method_type(statement, name)?,
            Part::RangeStart(number) => range_start(statement, number)?,
        };
        Some(token.place)
    }
}

fn is_before(first: &Place, second: &Place) -> bool {
    (first.line, first.col) < (second.line, second.col)
}

/// The position of the `=` of a declaration, in front of its value, its body or its end.
fn equals_sign(statement: &[Token<'_>]) -> Option<usize> {
    for (position, token) in statement.iter().enumerate() {
        match token.text {
            "=" => return Some(position),
            "{" | "}" | "(" | ";" => return None,
            _ => {}
        }
    }
    None
}

fn name_in<'s, 'a>(statement: &'s [Token<'a>]) -> Option<&'s Token<'a>> {
    match equals_sign(statement) {
        Some(position) => statement.get(position.checked_sub(1)?),
        None => statement.get(1),
    }
}

fn type_in<'s, 'a>(statement: &'s [Token<'a>]) -> Option<&'s Token<'a>> {
    let first = statement.first()?;
    match first.text {
        "optional" | "required" | "repeated" => statement.get(1),
        _ => Some(first),
    }
}

/// What stands behind `default =`.
fn default_in<'s, 'a>(statement: &'s [Token<'a>]) -> Option<&'s [Token<'a>]> {
    let mut rest = statement;
    for _token in statement {
        match rest {
            [word, sign, value @ ..] if word.text == "default" && sign.text == "=" => {
                return Some(value);
            }
            [first, ..] if first.text == ";" => return None,
            [_, more @ ..] => rest = more,
            [] => return None,
        }
    }
    None
}

/// The number, behind its sign if it has one.
fn number_of<'s, 'a>(value: &'s [Token<'a>]) -> Option<&'s Token<'a>> {
    match value {
        [sign, number, ..] if sign.text == "-" => Some(number),
        [number, ..] => Some(number),
        [] => None,
    }
}

/// The first token of the first type in parentheses whose last word is that of the full name.
fn method_type<'s, 'a>(statement: &'s [Token<'a>], name: &str) -> Option<&'s Token<'a>> {
    let last = name.rsplit_once('.').map_or(name, |(_, last)| last);
    let mut begun: Option<&Token<'a>> = None;
    let mut word = "";
    for token in statement {
        match token.text {
            "(" => begun = None,
            "stream" if begun.is_none() => {}
            ")" if word == last && begun.is_some() => return begun,
            ";" | "{" => return None,
            text => {
                begun = begun.or(Some(token));
                word = text;
            }
        }
    }
    None
}

/// The first token of the first range that begins with the number.
fn range_start<'s, 'a>(statement: &'s [Token<'a>], number: i32) -> Option<&'s Token<'a>> {
    let mut sign: Option<&Token<'a>> = None;
    for token in statement {
        match token.text {
            ";" => return None,
            "-" => sign = Some(token),
            _ => {
                if is_number(token, sign.is_some(), number) {
                    return Some(sign.unwrap_or(token));
                }
                sign = None;
            }
        }
    }
    None
}

/// Whether the token, behind a `-` if there is one, is the number.
fn is_number(token: &Token<'_>, is_negative: bool, number: i32) -> bool {
    match token.kind() {
        TokenKind::Integer(size) => {
            size == u64::from(number.unsigned_abs()) && is_negative == (number < 0)
        }
        _ => false,
    }
}
