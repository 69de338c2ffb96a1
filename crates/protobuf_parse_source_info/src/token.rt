//! The tokens of a text, each with the points where it begins and where it ends.

ghost use Rattle.std.specs.Prelude.{◌≡◌, ◌≤◌, ◌⊎◌, List, IfOk, IfErr, map, length};
ghost use Rattle.protobuf_parse_lexer.specs.Cut.{IsShort, IsRefused, error_place, out_of_memory};
ghost use Rattle.protobuf_parse_source_info.specs.InnerViews.{spot};
ghost use Rattle.protobuf_parse_source_info.specs.Spots.{Spot, HasSpots, point};

use protobuf_parse_comments::{BytePlace, place_after};
use protobuf_parse_lexer::{ParserError, ParserErrorWithLocation, Tokenizer};
use std::alloc::Global;

/// The most bytes that a text may have.
const MAX_TEXT_LEN: usize = 2147483647;

/// A point of a text: how many bytes stand before it, and its place.
#[derive(Clone, Copy)]
pub struct Point {
    pub byte: usize,
    pub place: BytePlace,
}

/// A token: its text, where it begins, and where it ends.
#[derive(Clone, Copy)]
pub struct Token<'a> {
    pub text: &'a str,
    pub from: Point,
    pub to: Point,
}

/// The point at the front of a text.
pub const START: Point = Point {
    byte: 0,
    place: BytePlace { line: 0, column: 0 },
};

/// The point before which so many bytes of the text stand. It is counted from another one, if that
/// stands no further on, else from the front.
fn moved(text: &str, other: Point, to: usize) -> Point
    requires other { other ≡ point text.now other.byte }
    requires within { to ≤ length text.now }
    requires short { IsShort text.now }
    ensures { result ≡ point text.now to }
{
    if to < other.byte {
        return passed(text, START, to);
    }
    passed(text, other, to)
}

/// The same, by a point that stands no further on.
fn passed(text: &str, before: Point, to: usize) -> Point
    requires before { before ≡ point text.now before.byte }
    requires order { before.byte ≤ to }
    requires within { to ≤ length text.now }
    requires short { IsShort text.now }
    ensures { result ≡ point text.now to }
{
    let between = &text.as_bytes()[before.byte..to];
    Point {
        byte: to,
        place: place_after(before.place, between),
    }
}

/// The tokens of a text, and the point behind all of it.
#[derive(Drop)]
pub struct Cut<'a> {
    pub tokens: Vec<Token<'a>>,
    pub end: Point,
}

/// The tokens of a text, up to its first fault if it has one. S20 at 1:1 if it has over 2147483647
/// bytes; else the one error is that memory is short.
pub fn tokens_of<'a>(alloc: Global, text: &'a str) -> Result<Cut<'a>, ParserErrorWithLocation>
    ensures found { IfOk result (λ c. (spots : List Spot) → HasSpots text.now spots
        → map spot c.tokens.items ≡ spots) }
    ensures end { IfOk result (λ c. c.end ≡ point text.now (length text.now)) }
    ensures short { IfOk result (λ c. IsShort text.now) }
    ensures refused { IfErr result (λ e. (e ≡ out_of_memory)
        ⊎ IsRefused text.now e.error (error_place e)) }
{
    if text.len() > MAX_TEXT_LEN {
        return Err(ParserErrorWithLocation {
            error: ParserError::TextTooLong,
            line: 1,
            col: 1,
        });
    }
    let mut left = Tokenizer::new(text)?;
    let mut tokens = Vec::new(alloc);
    let mut end = START;
    'cut: while let Some(token) = left.next {
        let to = text.len().saturating_sub(left.bytes_behind());
        let from = moved(text, end, to.saturating_sub(token.text.len()));
        end = moved(text, from, to);
        tokens.push(Token {
            text: token.text,
            from,
            to: end,
        })?;
        left.advance();
    }
    Ok(Cut {
        tokens,
        end: moved(text, end, text.len()),
    })
}
