//! The tokens of a text.

ghost use Rattle.std.specs.Prelude.{◌≡◌, ◌⊎◌, ◌+◌, length, drop, IfOk, IfErr};
ghost use Rattle.protobuf_parse_lexer.specs.Cut.{mark_len, IsShort, stream, HasTokens, IsRefused};
ghost use Rattle.protobuf_parse_lexer.specs.Cut.{Reads, Refuses, error_place};
ghost use Rattle.protobuf_parse_lexer.specs.CutAnswers.{Answers};
ghost use Rattle.protobuf_parse_lexer.specs.Cut.{out_of_memory};

pub mod bytes;
mod depth;
mod front;
mod kind;
mod lanes;
pub mod laws;
mod number;
pub mod place;
pub mod str_lit;
pub mod token;
pub mod tokenizer;

use crate::error::{ParserError, ParserErrorWithLocation};
use crate::lexer::depth::too_deep;
use crate::lexer::front::{Piece, front_piece};
use crate::lexer::place::{located, place_after, place_past};
use crate::lexer::token::{Place, Token, TokenStream};
use std::alloc::Global;

/// The most bytes that a text may have.
const MAX_TEXT_LEN: usize = 2147483647;

/// The text without a byte order mark at its front.
fn past_mark(text: &str) -> &str
    ensures rest { result.now ≡ drop (mark_len text.now) text.now }
    ensures len { length result.now + mark_len text.now ≡ length text.now }
{
    let bytes = text.as_bytes();
    if 3 <= bytes.len() && bytes[0] == 0xef && bytes[1] == 0xbb && bytes[2] == 0xbf {
        &text[3..]
    } else {
        text
    }
}

/// Cuts a text into its tokens. Its nesting is not looked at.
fn cut<'a>(alloc: Global, text: &'a str) -> Result<TokenStream<'a>, ParserErrorWithLocation>
    requires { IsShort text.now }
    ensures { Answers text.now result }
{
    let mut tokens = Vec::new(alloc);
    let mut place = Place { line: 1, col: 1 };
    let mut rest = past_mark(text);
    loop {
        match front_piece(rest.as_bytes()) {
            Piece::End => return Ok(TokenStream { tokens, end: place }),
            Piece::Blank(len) => {
                let (blank, after) = rest.split_at(len);
                place = place_after(place, blank.as_bytes());
                rest = after;
            }
            Piece::Token(len, kind) => {
                let (word, after) = rest.split_at(len);
                tokens.push(Token { text: word, place })?;
                place = place_past(place, kind, word.as_bytes());
                rest = after;
            }
            Piece::Fault(error) => return Err(located(error, place)),
        }
    }
}

/// The tokens of a text, of which nothing is wrong.
fn checked<'a>(alloc: Global, text: &'a str) -> Result<TokenStream<'a>, ParserErrorWithLocation>
    ensures read { IfOk result (λ s. HasTokens text.now (stream s)) }
    ensures refused { IfErr result (λ e. (e ≡ out_of_memory)
        ⊎ IsRefused text.now e.error (error_place e)) }
{
    if text.len() > MAX_TEXT_LEN {
        return Err(located(ParserError::TextTooLong, Place { line: 1, col: 1 }));
    }
    let stream = cut(alloc, text)?;
    match too_deep(stream.tokens.as_slice()) {
        Some(place) => Err(located(ParserError::NestingTooDeep, place)),
        None => Ok(stream),
    }
}

/// The tokens of a text and the place of its end, or what is wrong with it first:
/// its length, then a character, comment, string or number, then its nesting.
pub fn tokenize<'a>(
    alloc: Global,
    text: &'a str,
) -> Result<TokenStream<'a>, ParserErrorWithLocation>
    // What is read are the text's tokens, and what is refused has that fault there.
    ensures read { IfOk result (λ s. HasTokens text.now (stream s)) }
    ensures refused { IfErr result (λ e. (e ≡ out_of_memory)
        ⊎ IsRefused text.now e.error (error_place e)) }

    // A text with tokens is read, and one with a fault is refused.
    ensures reads { Reads text.now result }
    ensures refuses { Refuses text.now result }
{
    checked(alloc, text)
}
