//! Dotted names and strings.

ghost use Rattle.std.specs.Prelude.{◌≡◌, string_bytes};
ghost use Rattle.protobuf_parse_syntax.specs.Productions as read;
ghost use Rattle.protobuf_parse_syntax.specs.Trees.{pieces_of};
ghost use Rattle.protobuf_parse_syntax.specs.Code.{left, Gives, GivesOr, GivesSome, IsWrong};
ghost use Rattle.protobuf_parse_syntax.specs.Code.{Unsaid, of_text, refusal_of};

use crate::parser::cursor::Cursor;
use crate::parser::refusal::Refusal;
use protobuf_parse_lexer::{ParserError, StrLit, StrLitDecodeError, stands_for_itself};
use std::alloc::Global;

/// The room that is asked for a name with dots, which most need no more of.
const DOTTED_LEN: usize = 32;

/// An identifier, with room behind it if a dot follows.
fn first_part(alloc: Global, tokens: &mut Cursor<'_>) -> Result<String, Refusal>
    ensures { Gives string_bytes result (left tokens.new) (read.ident.run (left tokens.old)) }
{
    let first = tokens.ident_text()?;
    if !tokens.sees_symbol('.') {
        return Ok(String::from_str(alloc, first)?);
    }
    let mut part = String::with_capacity(alloc, DOTTED_LEN)?;
    part.push_str(first)?;
    Ok(part)
}

/// `ident { "." ident }`, without blanks.
#[tactic(auto, unfolding(crate::specs::Productions::dotted), using(crate::specs::Code::fails_first))]
pub fn dotted(alloc: Global, tokens: &mut Cursor<'_>) -> Result<String, Refusal>
    ensures { Gives string_bytes result (left tokens.new) (read.dotted.run (left tokens.old)) }
{
    let mut name = first_part(alloc, tokens)?;
    'parts: while tokens.sees_symbol('.') {
        let part = dot_ident(tokens)?;
        name.push('.')?;
        name.push_str(part)?;
    }
    Ok(name)
}

/// `"." ident`
#[tactic(auto, using(crate::specs::Code::fails_first))]
fn dot_ident<'text>(tokens: &mut Cursor<'text>) -> Result<&'text str, Refusal>
    ensures { Gives (λ z. z.now) result (left tokens.new) (read.dot_ident.run (left tokens.old)) }
{
    tokens.symbol('.')?;
    tokens.ident_text()
}

/// `name = [ "." ] ident { "." ident }`, without blanks.
#[tactic(auto, unfolding(crate::specs::Productions::name, crate::specs::Productions::root), using(crate::specs::Code::fails_first))]
pub fn name(alloc: Global, tokens: &mut Cursor<'_>) -> Result<String, Refusal>
    ensures { Gives string_bytes result (left tokens.new) (read.name.run (left tokens.old)) }
{
    if !tokens.sees_symbol('.') {
        return dotted(alloc, tokens);
    }
    tokens.symbol('.')?;
    let rest = dotted(alloc, tokens)?;
    let mut name = String::from_str(alloc, ".")?;
    name.push_str(rest.as_str())?;
    Ok(name)
}

/// `str = string token { string token }`
#[tactic(auto, unfolding(crate::specs::Productions::str), using(crate::specs::Code::fails_first))]
pub fn string(alloc: Global, tokens: &mut Cursor<'_>) -> Result<StrLit, Refusal>
    ensures { Gives pieces_of result (left tokens.new) (read.str.run (left tokens.old)) }
{
    let first = tokens.piece()?;
    let mut pieces = Vec::with_capacity(alloc, 1)?;
    pieces.push(String::from_str(alloc, first)?)?;
    'others: while tokens.sees_str() {
        let piece = tokens.piece()?;
        pieces.push(String::from_str(alloc, piece)?)?;
    }
    Ok(StrLit { pieces })
}

/// The text that a string stands for. S15 at the string where it stands for none.
pub fn text(alloc: Global, tokens: &mut Cursor<'_>) -> Result<String, Refusal>
    ensures { GivesOr (IsWrong (Unsaid of_text) (left tokens.old)) string_bytes result (left tokens.new)
        (read.reserved_name.run (left tokens.old)) }
{
    match text_as_written(tokens) {
        Some(text) => Ok(String::from_str(alloc, text)?),
        None => decoded_text(alloc, tokens),
    }
}

/// The text that a string of one token without escapes stands for, as most are.
fn text_as_written<'text>(tokens: &mut Cursor<'text>) -> Option<&'text str>
    ensures { GivesSome (λ z. z.now) result (left tokens.old) (left tokens.new)
        (read.reserved_name.run (left tokens.old)) }
{
    let before = *tokens;
    if let Ok(piece) = tokens.piece() {
        if !tokens.sees_str() && stands_for_itself(piece) {
            return Some(piece);
        }
    }
    *tokens = before;
    None
}

/// The text that any string stands for.
#[tactic(auto, unfolding(crate::specs::Productions::reserved_name), using(crate::specs::Code::fails_first))]
fn decoded_text(alloc: Global, tokens: &mut Cursor<'_>) -> Result<String, Refusal>
    ensures { GivesOr (IsWrong (Unsaid of_text) (left tokens.old)) string_bytes result (left tokens.new)
        (read.reserved_name.run (left tokens.old)) }
{
    let before = *tokens;
    let string = string(alloc, tokens)?;
    match string.decode_utf8(alloc) {
        Ok(text) => Ok(text),
        Err(error) => {
            *tokens = before;
            Err(no_text(error))
        }
    }
}

/// Why a string stands for no text.
fn no_text(error: StrLitDecodeError) -> Refusal
    ensures { result ≡ refusal_of error }
{
    match error {
        StrLitDecodeError::Memory => Refusal::Memory,
        StrLitDecodeError::BadEscape | StrLitDecodeError::NotUtf8 => {
            Refusal::Fault(ParserError::StrLitDecode)
        }
    }
}
