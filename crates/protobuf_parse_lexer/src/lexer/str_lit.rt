//! What strings say.

ghost use Rattle.std.specs.Prelude.{◌≡◌, ◌<◌, ◌≤◌, ℕ, [], ◌∷◌, ◌++◌, true, length, map};
ghost use Rattle.std.specs.Prelude.{MatchOption, OnOk, IfOk, IfErr, string_bytes};
ghost use Rattle.std.specs.List.{list_all};
ghost use Rattle.protobuf_parse_lexer.specs.Text.{is_in};
ghost use Rattle.protobuf_parse_lexer.specs.Tokens as tokens;
ghost use Rattle.protobuf_parse_lexer.specs.Tokens.{IsDigits, DecodesAll, StandsFor};
ghost use Rattle.protobuf_parse_lexer.specs.Tokens.{is_no_backslash};
ghost use Rattle.protobuf_parse_lexer.specs.PieceParts.{NamesByte, NamesNoByte, NamesChar};
ghost use Rattle.protobuf_parse_lexer.specs.PieceParts.{NamesNoChar, HasEscape, HasNoEscape};
ghost use Rattle.protobuf_parse_lexer.specs.Decoding.{meaning_bytes};
ghost use Rattle.protobuf_parse_lexer.specs.PieceParts.{HasPart, HasNoPart};
ghost use Rattle.protobuf_parse_lexer.specs.Decoding.{RefusesBytes, RefusesText};
ghost use Rattle.protobuf_parse_lexer.specs.PieceParts.{PushesPiece};
ghost use Rattle.protobuf_parse_lexer.specs.declared.lexer.str_lit.StrLitDecodeError.TheVariants.{Memory};

use crate::lexer::bytes::{ByteClass, byte_at, is_in, run_end};
use crate::lexer::number::digits_value;
use std::alloc::{AllocError, AllocFailed, Global};
use thiserror::Error;

/// Neighbouring string tokens, which are one string.
#[derive(Drop)]
pub struct StrLit {
    /// The source text of each token between its quotes.
    pub pieces: Vec<String>,
}

/// Why a string says nothing.
#[derive(Clone, Copy, Debug, PartialEq, Eq, Error)]
pub enum StrLitDecodeError {
    #[error("out of memory")]
    Memory,
    #[error("bad escape")]
    BadEscape,
    #[error("not UTF-8")]
    NotUtf8,
}

impl From<AllocError> for StrLitDecodeError {
    ghost from_gives = { λ _ e. e ≡ Memory };

    fn from(_error: AllocError) -> StrLitDecodeError {
        StrLitDecodeError::Memory
    }
}

impl<T: Drop> From<AllocFailed<T>> for StrLitDecodeError {
    ghost from_gives = { λ _ e. e ≡ Memory };

    fn from(_error: AllocFailed<T>) -> StrLitDecodeError {
        StrLitDecodeError::Memory
    }
}

/// Whether the byte is a quote.
fn is_quote(byte: u8) -> bool
    ensures { result ≡ tokens.is_quote byte }
{
    byte == b'"' || byte == b'\''
}

/// What stands between the quotes of a string token's text. Of any other text it is empty.
pub fn unquoted(text: &str) -> &str
    ensures { result.now ≡ tokens.unquoted text.now }
{
    let bytes = text.as_bytes();
    let len = bytes.len();
    if 2 <= len && is_quote(bytes[0]) && is_quote(bytes[len - 1]) {
        &text[1..len - 1]
    } else {
        ""
    }
}

/// What a part of a string stands for.
#[derive(Clone, Copy)]
enum Meaning {
    Byte(u8),
    Char(char),
}

/// A part at the front of a string, a byte or an escape: how many bytes it has, and what it stands
/// for.
#[derive(Clone, Copy)]
struct Part {
    len: usize,
    meaning: Meaning,
}

/// The byte that a backslash and this letter stand for.
fn letter_byte(letter: u8) -> Option<u8>
    ensures { result ≡ tokens.letter_byte letter }
{
    match letter {
        b'a' => Some(7),
        b'b' => Some(8),
        b'f' => Some(12),
        b'n' => Some(10),
        b'r' => Some(13),
        b't' => Some(9),
        b'v' => Some(11),
        b'\\' | b'\'' | b'"' | b'?' => Some(letter),
        _ => None,
    }
}

/// The end of the digits from `from` on, as many as stand there, at most up to `limit`.
fn digits_end(class: ByteClass, text: &[u8], from: usize, limit: usize) -> Option<usize>
    ensures { MatchOption result ((n : ℕ) → IsDigits class text.now from limit n → ⊥)
        (IsDigits class text.now from limit) }
{
    let within = text.len().min(limit);
    if within <= from {
        return None;
    }
    let end = run_end(class, &text[..within], from);
    if end == from { None } else { Some(end) }
}

/// The escape of at most `4 - from` digits from `from` on, which name a byte.
fn byte_escape(class: ByteClass, radix: u64, text: &[u8], from: usize) -> Option<Part>
    requires radix { 2 ≤ radix }
    requires digits { (b : ℕ) → is_in class b ≡ true → is_in ByteClass.Hex b ≡ true }
    ensures { MatchOption result (NamesNoByte class radix from text.now)
        (NamesByte class radix from text.now) }
{
    let end = digits_end(class, text, from, 4)?;
    let value = digits_value(radix, &text[from..end])?;
    if value <= 255 {
        Some(Part {
            len: end,
            meaning: Meaning::Byte(value as u8),
        })
    } else {
        None
    }
}

/// The escape of just the hexadecimal digits from 2 up to `end`, which name a character.
fn char_escape(text: &[u8], end: usize) -> Option<Part>
    requires { 2 ≤ end }
    ensures { MatchOption result (NamesNoChar end text.now) (NamesChar end text.now) }
{
    if text.len() < end || run_end(ByteClass::Hex, &text[..end], 2) < end {
        return None;
    }
    let value = digits_value(16, &text[2..end])?;
    if value > 0x10FFFF {
        return None;
    }
    let character = char::from_u32(value as u32)?;
    Some(Part {
        len: end,
        meaning: Meaning::Char(character),
    })
}

/// The escape at the front, which is a backslash.
fn front_escape(text: &[u8]) -> Option<Part>
    ensures { MatchOption result (HasNoEscape text.now) (HasEscape text.now) }
{
    let letter = byte_at(text, 1);
    if is_in(ByteClass::Octal, letter) {
        return byte_escape(ByteClass::Octal, 8, text, 1);
    }
    if letter == b'x' || letter == b'X' {
        return byte_escape(ByteClass::Hex, 16, text, 2);
    }
    if letter == b'u' {
        return char_escape(text, 6);
    }
    if letter == b'U' {
        return char_escape(text, 10);
    }
    let byte = letter_byte(letter)?;
    Some(Part {
        len: 2,
        meaning: Meaning::Byte(byte),
    })
}

/// The part at the front, where one stands there.
fn front_part(text: &[u8]) -> Option<Part>
    requires { 0 < length text.now }
    ensures { MatchOption result (HasNoPart text.now) (HasPart text.now) }
{
    let first = text[0];
    if first == b'\\' {
        front_escape(text)
    } else {
        Some(Part {
            len: 1,
            meaning: Meaning::Byte(first),
        })
    }
}

/// Puts what a part stands for behind the bytes.
fn push_meaning(bytes: &mut Vec<u8>, meaning: Meaning) -> Result<(), AllocError>
    ensures { OnOk result (bytes.new.items ≡ bytes.old.items ++ meaning_bytes meaning) }
{
    match meaning {
        Meaning::Byte(byte) => bytes.push(byte)?,
        Meaning::Char(character) => {
            let mut buffer = [0; 4];
            bytes.extend_from_slice(character.encode_utf8(&mut buffer).as_bytes())?;
        }
    }
    Ok(())
}

/// Whether no escape begins in the piece, as in most.
fn has_no_backslash(piece: &[u8]) -> bool
    ensures { result ≡ list_all is_no_backslash piece.now }
{
    piece.iter().all(|byte| *byte != b'\\')
}

/// Whether no escape begins in a piece, as in most: a string of it alone stands for what is
/// written.
#[tactic(auto, using(crate::proofs::Escapes::as_is_alone))]
pub fn stands_for_itself(piece: &str) -> bool
    ensures value { result ≡ list_all is_no_backslash piece.now }
    ensures stands { result ≡ true → StandsFor (piece.now ∷ []) piece.now }
{
    has_no_backslash(piece.as_bytes())
}

/// Puts what a piece stands for behind the bytes.
fn push_piece(bytes: &mut Vec<u8>, piece: &[u8]) -> Result<(), StrLitDecodeError>
    ensures { PushesPiece piece.now bytes.old.items bytes.new.items result }
{
    if has_no_backslash(piece) {
        bytes.extend_from_slice(piece)?;
        return Ok(());
    }
    let mut rest = piece;
    while !rest.is_empty() {
        let Some(part) = front_part(rest) else {
            return Err(StrLitDecodeError::BadEscape);
        };
        push_meaning(bytes, part.meaning)?;
        rest = &rest[part.len..];
    }
    Ok(())
}

impl StrLit {
    /// The bytes that the string stands for. The error is [`StrLitDecodeError::BadEscape`] where an
    /// escape is none of the language, or [`StrLitDecodeError::Memory`].
    pub fn decode_bytes(&self, alloc: Global) -> Result<Vec<u8>, StrLitDecodeError>
        ensures bytes { IfOk result
            (λ v. DecodesAll (map string_bytes self.now.pieces.items) v.items) }
        ensures refused { IfErr result (RefusesBytes (map string_bytes self.now.pieces.items)) }
    {
        // No piece stands for more bytes than it has, and most strings have one.
        let room = match self.pieces.first() {
            Some(piece) => piece.len(),
            None => 0,
        };
        let mut bytes = Vec::with_capacity(alloc, room)?;
        for piece in &self.pieces {
            push_piece(&mut bytes, piece.as_bytes())?;
        }
        Ok(bytes)
    }

    /// The text that the string stands for. The error is one of [`StrLit::decode_bytes`], or
    /// [`StrLitDecodeError::NotUtf8`].
    pub fn decode_utf8(&self, alloc: Global) -> Result<String, StrLitDecodeError>
        ensures text { IfOk result
            (λ t. DecodesAll (map string_bytes self.now.pieces.items) (string_bytes t)) }
        ensures refused { IfErr result (RefusesText (map string_bytes self.now.pieces.items)) }
    {
        if let [only] = self.pieces.as_slice() {
            if stands_for_itself(only) {
                return Ok(only.clone()?);
            }
        }
        match String::from_utf8(self.decode_bytes(alloc)?) {
            Ok(text) => Ok(text),
            Err(_) => Err(StrLitDecodeError::NotUtf8),
        }
    }
}
