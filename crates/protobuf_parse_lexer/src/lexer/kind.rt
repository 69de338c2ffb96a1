//! What kind of token a text is.

ghost use Rattle.std.specs.Prelude.{◌≡◌, ◌≤◌, ℕ, true};
ghost use Rattle.protobuf_parse_lexer.specs.Text.{is_in};
ghost use Rattle.protobuf_parse_lexer.specs.TokenKinds as kinds;

use crate::lexer::bytes::{ByteClass, byte_at, is_in, run_end};
use crate::lexer::number::digits_value;
use crate::lexer::token::TokenKind;

/// The integer that digits of the class spell, or else a float.
fn integer_kind(class: ByteClass, radix: u64, digits: &[u8]) -> TokenKind
    requires radix { 2 ≤ radix }
    requires each { (b : ℕ) → is_in class b ≡ true → is_in ByteClass.Hex b ≡ true }
    ensures { result ≡ kinds.integer_kind class radix digits.now }
{
    if run_end(class, digits, 0) < digits.len() {
        return TokenKind::Float;
    }
    match digits_value(radix, digits) {
        Some(number) => TokenKind::Integer(number),
        None => TokenKind::Float,
    }
}

/// The kind of a token that begins with a digit.
#[tactic(auto, unfolding(crate::specs::TokenKinds::number_kind))]
fn number_kind(text: &[u8]) -> TokenKind
    ensures { result ≡ kinds.number_kind text.now }
{
    if byte_at(text, 0) == b'0' && 2 <= text.len() {
        if text[1] == b'x' || text[1] == b'X' {
            integer_kind(ByteClass::Hex, 16, &text[2..])
        } else {
            integer_kind(ByteClass::Octal, 8, &text[1..])
        }
    } else {
        integer_kind(ByteClass::Digit, 10, text)
    }
}

/// The kind of a token with this text.
#[tactic(auto, unfolding(crate::specs::TokenKinds::kind_of))]
pub fn kind_of(text: &[u8]) -> TokenKind
    ensures { result ≡ kinds.kind_of text.now }
{
    let first = byte_at(text, 0);
    if is_in(ByteClass::Digit, first) {
        number_kind(text)
    } else if is_in(ByteClass::Ident, first) {
        TokenKind::Ident
    } else if first == b'"' || first == b'\'' {
        TokenKind::Str
    } else if text.len() == 1 {
        TokenKind::Symbol(char::from(first))
    } else {
        TokenKind::Float
    }
}
