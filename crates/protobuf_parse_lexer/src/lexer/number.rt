//! The number at the front of a text.

ghost use Rattle.std.specs.Prelude.{◌≡◌, ◌≢◌, ℕ, ◌<◌, ◌≤◌, ◌^◌, length, slice_index, slice_range};
ghost use Rattle.std.specs.Prelude.{true, false, MatchOption, SomeIff, IfSome};
ghost use Rattle.protobuf_parse_base.specs.Characters.{dot};
ghost use Rattle.std.specs.Str.Parse as parse;
ghost use Rattle.std.specs.Char as char;
ghost use Rattle.protobuf_parse_lexer.specs.Text.{is_in, AllIn, RunStopsAt, IsHex, IsOctal};
ghost use Rattle.protobuf_parse_lexer.specs.Text.{IsDecimal, IsExponent, IsFloat, IsIntegerText};
ghost use Rattle.protobuf_parse_lexer.specs.Text.{IsLongest, IsToken, NoFront};
ghost use Rattle.protobuf_parse_lexer.specs.Longest.{Longest};
ghost use Rattle.protobuf_parse_lexer.specs.Scan.{EndsFraction, BeginsNumber, Stands};

use crate::error::ParserError;
use crate::lexer::bytes::{ByteClass, byte_at, is_in, run_end};
use crate::lexer::front::Piece;
use crate::lexer::token::TokenKind;

fn hex_end(text: &[u8]) -> Option<usize>
    ensures { MatchOption result (NoFront IsHex text.now) (Longest IsHex text.now) }
{
    let letter = byte_at(text, 1);
    if byte_at(text, 0) == b'0'
        && (letter == b'x' || letter == b'X')
        && is_in(ByteClass::Hex, byte_at(text, 2))
    {
        Some(run_end(ByteClass::Hex, text, 2))
    } else {
        None
    }
}

fn octal_end(text: &[u8]) -> Option<usize>
    ensures { MatchOption result (NoFront IsOctal text.now) (Longest IsOctal text.now) }
{
    if byte_at(text, 0) == b'0' && is_in(ByteClass::Octal, byte_at(text, 1)) {
        Some(run_end(ByteClass::Octal, text, 1))
    } else {
        None
    }
}

/// The end of an exponent that begins at `at`.
fn exponent_end(text: &[u8], at: usize) -> Option<usize>
    requires { at ≤ length text.now }
    ensures { MatchOption result (NoFront (IsExponent at) text.now)
        (Longest (IsExponent at) text.now) }
{
    let letter = byte_at(text, at);
    if letter != b'e' && letter != b'E' {
        return None;
    }
    let sign = byte_at(text, at + 1);
    let from = if sign == b'+' || sign == b'-' {
        at + 2
    } else {
        at + 1
    };
    if is_in(ByteClass::Digit, byte_at(text, from)) {
        Some(run_end(ByteClass::Digit, text, from))
    } else {
        None
    }
}

/// The end of the fraction after the digits up to `whole`.
fn fraction_end(text: &[u8], whole: usize) -> usize
    requires { whole ≤ length text.now }
    ensures { EndsFraction text.now whole result }
{
    if byte_at(text, whole) == b'.' {
        run_end(ByteClass::Digit, text, whole + 1)
    } else {
        whole
    }
}

/// The end of the float whose whole digits, perhaps none, go up to `whole`.
fn float_end(text: &[u8], whole: usize) -> Option<usize>
    requires within { whole ≤ length text.now }
    requires digits { AllIn ByteClass.Digit text.now 0 whole }
    requires stops { RunStopsAt ByteClass.Digit text.now whole }
    ensures { MatchOption result (NoFront IsFloat text.now) (Longest IsFloat text.now) }
{
    let point = fraction_end(text, whole);
    if whole == 0 && point <= 1 {
        return None;
    }
    match exponent_end(text, point) {
        Some(end) => Some(end),
        None if whole < point => Some(point),
        None => None,
    }
}

/// The end of the decimal integer whose digits go up to `whole`.
fn decimal_end(text: &[u8], whole: usize) -> usize
    requires within { whole ≤ length text.now }
    requires digits { AllIn ByteClass.Digit text.now 0 whole }
    requires stops { RunStopsAt ByteClass.Digit text.now whole }
    requires some { 0 < length text.now }
    requires digit { is_in ByteClass.Digit (slice_index text.now 0) ≡ true }
    ensures { Longest IsDecimal text.now result }
{
    if text[0] == b'0' { 1 } else { whole }
}

/// What a digit counts, up to 15.
pub fn digit_value(digit: u8) -> u64
    requires { is_in ByteClass.Hex digit ≡ true }
    ensures { result ≡ char.digit_value digit }
{
    u64::from(match digit {
        b'0'..=b'9' => digit - b'0',
        b'A'..=b'F' => digit - b'A' + 10,
        b'a'..=b'f' => digit - b'a' + 10,
        _ => 0,
    })
}

/// The number that digits spell, where it fits.
pub fn digits_value(radix: u64, digits: &[u8]) -> Option<u64>
    requires low { 2 ≤ radix }
    requires each { (k : ℕ) → k < length digits.now
        → is_in ByteClass.Hex (slice_index digits.now k) ≡ true }
    ensures { SomeIff result (parse.digits_value radix digits.now < 2 ^ 64)
        (parse.digits_value radix digits.now) }
{
    let mut number: u64 = 0;
    for digit in digits {
        let Some(shifted) = number.checked_mul(radix) else {
            return None;
        };
        let Some(next) = shifted.checked_add(digit_value(*digit)) else {
            return None;
        };
        number = next;
    }
    Some(number)
}

/// The integer at the front, of the digits from `from` to `end`.
fn integer_piece(text: &[u8], radix: u64, from: usize, end: usize) -> Piece
    requires radix { 2 ≤ radix }
    requires order { from ≤ end }
    requires within { end ≤ length text.now }
    requires each { AllIn ByteClass.Hex text.now from end }
    requires spells { (v : ℕ) → v ≡ parse.digits_value radix (slice_range text.now from end)
        → IsIntegerText text.now end v }
    requires longest { IsLongest text.now end }
    ensures { Stands text.now result }
{
    if end < text.len() && is_in(ByteClass::Ident, text[end]) {
        return Piece::Fault(ParserError::BadNumber);
    }
    match digits_value(radix, &text[from..end]) {
        Some(number) => Piece::Token(end, TokenKind::Integer(number)),
        None => Piece::Fault(ParserError::IntegerOverflow),
    }
}

/// The float at the front.
fn float_piece(text: &[u8], end: usize) -> Piece
    requires { Longest IsFloat text.now end }
    ensures { Stands text.now result }
{
    if end < text.len() && is_in(ByteClass::Ident, text[end]) {
        Piece::Fault(ParserError::BadNumber)
    } else {
        Piece::Token(end, TokenKind::Float)
    }
}

/// Whether a number before the byte goes on with it, or is refused for it.
fn goes_on(byte: u8) -> bool
    ensures ident { result ≡ false → is_in ByteClass.Ident byte ≡ false }
    ensures point { result ≡ false → byte ≢ dot }
{
    is_in(ByteClass::Ident, byte) || byte == b'.'
}

/// How long the number at the front is, and what it spells, if it is a decimal integer of one or
/// two digits, as the numbers of most fields are.
pub fn short_number(text: &[u8]) -> Option<(usize, u64)>
    requires some { 0 < length text.now }
    requires digit { is_in ByteClass.Digit (slice_index text.now 0) ≡ true }
    ensures { IfSome result (λ t. IsToken text.now t.0 (TokenKind.Integer t.1)) }
{
    let first = text[0];
    let second = byte_at(text, 1);
    if !goes_on(second) {
        return Some((1, u64::from(first - b'0')));
    }
    if first != b'0' && is_in(ByteClass::Digit, second) && !goes_on(byte_at(text, 2)) {
        return Some((2, u64::from(first - b'0') * 10 + u64::from(second - b'0')));
    }
    None
}

/// The number at the front.
// Inlined: 0.5 % of the instructions for fields of all kinds.
#[inline(always)]
pub fn number_piece(text: &[u8]) -> Piece
    requires some { 0 < length text.now }
    requires begins { BeginsNumber text.now }
    ensures { Stands text.now result }
{
    let whole = run_end(ByteClass::Digit, text, 0);
    if let Some(end) = float_end(text, whole) {
        return float_piece(text, end);
    }
    if let Some(end) = hex_end(text) {
        return integer_piece(text, 16, 2, end);
    }
    if let Some(end) = octal_end(text) {
        return integer_piece(text, 8, 1, end);
    }
    integer_piece(text, 10, 0, decimal_end(text, whole))
}
