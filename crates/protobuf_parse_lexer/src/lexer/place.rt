//! Lines and columns.

ghost use Rattle.std.specs.Prelude.{◌≡◌, ℕ, ◌<◌, ◌≤◌, ◌+◌, ◌^◌, length, slice_index, take, true};
ghost use Rattle.protobuf_parse_base.specs.Characters as char;
ghost use Rattle.protobuf_parse_lexer.specs.Place.{after, step};
ghost use Rattle.protobuf_parse_lexer.specs.Scan.{IsNarrow, IsPlaceBefore, begins_line_comment};
ghost use Rattle.protobuf_parse_lexer.specs.Text.{AllIn, RunStopsAt};
ghost use Rattle.protobuf_parse_lexer.specs.Cut as cut;

use crate::error::{ParserError, ParserErrorWithLocation};
use crate::lexer::bytes::{ByteClass, byte_at, is_in};
use crate::lexer::lanes::{LANES, narrow_run_end};
use crate::lexer::token::{Place, TokenKind};

/// The place after one byte more. The bytes 128 to 191 go on with a character that begins before
/// them.
pub fn step(place: Place, byte: u8) -> Place
    requires line { place.line + 1 < 2 ^ 32 }
    requires col { place.col + 1 < 2 ^ 32 }
    ensures value { result ≡ step place byte }
    ensures line { result.line ≤ place.line + 1 }
    ensures col { result.col ≤ place.col + 1 }
{
    if byte == b'\n' {
        Place {
            line: place.line + 1,
            col: 1,
        }
    } else if byte < 0x80 || 0xc0 <= byte {
        Place {
            line: place.line,
            col: place.col + 1,
        }
    } else {
        place
    }
}

/// The place after these bytes, which begin at `place` and are taken one by one.
#[tactic(auto, using(crate::proofs::Narrow::after_next))]
fn place_after_each(place: Place, bytes: &[u8]) -> Place
    requires line { place.line + length bytes.now < 2 ^ 32 }
    requires col { place.col + length bytes.now < 2 ^ 32 }
    ensures value { result ≡ after place bytes.now }
    ensures line { result.line ≤ place.line + length bytes.now }
    ensures col { result.col ≤ place.col + length bytes.now }
{
    let mut now = place;
    for byte in bytes {
        now = step(now, *byte);
    }
    now
}

/// The place after these bytes, which begin at `place` and are taken in runs.
fn place_after_runs(place: Place, bytes: &[u8]) -> Place
    requires line { place.line + length bytes.now < 2 ^ 32 }
    requires col { place.col + length bytes.now < 2 ^ 32 }
    ensures value { result ≡ after place bytes.now }
    ensures line { result.line ≤ place.line + length bytes.now }
    ensures col { result.col ≤ place.col + length bytes.now }
{
    let mut now = place;
    let mut at = 0;
    while at < bytes.len() {
        let end = narrow_run_end(bytes, at);
        now.col += (end - at) as u32;
        at = end;
        if at < bytes.len() {
            now = step(now, bytes[at]);
            at += 1;
        }
    }
    now
}

/// The place after these bytes, which begin at `place`.
pub fn place_after(place: Place, bytes: &[u8]) -> Place
    requires line { place.line + length bytes.now < 2 ^ 32 }
    requires col { place.col + length bytes.now < 2 ^ 32 }
    ensures value { result ≡ after place bytes.now }
    ensures line { result.line ≤ place.line + length bytes.now }
    ensures col { result.col ≤ place.col + length bytes.now }
{
    if let [b' '] = bytes {
        return Place {
            line: place.line,
            col: place.col + 1,
        };
    }
    if bytes.len() < LANES {
        place_after_each(place, bytes)
    } else {
        place_after_runs(place, bytes)
    }
}

/// The end of the spaces from `at` on.
// Inlined: 2.1 % of the instructions for scalars.
#[inline(always)]
fn spaces_end(bytes: &[u8], at: usize) -> usize
    requires { at ≤ length bytes.now }
    ensures after { at ≤ result }
    ensures within { result ≤ length bytes.now }
    ensures passes { (k : ℕ) → at ≤ k → k < result → slice_index bytes.now k ≡ char.space }
{
    let mut end = at;
    while end < bytes.len() && bytes[end] == b' ' {
        end += 1;
    }
    end
}

/// How many blanks stand at the front of these bytes, which begin at `place`; and the place behind
/// them.
pub fn blanks(place: Place, bytes: &[u8]) -> (usize, Place)
    requires line { place.line + length bytes.now < 2 ^ 32 }
    requires col { place.col + length bytes.now < 2 ^ 32 }
    ensures within { result.0 ≤ length bytes.now }
    ensures each { AllIn ByteClass.Blank bytes.now 0 result.0 }
    ensures stops { RunStopsAt ByteClass.Blank bytes.now result.0 }
    ensures value { result.1 ≡ after place (take result.0 bytes.now) }
    ensures line { result.1.line ≤ place.line + result.0 }
    ensures col { result.1.col ≤ place.col + result.0 }
{
    let mut now = place;
    let mut at = 0;
    'runs: loop {
        let end = spaces_end(bytes, at);
        now.col += (end - at) as u32;
        at = end;
        if at >= bytes.len() || !is_in(ByteClass::Blank, bytes[at]) {
            return (at, now);
        }
        now = step(now, bytes[at]);
        at += 1;
    }
}

/// The place behind blanks or a comment, which begin at `place`. Where a comment ends at a line
/// feed its characters aren't counted, since no column goes on behind it: that spares 3 % of the
/// instructions of files with as many comments as most have.
pub fn place_behind(place: Place, blank: &[u8], rest: &[u8]) -> Place
    requires line { place.line + length blank.now < 2 ^ 32 }
    requires col { place.col + length blank.now < 2 ^ 32 }
    requires comment { begins_line_comment blank.now ≡ true
        → AllIn ByteClass.Line blank.now 0 (length blank.now) }
    ensures value { IsPlaceBefore rest.now (after place blank.now) result }
    ensures line { result.line ≤ place.line + length blank.now }
    ensures col { result.col ≤ place.col + length blank.now }
{
    if byte_at(rest, 0) == b'\n' && begins_line_comment(blank) {
        return place;
    }
    place_after(place, blank)
}

/// Whether a comment up to the end of its line begins there.
fn begins_line_comment(bytes: &[u8]) -> bool
    ensures { result ≡ begins_line_comment bytes.now }
{
    byte_at(bytes, 0) == b'/' && byte_at(bytes, 1) == b'/'
}

/// The place after a token, which begins at `place`. Only strings may have bytes over 127.
pub fn place_past(place: Place, kind: TokenKind, word: &[u8]) -> Place
    requires line { place.line + length word.now < 2 ^ 32 }
    requires col { place.col + length word.now < 2 ^ 32 }
    requires narrow { IsNarrow kind word.now }
    ensures value { result ≡ after place word.now }
    ensures line { result.line ≤ place.line + length word.now }
    ensures col { result.col ≤ place.col + length word.now }
{
    match kind {
        TokenKind::Str | TokenKind::Float => place_after(place, word),
        TokenKind::Ident | TokenKind::Integer(_) | TokenKind::Symbol(_) => Place {
            line: place.line,
            col: place.col + word.len() as u32,
        },
    }
}

/// The error at the place.
pub fn located(error: ParserError, place: Place) -> ParserErrorWithLocation
    ensures { result ≡ cut.located error place }
{
    ParserErrorWithLocation {
        error,
        line: place.line,
        col: place.col,
    }
}
