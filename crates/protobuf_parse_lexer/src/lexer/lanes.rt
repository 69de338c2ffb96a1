//! Runs of bytes, sixteen at a time.

ghost use Rattle.std.specs.Prelude.{◌≡◌, ◌<◌, ◌+◌, ◌≤◌, false, length, slice_index};
ghost use Rattle.protobuf_parse_lexer.specs.Scan as scan;
ghost use Rattle.protobuf_parse_lexer.specs.Scan.{AllPass, IsRunIn, is_narrow};
ghost use Rattle.protobuf_parse_lexer.specs.Text as text;

use crate::lexer::bytes::{ByteClass, run_end};
use std::simd::prelude::*;

/// How many bytes are looked at together.
pub const LANES: usize = 16;

/// The number of the lowest bit that is set, or the number of lanes.
fn first_set(mask: u64, lanes: usize) -> usize
    ensures { result ≡ scan.first_set mask lanes }
{
    if mask == 0 {
        lanes
    } else {
        mask.trailing_zeros() as usize
    }
}

/// How many of the next bytes, from the first, stand in identifiers.
fn ident_run(bytes: &[u8], at: usize) -> usize
    requires { at + LANES ≤ length bytes.now }
    ensures { IsRunIn (text.is_in ByteClass.Ident) bytes.now at LANES result }
{
    let next = u8x16::from_slice(&bytes[at..]);
    let from_a = (next | u8x16::splat(0x20)) - u8x16::splat(b'a');
    let from_0 = next - u8x16::splat(b'0');
    let is_other = from_a.simd_ge(u8x16::splat(26)) & from_0.simd_ge(u8x16::splat(10));
    let stops = is_other & next.simd_ne(u8x16::splat(b'_'));
    first_set(stops.to_bitmask(), LANES)
}

/// The end of the identifier's bytes from `at` on. Most have less than sixteen, and are looked at
/// before there is a loop.
pub fn ident_run_end(bytes: &[u8], at: usize) -> usize
    requires { at ≤ length bytes.now }
    ensures after { at ≤ result }
    ensures within { result ≤ length bytes.now }
    ensures passes { text.AllIn ByteClass.Ident bytes.now at result }
    ensures stops { text.RunStopsAt ByteClass.Ident bytes.now result }
{
    let mut end = at;
    if bytes.len() - end >= LANES {
        let run = ident_run(bytes, end);
        if run < LANES {
            return end + run;
        }
        end += LANES;
    }
    'by_block: while bytes.len() - end >= LANES {
        let run = ident_run(bytes, end);
        if run < LANES {
            return end + run;
        }
        end += LANES;
    }
    run_end(ByteClass::Ident, bytes, end)
}

/// How many of the next bytes, from the first, are no line feed.
fn line_run(bytes: &[u8], at: usize) -> usize
    requires { at + LANES ≤ length bytes.now }
    ensures { IsRunIn (text.is_in ByteClass.Line) bytes.now at LANES result }
{
    let stops = u8x16::from_slice(&bytes[at..]).simd_eq(u8x16::splat(b'\n'));
    first_set(stops.to_bitmask(), LANES)
}

/// The end of the line's bytes from `at` on.
pub fn line_run_end(bytes: &[u8], at: usize) -> usize
    requires { at ≤ length bytes.now }
    ensures after { at ≤ result }
    ensures within { result ≤ length bytes.now }
    ensures passes { text.AllIn ByteClass.Line bytes.now at result }
    ensures stops { text.RunStopsAt ByteClass.Line bytes.now result }
{
    let mut end = at;
    'by_block: while bytes.len() - end >= LANES {
        let run = line_run(bytes, end);
        if run < LANES {
            return end + run;
        }
        end += LANES;
    }
    run_end(ByteClass::Line, bytes, end)
}

/// How many of the next bytes, from the first, are narrow.
fn narrow_run(bytes: &[u8], at: usize) -> usize
    requires { at + LANES ≤ length bytes.now }
    ensures { IsRunIn is_narrow bytes.now at LANES result }
{
    let next = u8x16::from_slice(&bytes[at..]);
    let stops = next.simd_ge(u8x16::splat(0x80)) | next.simd_eq(u8x16::splat(b'\n'));
    first_set(stops.to_bitmask(), LANES)
}

/// The end of the narrow bytes from `at` on: no line feed, and no byte of a longer character.
pub fn narrow_run_end(bytes: &[u8], at: usize) -> usize
    requires { at ≤ length bytes.now }
    ensures after { at ≤ result }
    ensures within { result ≤ length bytes.now }
    ensures passes { AllPass is_narrow bytes.now at result }
    ensures stops { result < length bytes.now → is_narrow (slice_index bytes.now result) ≡ false }
{
    let mut end = at;
    'by_block: while bytes.len() - end >= LANES {
        let run = narrow_run(bytes, end);
        if run < LANES {
            return end + run;
        }
        end += LANES;
    }
    while end < bytes.len() && bytes[end] < 0x80 && bytes[end] != b'\n' {
        end += 1;
    }
    end
}
