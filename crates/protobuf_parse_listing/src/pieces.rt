//! What lines are made of.

ghost use Rattle.std.specs.Prelude.{◌≡◌, ◌<◌, ◌≤◌, ◌+◌, ◌*◌, [], ◌∷◌, ◌++◌};
ghost use Rattle.std.specs.Prelude.{drop, flat_map, length, map, option_map, replicate, take};
ghost use Rattle.std.specs.Fmt.{signed_decimal};
ghost use Rattle.std.specs.List.{list_all};
ghost use Rattle.std.specs.String.{string_bytes};
ghost use Rattle.protobuf_parse_base.specs.Characters as char;
ghost use Rattle.protobuf_parse_base.specs.Escapes.{escaped_bytes};
ghost use Rattle.protobuf_parse_listing.specs.Listing as spec;
ghost use Rattle.protobuf_parse_listing.specs.Puts.{Puts};
ghost use Rattle.protobuf_parse_listing.specs.Unescaped as unescaped;

use itoa::Buffer;
use protobuf_parse_base::text::escape_bytes;
use std::alloc::{AllocError, Global};
use std::simd::prelude::*;

// How many bytes are printable in ASCII, the first of them the space.
const PRINTABLE: u8 = b'~' - b' ' + 1;

// Each byte that is not escaped stands at its own index, and an apostrophe at every other.
static UNESCAPED_MAP: [u8; 256] = *b"\
    ''''''''''''''''''''''''''''''''\
    \x20!'#$%&'()*+,-./0123456789:;<=>?\
    @ABCDEFGHIJKLMNOPQRSTUVWXYZ[']^_\
    `abcdefghijklmnopqrstuvwxyz{|}~'\
    ''''''''''''''''''''''''''''''''\
    ''''''''''''''''''''''''''''''''\
    ''''''''''''''''''''''''''''''''\
    ''''''''''''''''''''''''''''''''";

/// A line of two parts.
pub fn put_line(text: &mut String, level: usize, words: &str, rest: &str) -> Result<(), AllocError>
    ensures { Puts result text.old text.new (spec.line level (words.now ++ rest.now)) }
{
    begin_line(text, level, words)?;
    text.push_str(rest)?;
    end_line(text)
}

/// The first words of a line.
pub fn begin_line(text: &mut String, level: usize, words: &str) -> Result<(), AllocError>
    ensures { Puts result text.old text.new (replicate (2 * level) char.space ++ words.now) }
{
    put_indent(text, level)?;
    text.push_str(words)
}

/// The end of a line.
pub fn end_line(text: &mut String) -> Result<(), AllocError>
    ensures { Puts result text.old text.new (char.newline ∷ []) }
{
    text.push('\n')
}

/// A line with these first words, and with the text where there is one.
pub fn put_optional_line(
    text: &mut String,
    level: usize,
    words: &str,
    rest: &Option<String>,
) -> Result<(), AllocError>
    ensures { Puts result text.old text.new
        (spec.line level (words.now ++ spec.text_or_nothing (option_map string_bytes rest.now))) }
{
    match rest {
        Some(rest) => put_line(text, level, words, rest),
        None => put_line(text, level, words, ""),
    }
}

/// A line with these first words and the text, where there is one.
pub fn put_line_if_some(
    text: &mut String,
    level: usize,
    words: &str,
    rest: &Option<String>,
) -> Result<(), AllocError>
    ensures { Puts result text.old text.new
        (spec.line_if_some level words.now (option_map string_bytes rest.now)) }
{
    match rest {
        Some(rest) => put_line(text, level, words, rest),
        None => Ok(()),
    }
}

/// A line with these first words and two numbers.
#[tactic(auto, unfolding(crate::specs::Listing::range_line))]
pub fn put_range_line(
    text: &mut String,
    level: usize,
    words: &str,
    start: &i32,
    end: &i32,
) -> Result<(), AllocError>
    ensures { Puts result text.old text.new
        (spec.range_line level words.now (record { start = start.now; end = end.now })) }
{
    begin_line(text, level, words)?;
    put_range_words(text, *start, *end)?;
    end_line(text)
}

/// Two numbers with a space between them.
fn put_range_words(text: &mut String, start: i32, end: i32) -> Result<(), AllocError>
    ensures { Puts result text.old text.new (spec.range_words start end) }
{
    put_number(text, start)?;
    text.push(' ')?;
    put_number(text, end)
}

/// The number in decimal digits: most have one.
// Inlined: 0.9 % of the instructions for scalars.
#[inline(always)]
#[tactic(auto, using(std::proofs::lemmas::Fmt::decimal_digit))]
pub fn put_number(text: &mut String, number: i32) -> Result<(), AllocError>
    ensures { Puts result text.old text.new (signed_decimal number) }
{
    let magnitude = number.unsigned_abs();
    if number >= 0 && magnitude < 10 {
        return text.push(char::from(b'0' + magnitude as u8));
    }
    let mut digits = Buffer::new();
    text.push_str(digits.format(number))
}

/// Two spaces for each level.
fn put_indent(text: &mut String, level: usize) -> Result<(), AllocError>
    ensures { Puts result text.old text.new (replicate (2 * level) char.space) }
{
    for done in 0..level {
        text.push_str("  ")?;
    }
    Ok(())
}

/// The words in double quotes, escaped.
#[tactic(auto, unfolding(crate::specs::Listing::quoted))]
pub fn put_quoted(alloc: Global, text: &mut String, words: &str) -> Result<(), AllocError>
    ensures { Puts result text.old text.new (spec.quoted words.now) }
{
    text.push('"')?;
    end_quoted(alloc, text, words)
}

/// The words as they are escaped between double quotes, and the closing one.
// Inlined: 1.3 % of the instructions for scalars.
#[inline(always)]
pub fn end_quoted(alloc: Global, text: &mut String, words: &str) -> Result<(), AllocError>
    ensures { Puts result text.old text.new (escaped_bytes words.now ++ char.quote ∷ []) }
{
    put_escaped(alloc, text, words)?;
    text.push('"')
}

/// The words as they are escaped between double quotes: most as they are.
// Inlined: 1.3 % of the instructions for scalars.
#[inline(always)]
fn put_escaped(alloc: Global, text: &mut String, words: &str) -> Result<(), AllocError>
    ensures { Puts result text.old text.new (escaped_bytes words.now) }
{
    if is_unescaped(words) {
        text.push_str(words)
    } else {
        put_escapes(alloc, text, words)
    }
}

/// The same where some byte is escaped: apart, so that the room of this is not cleared for each
/// name.
fn put_escapes(alloc: Global, text: &mut String, words: &str) -> Result<(), AllocError>
    ensures { Puts result text.old text.new (escaped_bytes words.now) }
{
    let escaped = escape_bytes(alloc, words.as_bytes())?;
    text.push_str(&escaped)
}

/// Whether each byte stands between double quotes as it is: in short words one by one.
fn is_unescaped(words: &str) -> bool
    ensures { result ≡ list_all unescaped.is_unescaped_byte words.now }
{
    let bytes = words.as_bytes();
    if bytes.len() >= 16 {
        return are_unescaped::<16>(bytes);
    }
    if bytes.len() >= 8 {
        return are_unescaped::<8>(bytes);
    }
    bytes.iter().all(|byte| is_unescaped_byte(*byte))
}

/// The same, N bytes at a time. The last N are looked at together, even if some of them were
/// before.
fn are_unescaped<const N: usize>(bytes: &[u8]) -> bool
    requires lanes { (0 < N) × (N ≤ 64) }
    requires long { N ≤ length bytes.now }
    ensures { result ≡ list_all unescaped.is_unescaped_byte bytes.now }
{
    let last = bytes.len() - N;
    let mut at = 0;
    'by_run: while at < last {
        if !is_unescaped_run::<N>(bytes, at) {
            return false;
        }
        at += N;
    }
    is_unescaped_run::<N>(bytes, last)
}

fn is_unescaped_run<const N: usize>(bytes: &[u8], at: usize) -> bool
    requires lanes { N ≤ 64 }
    requires room { at + N ≤ length bytes.now }
    ensures { result ≡ list_all unescaped.is_unescaped_byte (take N (drop at bytes.now)) }
{
    let next = Simd::<u8, N>::from_slice(&bytes[at..]);
    let from_space = next - Simd::splat(b' ');
    let stops = from_space.simd_ge(Simd::splat(PRINTABLE))
        | next.simd_eq(Simd::splat(b'"'))
        | next.simd_eq(Simd::splat(b'\''))
        | next.simd_eq(Simd::splat(b'\\'));
    stops.to_bitmask() == 0
}

fn is_unescaped_byte(byte: u8) -> bool
    ensures { result ≡ unescaped.is_unescaped_byte byte }
{
    UNESCAPED_MAP[byte as usize] != b'\''
}

/// A line `reserved_name "N"` each.
pub fn put_reserved_names(
    alloc: Global,
    text: &mut String,
    level: usize,
    names: &[String],
) -> Result<(), AllocError>
    ensures { Puts result text.old text.new
        (flat_map (spec.reserved_name_line level) (map string_bytes names.now)) }
{
    for name in names {
        put_reserved_name(alloc, text, level, name)?;
    }
    Ok(())
}

#[tactic(auto, unfolding(crate::specs::Listing::reserved_name_line))]
fn put_reserved_name(
    alloc: Global,
    text: &mut String,
    level: usize,
    name: &str,
) -> Result<(), AllocError>
    ensures { Puts result text.old text.new (spec.reserved_name_line level name.now) }
{
    begin_line(text, level, "reserved_name \"")?;
    end_quoted(alloc, text, name)?;
    end_line(text)
}
