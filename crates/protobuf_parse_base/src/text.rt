//! Spellings of names, and bytes as the inside of a string literal.
ghost use Rattle.std.specs.Prelude.{◌≡◌, ◌==◌, ◌&&◌, ◌<◌, ◌+◌, [], ◌∷◌, ◌++◌, false, IfOk, OnOk};
ghost use Rattle.std.specs.Prelude.{encode_utf8_all, if◌then◌else◌, ◌≤◌, length};
ghost use Rattle.std.specs.Prelude.{take, drop, slice_index};
ghost use Rattle.std.specs.Char.{is_ascii_uppercase, to_ascii_lowercase};
ghost use Rattle.std.specs.String.{string_bytes};
ghost use Rattle.std.specs.Str.{chars, IsUtf8};
ghost use Rattle.protobuf_parse_base.specs.Characters as char;
ghost use Rattle.protobuf_parse_base.specs.DeclaredNames.{name_bytes};
ghost use Rattle.protobuf_parse_base.specs.Cases.{camel_case_text, json_name_text, snake_case_text};
ghost use Rattle.protobuf_parse_base.specs.Cases.{joined_words, has_underscore};
ghost use Rattle.protobuf_parse_base.specs.Escapes.{escaped_byte, escaped_bytes, said_bytes};

use crate::name::{IN_PLACE, Name};
use arrayvec::ArrayVec;
use std::alloc::{AllocError, Global};
use std::str;
use ucd_derived::is_lowercase;

/// The name in camel case: without underscores, and with its first character and each that directly
/// followed an underscore in ASCII upper case. The one error is that memory is short.
pub fn camel_case(alloc: Global, name: &str) -> Result<String, AllocError>
    ensures text { IfOk result (λ camel. string_bytes camel ≡ camel_case_text name.now) }
    ensures no_underscore { IfOk result
        (λ camel. has_underscore (chars (string_bytes camel)) ≡ false) }
    ensures idempotent { IfOk result
        (λ camel. camel_case_text (string_bytes camel) ≡ string_bytes camel) }
{
    join_words(alloc, name, true, 0)
}

/// The name in camel case, as `camel_case` makes it, and more behind it. Room is asked for both at
/// once. The one error is that memory is short.
pub fn camel_case_and(alloc: Global, name: &str, more: &str) -> Result<String, AllocError>
    ensures { IfOk result (λ both. string_bytes both ≡ camel_case_text name.now ++ more.now) }
{
    let mut both = join_words(alloc, name, true, more.len())?;
    both.push_str(more)?;
    Ok(both)
}

/// The name that a field has in JSON by default: without underscores, each character that directly
/// followed one in ASCII upper case. The one error is that memory is short.
///
/// See the Protocol Buffers Language Guide, "ProtoJSON Format" (<https://protobuf.dev>).
pub fn json_name(alloc: Global, name: &str) -> Result<Name, AllocError>
    ensures { IfOk result (λ json. name_bytes json ≡ json_name_text name.now) }
{
    let front = before_underscore(name.as_bytes());
    if front == name.len() {
        return Name::new(alloc, name);
    }
    let mut short = ArrayVec::<u8, IN_PLACE>::new();
    if short.try_extend_from_slice(name.as_bytes()).is_err() {
        return Ok(Name::from(join_words(alloc, name, false, 0)?));
    }
    json_name_in_place(alloc, short.as_mut_slice(), front)
}

/// The same of the bytes of a name, in their place. The first `front` bytes stay where they are.
fn json_name_in_place(alloc: Global, bytes: &mut [u8], front: usize) -> Result<Name, AllocError>
    requires text { IsUtf8 bytes.old }
    requires within { front ≤ length bytes.old }
    requires kept { take front bytes.old ++ joined_words false (drop front bytes.old)
        ≡ joined_words false bytes.old }
    ensures { IfOk result (λ json. name_bytes json ≡ json_name_text bytes.old) }
{
    let kept = join_in_place(bytes, front, false);
    // Those of a text become a text, so they need not be gone through once more.
    Name::new(alloc, unsafe { str::from_utf8_unchecked(&bytes[..kept]) })
}

/// The name without underscores, each character that directly followed one in ASCII upper case, and
/// the first that remains too if `raise` is set, with room for so many bytes behind it.
fn join_words(alloc: Global, name: &str, raise: bool, room: usize) -> Result<String, AllocError>
    ensures { IfOk result
        (λ joined. string_bytes joined ≡ encode_utf8_all (joined_words raise (chars name.now))) }
{
    let joined = join_bytes(alloc, name.as_bytes(), raise, room)?;
    // Those of a text become a text, so they need not be gone through once more.
    Ok(unsafe { String::from_utf8_unchecked(joined) })
}

/// The same on the bytes of a name, since only those of ASCII are an underscore or change.
fn join_bytes(alloc: Global, name: &[u8], raise: bool, room: usize) -> Result<Vec<u8>, AllocError>
    ensures { IfOk result (λ joined. joined.items ≡ joined_words raise name.now) }
{
    let mut joined = Vec::with_capacity(alloc, name.len().saturating_add(room))?;
    joined.extend_from_slice(name)?;
    let kept = join_in_place(&mut joined, 0, raise);
    joined.truncate(kept);
    Ok(joined)
}

/// Moves what the bytes of a name become to their front, and gives its length. The first `front`
/// bytes stay where they are.
fn join_in_place(bytes: &mut [u8], front: usize, raise: bool) -> usize
    requires within { front ≤ length bytes.old }
    requires kept { take front bytes.old ++ joined_words raise (drop front bytes.old)
        ≡ joined_words raise bytes.old }
    ensures within { result ≤ length bytes.new }
    ensures value { take result bytes.new ≡ joined_words raise bytes.old }
{
    let mut kept = front;
    let mut raise_next = raise;
    for i in front..bytes.len() {
        let byte = bytes[i];
        if byte == b'_' {
            raise_next = true;
        } else if raise_next {
            bytes[kept] = byte.to_ascii_uppercase();
            kept += 1;
            raise_next = false;
        } else {
            bytes[kept] = byte;
            kept += 1;
        }
    }
    kept
}

/// How many bytes stand before the first underscore: all of them, if there is none. None of those
/// changes, where the first is not raised.
fn before_underscore(bytes: &[u8]) -> usize
    ensures within { result ≤ length bytes.now }
    ensures none { has_underscore (take result bytes.now) ≡ false }
    ensures first { result < length bytes.now → slice_index bytes.now result ≡ char.underscore }
    ensures kept { take result bytes.now ++ joined_words false (drop result bytes.now)
        ≡ joined_words false bytes.now }
{
    let mut kept = 0;
    'first: while kept < bytes.len() && bytes[kept] != b'_' {
        kept += 1;
    }
    kept
}

/// The name in snake case: each character in ASCII lower case, with an underscore before an ASCII
/// capital whose preceding character has the Unicode property Lowercase. The one error is that
/// memory is short.
pub fn snake_case(alloc: Global, name: &str) -> Result<String, AllocError>
    ensures text { IfOk result (λ snake. string_bytes snake ≡ snake_case_text name.now) }
    ensures idempotent { IfOk result
        (λ snake. snake_case_text (string_bytes snake) ≡ string_bytes snake) }
{
    let mut split = String::with_capacity(alloc, name.len())?;
    let mut after_lower = false;
    for character in name.chars() {
        push_lowered(&mut split, after_lower, character)?;
        after_lower = is_lowercase(character);
    }
    Ok(split)
}

/// Adds a character in ASCII lower case, after an underscore if it is a capital that follows a
/// character with the property Lowercase.
fn push_lowered(split: &mut String, after_lower: bool, character: char) -> Result<(), AllocError>
    ensures { OnOk result (string_bytes split.new ≡ string_bytes split.old ++ encode_utf8_all
        ((if after_lower && is_ascii_uppercase character then char.underscore ∷ [] else [])
        ++ to_ascii_lowercase character ∷ [])) }
{
    if after_lower && character.is_ascii_uppercase() {
        split.push('_')?;
    }
    split.push(character.to_ascii_lowercase())
}

/// The bytes as the inside of a string literal. The one error is that memory is short.
///
/// See the Protocol Buffers Language Specification, "String literals" (<https://protobuf.dev>).
pub fn escape_bytes(alloc: Global, bytes: &[u8]) -> Result<String, AllocError>
    ensures text { IfOk result (λ escaped. string_bytes escaped ≡ escaped_bytes bytes.now) }
    ensures said { IfOk result (λ escaped. said_bytes (string_bytes escaped) ≡ bytes.now) }
{
    let mut escaped = String::with_capacity(alloc, bytes.len())?;
    for byte in bytes {
        escape_byte(&mut escaped, *byte)?;
    }
    Ok(escaped)
}

/// Adds one byte of a string literal's inside.
fn escape_byte(escaped: &mut String, byte: u8) -> Result<(), AllocError>
    ensures { OnOk result
        (string_bytes escaped.new ≡ string_bytes escaped.old ++ escaped_byte byte) }
{
    match byte {
        b'\n' => escaped.push_str("\\n"),
        b'\r' => escaped.push_str("\\r"),
        b'\t' => escaped.push_str("\\t"),
        b'"' => escaped.push_str("\\\""),
        b'\'' => escaped.push_str("\\'"),
        b'\\' => escaped.push_str("\\\\"),
        0x20..=0x7e => escaped.push(char::from(byte)),
        _ => {
            escaped.push('\\')?;
            escaped.push(octal_digit(byte / 64))?;
            escaped.push(octal_digit(byte / 8 % 8))?;
            escaped.push(octal_digit(byte % 8))
        }
    }
}

/// The character of an octal digit.
fn octal_digit(digit: u8) -> char
    requires { digit < 8 }
    ensures { result ≡ char.zero + digit }
{
    char::from(b'0' + digit)
}
