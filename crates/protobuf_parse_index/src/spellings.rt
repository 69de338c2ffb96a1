//! Names in snake case, lower and upper.

ghost use Rattle.std.specs.Prelude.{◌≡◌, ◌++◌, IfOk, None, OnOk, encode_utf8_all};
ghost use Rattle.std.specs.Prelude.{string_bytes};
ghost use Rattle.std.specs.Str.{chars};
ghost use Rattle.protobuf_parse_index.specs.Held.{spelled_held};
ghost use Rattle.protobuf_parse_index.specs.Spellings as spec;

use std::alloc::{AllocError, Global};

/// The name in lower snake case: `HTTPStatus` and `httpStatus` are `http_status`. A capital begins
/// a word where a small letter stands before it, and where a capital or a digit stands before it
/// and a small letter behind it; an underscore goes before it, and each letter into lower case. All
/// else stays, underscores too, and a name that is spelled so stays as it is. Letters are those of
/// ASCII. The one error is that memory is short.
///
/// `snake_case` of `protobuf_parse` is another: it keeps capitals that follow one another together,
/// so that `HTTPStatus` is `httpstatus`.
pub fn lower_snake_case(alloc: Global, name: &str) -> Result<String, AllocError>
    ensures text { IfOk result (λ text. string_bytes text ≡ spec.lower_snake_case name.now) }
    ensures idempotent { IfOk result
        (λ text. spec.lower_snake_case (string_bytes text) ≡ string_bytes text) }
{
    spelled(alloc, name, false)
}

/// The name in upper snake case, as values of enums have it: `HTTPStatus` is `HTTP_STATUS`. Words
/// begin as in [`lower_snake_case`]. The one error is that memory is short.
pub fn upper_snake_case(alloc: Global, name: &str) -> Result<String, AllocError>
    ensures text { IfOk result (λ text. string_bytes text ≡ spec.upper_snake_case name.now) }
    ensures idempotent { IfOk result
        (λ text. spec.upper_snake_case (string_bytes text) ≡ string_bytes text) }
{
    spelled(alloc, name, true)
}

/// Each character is held back until the next is known.
fn spelled(alloc: Global, name: &str, upper: bool) -> Result<String, AllocError>
    ensures text { IfOk result (λ text. string_bytes text
        ≡ encode_utf8_all (spec.spelled upper None (chars name.now))) }
    ensures idempotent { IfOk result (λ text. encode_utf8_all
        (spec.spelled upper None (chars (string_bytes text))) ≡ string_bytes text) }
{
    let mut text = String::with_capacity(alloc, name.len())?;
    let mut before = None;
    let mut held = None;
    'characters: for character in name.chars() {
        push_held(&mut text, upper, before, held, Some(character))?;
        before = held;
        held = Some(character);
    }
    push_held(&mut text, upper, before, held, None)?;
    Ok(text)
}

fn push_held(
    text: &mut String,
    upper: bool,
    before: Option<char>,
    held: Option<char>,
    after: Option<char>,
) -> Result<(), AllocError>
    ensures { OnOk result (string_bytes text.new ≡ string_bytes text.old
        ++ encode_utf8_all (spelled_held upper before held after)) }
{
    match held {
        Some(character) => push_one(text, upper, before, character, after),
        None => Ok(()),
    }
}

fn push_one(
    text: &mut String,
    upper: bool,
    before: Option<char>,
    character: char,
    after: Option<char>,
) -> Result<(), AllocError>
    ensures { OnOk result (string_bytes text.new ≡ string_bytes text.old
        ++ encode_utf8_all (spec.spelled_one upper before character after)) }
{
    if begins_word(before, character, after) {
        text.push('_')?;
    }
    text.push(in_case(upper, character))
}

fn in_case(upper: bool, character: char) -> char
    ensures { result ≡ spec.in_case upper character }
{
    if upper {
        character.to_ascii_uppercase()
    } else {
        character.to_ascii_lowercase()
    }
}

fn begins_word(before: Option<char>, character: char, after: Option<char>) -> bool
    ensures { result ≡ spec.begins_word before character after }
{
    match before {
        Some(before) => {
            character.is_ascii_uppercase()
                && (before.is_ascii_lowercase()
                    || (before.is_ascii_uppercase() || before.is_ascii_digit()) && is_small(after))
        }
        None => false,
    }
}

fn is_small(character: Option<char>) -> bool
    ensures { result ≡ spec.is_small character }
{
    match character {
        Some(character) => character.is_ascii_lowercase(),
        None => false,
    }
}
