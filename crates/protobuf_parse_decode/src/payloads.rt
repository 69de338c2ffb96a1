//! What a payload means that holds no message.

ghost use Rattle.std.specs.Prelude.{◌≡◌, IsSome};
ghost use Rattle.protobuf_parse_records.specs.Views.{payload_view};
ghost use Rattle.protobuf_parse_decode.specs.Answers.{Gives};
ghost use Rattle.protobuf_parse_decode.specs.Decoding as spec;
ghost use Rattle.protobuf_parse_decode.specs.Fields.{one_value};
ghost use Rattle.protobuf_parse_decode.specs.Parts.{numbers_meant, says_of, words_of_type};
ghost use Rattle.protobuf_parse_decode.specs.Inside.{meaning_view, value_view, word_view};

use crate::fault::{DecodeError, DecodeFaultKind, fault};
use crate::field::{Meaning, Value};
use crate::numbers::{Word, value_of, word_of};
use crate::packed::packed;
use protobuf_parse_model::FieldType;
use protobuf_parse_records::Payload;
use std::alloc::Global;
use std::str;

/// One value.
pub fn one<'a>(alloc: Global, value: Value<'a>) -> Result<Meaning<'a>, DecodeError>
    ensures { Gives meaning_view result (Ok (one_value (value_view value.entry))) }
{
    let mut values = Vec::new(alloc);
    values.push(value)?;
    Ok(Meaning::Known(values))
}

/// A string, which has to be UTF-8 or not.
pub fn string_of<'a>(
    alloc: Global,
    utf8: bool,
    payload: Payload<'a>,
) -> Result<Meaning<'a>, DecodeError>
    ensures { Gives meaning_view result (spec.string_in utf8 (payload_view payload.entry)) }
{
    if utf8 {
        text_of(alloc, payload)
    } else {
        bytes_of(alloc, payload)
    }
}

/// A string that is UTF-8.
fn text_of<'a>(alloc: Global, payload: Payload<'a>) -> Result<Meaning<'a>, DecodeError>
    ensures { Gives meaning_view result (spec.text_in (payload_view payload.entry)) }
{
    match payload {
        Payload::Delimited(span) => match str::from_utf8(span.bytes) {
            Ok(text) => one(alloc, Value::Text(text)),
            Err(_) => Err(fault(span.start, DecodeFaultKind::NotUtf8)),
        },
        _ => Ok(Meaning::Unknown),
    }
}

/// Bytes behind their length.
pub fn bytes_of<'a>(alloc: Global, payload: Payload<'a>) -> Result<Meaning<'a>, DecodeError>
    ensures { Gives meaning_view result (spec.bytes_in (payload_view payload.entry)) }
{
    match payload {
        Payload::Delimited(span) => one(alloc, Value::Bytes(span.bytes)),
        _ => Ok(Meaning::Unknown),
    }
}

/// Numbers or truth values.
pub fn numbers_of<'a>(
    alloc: Global,
    field_type: FieldType,
    repeated: bool,
    payload: Payload<'a>,
) -> Result<Meaning<'a>, DecodeError>
    requires { IsSome (words_of_type field_type) }
    ensures { Gives meaning_view result
        (numbers_meant (words_of_type field_type) repeated
        (payload_view payload.entry)) }
{
    match word_of(field_type) {
        Some(expected) => words_of(alloc, field_type, expected, repeated, payload),
        None => Ok(Meaning::Unknown),
    }
}

fn words_of<'a>(
    alloc: Global,
    field_type: FieldType,
    expected: Word,
    repeated: bool,
    payload: Payload<'a>,
) -> Result<Meaning<'a>, DecodeError>
    requires { IsSome (words_of_type field_type) }
    ensures { Gives meaning_view result
        (spec.numbers_in (word_view expected) (says_of (words_of_type field_type))
        repeated (payload_view payload.entry)) }
{
    match payload {
        Payload::Varint(number) => one_word(alloc, field_type, expected, Word::Varint, number),
        Payload::Fixed64(number) => one_word(alloc, field_type, expected, Word::EightBytes, number),
        Payload::Fixed32(number) => {
            one_word(
                alloc,
                field_type,
                expected,
                Word::FourBytes,
                u64::from(number),
            )
        }
        Payload::Delimited(span) => {
            if !repeated {
                return Ok(Meaning::Unknown);
            }
            let values = packed(alloc, field_type, expected, span)?;
            Ok(Meaning::Known(values))
        }
        Payload::Group(_) => Ok(Meaning::Unknown),
    }
}

/// One number, if it stands as numbers of the type do.
fn one_word<'a>(
    alloc: Global,
    field_type: FieldType,
    expected: Word,
    found: Word,
    number: u64,
) -> Result<Meaning<'a>, DecodeError>
    requires { IsSome (words_of_type field_type) }
    ensures { Gives meaning_view result
        (spec.if_same (spec.same_word (word_view expected) (word_view found))
        (says_of (words_of_type field_type) number)) }
{
    if expected != found {
        return Ok(Meaning::Unknown);
    }
    one(alloc, value_of(field_type, number))
}
