//! Single fields: a tag and a value.

ghost use Rattle.std.specs.Prelude.{◌≡◌, ◌++◌, ◌+◌, ◌*◌, OnOk, flat_map, map, option_map};
ghost use Rattle.std.specs.Prelude.{string_bytes};
ghost use Rattle.protobuf_parse_descriptor_set.specs.Items as spec;
ghost use Rattle.protobuf_parse_descriptor_set.specs.Writing.{Writes};
ghost use Rattle.protobuf_parse_wire.specs.Encoded.{varint_of, delimited};

use protobuf_parse_wire::{put_message, put_varint_record};
use std::alloc::AllocError;

/// Adds a field with a text.
#[tactic(auto, using(crate::proofs::Joining::writes_text))]
pub fn put_text(out: &mut Vec<u8>, number: u32, text: &str) -> Result<(), AllocError>
    ensures { OnOk result
        (Writes (spec.text number text.now) out.old.items out.new.items) }
{
    put_bytes(out, number, text.as_bytes())
}

/// Writes the record of bytes, a message or a text.
// Inlined: 2.5 % of the instructions for scalars.
#[inline(always)]
pub fn put_bytes(out: &mut Vec<u8>, number: u32, bytes: &[u8]) -> Result<(), AllocError>
    ensures { OnOk result
        (out.new.items ≡ out.old.items ++ (varint_of (number * 8 + 2) ++ delimited bytes.now)) }
{
    // Mostly tag and length take a byte each.
    if number < 16 && bytes.len() < 128 {
        out.push(number as u8 * 8 + 2)?;
        out.push(bytes.len() as u8)?;
        out.extend_from_slice(bytes)
    } else {
        put_message(out, number, bytes)
    }
}

/// Writes the record of a number.
// Inlined: 2.0 % of the instructions for scalars.
#[inline(always)]
fn put_number(out: &mut Vec<u8>, number: u32, value: u64) -> Result<(), AllocError>
    ensures { OnOk result
        (out.new.items ≡ out.old.items ++ (varint_of (number * 8) ++ varint_of value)) }
{
    // Mostly tag and number take a byte each.
    if number < 16 && value < 128 {
        out.push(number as u8 * 8)?;
        out.push(value as u8)?;
        Ok(())
    } else {
        put_varint_record(out, number, value)
    }
}

/// Adds a field with a text, if there is one.
#[tactic(auto, using(crate::proofs::Joining::none_yet))]
pub fn put_text_if_some(
    out: &mut Vec<u8>,
    number: u32,
    text: &Option<String>,
) -> Result<(), AllocError>
    ensures { OnOk result
        (Writes (spec.some (spec.text number) (option_map string_bytes text.now))
        out.old.items out.new.items) }
{
    match text {
        None => Ok(()),
        Some(text) => put_text(out, number, text),
    }
}

/// Adds a field with a message whose bytes are given, if there is one.
#[tactic(auto, using(crate::proofs::Joining::none_yet, crate::proofs::Joining::writes_whole))]
pub fn put_whole_if_some(
    out: &mut Vec<u8>,
    number: u32,
    message: Option<&[u8]>,
) -> Result<(), AllocError>
    ensures { OnOk result
        (Writes (spec.some (spec.whole number) (option_map (λ b. b.now) message.entry))
        out.old.items out.new.items) }
{
    match message {
        None => Ok(()),
        Some(message) => put_bytes(out, number, message),
    }
}

/// Adds a field with each of the texts.
pub fn put_texts(out: &mut Vec<u8>, number: u32, texts: &[String]) -> Result<(), AllocError>
    ensures { OnOk result
        (Writes (flat_map (spec.text number) (map string_bytes texts.now))
        out.old.items out.new.items) }
{
    for text in texts {
        put_text(out, number, text)?;
    }
    Ok(())
}

/// Adds a field with an `int32`.
#[tactic(auto, using(crate::proofs::Joining::writes_int))]
pub fn put_int(out: &mut Vec<u8>, number: u32, value: &i32) -> Result<(), AllocError>
    ensures { OnOk result (Writes (spec.int number value.now) out.old.items out.new.items) }
{
    put_number(out, number, i64::from(*value).cast_unsigned())
}

/// Adds a field with an `int32`, if there is one.
#[tactic(auto, using(crate::proofs::Joining::none_yet))]
pub fn put_int_if_some(
    out: &mut Vec<u8>,
    number: u32,
    value: &Option<i32>,
) -> Result<(), AllocError>
    ensures { OnOk result
        (Writes (spec.some (spec.int number) value.now)
        out.old.items out.new.items) }
{
    match value {
        None => Ok(()),
        Some(value) => put_int(out, number, value),
    }
}

/// Adds a field with each of the numbers, unpacked.
pub fn put_ints(out: &mut Vec<u8>, number: u32, values: &[i32]) -> Result<(), AllocError>
    ensures { OnOk result
        (Writes (flat_map (spec.int number) values.now)
        out.old.items out.new.items) }
{
    for value in values {
        put_int(out, number, value)?;
    }
    Ok(())
}

/// Writes a value of an enum, by its number.
#[tactic(auto, using(crate::proofs::Joining::writes_choice))]
pub fn put_choice(out: &mut Vec<u8>, number: u32, value: i32) -> Result<(), AllocError>
    ensures { OnOk result (Writes (spec.choice number value) out.old.items out.new.items) }
{
    put_number(out, number, i64::from(value).cast_unsigned())
}

/// Adds a field with a truth value.
#[tactic(auto, using(crate::proofs::Joining::writes_flag))]
pub fn put_flag(out: &mut Vec<u8>, number: u32, value: bool) -> Result<(), AllocError>
    ensures { OnOk result (Writes (spec.flag number value) out.old.items out.new.items) }
{
    put_number(out, number, u64::from(value))
}

/// Adds a field with a truth value, if there is one.
#[tactic(auto, using(crate::proofs::Joining::none_yet))]
pub fn put_flag_if_some(
    out: &mut Vec<u8>,
    number: u32,
    value: Option<bool>,
) -> Result<(), AllocError>
    ensures { OnOk result
        (Writes (spec.some (spec.flag number) value)
        out.old.items out.new.items) }
{
    match value {
        None => Ok(()),
        Some(value) => put_flag(out, number, value),
    }
}

/// Writes what is true.
#[tactic(auto, using(crate::proofs::Joining::none_yet))]
pub fn put_flag_if(out: &mut Vec<u8>, number: u32, value: bool) -> Result<(), AllocError>
    ensures { OnOk result (Writes (spec.flag_if number value) out.old.items out.new.items) }
{
    if value {
        put_flag(out, number, true)
    } else {
        Ok(())
    }
}
