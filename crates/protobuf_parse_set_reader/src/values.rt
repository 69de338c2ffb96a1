//! Values of fields that are not repeated.

ghost use Rattle.std.specs.Prelude.{◌≡◌, ℤ, Option, option_map, string_bytes};
ghost use Rattle.protobuf_parse_base.specs.DeclaredNames.{name_bytes};
ghost use Rattle.protobuf_parse_records.specs.Views.{record_view};
ghost use Rattle.protobuf_parse_set_reader.specs.Answers.{Gives};
ghost use Rattle.protobuf_parse_set_reader.specs.Bodies.{body_view};
ghost use Rattle.protobuf_parse_set_reader.specs.Values as spec;

use crate::body::{Body, inside_of, last};
use crate::fault::{SetError, SetFaultKind, fault};
use protobuf_parse_base::Name;
use protobuf_parse_records::{Payload, Record};
use std::alloc::Global;
use std::str;

/// The varint that the record holds.
#[tactic(auto, unfolding(crate::specs::Values::number_in))]
fn number_of(record: Record<'_>) -> Result<u64, SetError>
    ensures { Gives (λ n. n) result (spec.number_in (record_view record.entry)) }
{
    match record.payload {
        Payload::Varint(number) => Ok(number),
        _ => Err(fault(record.whole.start, SetFaultKind::WrongWireType)),
    }
}

/// The text that the record holds.
#[tactic(auto, unfolding(crate::specs::Values::text_in))]
pub fn str_of<'a>(record: Record<'a>) -> Result<&'a str, SetError>
    ensures { Gives (λ t. t.now) result (spec.text_in (record_view record.entry)) }
{
    let inside = inside_of(record)?;
    match str::from_utf8(inside.bytes) {
        Ok(text) => Ok(text),
        Err(_) => Err(fault(inside.start, SetFaultKind::NotUtf8)),
    }
}

/// The same with memory of its own.
pub fn text_of(alloc: Global, record: Record<'_>) -> Result<String, SetError>
    ensures { Gives string_bytes result (spec.text_in (record_view record.entry)) }
{
    let text = str_of(record)?;
    Ok(String::from_str(alloc, text)?)
}

/// A text, if there is one.
#[tactic(auto, unfolding(crate::specs::Values::one))]
pub fn text(alloc: Global, body: &Body<'_>, number: u32) -> Result<Option<String>, SetError>
    ensures { Gives (option_map string_bytes) result
        (spec.one spec.text_in number (body_view body.now)) }
{
    match last(body, number) {
        None => Ok(None),
        Some(record) => {
            let text = text_of(alloc, record)?;
            Ok(Some(text))
        }
    }
}

/// A text, which has to be there: the kind of fault says what is missing.
#[tactic(auto, unfolding(crate::specs::Values::one, crate::specs::Values::needed_text))]
pub fn needed_str<'a>(
    body: &Body<'a>,
    number: u32,
    missing: SetFaultKind,
) -> Result<&'a str, SetError>
    ensures { Gives (λ t. t.now) result
        (spec.needed_text missing number (body_view body.now)) }
{
    match last(body, number) {
        Some(record) => str_of(record),
        None => Err(fault(body.start, missing)),
    }
}

/// The same with memory of its own.
pub fn needed_text(
    alloc: Global,
    body: &Body<'_>,
    number: u32,
    missing: SetFaultKind,
) -> Result<String, SetError>
    ensures { Gives string_bytes result (spec.needed_text missing number (body_view body.now)) }
{
    let text = needed_str(body, number, missing)?;
    Ok(String::from_str(alloc, text)?)
}

/// The name of what is declared.
pub fn declared_name(alloc: Global, body: &Body<'_>) -> Result<Name, SetError>
    ensures { Gives name_bytes result
        (spec.needed_text SetFaultKind.NoName 1 (body_view body.now)) }
{
    let name = needed_str(body, 1, SetFaultKind::NoName)?;
    Ok(Name::new(alloc, name)?)
}

/// What the low 32 bits of a varint say.
pub fn int_of_number(number: u64) -> i32
    ensures { result ≡ spec.int_of number }
{
    ((number % (1 << 32)) as u32).cast_signed()
}

/// The `int32` that the record holds.
#[tactic(auto, unfolding(crate::specs::Values::int_in))]
pub fn int_of(record: Record<'_>) -> Result<i32, SetError>
    ensures { Gives (λ v. v) result (spec.int_in (record_view record.entry)) }
{
    let number = number_of(record)?;
    Ok(int_of_number(number))
}

/// An `int32`, if there is one.
#[tactic(auto, unfolding(crate::specs::Values::one))]
pub fn int(body: &Body<'_>, number: u32) -> Result<Option<i32>, SetError>
    ensures { Gives (λ v. v) result (spec.one spec.int_in number (body_view body.now)) }
{
    match last(body, number) {
        None => Ok(None),
        Some(record) => {
            let value = int_of(record)?;
            Ok(Some(value))
        }
    }
}

/// An `int32`, which is 0 where it is missing.
#[tactic(auto, unfolding(crate::specs::Values::one, crate::specs::Values::int_or_zero))]
pub fn int_or_zero(body: &Body<'_>, number: u32) -> Result<i32, SetError>
    ensures { Gives (λ v. v) result (spec.int_or_zero number (body_view body.now)) }
{
    match last(body, number) {
        None => Ok(0),
        Some(record) => int_of(record),
    }
}

/// The truth value that the record holds.
#[tactic(auto, unfolding(crate::specs::Values::flag_in))]
fn flag_of(record: Record<'_>) -> Result<bool, SetError>
    ensures { Gives (λ b. b) result (spec.flag_in (record_view record.entry)) }
{
    let number = number_of(record)?;
    Ok(number > 0)
}

/// A truth value, which is false where it is missing.
#[tactic(auto, unfolding(crate::specs::Values::one, crate::specs::Values::flag_or_false))]
pub fn flag_or_false(body: &Body<'_>, number: u32) -> Result<bool, SetError>
    ensures { Gives (λ b. b) result (spec.flag_or_false number (body_view body.now)) }
{
    match last(body, number) {
        None => Ok(false),
        Some(record) => flag_of(record),
    }
}

/// What is an enum of `descriptor.proto`.
pub trait Choice: Sized + Drop {
    ghost numbered: { ℤ → Option Self };

    /// The value that has the number.
    fn of_number(number: i32) -> Option<Self>
        ensures { result ≡ numbered number };
}

/// The value of an enum that the record holds, or that kind of fault.
#[tactic(auto, unfolding(crate::specs::Values::choice_in))]
pub fn choice_of<C: Choice>(record: Record<'_>, unknown: SetFaultKind) -> Result<C, SetError>
    ensures { Gives (λ x. x) result
        (spec.choice_in unknown C.numbered (record_view record.entry)) }
{
    let number = int_of(record)?;
    match C::of_number(number) {
        Some(value) => Ok(value),
        None => Err(fault(record.whole.start, unknown)),
    }
}

/// A value of an enum, if there is one.
#[tactic(auto, unfolding(crate::specs::Values::one))]
pub fn chosen<C: Choice>(
    body: &Body<'_>,
    number: u32,
    unknown: SetFaultKind,
) -> Result<Option<C>, SetError>
    ensures { Gives (λ x. x) result
        (spec.one (spec.choice_in unknown C.numbered) number (body_view body.now)) }
{
    match last(body, number) {
        None => Ok(None),
        Some(record) => {
            let value = choice_of(record, unknown)?;
            Ok(Some(value))
        }
    }
}
