//! Values of repeated fields.

ghost use Rattle.std.specs.Prelude.{◌≡◌, map, string_bytes};
ghost use Rattle.protobuf_parse_records.specs.Views.{record_view, span_view};
ghost use Rattle.protobuf_parse_set_reader.specs.Answers.{Gives};
ghost use Rattle.protobuf_parse_set_reader.specs.Bodies.{body_view};
ghost use Rattle.protobuf_parse_set_reader.specs.Values as spec;

use crate::body::Body;
use crate::fault::SetError;
use crate::values::{int_of, int_of_number, text_of};
use protobuf_parse_records::{Payload, Record, Span, first_varint};
use std::alloc::Global;

/// Texts.
pub fn texts(alloc: Global, body: &Body<'_>, number: u32) -> Result<Vec<String>, SetError>
    ensures { Gives (λ v. map string_bytes v.items) result
        (spec.texts number (body_view body.now)) }
{
    let mut all = Vec::new(alloc);
    for record in &body.records {
        if record.number == number {
            let text = text_of(alloc, *record)?;
            all.push(text)?;
        }
    }
    Ok(all)
}

/// `int32`s, packed ones and others.
pub fn ints(alloc: Global, body: &Body<'_>, number: u32) -> Result<Vec<i32>, SetError>
    ensures { Gives (λ v. v.items) result (spec.ints number (body_view body.now)) }
{
    let mut all = Vec::new(alloc);
    for record in &body.records {
        if record.number == number {
            let mut some = ints_of(alloc, *record)?;
            all.append(&mut some)?;
        }
    }
    Ok(all)
}

/// The `int32`s that the record holds: packed ones, or one.
#[tactic(auto, unfolding(crate::specs::Values::ints_in))]
fn ints_of(alloc: Global, record: Record<'_>) -> Result<Vec<i32>, SetError>
    ensures { Gives (λ v. v.items) result (spec.ints_in (record_view record.entry)) }
{
    match record.payload {
        Payload::Delimited(span) => packed(alloc, span),
        _ => {
            let value = int_of(record)?;
            let mut one = Vec::new(alloc);
            one.push(value)?;
            Ok(one)
        }
    }
}

/// Packed `int32`s.
fn packed(alloc: Global, span: Span<'_>) -> Result<Vec<i32>, SetError>
    ensures { Gives (λ v. v.items) result (spec.packed (span_view span.entry)) }
{
    let mut all = Vec::new(alloc);
    let mut rest = span;
    'numbers: while !rest.bytes.is_empty() {
        let (number, behind) = first_varint(rest)?;
        all.push(int_of_number(number))?;
        rest = behind;
    }
    Ok(all)
}
