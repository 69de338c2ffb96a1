//! The records of a message, which are asked for by their numbers.

ghost use Rattle.std.specs.Prelude.{◌≡◌};
ghost use Rattle.std.specs.Prelude.{map};
ghost use Rattle.protobuf_parse_records.specs.Views.{record_view, span_view};
ghost use Rattle.protobuf_parse_set_reader.specs.Answers.{Gives};
ghost use Rattle.protobuf_parse_set_reader.specs.Bodies.{body_view, record_seen};
ghost use Rattle.protobuf_parse_set_reader.specs.Values as spec;

use crate::fault::{SetError, SetFaultKind, fault};
use protobuf_parse_records::{Payload, Record, Span, records_in};
use std::alloc::Global;

/// A message, one level deep.
#[derive(Drop)]
pub struct Body<'a> {
    /// The offset of its first byte.
    pub start: usize,
    pub records: Vec<Record<'a>>,
}

/// The message that the bytes are.
#[tactic(auto, unfolding(crate::specs::Values::body_of))]
pub fn body_of<'a>(alloc: Global, span: Span<'a>) -> Result<Body<'a>, SetError>
    ensures { Gives body_view result (spec.body_of (span_view span.entry)) }
{
    let records = records_in(alloc, span)?;
    Ok(Body {
        start: span.start,
        records,
    })
}

/// The last record with that number.
pub fn last<'a>(body: &Body<'a>, number: u32) -> Option<Record<'a>>
    ensures { record_seen result ≡ spec.last_of number (body_view body.now) }
{
    let mut last = None;
    for record in &body.records {
        if record.number == number {
            last = Some(*record);
        }
    }
    last
}

/// The bytes that the record holds behind their length.
#[tactic(auto, unfolding(crate::specs::Values::inside_in))]
pub fn inside_of<'a>(record: Record<'a>) -> Result<Span<'a>, SetError>
    ensures { Gives span_view result (spec.inside_in (record_view record.entry)) }
{
    match record.payload {
        Payload::Delimited(span) => Ok(span),
        _ => Err(fault(record.whole.start, SetFaultKind::WrongWireType)),
    }
}

/// The message that the record holds.
#[tactic(auto, unfolding(crate::specs::Values::body_in))]
pub fn body_inside<'a>(alloc: Global, record: Record<'a>) -> Result<Body<'a>, SetError>
    ensures { Gives body_view result (spec.body_in (record_view record.entry)) }
{
    let inside = inside_of(record)?;
    body_of(alloc, inside)
}
