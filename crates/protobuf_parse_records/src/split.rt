//! Records, from left to right.

ghost use Rattle.std.specs.Prelude.{◌≡◌, ◌<◌, ◌≤◌, length, map, IfOk};
ghost use Rattle.protobuf_parse_records.specs.Views.{span_view, payload_view, record_view};
ghost use Rattle.protobuf_parse_records.specs.Splitting as spec;
ghost use Rattle.protobuf_parse_records.specs.Wire.{Gives};

use crate::fault::{Fault, FaultKind, RecordsError};
use crate::group::group_end;
use crate::span::Span;
use crate::tag::tag;
use crate::values::{delimited, fixed32, fixed64, up_to, varint};
use crate::wire::{Payload, Record, WireType};
use std::alloc::Global;

/// The records of a message's bytes, all of them, in order. A delimited payload and a group are
/// bytes still, which `records_in` takes. Groups are passed over up to their ends, and a fault
/// inside one counts, so what a group holds has records.
///
/// The time is in proportion to the bytes.
///
/// Errors: `Fault` where bytes are no records, with the first thing that is wrong, from the left,
/// and its offset; `Memory`.
pub fn records(alloc: Global, bytes: &[u8]) -> Result<Vec<Record<'_>>, RecordsError>
    ensures { Gives (λ v. map record_view v.items) result (spec.records_of bytes.now) }
{
    records_in(alloc, Span { start: 0, bytes })
}

/// The records of a part of a message, as of a payload that is a message or a group. Offsets, of
/// faults as well, are those of the whole message: they count on from the span's own.
///
/// The time is in proportion to the span's bytes. Of groups inside one another each level that is
/// asked for passes over its own inside again, and there are at most 100.
///
/// Errors: as `records`.
pub fn records_in<'a>(alloc: Global, span: Span<'a>) -> Result<Vec<Record<'a>>, RecordsError>
    ensures { Gives (λ v. map record_view v.items) result (spec.records_in (span_view span.entry)) }
{
    let mut found = Vec::new(alloc);
    let mut rest = span;
    'rest: while !rest.bytes.is_empty() {
        let (first, behind) = first_record(alloc, rest)?;
        found.push(first)?;
        rest = behind;
    }
    Ok(found)
}

/// The record at the front, and what stands behind it.
#[tactic(auto, unfolding(crate::specs::Splitting::record_at))]
fn first_record<'a>(alloc: Global, span: Span<'a>) -> Result<(Record<'a>, Span<'a>), RecordsError>
    ensures gives { Gives (λ x. (record_view x.0, span_view x.1)) result
        (spec.record_at (span_view span.entry)) }
    ensures shorter { IfOk result (λ x. length x.1.bytes.now < length span.entry.bytes.now) }
{
    let (number, wire_type, rest) = tag(span)?;
    let (payload, rest) = payload(alloc, span.start, number, wire_type, rest)?;
    let record = Record {
        number,
        whole: up_to(span, rest),
        payload,
    };
    Ok((record, rest))
}

/// The payload behind a tag, which stands at that offset and says that number and wire type.
#[tactic(auto, unfolding(crate::specs::Splitting::payload_at))]
fn payload<'a>(
    alloc: Global,
    tag_start: usize,
    number: u32,
    wire_type: WireType,
    span: Span<'a>,
) -> Result<(Payload<'a>, Span<'a>), RecordsError>
    ensures gives { Gives (λ x. (payload_view x.0, span_view x.1)) result
        (spec.payload_at tag_start number wire_type (span_view span.entry)) }
    ensures within { IfOk result (λ x. length x.1.bytes.now ≤ length span.entry.bytes.now) }
{
    match wire_type {
        WireType::Varint => {
            let (number, rest) = varint(span)?;
            Ok((Payload::Varint(number), rest))
        }
        WireType::Fixed64 => {
            let (number, rest) = fixed64(span)?;
            Ok((Payload::Fixed64(number), rest))
        }
        WireType::Delimited => {
            let (inside, rest) = delimited(span)?;
            Ok((Payload::Delimited(inside), rest))
        }
        WireType::GroupStart => {
            let (end, rest) = group_end(alloc, number, span)?;
            Ok((Payload::Group(up_to(span, end)), rest))
        }
        WireType::GroupEnd => Err(RecordsError::Fault(Fault {
            at: tag_start,
            kind: FaultKind::UnmatchedGroupEnd,
        })),
        WireType::Fixed32 => {
            let (number, rest) = fixed32(span)?;
            Ok((Payload::Fixed32(number), rest))
        }
    }
}
