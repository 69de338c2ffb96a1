//! Tags.

ghost use Rattle.std.specs.Prelude.{◌≡◌, ◌<◌, length, IfOk};
ghost use Rattle.protobuf_parse_records.specs.Views.{span_view};
ghost use Rattle.protobuf_parse_records.specs.Wire as spec;
ghost use Rattle.protobuf_parse_records.specs.Wire.{Gives};

use crate::fault::{Fault, FaultKind, RecordsError};
use crate::span::Span;
use crate::values::varint;
use crate::wire::WireType;

/// A field's number, a wire type, and what stands behind the tag that says both.
#[tactic(auto, unfolding(crate::specs::Wire::tag_at))]
pub fn tag(span: Span<'_>) -> Result<(u32, WireType, Span<'_>), RecordsError>
    ensures gives { Gives (λ x. ((x.0, x.1), span_view x.2)) result
        (spec.tag_at (span_view span.entry)) }
    ensures shorter { IfOk result (λ x. length x.2.bytes.now < length span.entry.bytes.now) }
{
    let (tag, rest) = varint(span)?;
    let number = tag / 8;
    if number == 0 || number >= 1 << 29 {
        return Err(RecordsError::Fault(Fault {
            at: span.start,
            kind: FaultKind::BadFieldNumber,
        }));
    }
    match wire_type(tag % 8) {
        Some(wire_type) => Ok((number as u32, wire_type, rest)),
        None => Err(RecordsError::Fault(Fault {
            at: span.start,
            kind: FaultKind::BadWireType,
        })),
    }
}

#[tactic(auto, unfolding(crate::specs::Wire::wire_type))]
fn wire_type(bits: u64) -> Option<WireType>
    ensures { result ≡ spec.wire_type bits }
{
    match bits {
        0 => Some(WireType::Varint),
        1 => Some(WireType::Fixed64),
        2 => Some(WireType::Delimited),
        3 => Some(WireType::GroupStart),
        4 => Some(WireType::GroupEnd),
        5 => Some(WireType::Fixed32),
        _ => None,
    }
}
