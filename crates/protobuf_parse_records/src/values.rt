//! Numbers and bytes at the front of a span, and the span behind them.

ghost use Rattle.std.specs.Prelude.{◌≡◌, ◌<◌, ◌≤◌, length, IfOk};
ghost use Rattle.protobuf_parse_records.specs.Views.{span_view};
ghost use Rattle.protobuf_parse_records.specs.Wire as spec;
ghost use Rattle.protobuf_parse_records.specs.Wire.{Gives};

use crate::fault::{Fault, FaultKind, RecordsError};
use crate::span::Span;
use crate::varint::varint_within;

/// How many bytes a varint of 64 bits has at most.
const MOST_VARINT_BYTES: u32 = 10;

/// The span from there on.
fn from_there<'a>(span: Span<'a>, rest: &'a [u8]) -> Span<'a>
    requires { length rest.now ≤ length span.bytes.now }
    ensures { span_view result ≡ spec.behind (span_view span.entry) rest.now }
{
    Span {
        start: span.start + (span.bytes.len() - rest.len()),
        bytes: rest,
    }
}

/// The span up to where that part of it starts.
pub fn up_to<'a>(span: Span<'a>, rest: Span<'a>) -> Span<'a>
    requires { length rest.bytes.now ≤ length span.bytes.now }
    ensures { span_view result ≡ spec.up_to (span_view span.entry) (span_view rest.entry) }
{
    Span {
        start: span.start,
        bytes: &span.bytes[..span.bytes.len() - rest.bytes.len()],
    }
}

/// A varint.
#[tactic(auto, unfolding(crate::specs::Wire::varint_at))]
pub fn varint(span: Span<'_>) -> Result<(u64, Span<'_>), RecordsError>
    ensures gives { Gives (λ x. (x.0, span_view x.1)) result
        (spec.varint_at (span_view span.entry)) }
    ensures shorter { IfOk result (λ x. length x.1.bytes.now < length span.entry.bytes.now) }
{
    match varint_within(MOST_VARINT_BYTES, span.bytes) {
        Err(kind) => Err(RecordsError::Fault(Fault {
            at: span.start,
            kind,
        })),
        Ok((number, rest)) => Ok((number, from_there(span, rest))),
    }
}

/// So many bytes.
#[tactic(auto, unfolding(crate::specs::Wire::bytes_at))]
fn bytes(count: u64, span: Span<'_>) -> Result<(Span<'_>, Span<'_>), RecordsError>
    ensures gives { Gives (λ x. (span_view x.0, span_view x.1)) result
        (spec.bytes_at count (span_view span.entry)) }
    ensures counted { IfOk result (λ x. length x.0.bytes.now ≡ count) }
    ensures within { IfOk result (λ x. length x.1.bytes.now ≤ length span.entry.bytes.now) }
{
    if (span.bytes.len() as u64) < count {
        return Err(RecordsError::Fault(Fault {
            at: span.start,
            kind: FaultKind::Truncated,
        }));
    }
    let (front, rest) = span.bytes.split_at(count as usize);
    let front = Span {
        start: span.start,
        bytes: front,
    };
    Ok((front, from_there(span, rest)))
}

/// A length and the bytes behind it.
#[tactic(auto, unfolding(crate::specs::Wire::delimited_at))]
pub fn delimited(span: Span<'_>) -> Result<(Span<'_>, Span<'_>), RecordsError>
    ensures gives { Gives (λ x. (span_view x.0, span_view x.1)) result
        (spec.delimited_at (span_view span.entry)) }
    ensures within { IfOk result (λ x. length x.1.bytes.now ≤ length span.entry.bytes.now) }
{
    let (count, rest) = varint(span)?;
    bytes(count, rest)
}

/// A number in four bytes.
#[tactic(auto, unfolding(crate::specs::Wire::fixed32_at))]
pub fn fixed32(span: Span<'_>) -> Result<(u32, Span<'_>), RecordsError>
    ensures gives { Gives (λ x. (x.0, span_view x.1)) result
        (spec.fixed32_at (span_view span.entry)) }
    ensures within { IfOk result (λ x. length x.1.bytes.now ≤ length span.entry.bytes.now) }
{
    let (front, rest) = bytes(4, span)?;
    let b = front.bytes;
    Ok((u32::from_le_bytes([b[0], b[1], b[2], b[3]]), rest))
}

/// A number in eight bytes.
#[tactic(auto, unfolding(crate::specs::Wire::fixed64_at))]
pub fn fixed64(span: Span<'_>) -> Result<(u64, Span<'_>), RecordsError>
    ensures gives { Gives (λ x. (x.0, span_view x.1)) result
        (spec.fixed64_at (span_view span.entry)) }
    ensures within { IfOk result (λ x. length x.1.bytes.now ≤ length span.entry.bytes.now) }
{
    let (front, rest) = bytes(8, span)?;
    let b = front.bytes;
    let number = u64::from_le_bytes([b[0], b[1], b[2], b[3], b[4], b[5], b[6], b[7]]);
    Ok((number, rest))
}
