//! Packed numbers.

ghost use Rattle.std.specs.Prelude.{◌≡◌, ◌+◌, ◌<◌, length, IfOk, IsSome};
ghost use Rattle.protobuf_parse_records.specs.Views.{span_view};
ghost use Rattle.protobuf_parse_records.specs.Wire as wire;
ghost use Rattle.protobuf_parse_decode.specs.Answers.{Gives};
ghost use Rattle.protobuf_parse_decode.specs.Decoding as spec;
ghost use Rattle.protobuf_parse_decode.specs.Parts.{says_of, words_of_type};
ghost use Rattle.protobuf_parse_decode.specs.Inside.{values_view, word_view};

use crate::fault::DecodeError;
use crate::field::Value;
use crate::numbers::{Word, value_of};
use protobuf_parse_model::FieldType;
use protobuf_parse_records::{Fault, FaultKind, RecordsError, Span, first_varint};
use std::alloc::Global;

/// Numbers of such a type, one behind the other.
pub fn packed<'a>(
    alloc: Global,
    field_type: FieldType,
    word: Word,
    span: Span<'_>,
) -> Result<Vec<Value<'a>>, DecodeError>
    requires { IsSome (words_of_type field_type) }
    ensures { Gives (λ v. values_view v.items) result
        (spec.packed (word_view word) (says_of (words_of_type field_type))
        (span_view span.entry)) }
{
    let mut values = Vec::new(alloc);
    let mut rest = span;
    'rest: while !rest.bytes.is_empty() {
        let (number, behind) = first_word(word, rest)?;
        values.push(value_of(field_type, number))?;
        rest = behind;
    }
    Ok(values)
}

/// The number at the front, and what stands behind it.
fn first_word(word: Word, span: Span<'_>) -> Result<(u64, Span<'_>), RecordsError>
    ensures gives { wire.Gives (λ x. (x.0, span_view x.1)) result
        (spec.word_at (word_view word) (span_view span.entry)) }
    ensures shorter { IfOk result (λ x. length x.1.bytes.now < length span.entry.bytes.now) }
{
    match word {
        Word::Varint => first_varint(span),
        Word::EightBytes => first_fixed64(span),
        Word::FourBytes => first_fixed32(span),
    }
}

/// So many bytes, and what stands behind them.
#[tactic(auto, unfolding(protobuf_parse_records::specs::Wire::bytes_at))]
fn first_bytes(count: usize, span: Span<'_>) -> Result<(&[u8], Span<'_>), RecordsError>
    ensures gives { wire.Gives
        (λ x. (record { start = span.entry.start; bytes = x.0.now }, span_view x.1)) result
        (wire.bytes_at count (span_view span.entry)) }
    ensures counted { IfOk result (λ x. length x.0.now ≡ count) }
    ensures shorter { IfOk result
        (λ x. length x.1.bytes.now + count ≡ length span.entry.bytes.now) }
{
    if span.bytes.len() < count {
        return Err(RecordsError::Fault(Fault {
            at: span.start,
            kind: FaultKind::Truncated,
        }));
    }
    let (front, bytes) = span.bytes.split_at(count);
    let start = span.start + count;
    Ok((front, Span { start, bytes }))
}

/// A number in eight bytes.
#[tactic(auto, unfolding(protobuf_parse_records::specs::Wire::fixed64_at))]
fn first_fixed64(span: Span<'_>) -> Result<(u64, Span<'_>), RecordsError>
    ensures gives { wire.Gives (λ x. (x.0, span_view x.1)) result
        (wire.fixed64_at (span_view span.entry)) }
    ensures shorter { IfOk result (λ x. length x.1.bytes.now < length span.entry.bytes.now) }
{
    let (b, rest) = first_bytes(8, span)?;
    let number = u64::from_le_bytes([b[0], b[1], b[2], b[3], b[4], b[5], b[6], b[7]]);
    Ok((number, rest))
}

/// A number in four bytes.
#[tactic(auto, unfolding(protobuf_parse_records::specs::Wire::fixed32_at))]
fn first_fixed32(span: Span<'_>) -> Result<(u64, Span<'_>), RecordsError>
    ensures gives { wire.Gives (λ x. (x.0, span_view x.1)) result
        (wire.fixed32_at (span_view span.entry)) }
    ensures shorter { IfOk result (λ x. length x.1.bytes.now < length span.entry.bytes.now) }
{
    let (b, rest) = first_bytes(4, span)?;
    let number = u32::from_le_bytes([b[0], b[1], b[2], b[3]]);
    Ok((u64::from(number), rest))
}
