//! Where a group ends.

ghost use Rattle.std.specs.Prelude.{◌≡◌, ◌<◌, ◌≤◌, length, IfOk};
ghost use Rattle.protobuf_parse_records.specs.Views.{span_view};
ghost use Rattle.protobuf_parse_records.specs.Splitting as spec;
ghost use Rattle.protobuf_parse_records.specs.Wire.{Gives};

use crate::fault::{Fault, FaultKind, RecordsError};
use crate::span::Span;
use crate::tag::tag;
use crate::values::{delimited, fixed32, fixed64, varint};
use crate::wire::WireType;
use std::alloc::Global;

/// How many groups may stand inside one another.
const MOST_GROUPS: usize = 100;

/// Passes over the group of that number, behind the tag that starts it: what is left from the tag
/// that ends it on, and behind that one.
pub fn group_end<'a>(
    alloc: Global,
    number: u32,
    span: Span<'a>,
) -> Result<(Span<'a>, Span<'a>), RecordsError>
    ensures gives { Gives (λ x. (span_view x.0, span_view x.1)) result
        (spec.group_end_at number (span_view span.entry)) }
    ensures end_within { IfOk result (λ x. length x.0.bytes.now ≤ length span.entry.bytes.now) }
    ensures within { IfOk result (λ x. length x.1.bytes.now ≤ length span.entry.bytes.now) }
{
    let mut groups = Vec::new(alloc);
    groups.push(number)?;
    let mut last_tag = span;
    let mut rest = span;
    'tags: while !groups.is_empty() {
        last_tag = rest;
        rest = step(&mut groups, rest)?;
    }
    Ok((last_tag, rest))
}

/// Passes over one tag and what belongs to it, inside the groups of these numbers, the innermost
/// last, and opens or closes one where the tag says so.
#[tactic(auto, unfolding(crate::specs::Splitting::step_at, crate::specs::Splitting::passed))]
fn step<'a>(groups: &mut Vec<u32>, span: Span<'a>) -> Result<Span<'a>, RecordsError>
    requires { 0 < length groups.old.items }
    ensures gives { Gives (λ rest. (groups.new.items, span_view rest)) result
        (spec.step_at groups.old.items (span_view span.entry)) }
    ensures shorter { IfOk result (λ rest. length rest.bytes.now < length span.entry.bytes.now) }
{
    let (number, wire_type, rest) = tag(span)?;
    match wire_type {
        WireType::Varint => {
            let (_, rest) = varint(rest)?;
            Ok(rest)
        }
        WireType::Fixed64 => {
            let (_, rest) = fixed64(rest)?;
            Ok(rest)
        }
        WireType::Delimited => {
            let (_, rest) = delimited(rest)?;
            Ok(rest)
        }
        WireType::GroupStart => {
            if groups.len() >= MOST_GROUPS {
                return Err(RecordsError::Fault(Fault {
                    at: span.start,
                    kind: FaultKind::TooManyGroups,
                }));
            }
            groups.push(number)?;
            Ok(rest)
        }
        WireType::GroupEnd => {
            let innermost = groups.len() - 1;
            if groups[innermost] != number {
                return Err(RecordsError::Fault(Fault {
                    at: span.start,
                    kind: FaultKind::UnmatchedGroupEnd,
                }));
            }
            groups.truncate(innermost);
            Ok(rest)
        }
        WireType::Fixed32 => {
            let (_, rest) = fixed32(rest)?;
            Ok(rest)
        }
    }
}
