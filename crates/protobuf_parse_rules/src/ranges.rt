//! Ranges of numbers, and names, that a message reserves or keeps for extensions.

ghost use Rattle.std.specs.Prelude.{◌≡◌, ◌++◌, map, flat_map, nat_lt, option_map, IfOk, OnOk, ℤ};
ghost use Rattle.std.specs.List.{count_by, list_any};
ghost use Rattle.protobuf_parse_model.specs.Descriptors.{extension_range_view};
ghost use Rattle.protobuf_parse_model.specs.Descriptors.{reserved_range_view};
ghost use Rattle.protobuf_parse_rules.specs.Covers.{AreEnds};
ghost use Rattle.protobuf_parse_rules.specs.Findings.{finding_view, site_of};
ghost use Rattle.protobuf_parse_rules.specs.MessageSets.{is_message_set};
ghost use Rattle.protobuf_parse_rules.specs.BodyViews.{body_view, content_view};
ghost use Rattle.protobuf_parse_rules.specs.Ranges as spec;
ghost use Rattle.protobuf_parse_rules.specs.Rules.{breaches_told};
ghost use Rattle.protobuf_parse_rules.specs.Violations.{site_of_body};

use crate::bars::Bars;
use crate::bodies::Holds;
use crate::cover::{Cover, add_open, is_below, no_ends};
use crate::finding::{Finding, found_if};
use crate::message_sets::is_message_set;
use crate::rule::Rule;
use crate::tell::tell_each;
use crate::violation::Violation;
use protobuf_parse_model::{ExtensionRange, ReservedRange};
use std::alloc::{AllocError, Global};

/// The numbers of the ranges.
pub fn reserved_cover(alloc: Global, ranges: &[ReservedRange]) -> Result<Cover, AllocError>
    ensures { IfOk result (λ c. AreEnds spec.in_range (map reserved_range_view ranges.now)
        c.firsts.items c.lasts.items) }
{
    let mut ends = no_ends(alloc);
    'reserved: for range in ranges {
        add_open(&mut ends, &range.start, &range.end)?;
    }
    Ok(Cover::of(ends))
}

/// The numbers of the ranges.
pub fn kept_cover(alloc: Global, ranges: &[ExtensionRange]) -> Result<Cover, AllocError>
    ensures { IfOk result (λ c. AreEnds spec.in_range (map extension_range_view ranges.now)
        c.firsts.items c.lasts.items) }
{
    let mut ends = no_ends(alloc);
    'kept: for range in ranges {
        add_open(&mut ends, &range.start, &range.end)?;
    }
    Ok(Cover::of(ends))
}

/// The numbers that extensions of the message may have.
pub fn extension_cover(alloc: Global, holds: Holds<'_>) -> Result<Cover, AllocError>
    ensures { IfOk result (λ c. AreEnds spec.in_range
        (spec.ranges_for_extensions (content_view holds.entry)) c.firsts.items c.lasts.items) }
{
    if is_message_set(holds) {
        set_cover(alloc, holds.extension_ranges())
    } else {
        kept_cover(alloc, holds.extension_ranges())
    }
}

/// The numbers of the ranges, as a message set has them.
fn set_cover(alloc: Global, ranges: &[ExtensionRange]) -> Result<Cover, AllocError>
    ensures { IfOk result (λ c. AreEnds spec.in_range
        (map spec.range_of_set (map extension_range_view ranges.now))
        c.firsts.items c.lasts.items) }
{
    let mut ends = no_ends(alloc);
    'kept: for range in ranges {
        let end = end_in_set(&range.end);
        add_open(&mut ends, &range.start, &end)?;
    }
    Ok(Cover::of(ends))
}

/// Where a range of a message set ends.
fn end_in_set(end: &i32) -> i32
    ensures { (start : ℤ) → record { start = start; end = result }
        ≡ spec.range_of_set (record { start = start; end = end.now }) }
{
    if *end == 536870912 { i32::MAX } else { *end }
}

/// The field's number is reserved in its message.
pub fn reserved_number<'f>(number: &i32, bars: &Bars<'_>) -> Option<Finding<'f>>
    ensures { option_map finding_view result
        ≡ spec.reserved_number number.now (content_view bars.now.body.now.holds) }
{
    found_if(
        bars.reserves(number),
        Rule::NumberReserved { number: *number },
    )
}

/// The field's number is kept for extensions of its message.
pub fn kept_number<'f>(number: &i32, bars: &Bars<'_>) -> Option<Finding<'f>>
    ensures { option_map finding_view result
        ≡ spec.kept_number number.now (content_view bars.now.body.now.holds) }
{
    found_if(
        bars.keeps(number),
        Rule::NumberKeptForExtensions { number: *number },
    )
}

/// The field's name is reserved in its message.
pub fn reserved_name<'a, 'f>(name: &'a str, bars: &Bars<'a>) -> Option<Finding<'f>>
    ensures { option_map finding_view result
        ≡ spec.reserved_name name.now (content_view bars.now.body.now.holds) }
{
    found_if(bars.names.contains(name), Rule::NameReserved)
}

fn not_positive<'a>(start: i32) -> Option<Finding<'a>>
    ensures { option_map finding_view result ≡ spec.not_positive start }
{
    found_if(start < 1, Rule::RangeNotPositive { start })
}

fn without_numbers<'a>(start: i32, end: i32) -> Option<Finding<'a>>
    ensures { option_map finding_view result ≡ spec.without_numbers start end }
{
    found_if(!(start < end), Rule::RangeEmpty { start })
}

fn too_large<'a>(message_set: bool, end: i32) -> Option<Finding<'a>>
    ensures { option_map finding_view result ≡ spec.too_large message_set end }
{
    found_if(
        !message_set && 536870912 < end,
        Rule::ExtensionRangeTooLarge { end },
    )
}

/// Another range overlaps the one that begins and ends there, and begins no later.
fn overlapping<'f>(bars: &Bars<'_>, start: &i32, end: &i32) -> Option<Finding<'f>>
    ensures { option_map finding_view result
        ≡ spec.overlapping (spec.ranges_of (content_view bars.now.body.now.holds))
        (record { start = start.now; end = end.now }) }
{
    found_if(
        is_overlapped(bars, start, end),
        Rule::RangesOverlap { start: *start },
    )
}

/// Whether more of the ranges than itself overlap it, and begin no later. Where no number lies in
/// it, which is rare, all ranges are gone through.
fn is_overlapped(bars: &Bars<'_>, start: &i32, end: &i32) -> bool
    ensures { result
        ≡ spec.is_overlapped (spec.ranges_of (content_view bars.now.body.now.holds))
        (record { start = start.now; end = end.now }) }
{
    if is_below(start, end) {
        lie_in_two(bars, start)
    } else {
        let holds = bars.body.holds;
        any_reserved_overlaps(start, end, holds.reserved_ranges())
            || any_kept_overlaps(start, end, holds.extension_ranges())
    }
}

fn any_reserved_overlaps(start: &i32, end: &i32, ranges: &[ReservedRange]) -> bool
    ensures { result ≡ list_any
        (spec.overlaps_first (record { start = start.now; end = end.now }))
        (map reserved_range_view ranges.now) }
{
    'reserved: for range in ranges {
        if overlaps_first(start, end, &range.start, &range.end) {
            return true;
        }
    }
    false
}

fn any_kept_overlaps(start: &i32, end: &i32, ranges: &[ExtensionRange]) -> bool
    ensures { result ≡ list_any
        (spec.overlaps_first (record { start = start.now; end = end.now }))
        (map extension_range_view ranges.now) }
{
    'kept: for range in ranges {
        if overlaps_first(start, end, &range.start, &range.end) {
            return true;
        }
    }
    false
}

/// Whether the range that begins and ends at the other two overlaps the first one, and begins no
/// later.
fn overlaps_first(start: &i32, end: &i32, other_start: &i32, other_end: &i32) -> bool
    ensures { result ≡ spec.overlaps_first (record { start = start.now; end = end.now })
        (record { start = other_start.now; end = other_end.now }) }
{
    !is_below(start, other_start) && is_below(start, other_end) && is_below(other_start, end)
}

fn lie_in_two(bars: &Bars<'_>, number: &i32) -> bool
    ensures { result ≡ nat_lt 1 (count_by (spec.in_range number.now)
        (spec.ranges_of (content_view bars.now.body.now.holds))) }
{
    let reserved = bars.reserved.count(number);
    reserved.saturating_add(bars.kept.count(number)) > 1
}

/// Tells what is wrong with the ranges of extensions.
pub fn check_extension_ranges(
    alloc: Global,
    told: &mut Vec<Violation>,
    bars: &Bars<'_>,
    ranges: &[ExtensionRange],
) -> Result<(), AllocError>
    ensures { OnOk result (breaches_told told.new ≡ breaches_told told.old
        ++ flat_map (spec.extension_range (site_of_body (body_view bars.now.body.now))
        (is_message_set (content_view bars.now.body.now.holds))
        (spec.ranges_of (content_view bars.now.body.now.holds)))
        (map extension_range_view ranges.now)) }
{
    'kept: for range in ranges {
        check_extension_range(alloc, told, bars, range)?;
    }
    Ok(())
}

fn check_extension_range(
    alloc: Global,
    told: &mut Vec<Violation>,
    bars: &Bars<'_>,
    range: &ExtensionRange,
) -> Result<(), AllocError>
    ensures { OnOk result (breaches_told told.new ≡ breaches_told told.old
        ++ spec.extension_range (site_of_body (body_view bars.now.body.now))
        (is_message_set (content_view bars.now.body.now.holds))
        (spec.ranges_of (content_view bars.now.body.now.holds)) (extension_range_view range.now)) }
{
    let found = [
        not_positive(range.start),
        without_numbers(range.start, range.end),
        too_large(is_message_set(bars.body.holds), range.end),
        overlapping(bars, &range.start, &range.end),
    ];
    tell_each(alloc, told, bars.body.own_spot(), &found)
}

/// Tells what is wrong with the reserved ranges.
pub fn check_reserved_ranges(
    alloc: Global,
    told: &mut Vec<Violation>,
    bars: &Bars<'_>,
    ranges: &[ReservedRange],
) -> Result<(), AllocError>
    ensures { OnOk result (breaches_told told.new ≡ breaches_told told.old
        ++ flat_map (spec.reserved_range (site_of_body (body_view bars.now.body.now))
        (spec.ranges_of (content_view bars.now.body.now.holds)))
        (map reserved_range_view ranges.now)) }
{
    'reserved: for range in ranges {
        check_reserved_range(alloc, told, bars, range)?;
    }
    Ok(())
}

fn check_reserved_range(
    alloc: Global,
    told: &mut Vec<Violation>,
    bars: &Bars<'_>,
    range: &ReservedRange,
) -> Result<(), AllocError>
    ensures { OnOk result (breaches_told told.new ≡ breaches_told told.old
        ++ spec.reserved_range (site_of_body (body_view bars.now.body.now))
        (spec.ranges_of (content_view bars.now.body.now.holds)) (reserved_range_view range.now)) }
{
    let found = [
        not_positive(range.start),
        overlapping(bars, &range.start, &range.end),
    ];
    tell_each(alloc, told, bars.body.own_spot(), &found)
}
