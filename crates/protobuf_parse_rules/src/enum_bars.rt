//! Numbers and names that an enum reserves.

ghost use Rattle.std.specs.Prelude.{◌≡◌, ◌++◌, flat_map, map, nat_lt, option_map, string_bytes};
ghost use Rattle.std.specs.Prelude.{IfOk, OnOk};
ghost use Rattle.std.specs.List.{count_by, list_any};
ghost use Rattle.std.proofs.Props.{props};
ghost use Rattle.protobuf_parse_model.specs.Descriptors.{enum_range_view, enum_value_view};
ghost use Rattle.protobuf_parse_model.specs.Descriptors.{enum_view};
ghost use Rattle.protobuf_parse_rules.specs.Covers.{AreEnds};
ghost use Rattle.protobuf_parse_rules.specs.Enums as spec;
ghost use Rattle.protobuf_parse_rules.specs.Findings.{finding_view, site_of};
ghost use Rattle.protobuf_parse_rules.specs.Ranges.{is_among};
ghost use Rattle.protobuf_parse_rules.specs.Rules.{breaches_told, broken_if};
ghost use Rattle.protobuf_parse_rules.specs.Sets.{AreTexts};
ghost use Rattle.protobuf_parse_rules.specs.declared.rule.Rule.TheVariants as rule;

use crate::bodies::Body;
use crate::cover::{Cover, add_closed, is_below, no_ends};
use crate::finding::{Finding, Spot, found_if};
use crate::rule::Rule;
use crate::tell::tell_each;
use crate::violation::Violation;
use crate::words::{Words, words_of};
use protobuf_parse_model::{EnumDescriptorProto, EnumReservedRange, EnumValueDescriptorProto};
use std::alloc::{AllocError, Global};

/// An enum with the numbers and the names that it reserves.
#[derive(Drop)]
pub struct EnumBars<'a> {
    pub each: &'a EnumDescriptorProto,
    pub numbers: Cover,
    pub names: Words<'a>,
    pub ghost are_reserved: { AreEnds spec.in_closed_range (enum_view each.now).reserved_range
        numbers.firsts.items numbers.lasts.items } by { Prim.hlevel props },
    pub ghost are_names: { AreTexts names.sorted.items
        (enum_view each.now).reserved_name } by { Prim.hlevel props },
}

impl EnumBars<'_> {
    /// Whether the number is reserved.
    fn reserves(&self, number: &i32) -> bool
        ensures { result
            ≡ spec.in_closed_ranges number.now (enum_view self.now.each.now).reserved_range }
    {
        self.numbers.has(number)
    }

    /// Whether more than one of the ranges have the number.
    fn have_twice(&self, number: &i32) -> bool
        ensures { result ≡ nat_lt 1 (count_by (spec.in_closed_range number.now)
            (enum_view self.now.each.now).reserved_range) }
    {
        self.numbers.count(number) > 1
    }
}

/// Those of the enum.
pub fn enum_bars_of<'a>(
    alloc: Global,
    each: &'a EnumDescriptorProto,
) -> Result<EnumBars<'a>, AllocError>
    ensures { IfOk result (λ b. enum_view b.each.now ≡ enum_view each.now) }
{
    let numbers = closed_cover(alloc, &each.reserved_range)?;
    let names = words_of(alloc, &each.reserved_name)?;
    Ok(EnumBars {
        each,
        numbers,
        names,
    })
}

/// The numbers of the ranges.
fn closed_cover(alloc: Global, ranges: &[EnumReservedRange]) -> Result<Cover, AllocError>
    ensures { IfOk result (λ c. AreEnds spec.in_closed_range (map enum_range_view ranges.now)
        c.firsts.items c.lasts.items) }
{
    let mut ends = no_ends(alloc);
    'reserved: for range in ranges {
        add_closed(&mut ends, &range.start, &range.end)?;
    }
    Ok(Cover::of(ends))
}

/// Tells what is wrong with the reserved ranges.
pub fn check_ranges(
    alloc: Global,
    told: &mut Vec<Violation>,
    at: Spot<'_>,
    bars: &EnumBars<'_>,
    ranges: &[EnumReservedRange],
) -> Result<(), AllocError>
    ensures { OnOk result (breaches_told told.new ≡ breaches_told told.old
        ++ flat_map (spec.closed_range (site_of at.entry)
        (enum_view bars.now.each.now).reserved_range) (map enum_range_view ranges.now)) }
{
    'reserved: for range in ranges {
        check_range(alloc, told, at, bars, range)?;
    }
    Ok(())
}

fn check_range(
    alloc: Global,
    told: &mut Vec<Violation>,
    at: Spot<'_>,
    bars: &EnumBars<'_>,
    range: &EnumReservedRange,
) -> Result<(), AllocError>
    ensures { OnOk result (breaches_told told.new ≡ breaches_told told.old
        ++ spec.closed_range (site_of at.entry) (enum_view bars.now.each.now).reserved_range
        (enum_range_view range.now)) }
{
    let start = range.start;
    let found = [
        found_if(range.end < start, Rule::RangeEmpty { start }),
        overlapping(bars, &range.start, &range.end),
    ];
    tell_each(alloc, told, at, &found)
}

/// Another range overlaps the one that begins and ends there, and begins no later.
fn overlapping<'f>(bars: &EnumBars<'_>, start: &i32, end: &i32) -> Option<Finding<'f>>
    ensures { option_map finding_view result
        ≡ spec.closed_overlapping (enum_view bars.now.each.now).reserved_range
        (record { start = start.now; end = end.now }) }
{
    found_if(
        is_overlapped(bars, start, end),
        Rule::RangesOverlap { start: *start },
    )
}

/// Whether more of the ranges than itself overlap it, and begin no later. Where no number lies in
/// it, which is rare, all ranges are gone through.
fn is_overlapped(bars: &EnumBars<'_>, start: &i32, end: &i32) -> bool
    ensures { result
        ≡ spec.is_closed_overlapped (enum_view bars.now.each.now).reserved_range
        (record { start = start.now; end = end.now }) }
{
    if is_below(end, start) {
        any_overlaps(start, end, &bars.each.reserved_range)
    } else {
        bars.have_twice(start)
    }
}

fn any_overlaps(start: &i32, end: &i32, ranges: &[EnumReservedRange]) -> bool
    ensures { result ≡ list_any
        (spec.closed_overlaps_first (record { start = start.now; end = end.now }))
        (map enum_range_view ranges.now) }
{
    'reserved: for range in ranges {
        if overlaps_first(start, end, &range.start, &range.end) {
            return true;
        }
    }
    false
}

/// Whether the range that begins and ends at the other two overlaps the first one, and begins no
/// later.
fn overlaps_first(start: &i32, end: &i32, other_start: &i32, other_end: &i32) -> bool
    ensures { result ≡ spec.closed_overlaps_first (record { start = start.now; end = end.now })
        (record { start = other_start.now; end = other_end.now }) }
{
    !is_below(start, other_start) && !is_below(other_end, start) && !is_below(end, other_start)
}

/// Tells each value with a number or a name that the enum reserves.
pub fn check_reserved<'b>(
    alloc: Global,
    told: &mut Vec<Violation>,
    body: &Body<'_>,
    bars: &EnumBars<'b>,
    values: &'b [EnumValueDescriptorProto],
) -> Result<(), AllocError>
    ensures { OnOk result (breaches_told told.new ≡ breaches_told told.old
        ++ flat_map (spec.value_breaches body.now.file.now (string_bytes body.now.scope)
        (enum_view bars.now.each.now)) (map enum_value_view values.now)) }
{
    'values: for value in values {
        check_one_reserved(alloc, told, body, bars, value)?;
    }
    Ok(())
}

fn check_one_reserved<'b>(
    alloc: Global,
    told: &mut Vec<Violation>,
    body: &Body<'_>,
    bars: &EnumBars<'b>,
    value: &'b EnumValueDescriptorProto,
) -> Result<(), AllocError>
    ensures { OnOk result (breaches_told told.new ≡ breaches_told told.old
        ++ spec.value_breaches body.now.file.now (string_bytes body.now.scope)
        (enum_view bars.now.each.now) (enum_value_view value.now)) }
{
    if !bars.reserves(&value.number) && !bars.names.contains(&value.name) {
        return Ok(());
    }
    let found = [
        reserved_number(&value.number, bars),
        reserved_name(&value.name, bars),
    ];
    tell_each(alloc, told, body.spot(&value.name), &found)
}

fn reserved_number<'f>(number: &i32, bars: &EnumBars<'_>) -> Option<Finding<'f>>
    ensures { option_map finding_view result ≡ broken_if
        (spec.in_closed_ranges number.now (enum_view bars.now.each.now).reserved_range)
        (rule.NumberReserved number.now) }
{
    found_if(
        bars.reserves(number),
        Rule::NumberReserved { number: *number },
    )
}

fn reserved_name<'b, 'f>(name: &'b str, bars: &EnumBars<'b>) -> Option<Finding<'f>>
    ensures { option_map finding_view result ≡ broken_if
        (is_among name.now (enum_view bars.now.each.now).reserved_name) rule.NameReserved }
{
    found_if(bars.names.contains(name), Rule::NameReserved)
}
