//! Values of enums.

ghost use Rattle.std.specs.Prelude.{◌≡◌, ◌++◌, [], ◌∷◌, flat_map, map, option_map, OnOk};
ghost use Rattle.std.specs.Prelude.{IfOk, string_bytes};
ghost use Rattle.protobuf_parse_model.specs.Descriptors.{EnumValueDescriptor, enum_value_view};
ghost use Rattle.protobuf_parse_model.specs.Descriptors.{enum_view};
ghost use Rattle.protobuf_parse_rules.specs.Claims.{conflicts};
ghost use Rattle.protobuf_parse_rules.specs.ClaimsKept.{Claims};
ghost use Rattle.protobuf_parse_rules.specs.Enums.{allows_alias, enum_breaches, first_not_zero};
ghost use Rattle.protobuf_parse_rules.specs.Enums.{not_zero};
ghost use Rattle.protobuf_parse_rules.specs.Enums.{value_claim, value_rule, values_in_use};
ghost use Rattle.protobuf_parse_rules.specs.Findings.{finding_view, site_of};
ghost use Rattle.protobuf_parse_rules.specs.Keys.{no_text, numbered};
ghost use Rattle.protobuf_parse_rules.specs.BodyViews.{body_view};
ghost use Rattle.protobuf_parse_wire.specs.Declarations.{name_within};
ghost use Rattle.protobuf_parse_rules.specs.Enums as spec;
ghost use Rattle.protobuf_parse_rules.specs.Repeats.{repeats};
ghost use Rattle.protobuf_parse_rules.specs.Rules.{breaches_at, breaches_told, broken_if};
ghost use Rattle.protobuf_parse_rules.specs.declared.rule.Rule.TheVariants as rule;

use crate::aliases::aliases_without_need;
use crate::alike::check_values_alike;
use crate::bodies::Body;
use crate::claims::{Held, Holders, Thing, check_claim};
use crate::enum_bars::{EnumBars, check_ranges, check_reserved, enum_bars_of};
use crate::finding::{Finding, found, found_if};
use crate::keys::{NO_TEXT, numbered};
use crate::repeats::check_repeats;
use crate::rule::Rule;
use crate::tell::tell_each;
use crate::violation::Violation;
use protobuf_parse_model::{EnumDescriptorProto, EnumValueDescriptorProto, are_apart};
use std::alloc::{AllocError, Global};
use std::collections::BTreeMap;

/// Tells what is wrong in the enum.
pub fn check_enum(
    alloc: Global,
    told: &mut Vec<Violation>,
    body: &Body<'_>,
    each: &EnumDescriptorProto,
) -> Result<(), AllocError>
    ensures { OnOk result (breaches_told told.new ≡ breaches_told told.old
        ++ enum_breaches (body_view body.now) (enum_view each.now)) }
{
    let bars = enum_bars_of(alloc, each)?;
    check_barred(alloc, told, body, &bars)
}

/// Tells the same where what the enum bars is known.
fn check_barred(
    alloc: Global,
    told: &mut Vec<Violation>,
    body: &Body<'_>,
    bars: &EnumBars<'_>,
) -> Result<(), AllocError>
    ensures { OnOk result (breaches_told told.new ≡ breaches_told told.old
        ++ enum_breaches (body_view body.now) (enum_view bars.now.each.now)) }
{
    let each = bars.each;
    check_itself(alloc, told, body, each)?;
    check_ranges(
        alloc,
        told,
        body.spot(&each.name),
        bars,
        &each.reserved_range,
    )?;
    check_reserved_names(alloc, told, body, each)?;
    check_reserved(alloc, told, body, bars, &each.value)?;
    check_values(alloc, told, body, each)?;
    check_values_alike(alloc, told, body, each)
}

fn check_reserved_names<'b>(
    alloc: Global,
    told: &mut Vec<Violation>,
    body: &'b Body<'_>,
    each: &'b EnumDescriptorProto,
) -> Result<(), AllocError>
    ensures { OnOk result (breaches_told told.new ≡ breaches_told told.old
        ++ repeats rule.NameReservedTwice (record {
          file = body.now.file.now;
          construct = name_within (string_bytes body.now.scope) (enum_view each.now).name;
        }) (enum_view each.now).reserved_name) }
{
    let at = body.spot(&each.name);
    check_repeats(
        alloc,
        told,
        at,
        Rule::NameReservedTwice,
        &each.reserved_name,
    )
}

/// Tells what is wrong with the enum itself.
fn check_itself(
    alloc: Global,
    told: &mut Vec<Violation>,
    body: &Body<'_>,
    each: &EnumDescriptorProto,
) -> Result<(), AllocError>
    ensures { OnOk result (breaches_told told.new ≡ breaches_told told.old
        ++ breaches_at (record {
          file = body.now.file.now;
          construct = name_within (string_bytes body.now.scope) (enum_view each.now).name;
        }) (spec.enum_rules body.now.proto3 (enum_view each.now))) }
{
    let needless = aliases_without_need(alloc, each)?;
    let found = [
        first_not_zero(body.proto3, &each.value),
        without_values(&each.value),
        aliases_forbidden(each),
        needless,
    ];
    tell_each(alloc, told, body.spot(&each.name), &found)
}

fn without_values<'a>(values: &[EnumValueDescriptorProto]) -> Option<Finding<'a>>
    ensures { option_map finding_view result
        ≡ spec.without_values (map enum_value_view values.now) }
{
    match values {
        [] => found(Rule::EnumWithoutValues),
        _ => None,
    }
}

fn aliases_forbidden<'a>(each: &EnumDescriptorProto) -> Option<Finding<'a>>
    ensures { option_map finding_view result
        ≡ spec.aliases_forbidden (enum_view each.now).options }
{
    match &each.options {
        Some(options) => found_if(!options.allow_alias.unwrap_or(true), Rule::AliasesForbidden),
        None => None,
    }
}

/// The first value of an enum of proto3 is 0.
fn first_not_zero<'a>(proto3: bool, values: &[EnumValueDescriptorProto]) -> Option<Finding<'a>>
    ensures { option_map finding_view result
        ≡ first_not_zero proto3 (map enum_value_view values.now) }
{
    if proto3 { not_zero(values) } else { None }
}

/// The first value, where its number isn't 0.
pub fn not_zero<'a>(values: &[EnumValueDescriptorProto]) -> Option<Finding<'a>>
    ensures { option_map finding_view result ≡ not_zero (map enum_value_view values.now) }
{
    match values {
        [first, ..] if first.number != 0 => {
            let number = first.number;
            found(Rule::FirstValueNotZero { number })
        }
        _ => None,
    }
}

/// Tells each value whose number is that of one before it, unless the enum allows aliases.
fn check_values(
    alloc: Global,
    told: &mut Vec<Violation>,
    body: &Body<'_>,
    each: &EnumDescriptorProto,
) -> Result<(), AllocError>
    ensures { OnOk result (breaches_told told.new ≡ breaches_told told.old
        ++ values_in_use body.now.file.now (string_bytes body.now.scope) (enum_view each.now)) }
{
    if allows_alias(each) {
        return Ok(());
    }
    let keys = keys_of(alloc, &each.value)?;
    if are_apart(keys) {
        return Ok(());
    }
    check_each(alloc, told, body, &each.value)
}

/// The keys of the values' numbers.
fn keys_of(alloc: Global, values: &[EnumValueDescriptorProto]) -> Result<Vec<u64>, AllocError>
    ensures { IfOk result (λ keys. keys.items
        ≡ map (λ (v : EnumValueDescriptor). numbered no_text v.number)
        (map enum_value_view values.now)) }
{
    let mut keys = Vec::with_capacity(alloc, values.len())?;
    'values: for value in values {
        keys.push(numbered(NO_TEXT, &value.number))?;
    }
    Ok(keys)
}

/// Whether the enum allows values of one number.
pub fn allows_alias(each: &EnumDescriptorProto) -> bool
    ensures { result ≡ allows_alias (enum_view each.now).options }
{
    match &each.options {
        Some(options) => options.allow_alias.unwrap_or(false),
        None => false,
    }
}

fn check_each<'b>(
    alloc: Global,
    told: &mut Vec<Violation>,
    body: &'b Body<'_>,
    values: &'b [EnumValueDescriptorProto],
) -> Result<(), AllocError>
    ensures { OnOk result (breaches_told told.new ≡ breaches_told told.old
        ++ conflicts value_rule []
        (map (value_claim body.now.file.now (string_bytes body.now.scope))
        (map enum_value_view values.now))) }
{
    let mut numbers: Holders<'_> = BTreeMap::new(alloc);
    'values: for value in values {
        check_value(alloc, &mut numbers, told, body, value)?;
    }
    Ok(())
}

fn check_value<'a>(
    alloc: Global,
    numbers: &mut Holders<'a>,
    told: &mut Vec<Violation>,
    body: &'a Body<'_>,
    value: &'a EnumValueDescriptorProto,
) -> Result<(), AllocError>
    ensures { OnOk result (Claims value_rule numbers.old numbers.new told.old told.new
        (value_claim body.now.file.now (string_bytes body.now.scope) (enum_value_view value.now)
        ∷ [])) }
{
    let number = value.number;
    let thing = Thing {
        number,
        name: "",
        scope: "",
    };
    check_claim(
        alloc,
        Held::Value,
        numbers,
        told,
        thing,
        body.holder(&value.name, number),
    )
}
