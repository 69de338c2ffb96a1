//! Whether values of enums have numbers in common.

ghost use Rattle.std.specs.Prelude.{◌≡◌, ◌++◌, [], ◌∷◌, List, map, option_map, IfOk, OnOk};
ghost use Rattle.std.specs.List.{list_any};
ghost use Rattle.protobuf_parse_model.specs.Descriptors.{EnumValueDescriptor, enum_value_view};
ghost use Rattle.protobuf_parse_model.specs.Descriptors.{Range, enum_view};
ghost use Rattle.protobuf_parse_rules.specs.Covers.{AreEnds, point_of};
ghost use Rattle.protobuf_parse_rules.specs.Enums as spec;
ghost use Rattle.protobuf_parse_rules.specs.Findings.{finding_view};

use crate::cover::{Cover, Ends, add_closed, no_ends};
use crate::enums::allows_alias;
use crate::finding::{Finding, found_if};
use crate::rule::Rule;
use protobuf_parse_model::{EnumDescriptorProto, EnumValueDescriptorProto};
use std::alloc::{AllocError, Global};

/// The enum allows aliases and has none.
pub fn aliases_without_need<'f>(
    alloc: Global,
    each: &EnumDescriptorProto,
) -> Result<Option<Finding<'f>>, AllocError>
    ensures { IfOk result (λ found. option_map finding_view found
        ≡ spec.aliases_without_need (enum_view each.now).options (enum_view each.now).value) }
{
    if !allows_alias(each) {
        return Ok(None);
    }
    let numbers = numbers_of(alloc, &each.value)?;
    let shared = share_numbers(&numbers, &each.value);
    Ok(found_if(!shared, Rule::AliasesWithoutNeed))
}

/// The numbers of the values, each as a range by itself.
fn numbers_of(alloc: Global, values: &[EnumValueDescriptorProto]) -> Result<Cover, AllocError>
    ensures { IfOk result (λ c. AreEnds spec.in_closed_range
        (map point_of (map enum_value_view values.now)) c.firsts.items c.lasts.items) }
{
    let mut ends = no_ends(alloc);
    'values: for value in values {
        add_value(&mut ends, value)?;
    }
    Ok(Cover::of(ends))
}

fn add_value(ends: &mut Ends, value: &EnumValueDescriptorProto) -> Result<(), AllocError>
    ensures { OnOk result ((ranges : List Range)
        → AreEnds spec.in_closed_range ranges ends.old.firsts.items ends.old.lasts.items
        → AreEnds spec.in_closed_range (ranges ++ point_of (enum_value_view value.now) ∷ [])
        ends.new.firsts.items ends.new.lasts.items) }
{
    add_closed(ends, &value.number, &value.number)
}

/// Whether one of the values has a number that another has too.
fn share_numbers(numbers: &Cover, values: &[EnumValueDescriptorProto]) -> bool
    ensures { (all : List EnumValueDescriptor)
        → AreEnds spec.in_closed_range (map point_of all) numbers.now.firsts.items
        numbers.now.lasts.items
        → result ≡ list_any (spec.is_shared all) (map enum_value_view values.now) }
{
    let mut shared = false;
    'values: for value in values {
        shared = is_shared(numbers, value) || shared;
    }
    shared
}

fn is_shared(numbers: &Cover, value: &EnumValueDescriptorProto) -> bool
    ensures { (all : List EnumValueDescriptor)
        → AreEnds spec.in_closed_range (map point_of all) numbers.now.firsts.items
        numbers.now.lasts.items → result ≡ spec.is_shared all (enum_value_view value.now) }
{
    numbers.count(&value.number) > 1
}
