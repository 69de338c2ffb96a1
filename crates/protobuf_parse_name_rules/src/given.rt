//! The fields that a message constant gives, and those that it lacks.

ghost use Rattle.std.specs.Prelude.{◌≡◌, ◌||◌, ◌&&◌, ◌++◌, [], ℤ, not, flat_map, map, IfOk, OnOk};
ghost use Rattle.std.specs.Prelude.{option_to_list};
ghost use Rattle.std.specs.Ordering.{int_eq};
ghost use Rattle.protobuf_parse_syntax.specs.InnerViews.{constant_field_syntax};
ghost use Rattle.protobuf_parse_syntax.specs.Trees.{constant_name_syntax};
ghost use Rattle.protobuf_parse_model.specs.Descriptors.{field_view, message_view};
ghost use Rattle.protobuf_parse_option_paths.specs.Names as names;
ghost use Rattle.protobuf_parse_text_rules.specs.Breaches.{breach_if};
ghost use Rattle.protobuf_parse_text_rules.specs.Views.{told};
ghost use Rattle.protobuf_parse_text_rules.specs.declared.rule.TextRule.TheVariants as rule;
ghost use Rattle.protobuf_parse_name_rules.specs.Constants as spec;
ghost use Rattle.protobuf_parse_name_rules.specs.InnerViews.{given_of, given_view, has_number};
ghost use Rattle.protobuf_parse_name_rules.specs.InnerViews.{viewpoint_view};

use crate::fields::constant_field;
use crate::files::NameViewpoint;
use protobuf_parse_lexer::Place;
use protobuf_parse_model::{DescriptorProto, FieldDescriptorProto, Label};
use protobuf_parse_syntax::{ConstantField, ConstantFieldName};
use protobuf_parse_text_rules::{TextRule, TextViolation, tell_if};
use std::alloc::{AllocError, Global};
use std::collections::BTreeSet;

/// A field that a message constant gives.
#[derive(Clone, Copy)]
pub struct GivenField<'c, 'a> {
    /// Its name there, without brackets.
    pub name: &'c str,
    pub field: &'a FieldDescriptorProto,
}

/// Tells what is wrong with the fields that a constant for the message gives and lacks.
pub fn check_own(
    at: &NameViewpoint<'_, '_, '_>,
    found: &mut Vec<TextViolation>,
    place: Place,
    message: &str,
    declared: &DescriptorProto,
    fields: &[ConstantField],
) -> Result<(), AllocError>
    ensures { OnOk result (told found.new ≡ told found.old
        ++ spec.own_breaches place (message_view declared.now)
        (flat_map (given_of (viewpoint_view at.now) message.now)
        (map constant_field_syntax fields.now))) }
{
    let given = given_in(at, message, fields)?;
    tell_twice(at.alloc, found, place, &given)?;
    let numbers = numbers_of(at.alloc, &given)?;
    tell_missing(at.alloc, found, place, &numbers, &declared.field)
}

/// The fields that the constant for the message gives.
fn given_in<'c, 'a>(
    at: &NameViewpoint<'_, '_, 'a>,
    message: &str,
    fields: &'c [ConstantField],
) -> Result<Vec<GivenField<'c, 'a>>, AllocError>
    ensures { IfOk result (λ v. map given_view v.items
        ≡ flat_map (given_of (viewpoint_view at.now) message.now)
        (map constant_field_syntax fields.now)) }
{
    let mut given = Vec::new(at.alloc);
    'fields: for field in fields {
        add_given(at, message, &mut given, field)?;
    }
    Ok(given)
}

fn add_given<'c, 'a>(
    at: &NameViewpoint<'_, '_, 'a>,
    message: &str,
    given: &mut Vec<GivenField<'c, 'a>>,
    field: &'c ConstantField,
) -> Result<(), AllocError>
    ensures { OnOk result (map given_view given.new.items ≡ map given_view given.old.items
        ++ given_of (viewpoint_view at.now) message.now (constant_field_syntax field.now)) }
{
    let Some(meant) = constant_field(at, message, &field.name)? else {
        return Ok(());
    };
    given.push(GivenField {
        name: name_text(&field.name),
        field: meant,
    })?;
    Ok(())
}

/// The name as it is written, without its brackets.
pub fn name_text(name: &ConstantFieldName) -> &str
    ensures { result.now ≡ spec.name_text (constant_name_syntax name.now) }
{
    match name {
        ConstantFieldName::Regular(name) => name,
        ConstantFieldName::Extension(name) => name,
        ConstantFieldName::AnyUrl(name) => name,
    }
}

// ---- fields that are given again

/// Tells each that is given again, or behind another member of its oneof.
fn tell_twice(
    alloc: Global,
    found: &mut Vec<TextViolation>,
    place: Place,
    given: &[GivenField<'_, '_>],
) -> Result<(), AllocError>
    ensures { OnOk result (told found.new ≡ told found.old
        ++ spec.given_twice place [] (map given_view given.now)) }
{
    let mut numbers: BTreeSet<i32> = BTreeSet::new(alloc);
    let mut oneofs: BTreeSet<i32> = BTreeSet::new(alloc);
    'given: for one in given {
        let is_new = is_first_of_number(&mut numbers, one.field)?;
        let is_first = is_first_of_oneof(&mut oneofs, one.field)?;
        tell_again(alloc, found, place, is_new, is_first, one)?;
    }
    Ok(())
}

/// Whether none of the number of the field was before, and now it was.
fn is_first_of_number(
    numbers: &mut BTreeSet<i32>,
    field: &FieldDescriptorProto,
) -> Result<bool, AllocError>
    ensures first { IfOk result
        (λ b. b ≡ not (has_number numbers.old (field_view field.now).number)) }
    ensures set { OnOk result ((n : ℤ) → has_number numbers.new n
        ≡ (int_eq (field_view field.now).number n || has_number numbers.old n)) }
{
    Ok(numbers.insert(field.number)?)
}

/// Whether none of the oneof of the field, if it has one, was before, and now it was.
fn is_first_of_oneof(
    oneofs: &mut BTreeSet<i32>,
    field: &FieldDescriptorProto,
) -> Result<bool, AllocError>
    ensures first { IfOk result (λ b. b ≡ not (spec.is_of_oneof (has_number oneofs.old)
        (field_view field.now).oneof_index)) }
    ensures set { OnOk result ((i : ℤ) → has_number oneofs.new i
        ≡ (spec.is_among i (option_to_list (field_view field.now).oneof_index)
        || has_number oneofs.old i)) }
{
    match field.oneof_index {
        Some(index) => Ok(oneofs.insert(index)?),
        None => Ok(true),
    }
}

/// Tells the field, where it was given before, or none was of its number, and one of its oneof was.
fn tell_again(
    alloc: Global,
    found: &mut Vec<TextViolation>,
    place: Place,
    is_new: bool,
    is_first: bool,
    one: &GivenField<'_, '_>,
) -> Result<(), AllocError>
    ensures { let g = given_view one.now in
        OnOk result (told found.new ≡ told found.old
        ++ (breach_if (not is_new && not (names.is_repeated g.field.label))
        rule.ConstantFieldTwice place g.name
        ++ breach_if (is_new && not is_first) rule.OneofMemberTwice place g.name)) }
{
    let twice = !is_new && !is_repeated(one.field);
    let other = is_new && !is_first;
    let name = one.name;
    tell_if(
        alloc,
        found,
        twice,
        TextRule::ConstantFieldTwice,
        place,
        name,
    )?;
    tell_if(alloc, found, other, TextRule::OneofMemberTwice, place, name)
}

// ---- fields that are missing

/// The numbers of the fields.
fn numbers_of(alloc: Global, given: &[GivenField<'_, '_>]) -> Result<BTreeSet<i32>, AllocError>
    ensures { IfOk result (λ s. (n : ℤ) → has_number s n
        ≡ spec.is_among n (spec.numbers (map given_view given.now))) }
{
    let mut numbers = BTreeSet::new(alloc);
    'given: for one in given {
        numbers.insert(one.field.number)?;
    }
    Ok(numbers)
}

/// Tells each required field that isn't given.
fn tell_missing(
    alloc: Global,
    found: &mut Vec<TextViolation>,
    place: Place,
    given: &BTreeSet<i32>,
    fields: &[FieldDescriptorProto],
) -> Result<(), AllocError>
    ensures { OnOk result (told found.new ≡ told found.old
        ++ flat_map (spec.missing_breaches place (has_number given.now))
        (map field_view fields.now)) }
{
    'fields: for field in fields {
        let missing = is_required(field) && !given.contains(&field.number);
        let rule = TextRule::RequiredFieldMissing;
        tell_if(alloc, found, missing, rule, place, field.name.as_str())?;
    }
    Ok(())
}

fn is_required(field: &FieldDescriptorProto) -> bool
    ensures { result ≡ spec.is_required (field_view field.now).label }
{
    matches!(field.label, Label::Required)
}

pub fn is_repeated(field: &FieldDescriptorProto) -> bool
    ensures { result ≡ names.is_repeated (field_view field.now).label }
{
    matches!(field.label, Label::Repeated)
}
