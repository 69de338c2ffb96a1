//! Oneofs of messages.

ghost use Rattle.std.specs.Prelude.{◌≡◌, ◌++◌, [], ◌∷◌, ℤ, List, length, map, OnOk, IfOk};
ghost use Rattle.std.specs.Prelude.{option_to_list, string_bytes};
ghost use Rattle.protobuf_parse_model.specs.Descriptors.{field_view, oneof_view};
ghost use Rattle.protobuf_parse_rules.specs.Marks.{Marks};
ghost use Rattle.protobuf_parse_rules.specs.Oneofs as spec;
ghost use Rattle.protobuf_parse_rules.specs.Oneofs.{empty_oneofs, oneofs_held};
ghost use Rattle.protobuf_parse_rules.specs.BodyViews.{body_view};
ghost use Rattle.protobuf_parse_rules.specs.Positions.{by_position};
ghost use Rattle.protobuf_parse_rules.specs.Rules.{breaches_at, breaches_told};
ghost use Rattle.protobuf_parse_rules.specs.Violations.{site_in};

use crate::bodies::{Body, Holds};
use crate::finding::found_if;
use crate::positions::{is_marked, marks_of};
use crate::rule::Rule;
use crate::tell::tell;
use crate::violation::Violation;
use protobuf_parse_model::{FieldDescriptorProto, OneofDescriptorProto};
use std::alloc::{AllocError, Global};

/// Tells each oneof of the body in which no field stands.
pub fn check_oneofs(
    alloc: Global,
    told: &mut Vec<Violation>,
    body: &Body<'_>,
) -> Result<(), AllocError>
    ensures { OnOk result (breaches_told told.new ≡ breaches_told told.old
        ++ empty_oneofs (body_view body.now)) }
{
    match body.holds {
        Holds::Message(message) => {
            check_among(alloc, told, body, &message.field, &message.oneof_decl)
        }
        Holds::File(_) => Ok(()),
    }
}

/// Tells each of the oneofs in which none of the fields stands.
fn check_among(
    alloc: Global,
    told: &mut Vec<Violation>,
    body: &Body<'_>,
    fields: &[FieldDescriptorProto],
    oneofs: &[OneofDescriptorProto],
) -> Result<(), AllocError>
    ensures { OnOk result (breaches_told told.new ≡ breaches_told told.old
        ++ by_position (spec.oneof_breaches body.now.file.now (string_bytes body.now.scope)
        (oneofs_held (map field_view fields.now))) 0 (map oneof_view oneofs.now)) }
{
    match oneofs {
        [] => Ok(()),
        _ => check_held(alloc, told, body, fields, oneofs),
    }
}

fn check_held(
    alloc: Global,
    told: &mut Vec<Violation>,
    body: &Body<'_>,
    fields: &[FieldDescriptorProto],
    oneofs: &[OneofDescriptorProto],
) -> Result<(), AllocError>
    ensures { OnOk result (breaches_told told.new ≡ breaches_told told.old
        ++ by_position (spec.oneof_breaches body.now.file.now (string_bytes body.now.scope)
        (oneofs_held (map field_view fields.now))) 0 (map oneof_view oneofs.now)) }
{
    let held = numbers_of(alloc, fields)?;
    let marks = marks_of(alloc, &held, oneofs.len())?;
    check_each(alloc, told, body, &marks, oneofs)
}

/// The positions of oneofs that the fields say.
fn numbers_of(alloc: Global, fields: &[FieldDescriptorProto]) -> Result<Vec<i32>, AllocError>
    ensures { IfOk result (λ v. v.items ≡ oneofs_held (map field_view fields.now)) }
{
    let mut numbers = Vec::new(alloc);
    'fields: for field in fields {
        add_number(&mut numbers, field)?;
    }
    Ok(numbers)
}

fn add_number(numbers: &mut Vec<i32>, field: &FieldDescriptorProto) -> Result<(), AllocError>
    ensures { OnOk result (numbers.new.items ≡ numbers.old.items
        ++ option_to_list (field_view field.now).oneof_index) }
{
    match field.oneof_index {
        Some(number) => {
            numbers.push(number)?;
            Ok(())
        }
        None => Ok(()),
    }
}

fn check_each(
    alloc: Global,
    told: &mut Vec<Violation>,
    body: &Body<'_>,
    marks: &[bool],
    oneofs: &[OneofDescriptorProto],
) -> Result<(), AllocError>
    ensures { OnOk result ((held : List ℤ) → Marks held (length oneofs.now) marks.now →
        breaches_told told.new ≡ breaches_told told.old
        ++ by_position (spec.oneof_breaches body.now.file.now (string_bytes body.now.scope) held)
        0 (map oneof_view oneofs.now)) }
{
    'oneofs: for (position, oneof) in oneofs.iter().enumerate() {
        check_one(alloc, told, body, is_marked(marks, position), oneof)?;
    }
    Ok(())
}

fn check_one(
    alloc: Global,
    told: &mut Vec<Violation>,
    body: &Body<'_>,
    held: bool,
    oneof: &OneofDescriptorProto,
) -> Result<(), AllocError>
    ensures { OnOk result (breaches_told told.new ≡ breaches_told told.old
        ++ breaches_at (site_in (body_view body.now) (oneof_view oneof.now).name)
        (spec.without_fields held ∷ [])) }
{
    let found = found_if(!held, Rule::OneofWithoutFields);
    tell(alloc, told, body.spot(&oneof.name), &found)
}
