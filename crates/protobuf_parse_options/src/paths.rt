//! The names of options, part by part.

ghost use Rattle.std.specs.Prelude.{◌≡◌, [], ◌∷◌, ◌++◌, List, flat_map, map, option_to_list};
ghost use Rattle.std.specs.Prelude.{string_bytes, IfOk, MatchResult};
ghost use Rattle.protobuf_parse_syntax.specs.Trees.{constant_syntax, option_part_syntax};
ghost use Rattle.protobuf_parse_model.specs.Descriptors.{field_view};
ghost use Rattle.protobuf_parse_model.specs.Environment.{part_text};
ghost use Rattle.protobuf_parse_model.specs.Faults.{Wrong};
ghost use Rattle.protobuf_parse_options.specs.CustomFaults.{part_faults, path_faults, step_faults};
ghost use Rattle.protobuf_parse_options.specs.CustomOptions.{path_items};
ghost use Rattle.protobuf_parse_options.specs.Given.{bytes_of_items, option_scope_view, path_said};
ghost use Rattle.protobuf_parse_options.specs.Given.{through_faults, through_items};
ghost use Rattle.protobuf_parse_options.specs.OptionFields.{messages, part_field, type_takes};
ghost use Rattle.protobuf_parse_options.specs.Refusals.{Gives, Refuses};

use crate::constants::push_given;
use crate::fields::{part_field, type_name_of};
use crate::refuse::{OptionFailure, wrong};
use crate::values::{check_number, push_inside};
use crate::viewpoint::OptionViewpoint;
use protobuf_parse_model::{ElabErrorKind, FieldDescriptorProto, FieldType};
use protobuf_parse_syntax::{ProtobufConstant, ProtobufOptionNamePart};
use std::alloc::{AllocError, Global};

/// Adds the bytes of what the constant gives to the field that the parts lead to, from the message
/// on, for the option of that name.
#[cycle(path)]
pub fn push_path(
    parts: &[ProtobufOptionNamePart],
    alloc: Global,
    at: &OptionViewpoint<'_, '_>,
    option: &[ProtobufOptionNamePart],
    value: &ProtobufConstant,
    message: &str,
    out: &mut Vec<u8>,
) -> Result<(), OptionFailure>
    ensures { let s = option_scope_view at.now in let ps = map option_part_syntax parts.now in
        let c = constant_syntax value.now in
        Gives (λ u. out.new.items) result
        (path_faults s (path_said option.now) c message.now ps)
        (out.old.items ++ bytes_of_items (path_items s c message.now ps)) }
{
    let [part, others @ ..] = parts else {
        return Ok(());
    };
    if others.is_empty() {
        return push_last(part, alloc, at, option, value, message, out);
    }
    push_first(others, part, alloc, at, option, value, message, out)
}

/// As [`push_path`], of a part that others follow.
#[cycle(path)]
#[tactic(auto, using(crate::proofs::Refusing::refuses_left))]
fn push_first(
    others: &[ProtobufOptionNamePart],
    part: &ProtobufOptionNamePart,
    alloc: Global,
    at: &OptionViewpoint<'_, '_>,
    option: &[ProtobufOptionNamePart],
    value: &ProtobufConstant,
    message: &str,
    out: &mut Vec<u8>,
) -> Result<(), OptionFailure>
    ensures { let s = option_scope_view at.now in let p = option_part_syntax part.now in
        let ps = map option_part_syntax others.now in let c = constant_syntax value.now in
        Gives (λ u. out.new.items) result
        (part_faults s message.now p ++ flat_map (through_faults s (path_said option.now) c p ps)
        (option_to_list (part_field s message.now p)))
        (out.old.items ++ bytes_of_items (flat_map (through_items s c ps)
        (option_to_list (part_field s message.now p)))) }
{
    let field = part_field(alloc, at, message, part)?;
    push_through(others, part, alloc, at, option, value, field, out)
}

/// Adds the bytes of the message in which the other parts stand, under the field's number.
#[cycle(path)]
#[tactic(auto, using(crate::proofs::Refusing::refuses_left, crate::proofs::Refusing::refuses_right))]
fn push_through(
    others: &[ProtobufOptionNamePart],
    part: &ProtobufOptionNamePart,
    alloc: Global,
    at: &OptionViewpoint<'_, '_>,
    option: &[ProtobufOptionNamePart],
    value: &ProtobufConstant,
    field: &FieldDescriptorProto,
    out: &mut Vec<u8>,
) -> Result<(), OptionFailure>
    ensures { let s = option_scope_view at.now in let p = option_part_syntax part.now in
        let ps = map option_part_syntax others.now in let c = constant_syntax value.now in
        let f = field_view field.now in
        Gives (λ u. out.new.items) result
        (through_faults s (path_said option.now) c p ps f)
        (out.old.items ++ bytes_of_items (through_items s c ps f)) }
{
    check_number(alloc, field)?;
    check_step(alloc, part, field)?;
    let mut inside = Vec::new(alloc);
    push_path(
        others,
        alloc,
        at,
        option,
        value,
        type_name_of(field),
        &mut inside,
    )?;
    push_inside(out, field, &inside)?;
    Ok(())
}

/// Adds the bytes of what the constant gives to the field of the message that the only part means.
#[tactic(auto, using(crate::proofs::Refusing::refuses_left))]
pub fn push_last(
    part: &ProtobufOptionNamePart,
    alloc: Global,
    at: &OptionViewpoint<'_, '_>,
    option: &[ProtobufOptionNamePart],
    value: &ProtobufConstant,
    message: &str,
    out: &mut Vec<u8>,
) -> Result<(), OptionFailure>
    ensures { let s = option_scope_view at.now in let ps = option_part_syntax part.now ∷ [] in
        let c = constant_syntax value.now in
        Gives (λ u. out.new.items) result
        (path_faults s (path_said option.now) c message.now ps)
        (out.old.items ++ bytes_of_items (path_items s c message.now ps)) }
{
    let field = part_field(alloc, at, message, part)?;
    push_given(value, alloc, at, option, field, out)
}

/// Refuses a field that other parts follow and that is no message: E24 for a group, E16 for any
/// other.
pub fn check_step(
    alloc: Global,
    part: &ProtobufOptionNamePart,
    field: &FieldDescriptorProto,
) -> Result<(), OptionFailure>
    ensures { let t = type_takes (field_view field.now).type_ in let p = part_text
        (option_part_syntax part.now) in
        MatchResult result (λ u. t ≡ messages)
        (λ e. (inside : List Wrong) → Refuses e (step_faults p t inside)) }
{
    let kind = match field.type_ {
        FieldType::Message => return Ok(()),
        FieldType::Group => ElabErrorKind::GroupStepInOptionName,
        _ => ElabErrorKind::ExtensionIsNotMessage,
    };
    let text = part_text(alloc, part)?;
    Err(wrong(alloc, kind, &text))
}

/// A part as it is written.
fn part_text(alloc: Global, part: &ProtobufOptionNamePart) -> Result<String, AllocError>
    ensures { IfOk result (λ s. string_bytes s ≡ part_text (option_part_syntax part.now)) }
{
    match part {
        ProtobufOptionNamePart::Direct(name) => String::from_str(alloc, name),
        ProtobufOptionNamePart::Ext(name) => format!(in alloc; "({name})"),
    }
}
