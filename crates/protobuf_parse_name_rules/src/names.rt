//! Names of several parts: T13.

ghost use Rattle.std.specs.Prelude.{◌≡◌, ◌++◌, ◌∷◌, false, flat_map, map, IfOk, OnOk};
ghost use Rattle.protobuf_parse_base.specs.Characters as char;
ghost use Rattle.protobuf_parse_base.specs.Names.{fronts};
ghost use Rattle.protobuf_parse_model.specs.Lookup.{begins_with_dot};
ghost use Rattle.protobuf_parse_syntax.specs.Trees.{option_part_syntax, option_syntax, type_syntax};
ghost use Rattle.protobuf_parse_text_rules.specs.Breaches.{breach_if};
ghost use Rattle.protobuf_parse_text_rules.specs.OptionViews.{options_view};
ghost use Rattle.protobuf_parse_text_rules.specs.Views.{told};
ghost use Rattle.protobuf_parse_text_rules.specs.declared.rule.TextRule.TheVariants as rule;
ghost use Rattle.protobuf_parse_name_rules.specs.InnerViews.{sight_view, viewpoint_view};
ghost use Rattle.protobuf_parse_name_rules.specs.InnerViews.{is_meant};
ghost use Rattle.protobuf_parse_name_rules.specs.Names as spec;

use crate::files::NameViewpoint;
use crate::lookups::{holds_names, is_extension, is_type};
use protobuf_parse_lexer::Place;
use protobuf_parse_model::Outward;
use protobuf_parse_syntax::{ProtobufOption, ProtobufOptionName, ProtobufOptionNamePart, Type};
use protobuf_parse_text_rules::{TextRule, TextViolation, tell_if};
use std::alloc::AllocError;

/// What a name may mean.
#[derive(Clone, Copy)]
pub enum Wanted {
    /// A message or an enum.
    Type,
    Extension,
}

/// Whether that is what the full name means.
fn is_meant(at: &NameViewpoint<'_, '_, '_>, wanted: Wanted, name: &str) -> bool
    ensures { result ≡ is_meant (sight_view at.now.sight.now) wanted name.now }
{
    match wanted {
        Wanted::Type => is_type(at.sight, name),
        Wanted::Extension => is_extension(at.sight, name),
    }
}

/// Whether the innermost scope that has the first part of the name hasn't the rest.
pub fn is_resolved_inside(
    at: &NameViewpoint<'_, '_, '_>,
    wanted: Wanted,
    name: &str,
) -> Result<bool, AllocError>
    ensures { IfOk result (λ b. b ≡ spec.is_resolved_inside (viewpoint_view at.now)
        (is_meant (sight_view at.now.sight.now) wanted) name.now) }
{
    if is_absolute(name) {
        return Ok(false);
    }
    match name.split_once('.') {
        Some((first, rest)) => is_lost(at, wanted, first, rest),
        None => Ok(false),
    }
}

/// Whether a name means itself, by its first dot.
fn is_absolute(name: &str) -> bool
    ensures { result ≡ begins_with_dot name.now }
{
    name.starts_with('.')
}

/// The same of a name with these around its first dot.
fn is_lost(
    at: &NameViewpoint<'_, '_, '_>,
    wanted: Wanted,
    first: &str,
    rest: &str,
) -> Result<bool, AllocError>
    requires { begins_with_dot first.now ≡ false }
    ensures { let v = viewpoint_view at.now in
        IfOk result (λ b. b ≡ spec.is_lost v.sight (is_meant v.sight wanted) first.now
        (first.now ++ char.dot ∷ rest.now) (fronts v.scope)) }
{
    let mut names = Outward::new(at.alloc, at.scope, first)?;
    'names: loop {
        if holds_names(at.sight, names.first()) {
            let mut whole = names.into_first();
            whole.push('.')?;
            whole.push_str(rest)?;
            return Ok(!is_meant(at, wanted, &whole));
        }
        match names.rest()? {
            Some(outer) => names = outer,
            None => return Ok(false),
        }
    }
}

/// Tells the name, if it is resolved inside of something that hasn't it.
fn check_name(
    at: &NameViewpoint<'_, '_, '_>,
    found: &mut Vec<TextViolation>,
    wanted: Wanted,
    place: Place,
    name: &str,
) -> Result<(), AllocError>
    ensures { let v = viewpoint_view at.now in
        OnOk result (told found.new ≡ told found.old
        ++ breach_if (spec.is_resolved_inside v (is_meant v.sight wanted) name.now)
        rule.NameResolvedInside place name.now) }
{
    let broken = is_resolved_inside(at, wanted, name)?;
    let rule = TextRule::NameResolvedInside;
    tell_if(at.alloc, found, broken, rule, place, name)
}

/// Tells what is wrong with the name of a message or an enum.
pub fn check_type_name(
    at: &NameViewpoint<'_, '_, '_>,
    found: &mut Vec<TextViolation>,
    place: Place,
    name: &str,
) -> Result<(), AllocError>
    ensures { OnOk result (told found.new ≡ told found.old
        ++ spec.type_name_breaches (viewpoint_view at.now) place name.now) }
{
    check_name(at, found, Wanted::Type, place, name)
}

/// Tells what is wrong with the names of a field's type.
pub fn check_type(
    at: &NameViewpoint<'_, '_, '_>,
    found: &mut Vec<TextViolation>,
    place: Place,
    type_: &Type,
) -> Result<(), AllocError>
    ensures { OnOk result (told found.new ≡ told found.old
        ++ spec.type_breaches (viewpoint_view at.now) place (type_syntax type_.now)) }
{
    match type_ {
        Type::Map(_, values) => check_named(at, found, place, values),
        Type::Named(_) | Type::Scalar(_) => check_named(at, found, place, type_),
    }
}

/// The same of a type that is no map.
fn check_named(
    at: &NameViewpoint<'_, '_, '_>,
    found: &mut Vec<TextViolation>,
    place: Place,
    type_: &Type,
) -> Result<(), AllocError>
    ensures { OnOk result (told found.new ≡ told found.old
        ++ flat_map (spec.type_name_breaches (viewpoint_view at.now) place)
        (spec.name_of_type (type_syntax type_.now))) }
{
    match type_ {
        Type::Named(name) => check_type_name(at, found, place, name),
        Type::Map(_, _) | Type::Scalar(_) => Ok(()),
    }
}

/// Tells what is wrong with the names in the names of options.
pub fn check_option_names(
    at: &NameViewpoint<'_, '_, '_>,
    found: &mut Vec<TextViolation>,
    options: &[&ProtobufOption],
) -> Result<(), AllocError>
    ensures { OnOk result (told found.new ≡ told found.old
        ++ flat_map (spec.named_option_breaches (viewpoint_view at.now))
        (options_view options.now)) }
{
    'options: for option in options {
        check_option_name(at, found, option)?;
    }
    Ok(())
}

fn check_option_name(
    at: &NameViewpoint<'_, '_, '_>,
    found: &mut Vec<TextViolation>,
    option: &ProtobufOption,
) -> Result<(), AllocError>
    ensures { OnOk result (told found.new ≡ told found.old
        ++ spec.named_option_breaches (viewpoint_view at.now) (option_syntax option.now)) }
{
    match &option.name {
        ProtobufOptionName::Custom(parts) => check_parts(at, found, option.place, parts),
        ProtobufOptionName::Builtin(_) => Ok(()),
    }
}

fn check_parts(
    at: &NameViewpoint<'_, '_, '_>,
    found: &mut Vec<TextViolation>,
    place: Place,
    parts: &[ProtobufOptionNamePart],
) -> Result<(), AllocError>
    ensures { OnOk result (told found.new ≡ told found.old
        ++ flat_map (spec.part_breaches (viewpoint_view at.now) place)
        (map option_part_syntax parts.now)) }
{
    'parts: for part in parts {
        check_part(at, found, place, part)?;
    }
    Ok(())
}

fn check_part(
    at: &NameViewpoint<'_, '_, '_>,
    found: &mut Vec<TextViolation>,
    place: Place,
    part: &ProtobufOptionNamePart,
) -> Result<(), AllocError>
    ensures { OnOk result (told found.new ≡ told found.old
        ++ spec.part_breaches (viewpoint_view at.now) place (option_part_syntax part.now)) }
{
    match part {
        ProtobufOptionNamePart::Ext(name) => check_name(at, found, Wanted::Extension, place, name),
        ProtobufOptionNamePart::Direct(_) => Ok(()),
    }
}
