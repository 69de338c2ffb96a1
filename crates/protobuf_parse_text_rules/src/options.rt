//! Options.

ghost use Rattle.std.specs.Prelude.{◌≡◌, ◌++◌, [], List, flat_map, map, codes, bytes_eq, IfOk, OnOk};
ghost use Rattle.std.specs.Borrow.{Bor};
ghost use Rattle.protobuf_parse_syntax.specs.Trees.{OptionSyntax, option_syntax};
ghost use Rattle.protobuf_parse_syntax.specs.declared.tree.option.ProtobufOption.{ProtobufOption};
ghost use Rattle.protobuf_parse_text_rules.specs.Breaches.{breach_if};
ghost use Rattle.protobuf_parse_text_rules.specs.OptionViews.{named_view, options_view};
ghost use Rattle.protobuf_parse_text_rules.specs.Options as spec;
ghost use Rattle.protobuf_parse_text_rules.specs.Views.{told};
ghost use Rattle.protobuf_parse_text_rules.specs.declared.rule.TextRule.{TextRule};

use crate::constants::{has_dotted, is_list};
use crate::rule::TextRule;
use crate::violation::{TextViolation, tell, tell_if};
use protobuf_parse_lexer::Place;
use protobuf_parse_syntax::{ProtobufOption, ProtobufOptionName};
use std::alloc::{AllocError, Global};
use std::collections::BTreeSet;

/// The name of a built-in option, and where it stands.
#[derive(Clone, Copy)]
pub struct NamedOption<'a> {
    pub place: Place,
    pub name: &'a str,
}

/// Tells what is wrong with the options of brackets.
pub fn check_list(
    alloc: Global,
    found: &mut Vec<TextViolation>,
    options: &[ProtobufOption],
) -> Result<(), AllocError>
    ensures { OnOk result (told found.new ≡ told found.old
        ++ spec.option_breaches (map option_syntax options.now)) }
{
    if options.is_empty() {
        return Ok(());
    }
    let listed = references(alloc, options)?;
    check_options(alloc, found, &listed)
}

pub fn references<'a>(
    alloc: Global,
    options: &'a [ProtobufOption],
) -> Result<Vec<&'a ProtobufOption>, AllocError>
    ensures { IfOk result (λ v. options_view v.items ≡ map option_syntax options.now) }
{
    let mut listed = Vec::with_capacity(alloc, options.len())?;
    'options: for option in options {
        listed.push(option)?;
    }
    Ok(listed)
}

/// Tells what is wrong with the options of a list or a body.
pub fn check_options(
    alloc: Global,
    found: &mut Vec<TextViolation>,
    options: &[&ProtobufOption],
) -> Result<(), AllocError>
    ensures { OnOk result (told found.new ≡ told found.old
        ++ spec.option_breaches (options_view options.now)) }
{
    check_values(alloc, found, options)?;
    let named = builtins_of(alloc, options)?;
    tell_twice(alloc, found, &named)
}

fn check_values(
    alloc: Global,
    found: &mut Vec<TextViolation>,
    options: &[&ProtobufOption],
) -> Result<(), AllocError>
    ensures { OnOk result (told found.new ≡ told found.old
        ++ flat_map spec.value_breaches (options_view options.now)) }
{
    'options: for option in options {
        check_value(alloc, found, option)?;
    }
    Ok(())
}

fn check_value(
    alloc: Global,
    found: &mut Vec<TextViolation>,
    option: &ProtobufOption,
) -> Result<(), AllocError>
    ensures { OnOk result (told found.new ≡ told found.old
        ++ spec.value_breaches (option_syntax option.now)) }
{
    let place = option.place;
    let list = is_list(&option.value);
    let dotted = has_dotted(&option.value);
    tell_if(alloc, found, list, TextRule::ListAsValue, place, "")?;
    tell_if(alloc, found, dotted, TextRule::DottedExtension, place, "")
}

/// The built-in ones of the options, in order.
pub fn builtins_of<'a>(
    alloc: Global,
    options: &[&'a ProtobufOption],
) -> Result<Vec<NamedOption<'a>>, AllocError>
    ensures { IfOk result (λ v. map named_view v.items
        ≡ spec.builtins (options_view options.now)) }
{
    let mut named = Vec::new(alloc);
    'options: for option in options {
        add_builtin(&mut named, option)?;
    }
    Ok(named)
}

fn add_builtin<'a>(
    named: &mut Vec<NamedOption<'a>>,
    option: &'a ProtobufOption,
) -> Result<(), AllocError>
    ensures { OnOk result (map named_view named.new.items ≡ map named_view named.old.items
        ++ spec.builtin_named (option_syntax option.now).place (option_syntax option.now).name) }
{
    match &option.name {
        ProtobufOptionName::Builtin(name) => {
            named.push(NamedOption {
                place: option.place,
                name: name.as_str(),
            })?;
            Ok(())
        }
        ProtobufOptionName::Custom(_) => Ok(()),
    }
}

/// Tells each whose name stands among those before it.
fn tell_twice(
    alloc: Global,
    found: &mut Vec<TextViolation>,
    options: &[NamedOption<'_>],
) -> Result<(), AllocError>
    ensures { OnOk result (told found.new ≡ told found.old
        ++ spec.set_twice [] (map named_view options.now)) }
{
    let mut seen: BTreeSet<&str> = BTreeSet::new(alloc);
    'options: for option in options {
        let is_new = seen.insert(option.name)?;
        tell_if(
            alloc,
            found,
            !is_new,
            TextRule::OptionTwice,
            option.place,
            option.name,
        )?;
    }
    Ok(())
}

/// Tells the rule at each built-in option of that name.
pub fn tell_named(
    alloc: Global,
    found: &mut Vec<TextViolation>,
    rule: TextRule,
    name: &str,
    options: &[&ProtobufOption],
) -> Result<(), AllocError>
    ensures { OnOk result (told found.new ≡ told found.old
        ++ spec.named_breaches rule name.now (spec.builtins (options_view options.now))) }
{
    let named = builtins_of(alloc, options)?;
    tell_each_named(alloc, found, rule, name, &named)
}

fn tell_each_named(
    alloc: Global,
    found: &mut Vec<TextViolation>,
    rule: TextRule,
    name: &str,
    options: &[NamedOption<'_>],
) -> Result<(), AllocError>
    ensures { OnOk result (told found.new ≡ told found.old
        ++ spec.named_breaches rule name.now (map named_view options.now)) }
{
    'options: for option in options {
        tell_if(alloc, found, option.name == name, rule, option.place, "")?;
    }
    Ok(())
}
