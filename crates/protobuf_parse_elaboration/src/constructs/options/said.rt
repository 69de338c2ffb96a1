//! What the built-in options among statements say.

ghost use Rattle.std.specs.Prelude.{◌≡◌, map, option_map, option_to_list, string_bytes};
ghost use Rattle.std.specs.Prelude.{IfOk};
ghost use Rattle.protobuf_parse_syntax.specs.Trees.{constant_syntax, option_syntax};
ghost use Rattle.protobuf_parse_model.specs.BuiltinOptions as spec;
ghost use Rattle.protobuf_parse_model.specs.BuiltinOptions.{options_seen};
ghost use Rattle.protobuf_parse_elaboration.specs.Fields.{first_named, is_named};
ghost use Rattle.protobuf_parse_elaboration.specs.OptionViews.{constant_seen, words_seen};

use crate::constructs::options::entries::under_name;
use crate::constructs::options::strings::decoded_text;
use protobuf_parse_syntax::{ProtobufConstant, ProtobufOption, ProtobufOptionName};
use std::alloc::{AllocError, Global};

/// The value that a statement gives to the built-in option of that name, if it gives it one.
fn value_if_named<'a>(option: &'a ProtobufOption, name: &str) -> Option<&'a ProtobufConstant>
    ensures { let o = option_syntax option.now in
        map constant_seen (option_to_list result) ≡ spec.value_if_named name.now o.value o.name }
{
    match &option.name {
        ProtobufOptionName::Builtin(builtin) if builtin.as_str() == name => Some(&option.value),
        _ => None,
    }
}

/// The first statement that sets the built-in option of that name.
pub fn first_named<'a>(options: &[&'a ProtobufOption], name: &str) -> Option<&'a ProtobufOption>
    ensures { option_map (λ o. option_syntax o.now) result
        ≡ first_named name.now (options_seen options.now) }
{
    for option in options {
        if is_named(option, name) {
            return Some(option);
        }
    }
    None
}

/// Whether the statement sets the built-in option of that name.
fn is_named(option: &ProtobufOption, name: &str) -> bool
    ensures { result ≡ is_named name.now (option_syntax option.now).name }
{
    match &option.name {
        ProtobufOptionName::Builtin(builtin) => builtin.as_str() == name,
        ProtobufOptionName::Custom(_) => false,
    }
}

/// The value that the last statement gives to the built-in option of that name.
pub fn last_value<'a>(options: &[&'a ProtobufOption], name: &str) -> Option<&'a ProtobufConstant>
    ensures { option_map constant_seen result
        ≡ spec.last_value name.now (options_seen options.now) }
{
    let mut last = None;
    for option in options {
        if let Some(value) = value_if_named(option, name) {
            last = Some(value);
        }
    }
    last
}

/// What the last statement says of an option that is a text; `None` where none does.
pub fn text_option(
    alloc: Global,
    options: &[&ProtobufOption],
    name: &str,
) -> Result<Option<String>, AllocError>
    ensures { IfOk result
        (λ t. option_map string_bytes t ≡ spec.text_option (options_seen options.now) name.now) }
{
    match last_value(options, name) {
        Some(value) => text_said(alloc, value),
        None => Ok(None),
    }
}

fn text_said(alloc: Global, value: &ProtobufConstant) -> Result<Option<String>, AllocError>
    ensures { IfOk result
        (λ t. option_map string_bytes t ≡ spec.text_said (constant_syntax value.now)) }
{
    match value {
        ProtobufConstant::String(string) => decoded_text(alloc, string),
        _ => Ok(None),
    }
}

/// What the last statement says of an option that is a truth value; `None` where none does.
pub fn truth_option(options: &[&ProtobufOption], name: &str) -> Option<bool>
    ensures { result ≡ spec.truth_option (options_seen options.now) name.now }
{
    match last_value(options, name)? {
        ProtobufConstant::Bool(truth) => Some(*truth),
        _ => None,
    }
}

/// Which of the values of an enum, each given with its name, the last statement says; `None` where
/// none does.
pub fn word_option<T: Copy>(
    options: &[&ProtobufOption],
    name: &str,
    words: &[(&str, T)],
) -> Option<T>
    ensures { result ≡ spec.word_option (words_seen words.now) (options_seen options.now) name.now }
{
    word_said(last_value(options, name)?, words)
}

fn word_said<T: Copy>(value: &ProtobufConstant, words: &[(&str, T)]) -> Option<T>
    ensures { result ≡ spec.word_said (words_seen words.now) (constant_syntax value.now) }
{
    match value {
        ProtobufConstant::Ident(said) => under_name(words, said),
        _ => None,
    }
}
