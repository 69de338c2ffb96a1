//! What the custom options among the statements of a construct become.

ghost use Rattle.std.specs.Prelude.{◌≡◌, ◌++◌, [], flat_map, map, IfOk, OnOk};
ghost use Rattle.protobuf_parse_syntax.specs.Trees.{constant_syntax, option_part_syntax};
ghost use Rattle.protobuf_parse_syntax.specs.Trees.{option_syntax};
ghost use Rattle.protobuf_parse_model.specs.Faults.{found};
ghost use Rattle.protobuf_parse_model.specs.OptionTables.{table_of};
ghost use Rattle.protobuf_parse_model.specs.BuiltinOptions.{options_seen};
ghost use Rattle.protobuf_parse_options.specs.CustomFaults.{builtin_step_faults, custom_faults};
ghost use Rattle.protobuf_parse_options.specs.CustomFaults.{custom_name_faults};
ghost use Rattle.protobuf_parse_options.specs.CustomFaults.{custom_statement_faults};
ghost use Rattle.protobuf_parse_options.specs.CustomFaults.{option_faults_at};
ghost use Rattle.protobuf_parse_options.specs.CustomOptions.{path_items};
ghost use Rattle.protobuf_parse_options.specs.OptionBytes.{spelled_at};
ghost use Rattle.protobuf_parse_options.specs.Given.{bytes_of_items, bytes_of_option};
ghost use Rattle.protobuf_parse_options.specs.Given.{option_scope_view};
ghost use Rattle.protobuf_parse_options.specs.OptionFields.{options_message};
ghost use Rattle.protobuf_parse_options.specs.Refusals.{Gives, Refuses};

use crate::paths::push_path;
use crate::refuse::{OptionFailure, wrong};
use crate::viewpoint::OptionViewpoint;
use protobuf_parse_elaboration::has_builtin_option;
use protobuf_parse_model::{Construct, ElabError, ElabErrorKind};
use protobuf_parse_syntax::{
    ProtobufConstant, ProtobufOption, ProtobufOptionName, ProtobufOptionNamePart,
};
use std::alloc::{AllocError, Global};

/// The bytes that spell what the statements of the construct denote; none where a fault stands in
/// them. What is wrong first in each option is told at the option.
pub fn bytes_of(
    alloc: Global,
    faults: &mut Vec<ElabError>,
    at: &OptionViewpoint<'_, '_>,
    construct: Construct,
    options: &[&ProtobufOption],
) -> Result<Vec<u8>, AllocError>
    ensures value { let s = option_scope_view at.now in
        IfOk result (λ v. v.items ≡ spelled_at s construct (options_seen options.now)) }
    ensures faults { let s = option_scope_view at.now in
        OnOk result (found faults.new ≡ found faults.old
        ++ custom_statement_faults s construct (options_seen options.now)) }
{
    let before = faults.len();
    let mut bytes = Vec::new(alloc);
    push_options(alloc, faults, at, construct, options, &mut bytes)?;
    if faults.len() > before {
        return Ok(Vec::new(alloc));
    }
    Ok(bytes)
}

/// Adds the bytes of what the statements give, in their order, where nothing is wrong in them.
fn push_options(
    alloc: Global,
    faults: &mut Vec<ElabError>,
    at: &OptionViewpoint<'_, '_>,
    construct: Construct,
    options: &[&ProtobufOption],
    out: &mut Vec<u8>,
) -> Result<(), AllocError>
    ensures value { let s = option_scope_view at.now in let os = options_seen options.now in
        OnOk result (custom_statement_faults s construct os ≡ []
        → out.new.items ≡ out.old.items ++ flat_map (bytes_of_option s construct) os) }
    ensures faults { let s = option_scope_view at.now in
        OnOk result (found faults.new ≡ found faults.old
        ++ custom_statement_faults s construct (options_seen options.now)) }
{
    'options: for option in options {
        push_or_tell(alloc, faults, at, construct, option, out)?;
    }
    Ok(())
}

/// Adds the bytes of what the option gives, or tells what is wrong first in it.
fn push_or_tell(
    alloc: Global,
    faults: &mut Vec<ElabError>,
    at: &OptionViewpoint<'_, '_>,
    construct: Construct,
    option: &ProtobufOption,
    out: &mut Vec<u8>,
) -> Result<(), AllocError>
    ensures value { let s = option_scope_view at.now in let o = option_syntax option.now in
        OnOk result (option_faults_at s construct o ≡ []
        → out.new.items ≡ out.old.items ++ bytes_of_option s construct o) }
    ensures faults { let s = option_scope_view at.now in
        OnOk result (found faults.new ≡ found faults.old
        ++ option_faults_at s construct (option_syntax option.now)) }
{
    match push_option(alloc, at, construct, option, out) {
        Ok(()) => Ok(()),
        Err(OptionFailure::Memory) => Err(AllocError),
        Err(OptionFailure::Wrong(error)) => {
            faults.push(ElabError {
                place: option.place,
                kind: error.kind,
                what: error.what,
            })?;
            Ok(())
        }
    }
}

fn push_option(
    alloc: Global,
    at: &OptionViewpoint<'_, '_>,
    construct: Construct,
    option: &ProtobufOption,
    out: &mut Vec<u8>,
) -> Result<(), OptionFailure>
    ensures { let s = option_scope_view at.now in let o = option_syntax option.now in
        Gives (λ u. out.new.items) result
        (custom_name_faults s construct o.value o.name)
        (out.old.items ++ bytes_of_option s construct o) }
{
    match &option.name {
        ProtobufOptionName::Builtin(_) => Ok(()),
        ProtobufOptionName::Custom(parts) => {
            push_custom(alloc, at, construct, parts, &option.value, out)
        }
    }
}

fn push_custom(
    alloc: Global,
    at: &OptionViewpoint<'_, '_>,
    construct: Construct,
    parts: &[ProtobufOptionNamePart],
    value: &ProtobufConstant,
    out: &mut Vec<u8>,
) -> Result<(), OptionFailure>
    ensures { let s = option_scope_view at.now in let ps = map option_part_syntax parts.now in
        let c = constant_syntax value.now in
        Gives (λ u. out.new.items) result (custom_faults s construct c ps)
        (out.old.items ++ bytes_of_items (path_items s c (options_message construct) ps)) }
{
    let [first, ..] = parts else {
        return Ok(());
    };
    match first {
        ProtobufOptionNamePart::Direct(name) => Err(direct_first(alloc, construct, name)),
        ProtobufOptionNamePart::Ext(_) => {
            let message = options_message(construct);
            push_path(parts, alloc, at, parts, value, message, out)
        }
    }
}

/// The failure for a name that goes on from a direct part: E28 from `uninterpreted_option`, E16
/// from any other built-in option, E17 where there is none.
fn direct_first(alloc: Global, construct: Construct, name: &str) -> OptionFailure
    ensures { Refuses result (builtin_step_faults (table_of construct) name.now) }
{
    let kind = if name == "uninterpreted_option" {
        ElabErrorKind::UninterpretedOptionName
    } else if has_builtin_option(construct, name) {
        ElabErrorKind::ExtensionIsNotMessage
    } else {
        ElabErrorKind::UnknownFieldName
    };
    wrong(alloc, kind, name)
}

/// The full name of the message that holds the options of the construct.
pub fn options_message(construct: Construct) -> &'static str
    ensures { result.now ≡ options_message construct }
{
    match construct {
        Construct::File => ".google.protobuf.FileOptions",
        Construct::Message => ".google.protobuf.MessageOptions",
        Construct::Field => ".google.protobuf.FieldOptions",
        Construct::Oneof => ".google.protobuf.OneofOptions",
        Construct::Enum => ".google.protobuf.EnumOptions",
        Construct::EnumValue => ".google.protobuf.EnumValueOptions",
        Construct::Service => ".google.protobuf.ServiceOptions",
        Construct::Method => ".google.protobuf.MethodOptions",
    }
}

/// Whether more than one of the options is a custom one.
pub fn are_several(options: &[&ProtobufOption]) -> bool {
    let mut has_one = false;
    for option in options {
        if let ProtobufOptionName::Custom(_) = option.name {
            if has_one {
                return true;
            }
            has_one = true;
        }
    }
    false
}
