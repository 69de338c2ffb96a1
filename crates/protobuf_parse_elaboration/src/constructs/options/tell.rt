//! What is wrong in the options among statements, each fault at its option.

ghost use Rattle.std.specs.Prelude.{◌≡◌, ◌++◌, option_map, IfOk};
ghost use Rattle.protobuf_parse_syntax.specs.Trees.{constant_syntax, option_syntax};
ghost use Rattle.protobuf_parse_model.specs.BuiltinOptions as spec;
ghost use Rattle.protobuf_parse_model.specs.declared.customs.Construct.TheVariants as of;
ghost use Rattle.protobuf_parse_model.specs.Environment.{customs_bytes, customs_faults};
ghost use Rattle.protobuf_parse_model.specs.Faults.{placed};
ghost use Rattle.protobuf_parse_model.specs.OptionTables.{table_of};
ghost use Rattle.protobuf_parse_model.specs.BuiltinOptions.{options_seen};
ghost use Rattle.protobuf_parse_model.specs.Words.{words_of};
ghost use Rattle.protobuf_parse_elaboration.specs.ConstructOptions.{construct_faults};
ghost use Rattle.protobuf_parse_elaboration.specs.Fields.{field_option_faults};
ghost use Rattle.protobuf_parse_elaboration.specs.Fields.{field_options_faults};
ghost use Rattle.protobuf_parse_elaboration.specs.OptionViews.{kind_seen, table_seen, words_seen};
ghost use Rattle.protobuf_parse_elaboration.specs.Viewpoints.{seen_from};
ghost use Rattle.protobuf_parse_elaboration.specs.Telling.{Tells};

use crate::constructs::options::builtin::table_of;
use crate::constructs::options::entries::{has_name, under_name};
use crate::constructs::options::strings::decoded_text;
use crate::constructs::options::tables::{BuiltinKind, field_table};
use crate::constructs::viewpoint::Viewpoint;
use protobuf_parse_lexer::Place;
use protobuf_parse_model::{
    C_TYPES, Construct, CustomOptions, ElabError, ElabErrorKind, IDEMPOTENCY_LEVELS, JS_TYPES,
    OPTIMIZE_MODES, tell,
};
use protobuf_parse_syntax::{ProtobufConstant, ProtobufOption, ProtobufOptionName};
use std::alloc::{AllocError, Global};

/// What the custom options of a construct become. What is wrong is told: E9 for a string that is no
/// text, E11 for a name that the construct has no option of, E12 for `uninterpreted_option`, E13
/// for a value of another kind; then what is wrong in the custom options.
pub fn custom_bytes<C: CustomOptions>(
    at: &Viewpoint<'_, '_, C>,
    faults: &mut Vec<ElabError>,
    construct: Construct,
    options: &[&ProtobufOption],
) -> Result<Vec<u8>, AllocError>
    ensures value { let env = seen_from C.customs at.now in
        IfOk result (λ v. v.items ≡ customs_bytes env construct (options_seen options.now)) }
    ensures faults { let env = seen_from C.customs at.now in
        Tells result faults.old faults.new
        (construct_faults env construct (table_of construct) (options_seen options.now)) }
{
    tell_options(at.alloc, faults, table_of(construct), options)?;
    at.custom
        .bytes(at.alloc, faults, construct, at.context.scope, options)
}

/// As [`custom_bytes`] of the options of a field, which has `default` and `json_name` too.
pub fn custom_field_bytes<C: CustomOptions>(
    at: &Viewpoint<'_, '_, C>,
    faults: &mut Vec<ElabError>,
    options: &[&ProtobufOption],
) -> Result<Vec<u8>, AllocError>
    ensures value { let env = seen_from C.customs at.now in
        IfOk result (λ v. v.items ≡ customs_bytes env of.Field (options_seen options.now)) }
    ensures faults { let env = seen_from C.customs at.now in
        let os = options_seen options.now in Tells result faults.old faults.new
        (field_options_faults os ++ customs_faults env of.Field os) }
{
    tell_field_options(at.alloc, faults, options)?;
    at.custom.bytes(
        at.alloc,
        faults,
        Construct::Field,
        at.context.scope,
        options,
    )
}

/// Tells what is wrong in the built-in options of a construct that has the options of the table.
fn tell_options(
    alloc: Global,
    faults: &mut Vec<ElabError>,
    table: &[(&str, BuiltinKind)],
    options: &[&ProtobufOption],
) -> Result<(), AllocError>
    ensures { Tells result faults.old faults.new
        (spec.options_faults (table_seen table.now) (options_seen options.now)) }
{
    for option in options {
        tell_option(alloc, faults, table, option)?;
    }
    Ok(())
}

fn tell_option(
    alloc: Global,
    faults: &mut Vec<ElabError>,
    table: &[(&str, BuiltinKind)],
    option: &ProtobufOption,
) -> Result<(), AllocError>
    ensures { Tells result faults.old faults.new
        (spec.option_faults (table_seen table.now) (option_syntax option.now)) }
{
    match &option.name {
        ProtobufOptionName::Builtin(name) => {
            tell_builtin(alloc, faults, option.place, table, name, &option.value)
        }
        ProtobufOptionName::Custom(_) => Ok(()),
    }
}

/// As [`tell_options`] of the options of a field, which has `default` and `json_name` too.
fn tell_field_options(
    alloc: Global,
    faults: &mut Vec<ElabError>,
    options: &[&ProtobufOption],
) -> Result<(), AllocError>
    ensures { Tells result faults.old faults.new (field_options_faults (options_seen options.now)) }
{
    for option in options {
        tell_field_option(alloc, faults, option)?;
    }
    Ok(())
}

fn tell_field_option(
    alloc: Global,
    faults: &mut Vec<ElabError>,
    option: &ProtobufOption,
) -> Result<(), AllocError>
    ensures { let o = option_syntax option.now in Tells result faults.old faults.new
        (placed o.place (field_option_faults o.value o.name)) }
{
    let ProtobufOptionName::Builtin(name) = &option.name else {
        return Ok(());
    };
    if name.as_str() == "default" || name.as_str() == "json_name" {
        return Ok(());
    }
    tell_builtin(
        alloc,
        faults,
        option.place,
        field_table(),
        name,
        &option.value,
    )
}

/// Tells a name that the table doesn't have, and a value of another kind.
fn tell_builtin(
    alloc: Global,
    faults: &mut Vec<ElabError>,
    place: Place,
    table: &[(&str, BuiltinKind)],
    name: &str,
    value: &ProtobufConstant,
) -> Result<(), AllocError>
    ensures { Tells result faults.old faults.new
        (placed place (spec.builtin_faults (table_seen table.now) name.now
        (constant_syntax value.now))) }
{
    if name == "uninterpreted_option" {
        let kind = ElabErrorKind::BuiltinOptionPointsToNonSingularField;
        return tell(alloc, faults, place, kind, name);
    }
    match kind_of(table, name) {
        Some(kind) => tell_value(alloc, faults, place, name, kind, value),
        None => tell(
            alloc,
            faults,
            place,
            ElabErrorKind::BuiltinOptionNotFound,
            name,
        ),
    }
}

/// What the option of that name is set to.
fn kind_of(table: &[(&str, BuiltinKind)], name: &str) -> Option<BuiltinKind>
    ensures { option_map kind_seen result ≡ spec.under_name (table_seen table.now) name.now }
{
    under_name(table, name)
}

/// Tells a value of another kind.
fn tell_value(
    alloc: Global,
    faults: &mut Vec<ElabError>,
    place: Place,
    name: &str,
    kind: BuiltinKind,
    value: &ProtobufConstant,
) -> Result<(), AllocError>
    ensures { Tells result faults.old faults.new
        (placed place (spec.builtin_value_faults name.now (kind_seen kind)
        (constant_syntax value.now))) }
{
    match kind {
        BuiltinKind::Text => tell_text(alloc, faults, place, name, value),
        BuiltinKind::Truth => tell_truth(alloc, faults, place, name, value),
        BuiltinKind::OptimizeMode => tell_word(alloc, faults, place, name, OPTIMIZE_MODES, value),
        BuiltinKind::CType => tell_word(alloc, faults, place, name, C_TYPES, value),
        BuiltinKind::JSType => tell_word(alloc, faults, place, name, JS_TYPES, value),
        BuiltinKind::IdempotencyLevel => {
            tell_word(alloc, faults, place, name, IDEMPOTENCY_LEVELS, value)
        }
    }
}

fn tell_text(
    alloc: Global,
    faults: &mut Vec<ElabError>,
    place: Place,
    name: &str,
    value: &ProtobufConstant,
) -> Result<(), AllocError>
    ensures { Tells result faults.old faults.new
        (placed place (spec.builtin_value_faults name.now spec.a_text
        (constant_syntax value.now))) }
{
    match value {
        ProtobufConstant::String(string) => match decoded_text(alloc, string)? {
            Some(_) => Ok(()),
            None => tell(alloc, faults, place, ElabErrorKind::StrLitDecode, name),
        },
        _ => tell(
            alloc,
            faults,
            place,
            ElabErrorKind::InconvertibleValue,
            name,
        ),
    }
}

fn tell_truth(
    alloc: Global,
    faults: &mut Vec<ElabError>,
    place: Place,
    name: &str,
    value: &ProtobufConstant,
) -> Result<(), AllocError>
    ensures { Tells result faults.old faults.new
        (placed place (spec.builtin_value_faults name.now spec.a_truth
        (constant_syntax value.now))) }
{
    match value {
        ProtobufConstant::Bool(_) => Ok(()),
        _ => tell(
            alloc,
            faults,
            place,
            ElabErrorKind::InconvertibleValue,
            name,
        ),
    }
}

fn tell_word<T: Copy>(
    alloc: Global,
    faults: &mut Vec<ElabError>,
    place: Place,
    name: &str,
    words: &[(&str, T)],
    value: &ProtobufConstant,
) -> Result<(), AllocError>
    ensures { Tells result faults.old faults.new
        (placed place (spec.builtin_value_faults name.now
        (spec.a_word (words_of (words_seen words.now))) (constant_syntax value.now))) }
{
    match value {
        ProtobufConstant::Ident(word) if has_name(words, word) => Ok(()),
        _ => tell(
            alloc,
            faults,
            place,
            ElabErrorKind::InconvertibleValue,
            name,
        ),
    }
}
