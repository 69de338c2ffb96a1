//! What is said of a construct by options.

ghost use Rattle.std.specs.Prelude.{◌≡◌, ◌++◌, IfOk, flat_map, map, option_map};
ghost use Rattle.std.specs.String.{string_bytes};
ghost use Rattle.protobuf_parse_base.specs.NameViews.{abs_ref_text};
ghost use Rattle.protobuf_parse_model.specs.Descriptors.{file_view};
ghost use Rattle.protobuf_parse_model.specs.Options.{enum_options_view, enum_value_options_view};
ghost use Rattle.protobuf_parse_model.specs.Options.{field_options_view, file_options_view};
ghost use Rattle.protobuf_parse_model.specs.Options.{message_options_view, method_options_view};
ghost use Rattle.protobuf_parse_model.specs.Options.{oneof_options_view, service_options_view};
ghost use Rattle.protobuf_parse_index.specs.Options.{named_option_view};
ghost use Rattle.protobuf_parse_proto_text.specs.Items as spec;
ghost use Rattle.protobuf_parse_proto_text.specs.Puts.{Puts};
ghost use Rattle.protobuf_parse_proto_text.specs.SaidViews.{said_view};

use crate::pieces::put_line;
use crate::settings::add_settings;
use crate::values::{put_value, type_name_of};
use protobuf_parse_base::names::ProtobufAbsPathRef;
use protobuf_parse_index::{Index, NamedOption, custom_options};
use protobuf_parse_listing::settings::{
    enum_settings, field_settings, first_file_settings, last_file_settings, message_settings,
    method_settings, middle_file_settings, truth_setting,
};
use protobuf_parse_model::{
    EnumOptions, EnumValueOptions, FieldOptions, FileOptions, MessageOptions, MethodOptions,
    OneofOptions, ServiceOptions,
};
use protobuf_parse_wire::ReadFault;
use std::alloc::{AllocError, Global};

/// Options as `NAME = VALUE`, and the bytes of custom ones that can't be told, in hexadecimal
/// digits.
#[derive(Drop)]
pub struct Said {
    pub items: Vec<String>,
    pub untold: Option<String>,
}

/// What is said of a construct that has no options.
fn nothing(alloc: Global) -> Said
    ensures { said_view result ≡ spec.nothing }
{
    Said {
        items: Vec::new(alloc),
        untold: None,
    }
}

/// The built-in ones as they are, and behind them the custom ones that the bytes say.
#[tactic(auto, unfolding(crate::specs::Items::said_of))]
fn with_customs(
    alloc: Global,
    index: &Index<'_>,
    message: ProtobufAbsPathRef<'_>,
    built_in: Vec<String>,
    bytes: &[u8],
) -> Result<Said, AllocError>
    ensures { IfOk result (λ s. said_view s ≡ spec.said_of (map file_view index.now)
        (abs_ref_text message.entry) (map string_bytes built_in.items) bytes.now) }
{
    match custom_options(alloc, index, message, bytes) {
        Ok(options) => with_named(alloc, index, built_in, &options),
        Err(ReadFault::Memory) => Err(AllocError),
        Err(_) => untold(alloc, built_in, bytes),
    }
}

/// Where the custom ones can't be told.
fn untold(alloc: Global, built_in: Vec<String>, bytes: &[u8]) -> Result<Said, AllocError>
    ensures { IfOk result (λ s. said_view s
        ≡ spec.untold_said (map string_bytes built_in.items) bytes.now) }
{
    Ok(Said {
        items: built_in,
        untold: Some(hex::encode(alloc, bytes)?),
    })
}

fn with_named(
    alloc: Global,
    index: &Index<'_>,
    built_in: Vec<String>,
    options: &[NamedOption<'_>],
) -> Result<Said, AllocError>
    ensures { IfOk result (λ s. said_view s
        ≡ spec.told_said (map file_view index.now) (map string_bytes built_in.items)
        (map named_option_view options.now)) }
{
    let mut items = built_in;
    'options: for option in options {
        items.push(named_item(alloc, index, option)?)?;
    }
    Ok(Said {
        items,
        untold: None,
    })
}

fn named_item(
    alloc: Global,
    index: &Index<'_>,
    option: &NamedOption<'_>,
) -> Result<String, AllocError>
    ensures { IfOk result (λ s. string_bytes s
        ≡ spec.named_item (map file_view index.now) (named_option_view option.now)) }
{
    let mut item = String::new(alloc);
    put_option_name(&mut item, &option.name)?;
    item.push_str(" = ")?;
    let type_name = type_name_of(option.field);
    put_value(alloc, &mut item, index, type_name, &option.value)?;
    Ok(item)
}

/// The name of an option, that of an extension with a dot before it: `(.shop.owner)`.
fn put_option_name(text: &mut String, name: &str) -> Result<(), AllocError>
    ensures { Puts result text.old text.new (spec.rooted name.now) }
{
    match name.strip_prefix('(') {
        Some(rest) => {
            text.push_str("(.")?;
            text.push_str(rest)
        }
        None => text.push_str(name),
    }
}

/// Those of a file.
pub fn file_said(
    alloc: Global,
    index: &Index<'_>,
    options: &Option<FileOptions>,
) -> Result<Said, AllocError>
    ensures { IfOk result (λ s. said_view s ≡ spec.file_said (map file_view index.now)
        (option_map file_options_view options.now)) }
{
    let Some(options) = options else {
        return Ok(nothing(alloc));
    };
    let mut items = Vec::new(alloc);
    add_settings(alloc, &mut items, &first_file_settings(options))?;
    add_settings(alloc, &mut items, &middle_file_settings(options))?;
    add_settings(alloc, &mut items, &last_file_settings(options))?;
    let of = ProtobufAbsPathRef::new(".google.protobuf.FileOptions");
    with_customs(alloc, index, of, items, &options.custom)
}

/// Those of a message.
pub fn message_said(
    alloc: Global,
    index: &Index<'_>,
    options: &Option<MessageOptions>,
) -> Result<Said, AllocError>
    ensures { IfOk result (λ s. said_view s ≡ spec.message_said (map file_view index.now)
        (option_map message_options_view options.now)) }
{
    let Some(options) = options else {
        return Ok(nothing(alloc));
    };
    let mut items = Vec::new(alloc);
    add_settings(alloc, &mut items, &message_settings(options))?;
    let of = ProtobufAbsPathRef::new(".google.protobuf.MessageOptions");
    with_customs(alloc, index, of, items, &options.custom)
}

/// Those of a field, behind others that are said already.
pub fn field_said(
    alloc: Global,
    index: &Index<'_>,
    already: Vec<String>,
    options: &Option<FieldOptions>,
) -> Result<Said, AllocError>
    ensures { IfOk result (λ s. said_view s ≡ spec.field_said (map file_view index.now)
        (map string_bytes already.items) (option_map field_options_view options.now)) }
{
    let mut items = already;
    let Some(options) = options else {
        return Ok(Said {
            items,
            untold: None,
        });
    };
    add_settings(alloc, &mut items, &field_settings(options))?;
    let of = ProtobufAbsPathRef::new(".google.protobuf.FieldOptions");
    with_customs(alloc, index, of, items, &options.custom)
}

/// Those of a oneof.
pub fn oneof_said(
    alloc: Global,
    index: &Index<'_>,
    options: &Option<OneofOptions>,
) -> Result<Said, AllocError>
    ensures { IfOk result (λ s. said_view s ≡ spec.oneof_said (map file_view index.now)
        (option_map oneof_options_view options.now)) }
{
    let Some(options) = options else {
        return Ok(nothing(alloc));
    };
    let of = ProtobufAbsPathRef::new(".google.protobuf.OneofOptions");
    with_customs(alloc, index, of, Vec::new(alloc), &options.custom)
}

/// Those of an enum.
pub fn enum_said(
    alloc: Global,
    index: &Index<'_>,
    options: &Option<EnumOptions>,
) -> Result<Said, AllocError>
    ensures { IfOk result (λ s. said_view s ≡ spec.enum_said (map file_view index.now)
        (option_map enum_options_view options.now)) }
{
    let Some(options) = options else {
        return Ok(nothing(alloc));
    };
    let mut items = Vec::new(alloc);
    add_settings(alloc, &mut items, &enum_settings(options))?;
    let of = ProtobufAbsPathRef::new(".google.protobuf.EnumOptions");
    with_customs(alloc, index, of, items, &options.custom)
}

/// Those of an enum's value.
pub fn value_said(
    alloc: Global,
    index: &Index<'_>,
    options: &Option<EnumValueOptions>,
) -> Result<Said, AllocError>
    ensures { IfOk result (λ s. said_view s ≡ spec.value_said (map file_view index.now)
        (option_map enum_value_options_view options.now)) }
{
    let Some(options) = options else {
        return Ok(nothing(alloc));
    };
    let items = deprecated_alone(alloc, options.deprecated)?;
    let of = ProtobufAbsPathRef::new(".google.protobuf.EnumValueOptions");
    with_customs(alloc, index, of, items, &options.custom)
}

/// Those of a service.
pub fn service_said(
    alloc: Global,
    index: &Index<'_>,
    options: &Option<ServiceOptions>,
) -> Result<Said, AllocError>
    ensures { IfOk result (λ s. said_view s ≡ spec.service_said (map file_view index.now)
        (option_map service_options_view options.now)) }
{
    let Some(options) = options else {
        return Ok(nothing(alloc));
    };
    let items = deprecated_alone(alloc, options.deprecated)?;
    let of = ProtobufAbsPathRef::new(".google.protobuf.ServiceOptions");
    with_customs(alloc, index, of, items, &options.custom)
}

/// Those of a method.
pub fn method_said(
    alloc: Global,
    index: &Index<'_>,
    options: &Option<MethodOptions>,
) -> Result<Said, AllocError>
    ensures { IfOk result (λ s. said_view s ≡ spec.method_said (map file_view index.now)
        (option_map method_options_view options.now)) }
{
    let Some(options) = options else {
        return Ok(nothing(alloc));
    };
    let mut items = Vec::new(alloc);
    add_settings(alloc, &mut items, &method_settings(options))?;
    let of = ProtobufAbsPathRef::new(".google.protobuf.MethodOptions");
    with_customs(alloc, index, of, items, &options.custom)
}

/// The option `deprecated`, where it is set.
fn deprecated_alone(alloc: Global, deprecated: Option<bool>) -> Result<Vec<String>, AllocError>
    ensures { IfOk result (λ v. map string_bytes v.items ≡ spec.deprecated_alone deprecated) }
{
    let mut items = Vec::new(alloc);
    let setting = truth_setting("deprecated", deprecated);
    add_settings(alloc, &mut items, &[setting])?;
    Ok(items)
}

/// Options as statements, one on a line.
#[tactic(auto, unfolding(crate::specs::Items::said_lines))]
pub fn put_said(text: &mut String, level: usize, said: &Said) -> Result<(), AllocError>
    ensures { Puts result text.old text.new (spec.said_lines level (said_view said.now)) }
{
    put_untold(text, level, &said.untold)?;
    put_statements(text, level, &said.items)
}

fn put_statements(text: &mut String, level: usize, items: &[String]) -> Result<(), AllocError>
    ensures { Puts result text.old text.new
        (flat_map (spec.option_line level) (map string_bytes items.now)) }
{
    for item in items {
        put_line(text, level, "option ", item, ";")?;
    }
    Ok(())
}

/// A comment with the bytes that can't be told, where there are any.
pub fn put_untold(
    text: &mut String,
    level: usize,
    untold: &Option<String>,
) -> Result<(), AllocError>
    ensures { Puts result text.old text.new
        (spec.untold_line level (option_map string_bytes untold.now)) }
{
    match untold {
        None => Ok(()),
        Some(digits) => put_line(
            text,
            level,
            "// custom options that can't be told: ",
            digits,
            "",
        ),
    }
}

/// Options in brackets, where there are any.
pub fn put_brackets(text: &mut String, items: &[String]) -> Result<(), AllocError>
    ensures { Puts result text.old text.new (spec.brackets (map string_bytes items.now)) }
{
    match items {
        [] => Ok(()),
        [first, others @ ..] => {
            text.push_str(" [")?;
            text.push_str(first)?;
            put_others(text, others)?;
            text.push(']')
        }
    }
}

fn put_others(text: &mut String, items: &[String]) -> Result<(), AllocError>
    ensures { Puts result text.old text.new
        (flat_map spec.after_comma (map string_bytes items.now)) }
{
    for item in items {
        put_after_comma(text, item)?;
    }
    Ok(())
}

fn put_after_comma(text: &mut String, item: &str) -> Result<(), AllocError>
    ensures { Puts result text.old text.new (spec.after_comma item.now) }
{
    text.push_str(", ")?;
    text.push_str(item)
}
