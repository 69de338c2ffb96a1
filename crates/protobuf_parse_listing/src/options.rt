//! The lines of options.

ghost use Rattle.std.specs.Prelude.{Some, flat_map, map, option_map};
ghost use Rattle.protobuf_parse_model.specs.Options.{enum_options_view, enum_value_options_view};
ghost use Rattle.protobuf_parse_model.specs.Options.{field_options_view};
ghost use Rattle.protobuf_parse_model.specs.Options.{file_options_view};
ghost use Rattle.protobuf_parse_model.specs.Options.{message_options_view, method_options_view};
ghost use Rattle.protobuf_parse_model.specs.Options.{oneof_options_view, service_options_view};
ghost use Rattle.protobuf_parse_listing.specs.Listing as spec;
ghost use Rattle.protobuf_parse_listing.specs.Puts.{Puts};
ghost use Rattle.protobuf_parse_listing.specs.Settings.{setting_view, value_words};

use crate::pieces::{begin_line, end_line, put_line, put_quoted};
use crate::settings::{
    Setting, SettingValue, enum_settings, field_settings, first_file_settings, last_file_settings,
    message_settings, method_settings, middle_file_settings, truth_setting,
};
use protobuf_parse_model::{
    EnumOptions, EnumValueOptions, FieldOptions, FileOptions, MessageOptions, MethodOptions,
    OneofOptions, ServiceOptions,
};
use std::alloc::{AllocError, Global};

/// A line for a setting that has a value.
fn put_setting(
    alloc: Global,
    text: &mut String,
    level: usize,
    setting: &Setting<'_>,
) -> Result<(), AllocError>
    ensures { Puts result text.old text.new (spec.setting_line level (setting_view setting.now)) }
{
    match setting.value {
        None => Ok(()),
        Some(value) => {
            begin_line(text, level, "option ")?;
            text.push_str(setting.name)?;
            text.push_str(" = ")?;
            put_value(alloc, text, value)?;
            end_line(text)
        }
    }
}

fn put_value(alloc: Global, text: &mut String, value: SettingValue<'_>) -> Result<(), AllocError>
    ensures { Puts result text.old text.new (value_words value.entry) }
{
    match value {
        SettingValue::Text(words) => put_quoted(alloc, text, words),
        SettingValue::Word(word) => text.push_str(word),
    }
}

fn put_settings(
    alloc: Global,
    text: &mut String,
    level: usize,
    settings: &[Setting<'_>],
) -> Result<(), AllocError>
    ensures { Puts result text.old text.new
        (flat_map (spec.setting_line level) (map setting_view settings.now)) }
{
    for setting in settings {
        put_setting(alloc, text, level, setting)?;
    }
    Ok(())
}

/// A line `custom HEX`, where there are bytes.
fn put_custom(
    alloc: Global,
    text: &mut String,
    level: usize,
    bytes: &[u8],
) -> Result<(), AllocError>
    ensures { Puts result text.old text.new (spec.custom_line level bytes.now) }
{
    if bytes.is_empty() {
        return Ok(());
    }
    let hex = hex::encode(alloc, bytes)?;
    put_line(text, level, "custom ", &hex)
}

/// The lines of a file's options.
#[tactic(auto, unfolding(crate::specs::Listing::file_option_lines))]
pub fn put_file_options(
    alloc: Global,
    text: &mut String,
    level: usize,
    options: &Option<FileOptions>,
) -> Result<(), AllocError>
    ensures { Puts result text.old text.new
        (spec.file_option_lines level (option_map file_options_view options.now)) }
{
    match options {
        None => Ok(()),
        Some(options) => {
            put_settings(alloc, text, level, &first_file_settings(options))?;
            put_settings(alloc, text, level, &middle_file_settings(options))?;
            put_settings(alloc, text, level, &last_file_settings(options))?;
            put_custom(alloc, text, level, &options.custom)
        }
    }
}

/// The lines of a message's options.
#[tactic(auto, unfolding(crate::specs::Listing::message_option_lines))]
pub fn put_message_options(
    alloc: Global,
    text: &mut String,
    level: usize,
    options: &Option<MessageOptions>,
) -> Result<(), AllocError>
    ensures { Puts result text.old text.new
        (spec.message_option_lines level (option_map message_options_view options.now)) }
{
    match options {
        None => Ok(()),
        Some(options) => {
            put_settings(alloc, text, level, &message_settings(options))?;
            put_custom(alloc, text, level, &options.custom)
        }
    }
}

/// The lines of a field's options.
#[tactic(auto, unfolding(crate::specs::Listing::field_option_lines))]
pub fn put_field_options(
    alloc: Global,
    text: &mut String,
    level: usize,
    options: &Option<FieldOptions>,
) -> Result<(), AllocError>
    ensures { Puts result text.old text.new
        (spec.field_option_lines level (option_map field_options_view options.now)) }
{
    match options {
        None => Ok(()),
        Some(options) => put_set_on_field(alloc, text, level, options),
    }
}

/// The lines of the options that are set on a field. Few fields have any, so what is needed for
/// them stands apart.
#[tactic(auto, unfolding(crate::specs::Listing::field_option_lines))]
fn put_set_on_field(
    alloc: Global,
    text: &mut String,
    level: usize,
    options: &FieldOptions,
) -> Result<(), AllocError>
    ensures { Puts result text.old text.new
        (spec.field_option_lines level (Some (field_options_view options.now))) }
{
    put_settings(alloc, text, level, &field_settings(options))?;
    put_custom(alloc, text, level, &options.custom)
}

/// The lines of a oneof's options.
#[tactic(auto, unfolding(crate::specs::Listing::oneof_option_lines))]
pub fn put_oneof_options(
    alloc: Global,
    text: &mut String,
    level: usize,
    options: &Option<OneofOptions>,
) -> Result<(), AllocError>
    ensures { Puts result text.old text.new
        (spec.oneof_option_lines level (option_map oneof_options_view options.now)) }
{
    match options {
        None => Ok(()),
        Some(options) => { put_custom(alloc, text, level, &options.custom) }
    }
}

/// The lines of an enum's options.
#[tactic(auto, unfolding(crate::specs::Listing::enum_option_lines))]
pub fn put_enum_options(
    alloc: Global,
    text: &mut String,
    level: usize,
    options: &Option<EnumOptions>,
) -> Result<(), AllocError>
    ensures { Puts result text.old text.new
        (spec.enum_option_lines level (option_map enum_options_view options.now)) }
{
    match options {
        None => Ok(()),
        Some(options) => {
            put_settings(alloc, text, level, &enum_settings(options))?;
            put_custom(alloc, text, level, &options.custom)
        }
    }
}

/// The lines of an enum value's options.
#[tactic(auto, unfolding(crate::specs::Listing::enum_value_option_lines))]
pub fn put_enum_value_options(
    alloc: Global,
    text: &mut String,
    level: usize,
    options: &Option<EnumValueOptions>,
) -> Result<(), AllocError>
    ensures { Puts result text.old text.new
        (spec.enum_value_option_lines level (option_map enum_value_options_view options.now)) }
{
    match options {
        None => Ok(()),
        Some(options) => {
            put_setting(
                alloc,
                text,
                level,
                &truth_setting("deprecated", options.deprecated),
            )?;
            put_custom(alloc, text, level, &options.custom)
        }
    }
}

/// The lines of a service's options.
#[tactic(auto, unfolding(crate::specs::Listing::service_option_lines))]
pub fn put_service_options(
    alloc: Global,
    text: &mut String,
    level: usize,
    options: &Option<ServiceOptions>,
) -> Result<(), AllocError>
    ensures { Puts result text.old text.new
        (spec.service_option_lines level (option_map service_options_view options.now)) }
{
    match options {
        None => Ok(()),
        Some(options) => {
            put_setting(
                alloc,
                text,
                level,
                &truth_setting("deprecated", options.deprecated),
            )?;
            put_custom(alloc, text, level, &options.custom)
        }
    }
}

/// The lines of a method's options.
#[tactic(auto, unfolding(crate::specs::Listing::method_option_lines))]
pub fn put_method_options(
    alloc: Global,
    text: &mut String,
    level: usize,
    options: &Option<MethodOptions>,
) -> Result<(), AllocError>
    ensures { Puts result text.old text.new
        (spec.method_option_lines level (option_map method_options_view options.now)) }
{
    match options {
        None => Ok(()),
        Some(options) => {
            put_settings(alloc, text, level, &method_settings(options))?;
            put_custom(alloc, text, level, &options.custom)
        }
    }
}
