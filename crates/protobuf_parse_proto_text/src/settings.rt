//! The items of built-in options.

ghost use Rattle.std.specs.Prelude.{◌≡◌, ◌++◌, IfOk, OnOk, flat_map, map};
ghost use Rattle.std.specs.String.{string_bytes};
ghost use Rattle.protobuf_parse_listing.specs.Settings.{setting_view, value_words};
ghost use Rattle.protobuf_parse_proto_text.specs.Items.{item, setting_items};
ghost use Rattle.protobuf_parse_proto_text.specs.Puts.{Puts};

use crate::pieces::put_quoted;
use protobuf_parse_listing::settings::{Setting, SettingValue};
use std::alloc::{AllocError, Global};

/// Adds those that are set, as `NAME = VALUE`.
pub fn add_settings(
    alloc: Global,
    items: &mut Vec<String>,
    settings: &[Setting<'_>],
) -> Result<(), AllocError>
    ensures { OnOk result (map string_bytes items.new.items
        ≡ map string_bytes items.old.items
        ++ flat_map setting_items (map setting_view settings.now)) }
{
    for setting in settings {
        add_setting(alloc, items, setting)?;
    }
    Ok(())
}

fn add_setting(
    alloc: Global,
    items: &mut Vec<String>,
    setting: &Setting<'_>,
) -> Result<(), AllocError>
    ensures { OnOk result (map string_bytes items.new.items
        ≡ map string_bytes items.old.items ++ setting_items (setting_view setting.now)) }
{
    match setting.value {
        None => Ok(()),
        Some(value) => {
            let item = setting_item(alloc, setting.name, value)?;
            items.push(item)?;
            Ok(())
        }
    }
}

fn setting_item(alloc: Global, name: &str, value: SettingValue<'_>) -> Result<String, AllocError>
    ensures { IfOk result (λ s. string_bytes s ≡ item name.now (value_words value.entry)) }
{
    let mut item = String::new(alloc);
    item.push_str(name)?;
    item.push_str(" = ")?;
    put_setting_value(alloc, &mut item, value)?;
    Ok(item)
}

fn put_setting_value(
    alloc: Global,
    text: &mut String,
    value: SettingValue<'_>,
) -> Result<(), AllocError>
    ensures { Puts result text.old text.new (value_words value.entry) }
{
    match value {
        SettingValue::Text(words) => put_quoted(alloc, text, words.as_bytes()),
        SettingValue::Word(word) => text.push_str(word),
    }
}
