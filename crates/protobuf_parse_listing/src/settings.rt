//! Built-in options as names and values, in the order of their numbers.

ghost use Rattle.std.specs.Prelude.{◌≡◌, map, option_map};
ghost use Rattle.std.specs.String.{string_bytes};
ghost use Rattle.protobuf_parse_model.specs.Options.{enum_options_view, field_options_view};
ghost use Rattle.protobuf_parse_model.specs.Options.{file_options_view, message_options_view};
ghost use Rattle.protobuf_parse_model.specs.Options.{method_options_view};
ghost use Rattle.protobuf_parse_listing.specs.Listing as spec;
ghost use Rattle.protobuf_parse_listing.specs.Settings.{setting_view};

use protobuf_parse_model::{
    EnumOptions, FieldOptions, FileOptions, MessageOptions, MethodOptions, c_type_word,
    idempotency_level_word, js_type_word, optimize_mode_word,
};

/// A built-in option and its value, where it is set.
#[derive(Clone, Copy)]
pub struct Setting<'a> {
    /// The name as the language has it, `java_package`.
    pub name: &'static str,
    pub value: Option<SettingValue<'a>>,
}

/// The value of a built-in option.
#[derive(Clone, Copy)]
pub enum SettingValue<'a> {
    /// A string, as the descriptor has it: without quotes and escapes.
    Text(&'a str),
    /// A truth value or the name of an enum's value.
    Word(&'static str),
}

fn text_setting<'a>(name: &'static str, value: &'a Option<String>) -> Setting<'a>
    ensures { setting_view result
        ≡ (name.now, option_map spec.quoted (option_map string_bytes value.now)) }
{
    let value = match value {
        Some(text) => Some(SettingValue::Text(text.as_str())),
        None => None,
    };
    Setting { name, value }
}

/// An option that is a truth value.
pub fn truth_setting(name: &'static str, value: Option<bool>) -> Setting<'static>
    ensures { setting_view result ≡ (name.now, option_map spec.listed_truth value) }
{
    let value = match value {
        Some(true) => Some(SettingValue::Word("true")),
        Some(false) => Some(SettingValue::Word("false")),
        None => None,
    };
    Setting { name, value }
}

/// An option that is an enum, with the word of its value.
fn word_setting(name: &'static str, word: Option<&'static str>) -> Setting<'static>
    ensures { setting_view result ≡ (name.now, option_map (λ w. w.now) word.entry) }
{
    let value = match word {
        Some(word) => Some(SettingValue::Word(word)),
        None => None,
    };
    Setting { name, value }
}

/// The built-in options of a file with numbers up to 11.
pub fn first_file_settings(options: &FileOptions) -> [Setting<'_>; 5]
    ensures { map setting_view result ≡ spec.first_file_settings (file_options_view options.now) }
{
    [
        text_setting("java_package", &options.java_package),
        text_setting("java_outer_classname", &options.java_outer_classname),
        word_setting(
            "optimize_for",
            options.optimize_for.map(|mode| optimize_mode_word(mode)),
        ),
        truth_setting("java_multiple_files", options.java_multiple_files),
        text_setting("go_package", &options.go_package),
    ]
}

/// The built-in options of a file with numbers from 16 to 31.
pub fn middle_file_settings(options: &FileOptions) -> [Setting<'static>; 7]
    ensures { map setting_view result ≡ spec.middle_file_settings (file_options_view options.now) }
{
    [
        truth_setting("cc_generic_services", options.cc_generic_services),
        truth_setting("java_generic_services", options.java_generic_services),
        truth_setting("py_generic_services", options.py_generic_services),
        truth_setting(
            "java_generate_equals_and_hash",
            options.java_generate_equals_and_hash,
        ),
        truth_setting("deprecated", options.deprecated),
        truth_setting("java_string_check_utf8", options.java_string_check_utf8),
        truth_setting("cc_enable_arenas", options.cc_enable_arenas),
    ]
}

/// The built-in options of a file with numbers from 36 on.
pub fn last_file_settings(options: &FileOptions) -> [Setting<'_>; 7]
    ensures { map setting_view result ≡ spec.last_file_settings (file_options_view options.now) }
{
    [
        text_setting("objc_class_prefix", &options.objc_class_prefix),
        text_setting("csharp_namespace", &options.csharp_namespace),
        text_setting("swift_prefix", &options.swift_prefix),
        text_setting("php_class_prefix", &options.php_class_prefix),
        text_setting("php_namespace", &options.php_namespace),
        text_setting("php_metadata_namespace", &options.php_metadata_namespace),
        text_setting("ruby_package", &options.ruby_package),
    ]
}

/// The built-in options of a message.
pub fn message_settings(options: &MessageOptions) -> [Setting<'static>; 4]
    ensures { map setting_view result ≡ spec.message_settings (message_options_view options.now) }
{
    [
        truth_setting("message_set_wire_format", options.message_set_wire_format),
        truth_setting(
            "no_standard_descriptor_accessor",
            options.no_standard_descriptor_accessor,
        ),
        truth_setting("deprecated", options.deprecated),
        truth_setting("map_entry", options.map_entry),
    ]
}

/// The built-in options of a field.
pub fn field_settings(options: &FieldOptions) -> [Setting<'static>; 8]
    ensures { map setting_view result ≡ spec.field_settings (field_options_view options.now) }
{
    [
        word_setting("ctype", options.ctype.map(|type_| c_type_word(type_))),
        truth_setting("packed", options.packed),
        truth_setting("deprecated", options.deprecated),
        truth_setting("lazy", options.lazy),
        word_setting("jstype", options.jstype.map(|type_| js_type_word(type_))),
        truth_setting("weak", options.weak),
        truth_setting("unverified_lazy", options.unverified_lazy),
        truth_setting("debug_redact", options.debug_redact),
    ]
}

/// The built-in options of an enum.
pub fn enum_settings(options: &EnumOptions) -> [Setting<'static>; 2]
    ensures { map setting_view result ≡ spec.enum_settings (enum_options_view options.now) }
{
    [
        truth_setting("allow_alias", options.allow_alias),
        truth_setting("deprecated", options.deprecated),
    ]
}

/// The built-in options of a method.
pub fn method_settings(options: &MethodOptions) -> [Setting<'static>; 2]
    ensures { map setting_view result ≡ spec.method_settings (method_options_view options.now) }
{
    [
        truth_setting("deprecated", options.deprecated),
        word_setting(
            "idempotency_level",
            options
                .idempotency_level
                .map(|level| idempotency_level_word(level)),
        ),
    ]
}
