//! The options message of each construct, from the statements that set its options. It is there
//! where a statement stands. An option that the last statement with its name sets to what it can't
//! be is as one that isn't set.

ghost use Rattle.std.specs.Prelude.{◌≡◌, option_map, IfOk};
ghost use Rattle.protobuf_parse_model.specs.Options as seen;
ghost use Rattle.protobuf_parse_model.specs.OptionMessages as spec;
ghost use Rattle.protobuf_parse_model.specs.BuiltinOptions.{options_seen};

use crate::constructs::options::said::{text_option, truth_option, word_option};
use protobuf_parse_model::{
    C_TYPES, EnumOptions, EnumValueOptions, FieldOptions, FileOptions, IDEMPOTENCY_LEVELS,
    JS_TYPES, MessageOptions, MethodOptions, OPTIMIZE_MODES, OneofOptions, ServiceOptions,
};
use protobuf_parse_syntax::ProtobufOption;
use std::alloc::{AllocError, Global};

/// The options of a file.
pub fn file_options(
    alloc: Global,
    options: &[&ProtobufOption],
    custom: Vec<u8>,
) -> Result<Option<FileOptions>, AllocError>
    ensures { IfOk result
        (λ o. option_map seen.file_options_view o
        ≡ spec.file_options custom.items (options_seen options.now)) }
{
    if options.is_empty() {
        return Ok(None);
    }
    Ok(Some(FileOptions {
        java_package: text_option(alloc, options, "java_package")?,
        java_outer_classname: text_option(alloc, options, "java_outer_classname")?,
        optimize_for: word_option(options, "optimize_for", OPTIMIZE_MODES),
        java_multiple_files: truth_option(options, "java_multiple_files"),
        go_package: text_option(alloc, options, "go_package")?,
        cc_generic_services: truth_option(options, "cc_generic_services"),
        java_generic_services: truth_option(options, "java_generic_services"),
        py_generic_services: truth_option(options, "py_generic_services"),
        java_generate_equals_and_hash: truth_option(options, "java_generate_equals_and_hash"),
        deprecated: truth_option(options, "deprecated"),
        java_string_check_utf8: truth_option(options, "java_string_check_utf8"),
        cc_enable_arenas: truth_option(options, "cc_enable_arenas"),
        objc_class_prefix: text_option(alloc, options, "objc_class_prefix")?,
        csharp_namespace: text_option(alloc, options, "csharp_namespace")?,
        swift_prefix: text_option(alloc, options, "swift_prefix")?,
        php_class_prefix: text_option(alloc, options, "php_class_prefix")?,
        php_namespace: text_option(alloc, options, "php_namespace")?,
        php_metadata_namespace: text_option(alloc, options, "php_metadata_namespace")?,
        ruby_package: text_option(alloc, options, "ruby_package")?,
        custom,
    }))
}

/// The options of a message.
pub fn message_options(options: &[&ProtobufOption], custom: Vec<u8>) -> Option<MessageOptions>
    ensures { option_map seen.message_options_view result
        ≡ spec.message_options custom.items (options_seen options.now) }
{
    if options.is_empty() {
        return None;
    }
    Some(MessageOptions {
        message_set_wire_format: truth_option(options, "message_set_wire_format"),
        no_standard_descriptor_accessor: truth_option(options, "no_standard_descriptor_accessor"),
        deprecated: truth_option(options, "deprecated"),
        map_entry: truth_option(options, "map_entry"),
        custom,
    })
}

/// The options of a field.
pub fn field_options(options: &[&ProtobufOption], custom: Vec<u8>) -> Option<FieldOptions>
    ensures { option_map seen.field_options_view result
        ≡ spec.field_options custom.items (options_seen options.now) }
{
    if options.is_empty() {
        return None;
    }
    Some(FieldOptions {
        ctype: word_option(options, "ctype", C_TYPES),
        packed: truth_option(options, "packed"),
        deprecated: truth_option(options, "deprecated"),
        lazy: truth_option(options, "lazy"),
        jstype: word_option(options, "jstype", JS_TYPES),
        weak: truth_option(options, "weak"),
        unverified_lazy: truth_option(options, "unverified_lazy"),
        debug_redact: truth_option(options, "debug_redact"),
        custom,
    })
}

/// The options of a oneof.
pub fn oneof_options(options: &[&ProtobufOption], custom: Vec<u8>) -> Option<OneofOptions>
    ensures { option_map seen.oneof_options_view result
        ≡ spec.oneof_options custom.items (options_seen options.now) }
{
    if options.is_empty() {
        return None;
    }
    Some(OneofOptions { custom })
}

/// The options of an enum.
pub fn enum_options(options: &[&ProtobufOption], custom: Vec<u8>) -> Option<EnumOptions>
    ensures { option_map seen.enum_options_view result
        ≡ spec.enum_options custom.items (options_seen options.now) }
{
    if options.is_empty() {
        return None;
    }
    Some(EnumOptions {
        allow_alias: truth_option(options, "allow_alias"),
        deprecated: truth_option(options, "deprecated"),
        custom,
    })
}

/// The options of a value of an enum.
pub fn enum_value_options(options: &[&ProtobufOption], custom: Vec<u8>) -> Option<EnumValueOptions>
    ensures { option_map seen.enum_value_options_view result
        ≡ spec.enum_value_options custom.items (options_seen options.now) }
{
    if options.is_empty() {
        return None;
    }
    Some(EnumValueOptions {
        deprecated: truth_option(options, "deprecated"),
        custom,
    })
}

/// The options of a service.
pub fn service_options(options: &[&ProtobufOption], custom: Vec<u8>) -> Option<ServiceOptions>
    ensures { option_map seen.service_options_view result
        ≡ spec.service_options custom.items (options_seen options.now) }
{
    if options.is_empty() {
        return None;
    }
    Some(ServiceOptions {
        deprecated: truth_option(options, "deprecated"),
        custom,
    })
}

/// The options of a method.
pub fn method_options(options: &[&ProtobufOption], custom: Vec<u8>) -> Option<MethodOptions>
    ensures { option_map seen.method_options_view result
        ≡ spec.method_options custom.items (options_seen options.now) }
{
    if options.is_empty() {
        return None;
    }
    Some(MethodOptions {
        deprecated: truth_option(options, "deprecated"),
        idempotency_level: word_option(options, "idempotency_level", IDEMPOTENCY_LEVELS),
        custom,
    })
}
